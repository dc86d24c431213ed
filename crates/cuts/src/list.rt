//! Keeping what is minimal, and making the list of a gate.

ghost use Rattle.std.specs.Prelude.{◌≡◌, ◌+◌, ◌*◌, ◌<◌, ◌≤◌, true, [], length, MatchOption};
ghost use Rattle.std.specs.List.{list_any};
ghost use Rattle.arrayvec.specs.ArrayVec.{array_vec_len};
ghost use Rattle.cuts.specs.Antichain.{add, survivors};
ghost use Rattle.cuts.specs.Cuts.{joins, ways};
ghost use Rattle.cuts.specs.Leaves.{leaves_of, sets_of};
ghost use Rattle.cuts.specs.Limits.{most_cuts, most_joins, most_ways};
ghost use Rattle.drawing.specs.Drawing.{most_leaves};
ghost use Rattle.cuts.specs.Lists.{AtHand, left_fanin, Made, MadeIn, right_fanin};
ghost use Rattle.drawing.specs.Drawing.{at, is_gate};
ghost use Rattle.drawing.specs.Sets.{sub};

use crate::cut::Cut;
use arrayvec::ArrayVec;
use drawing::node::Node;
use drawing::nodes::Nodes;

/// The most cuts that a list holds.
pub const MOST_CUTS: usize = 32;

/// The most choices at a fanin: the node itself, and the cuts of its list.
const MOST_CHOICES: usize = MOST_CUTS + 1;

/// The most joins of two choices.
const ALL_JOINS: usize = MOST_CHOICES * MOST_CHOICES;

/// The list of a gate.
pub type CutList = ArrayVec<Cut, MOST_CUTS>;

/// The choices at a fanin.
type Choices = ArrayVec<Cut, MOST_CHOICES>;

/// What is minimal among joins of choices: the rows that a list is made in.
pub type Rows = ArrayVec<Cut, ALL_JOINS>;

/// Whether some of the rows lies inside the cut.
fn dominated(rows: &[Cut], cut: &Cut) -> bool
    ensures { result ≡ list_any (λ m. sub (leaves_of m) (leaves_of cut.now)) rows.now }
{
    rows.iter().any(|row| row.inside(cut))
}

/// Adds the cut to the rows, of which those stay that are minimal.
fn note(rows: &mut Rows, cut: Cut)
    requires { array_vec_len rows.old < most_joins }
    ensures more { array_vec_len rows.new ≤ array_vec_len rows.old + 1 }
    ensures noted { sets_of rows.new.items ≡ add (sets_of rows.old.items) (leaves_of cut) }
{
    if dominated(rows, &cut) {
        return;
    }
    rows.retain(|row| !cut.inside(row));
    rows.push(cut);
}

/// Joins each choice on the left with each on the right, and notes in `rows`, which has none, the joins of at most `most` leaves.
fn enumerate(rows: &mut Rows, left: &[Cut], right: &[Cut], most: u8)
    requires few { most ≤ most_leaves }
    requires none { rows.old.items ≡ [] }
    requires room { length left.now * length right.now ≤ most_joins }
    ensures { sets_of rows.new.items ≡ survivors [] (joins most (sets_of left.now) (sets_of right.now)) }
{
    for cut in left {
        for other in right {
            if let Some(both) = cut.join(other, most) {
                note(rows, both);
            }
        }
    }
}

/// Puts the choices at a fanin into `choices`, which has none: no leaves for node 0, the node itself for an input, the node itself and then
/// the cuts of its list for a gate.
fn put_choices(choices: &mut Choices, nodes: &Nodes<'_>, fanin: u8, list: &[Cut])
    requires none { choices.old.items ≡ [] }
    requires inside { fanin < length nodes.now }
    requires room { is_gate (at nodes.now fanin) ≡ true → length list.now < most_ways }
    ensures within { array_vec_len choices.new ≤ most_ways }
    ensures all { sets_of choices.new.items ≡ ways (sets_of list.now) fanin (at nodes.now fanin) }
{
    match nodes.as_slice()[usize::from(fanin)] {
        Node::Constant => choices.push(Cut::empty()),
        Node::Input => choices.push(Cut::single(fanin)),
        Node::Gate(_) => {
            choices.push(Cut::single(fanin));
            for cut in list {
                choices.push(*cut);
            }
        }
    }
}

/// The rows as a list. `None` if they are more than `MOST_CUTS`.
fn as_list(rows: &[Cut]) -> Option<&[Cut]>
    ensures { MatchOption result (most_cuts < length rows.now) (λ l. (l.now ≡ rows.now) × (length rows.now ≤ most_cuts)) }
{
    if rows.len() > MOST_CUTS {
        return None;
    }
    Some(rows)
}

/// Makes the list of a gate in the rows, from the lists of its two fanins, and lends it; what the rows held goes. The slice of a fanin
/// that is no gate is not looked at. `None` if there are more than `MOST_CUTS` cuts.
pub fn list_in<'a>(
    rows: &'a mut Rows,
    nodes: &Nodes<'_>,
    gate: u8,
    width: u8,
    left: &[Cut],
    right: &[Cut],
) -> Option<&'a [Cut]>
    requires tied { is_gate (at nodes.now gate) ≡ true }
    requires few { width ≤ most_leaves }
    requires first { AtHand nodes.now width (left_fanin nodes.now gate) left.now }
    requires second { AtHand nodes.now width (right_fanin nodes.now gate) right.now }
    ensures { MadeIn nodes.now width gate result }
{
    let Node::Gate(pair) = nodes.as_slice()[usize::from(gate)] else {
        unreachable()
    };
    let mut lefts = Choices::new();
    let mut rights = Choices::new();
    // a fanin is below its gate, so its number fits
    put_choices(&mut lefts, nodes, (pair.left / 2) as u8, left);
    put_choices(&mut rights, nodes, (pair.right / 2) as u8, right);
    rows.clear();
    enumerate(rows, &lefts, &rights, width);
    as_list(rows)
}

/// Makes the list of a gate from the lists of its two fanins. The slice of a fanin that is no gate is not looked at. `None` if
/// there are more than `MOST_CUTS` cuts.
pub fn make_list(
    nodes: &Nodes<'_>,
    gate: u8,
    width: u8,
    left: &[Cut],
    right: &[Cut],
) -> Option<CutList>
    requires tied { is_gate (at nodes.now gate) ≡ true }
    requires few { width ≤ most_leaves }
    requires first { AtHand nodes.now width (left_fanin nodes.now gate) left.now }
    requires second { AtHand nodes.now width (right_fanin nodes.now gate) right.now }
    ensures { Made nodes.now width gate result }
{
    let mut rows = Rows::new();
    let list = list_in(&mut rows, nodes, gate, width, left, right)?;
    CutList::try_from(list).ok()
}
