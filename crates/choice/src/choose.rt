//! The cut that a gate takes from its list.

ghost use Rattle.std.specs.Prelude.{◌≡◌, ◌<◌, true, length, option_map, slice_set};
ghost use Rattle.std.specs.Option.{ForSome};
ghost use Rattle.choice.specs.Choice.{arrival_by, beats, cut_by, smaller, taken};
ghost use Rattle.cuts.specs.Leaves.{leaves_of, sets_of};
ghost use Rattle.drawing.specs.Sets.{below, every};
ghost use Rattle.family.specs.Family.{cell_arrival};

use cuts::cut::Cut;
use family::Family;
use family::fold::Arrivals;

/// A cut that a gate can take, and the arrival of its cell.
#[derive(Clone, Copy)]
pub struct Candidate<A> {
    pub cut: Cut,
    pub arrival: A,
}

/// The cut, and the arrival of a cell by it.
fn weigh<F: Family>(arrivals: &Arrivals<F>, cut: &Cut) -> Candidate<F::Arrival>
    requires { below (length arrivals.now.table.now) (leaves_of cut.now) ≡ true }
    ensures cut { leaves_of result.cut ≡ leaves_of cut.now }
    ensures arrival { result.arrival ≡ cell_arrival (F.delay arrivals.now.family.now) arrivals.now.table.now (leaves_of cut.now) }
{
    Candidate {
        cut: *cut,
        arrival: arrivals.cell(cut.leaves()),
    }
}

/// Whether `a` has fewer leaves, or as many and the smaller leaf at the first difference.
fn is_smaller(a: &Cut, b: &Cut) -> bool
    ensures { result ≡ smaller (leaves_of a.now) (leaves_of b.now) }
{
    let (a, b) = (a.leaves(), b.leaves());
    (a.len(), a) < (b.len(), b)
}

/// Whether `a` is to be taken rather than `b`: the cut whose cell is earlier, of two that are as early the one with fewer
/// leaves, and then the one with the smaller leaf at the first difference.
fn rather<F: Family>(family: &F, a: &Candidate<F::Arrival>, b: &Candidate<F::Arrival>) -> bool
    ensures { result ≡ beats (F.delay family.now) a.now.arrival (leaves_of a.now.cut) b.now.arrival (leaves_of b.now.cut) }
{
    let (x, y) = (a.arrival, b.arrival);
    !family.not_later(y, x) || family.not_later(x, y) && is_smaller(&a.cut, &b.cut)
}

/// The cut to take from a list, and the arrival of its cell.
pub fn choose<F: Family>(arrivals: &Arrivals<F>, list: &[Cut]) -> Candidate<F::Arrival>
    requires some { 0 < length list.now }
    requires within { every (below (length arrivals.now.table.now)) (sets_of list.now) ≡ true }
    ensures cut { leaves_of result.cut ≡ taken (F.delay arrivals.now.family.now) arrivals.now.table.now (sets_of list.now) }
    ensures arrival { result.arrival ≡ cell_arrival (F.delay arrivals.now.family.now) arrivals.now.table.now (leaves_of result.cut) }
{
    let [first, rest @ ..] = list else {
        unreachable!();
    };
    let mut best = weigh(arrivals, first);
    for cut in rest {
        let next = weigh(arrivals, cut);
        if rather(arrivals.family, &next, &best) {
            best = next;
        }
    }
    best
}

/// Writes the arrival of node `v` into the table, by the arrivals below it, and answers the cut that it takes: from its list
/// if it is a needed gate, which alone has one, and else the start and no leaves.
pub fn arrive<F: Family>(
    family: &F,
    list: Option<&[Cut]>,
    v: usize,
    table: &mut [F::Arrival],
) -> Cut
    requires place { v < length table.old }
    requires some { ForSome list (λ l. 0 < length l.now) }
    requires within { ForSome list (λ l. every (below (length table.old)) (sets_of l.now) ≡ true) }
    ensures cut { leaves_of result ≡ cut_by (F.delay family.now) table.old (option_map (λ l. sets_of l.now) list.entry) }
    ensures arrival { table.new ≡ slice_set table.old v (arrival_by (F.delay family.now) table.old (option_map (λ l. sets_of l.now) list.entry)) }
{
    let Some(list) = list else {
        table[v] = family.start();
        return Cut::empty();
    };
    let best = choose(&Arrivals { family, table }, list);
    table[v] = best.arrival;
    best.cut
}
