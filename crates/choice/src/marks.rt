//! Marking what the outputs reach: one pass by falling number, since edges lead downwards.

ghost use Rattle.std.specs.Prelude.{◌≡◌, ℕ, ◌<◌, ◌≤◌, List, true, map, length};
ghost use Rattle.choice.specs.Marks.{edges_by, mark_all, Marks};
ghost use Rattle.cuts.specs.Leaves.{sets_of};
ghost use Rattle.drawing.specs.Drawing.{at, fanins, node_of};
ghost use Rattle.drawing.specs.Sets.{below};
ghost use Rattle.drawing.specs.Tables.{drawing_of};

use cuts::cut::Cut;
use drawing::node::Node;
use drawing::table::Table;
use drawing::table::calls::MOST_NODES;

/// What names a node: a leaf names itself, and a literal the node that it is of.
trait Name: Copy {
    ghost node: { Self → ℕ };

    /// The node's number.
    fn node(self) -> usize
        ensures { result ≡ node self };
}

impl Name for u8 {
    ghost node = { λ leaf. leaf };

    fn node(self) -> usize {
        usize::from(self)
    }
}

impl Name for u16 {
    ghost node = { node_of };

    fn node(self) -> usize {
        usize::from(self / 2)
    }
}

/// Marks the nodes that are named.
fn mark<T: Name>(names: &[T], marks: &mut [bool])
    requires { below (length marks.old) (map T.node names.now) ≡ true }
    ensures { marks.new ≡ mark_all marks.old (map T.node names.now) }
{
    for name in names {
        marks[name.node()] = true;
    }
}

/// Edges from nodes to nodes. `leads` says where those of a node lead.
trait Edges {
    ghost leads: { Self → ℕ → List ℕ };

    /// Marks what the edges of node `v` lead to.
    fn mark_from(&self, v: usize, marks: &mut [bool])
        requires { below (length marks.old) (leads self.now v) ≡ true }
        ensures { marks.new ≡ mark_all marks.old (leads self.now v) };
}

/// From a gate to its fanins.
impl Edges for Table {
    ghost leads = { λ t v. fanins (at (drawing_of t).nodes v) };

    fn mark_from(&self, v: usize, marks: &mut [bool]) {
        if let Some(Node::Gate(pair)) = self.nodes().get(v) {
            mark(&[pair.left, pair.right], marks);
        }
    }
}

/// A drawing, and the cut that each node takes, with no leaves where it takes none.
#[derive(Clone, Copy)]
pub struct Taken<'a> {
    pub table: &'a Table,
    pub cuts: &'a [Cut],
    ghost each: { length (drawing_of table.now).nodes ≤ length cuts.now },
}

/// From a gate to the leaves of its cut.
impl<'a> Edges for Taken<'a> {
    ghost leads = { λ e. edges_by (drawing_of e.table.now).nodes (sets_of e.cuts.now) };

    fn mark_from(&self, v: usize, marks: &mut [bool]) {
        if let Some(Node::Gate(_)) = self.table.nodes().get(v) {
            mark(self.cuts[v].leaves(), marks);
        }
    }
}

/// Marks each node that the outputs reach by edges that lead downwards.
fn sweep<E: Edges>(table: &Table, edges: &E) -> [bool; 256]
    requires { (v : ℕ) → v < length (drawing_of table.now).nodes → below v (E.leads edges.now v) ≡ true }
    ensures { Marks (E.leads edges.now) (length (drawing_of table.now).nodes) (drawing_of table.now).outputs result }
{
    let mut marks = [false; MOST_NODES];
    mark(table.outputs(), &mut marks);
    // by number, since the marks of lower nodes are set on the way down
    for v in (0..table.nodes().len()).rev() {
        if marks[v] {
            edges.mark_from(v, &mut marks);
        }
    }
    marks
}

/// Marks each node that some output depends on. A gate is needed if it is marked.
pub fn reached(table: &Table) -> [bool; 256]
    ensures { Marks (λ w. fanins (at (drawing_of table.now).nodes w)) (length (drawing_of table.now).nodes) (drawing_of table.now).outputs result }
{
    sweep(table, table)
}

/// Marks each node that the outputs reach through the cuts: a gate leads to the leaves of its cut, and no other node leads on. A gate
/// is a cell if it is marked.
pub fn reached_by(taken: &Taken<'_>) -> [bool; 256]
    requires { (v : ℕ) → v < length (drawing_of taken.now.table.now).nodes → below v (edges_by (drawing_of taken.now.table.now).nodes (sets_of taken.now.cuts.now) v) ≡ true }
    ensures { Marks (edges_by (drawing_of taken.now.table.now).nodes (sets_of taken.now.cuts.now)) (length (drawing_of taken.now.table.now).nodes) (drawing_of taken.now.table.now).outputs result }
{
    sweep(taken.table, taken)
}
