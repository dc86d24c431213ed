//! Which gates depend on a gate.

ghost use Rattle.std.specs.Prelude.{◌≡◌, ℕ, true, false, ◌||◌, length, get_or, ◌==◌, slice_index_or};
ghost use Rattle.drawing.specs.Drawing.{fanins};
ghost use Rattle.drawing.specs.Reach.{depends};
ghost use Rattle.drawing.specs.Sets.{below, some};
ghost use Rattle.drawing.specs.Tables.{drawing_of};

use drawing::node::Node;
use drawing::table::Table;
use drawing::table::calls::MOST_NODES;

/// Whether some fanin of the node is marked.
fn leads_to_marked(node: Node, marks: &[bool]) -> bool
    requires { below (length marks.now) (fanins node) ≡ true }
    ensures { result ≡ some (λ f. get_or marks.now f false) (fanins node) }
{
    match node {
        Node::Gate(pair) => marks[(pair.left / 2) as usize] || marks[(pair.right / 2) as usize],
        Node::Constant | Node::Input => false,
    }
}

/// Marks a node and every gate that depends on it: one pass by rising number.
pub fn dependents(table: &Table, of: u8) -> [bool; 256]
    ensures { (u : ℕ) → slice_index_or result u false ≡ (u == of || depends (drawing_of table.now).nodes of u) }
{
    let mut marks = [false; MOST_NODES];
    marks[usize::from(of)] = true;
    for (v, node) in table.nodes().iter().enumerate() {
        if leads_to_marked(*node, &marks) {
            marks[v] = true;
        }
    }
    marks
}
