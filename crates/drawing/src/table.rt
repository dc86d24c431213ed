//! The table of a drawing.

pub mod calls;

ghost use Rattle.std.specs.Prelude.{◌≡◌, ◌≤◌, length, true};
ghost use Rattle.drawing.specs.Drawing.{drawing, lawful, most_nodes, most_outputs};

use crate::node::Node;
use arrayvec::ArrayVec;
use calls::{MOST_NODES, MOST_OUTPUTS};

/// A lawful drawing: its nodes by number, and its outputs' literals in their order.
#[derive(Debug, PartialEq, Eq, Drop)]
pub struct Table {
    nodes: ArrayVec<Node, MOST_NODES>,
    outputs: ArrayVec<u16, MOST_OUTPUTS>,
    ghost within: { (length nodes.items ≤ most_nodes) × (length outputs.items ≤ most_outputs) },
    ghost law: { lawful (drawing nodes.items outputs.items) ≡ true },
}
