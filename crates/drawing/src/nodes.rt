//! The nodes of a drawing, lent.

ghost use Rattle.std.specs.Prelude.{◌≡◌, true};
ghost use Rattle.drawing.specs.Drawing.{at, sound};

use crate::node::Node;
use std::marker::Model;

/// Nodes by number, as a drawing has them: node 0 alone is the constant, and the fanins of a gate are below it. A clause
/// reads them as the list of the nodes.
#[derive(Drop)]
pub struct Nodes<'a> {
    list: &'a [Node],
}

impl<'a> Model for Nodes<'a> {
    ghost use Rattle.std.specs.Prelude.{◌≡◌, true, List};
    ghost use Rattle.drawing.specs.declared.node.Node.{Node};
    ghost use Rattle.drawing.specs.Drawing.{sound};

    ghost Value = { List Node };

    ghost view = { λ n. n.list.now };

    ghost invariant = { λ n. sound n.list.now ≡ true };
}

impl<'a> Nodes<'a> {
    /// The nodes in this slice.
    pub fn of(list: &'a [Node]) -> Nodes<'a>
        requires { sound list.now ≡ true }
        ensures { result ≡ list.now }
    {
        Nodes { list }
    }

    /// The nodes as a slice, node 0 first.
    pub fn as_slice(&self) -> &'a [Node]
        ensures value { result.now ≡ self.now }
        ensures sound { sound self.now ≡ true }
    {
        let nodes = self.list;
        nodes
    }

    /// The node with this number; the constant where there is none.
    pub fn node(&self, v: usize) -> Node
        ensures { result ≡ at self.now v }
    {
        self.list.get(v).copied().unwrap_or(Node::Constant)
    }
}
