//! Nodes of a drawing. The literal 2n is node n, and 2n + 1 is its inverse.

ghost use Rattle.drawing.specs.Drawing.{is_gate, is_input, node_of};
ghost use Rattle.std.specs.Prelude.{◌≡◌, ◌&&◌, nat_lt};

/// The two literals of a gate.
#[derive(Clone, Copy, Debug, PartialEq, Eq)]
pub struct Pair {
    pub left: u16,
    pub right: u16,
}

impl Pair {
    /// Whether both literals name nodes below `v`.
    pub fn is_below(self, v: u16) -> bool
        ensures { result ≡ (nat_lt (node_of self.left) v && nat_lt (node_of self.right) v) }
    {
        self.left / 2 < v && self.right / 2 < v
    }
}

/// Node 0 is the constant 0; every other node is an input, or a gate with its two literals.
#[derive(Clone, Copy, Debug, Default, PartialEq, Eq)]
pub enum Node {
    #[default]
    Constant,
    Input,
    Gate(Pair),
}

impl Node {
    /// Whether the node is an input.
    pub fn is_input(self) -> bool
        ensures { result ≡ is_input self }
    {
        matches!(self, Node::Input)
    }

    /// Whether the node is a gate.
    pub fn is_gate(self) -> bool
        ensures { result ≡ is_gate self }
    {
        matches!(self, Node::Gate(_))
    }
}
