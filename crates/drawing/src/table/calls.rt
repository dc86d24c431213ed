//! Making a drawing, and reading it.

ghost use Rattle.std.specs.Prelude.{◌≡◌, true, ◌<◌, ◌++◌, ◌∷◌, [], length};
ghost use Rattle.drawing.specs.Calls.{after_gate, after_input, after_output, after_retie, gate_answer, input_answer, output_answer, retie_answer, Unless};
ghost use Rattle.drawing.specs.Drawing.{at, drawing, is_gate, lawful, most_nodes, names, new_drawing, sound_at};
ghost use Rattle.drawing.specs.Tables.{drawing_of};

use super::Table;
use crate::node::{Node, Pair};
use crate::nodes::Nodes;
use crate::refusal::Refusal;
use arrayvec::ArrayVec;

/// The most nodes that a drawing has, node 0 included.
pub const MOST_NODES: usize = 256;

/// The most outputs that a drawing has.
pub const MOST_OUTPUTS: usize = 64;

impl Table {
    /// Node 0 alone, and no outputs.
    #[tactic(auto, using(crate::proofs::Lawful::lawful_new))]
    pub fn new() -> Table
        ensures { drawing_of result ≡ new_drawing }
    {
        let mut nodes = ArrayVec::from([Node::Constant; MOST_NODES]);
        nodes.truncate(1);
        Table {
            nodes,
            outputs: ArrayVec::new(),
        }
    }

    /// The drawing of these nodes and outputs.
    #[tactic(auto, using(crate::proofs::Lawful::lawful_says))]
    pub fn of(nodes: ArrayVec<Node, MOST_NODES>, outputs: ArrayVec<u16, MOST_OUTPUTS>) -> Table
        requires { lawful (drawing nodes.items outputs.items) ≡ true }
        ensures { drawing_of result ≡ drawing nodes.items outputs.items }
    {
        Table { nodes, outputs }
    }

    /// The nodes by number, node 0 first.
    #[inline]
    pub fn nodes(&self) -> &[Node]
        ensures { result.now ≡ (drawing_of self.now).nodes }
    {
        self.nodes.as_slice()
    }

    /// The nodes, with what holds of them in every drawing.
    pub fn sound_nodes(&self) -> Nodes<'_>
        ensures { result ≡ (drawing_of self.now).nodes }
    {
        Nodes::of(self.nodes())
    }

    /// The outputs' literals, in their order.
    #[inline]
    pub fn outputs(&self) -> &[u16]
        ensures { result.now ≡ (drawing_of self.now).outputs }
    {
        self.outputs.as_slice()
    }

    /// Adds a node that is sound behind the others, and answers its number.
    #[tactic(auto, using(crate::proofs::Lawful::lawful_node))]
    fn push(&mut self, node: Node) -> u8
        requires room { length (drawing_of self.old).nodes < most_nodes }
        requires sound { sound_at (length (drawing_of self.old).nodes) node ≡ true }
        ensures number { result ≡ length (drawing_of self.old).nodes }
        ensures after { drawing_of self.new ≡ drawing ((drawing_of self.old).nodes ++ node ∷ []) (drawing_of self.old).outputs }
    {
        let number = self.nodes.len() as u8;
        self.nodes.push(node);
        number
    }

    /// Adds an input, and answers its number.
    #[tactic(auto, using(crate::proofs::Lawful::lawful_says, crate::proofs::Sound::input_right))]
    pub fn input(&mut self) -> Result<u8, Refusal>
        ensures answer { result ≡ input_answer (drawing_of self.old) }
        ensures after { drawing_of self.new ≡ after_input (drawing_of self.old) }
        ensures refused { Unless result (self.new ≡ self.old) }
    {
        if self.nodes.is_full() {
            return Err(Refusal::NodesFull);
        }
        Ok(self.push(Node::Input))
    }

    /// Whether the literal names a node that exists.
    fn names(&self, literal: u16) -> bool
        ensures { result ≡ names (drawing_of self.now).nodes literal }
    {
        usize::from(literal / 2) < self.nodes.len()
    }

    /// Adds a gate, and answers its number.
    pub fn gate(&mut self, pair: Pair) -> Result<u8, Refusal>
        ensures answer { result ≡ gate_answer (drawing_of self.old) pair }
        ensures after { drawing_of self.new ≡ after_gate (drawing_of self.old) pair }
        ensures refused { Unless result (self.new ≡ self.old) }
    {
        if self.nodes.is_full() {
            return Err(Refusal::NodesFull);
        }
        if !(self.names(pair.left) && self.names(pair.right)) {
            return Err(Refusal::BadLiteral);
        }
        Ok(self.push(Node::Gate(pair)))
    }

    /// Adds an output, and answers its place.
    #[tactic(auto, using(crate::proofs::Lawful::lawful_output))]
    pub fn output(&mut self, literal: u16) -> Result<u8, Refusal>
        ensures answer { result ≡ output_answer (drawing_of self.old) literal }
        ensures after { drawing_of self.new ≡ after_output (drawing_of self.old) literal }
        ensures refused { Unless result (self.new ≡ self.old) }
    {
        if self.outputs.is_full() {
            return Err(Refusal::OutputsFull);
        }
        if !self.names(literal) {
            return Err(Refusal::BadLiteral);
        }
        let place = self.outputs.len() as u8;
        self.outputs.push(literal);
        Ok(place)
    }

    /// Whether the number is a gate's.
    pub fn is_gate(&self, v: u8) -> bool
        ensures { result ≡ is_gate (at (drawing_of self.now).nodes v) }
    {
        matches!(self.nodes().get(usize::from(v)), Some(Node::Gate(_)))
    }

    /// Gives a gate two new literals.
    pub fn retie(&mut self, gate: u8, pair: Pair) -> Result<(), Refusal>
        ensures answer { result ≡ retie_answer (drawing_of self.old) gate pair }
        ensures after { drawing_of self.new ≡ after_retie (drawing_of self.old) gate pair }
        ensures refused { Unless result (self.new ≡ self.old) }
    {
        if !self.is_gate(gate) {
            return Err(Refusal::NotAGate);
        }
        if !pair.is_below(u16::from(gate)) {
            return Err(Refusal::BadLiteral);
        }
        let record = &mut self.nodes[usize::from(gate)];
        *record = Node::Gate(pair);
        Ok(())
    }
}
