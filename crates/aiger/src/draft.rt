//! A drawing that is being read.

ghost use Rattle.std.specs.Prelude.{◌≡◌, ◌+◌, ◌<◌, ◌≤◌, true, false, [], ◌∷◌, length, MatchOption};
ghost use Rattle.aiger.specs.Reads.{blank, follows, width};
ghost use Rattle.aiger.specs.States.{drafted, drawn, due, Puts};
ghost use Rattle.aiger.specs.declared.part.Kind.TheVariants.{Inputs, Outputs, Gates};
ghost use Rattle.drawing.specs.Drawing.{lawful, most_nodes, most_outputs, node_of};
ghost use Rattle.drawing.specs.Tables.{drawing_of};

use crate::part::Kind;
use arrayvec::ArrayVec;
use drawing::node::{Node, Pair};
use drawing::table::Table;
use drawing::table::calls::{MOST_NODES, MOST_OUTPUTS};

/// The drawing so far. A node that no line has named yet stands as `Node::Constant`.
#[derive(Drop)]
pub struct Draft {
    nodes: ArrayVec<Node, MOST_NODES>,
    outputs: ArrayVec<u16, MOST_OUTPUTS>,
    // A number, and no Option: the next input has to be above node 0 too, so before the first input the bound is 0.
    /// The next input is above this node: the last input that a line named, and before the first node 0.
    input: usize,
    /// The same of the next gate.
    gate: usize,
}

impl Draft {
    /// Node 0 and the nodes up to the last, of which no line has named any.
    pub(crate) fn new(last: usize) -> Draft
        requires { last < most_nodes }
        ensures { drafted result ≡ blank last }
    {
        let mut nodes = ArrayVec::from([Node::Constant; MOST_NODES]);
        nodes.truncate(last + 1);
        Draft {
            nodes,
            outputs: ArrayVec::new(),
            input: 0,
            gate: 0,
        }
    }

    /// Puts a line's numbers on the draft, or answers `None` where a literal is outside the rules.
    pub(crate) fn put(&mut self, kind: Kind, numbers: &[u16]) -> Option<()>
        requires whole { length numbers.now ≡ width kind + 1 }
        requires room { length (drafted self.old).outputs + due kind ≤ most_outputs }
        ensures puts { Puts kind (drafted self.old) numbers.now result (drafted self.new) }
        ensures room { length (drafted self.new).outputs ≤ length (drafted self.old).outputs + due kind }
    {
        match (kind, numbers) {
            (Kind::Inputs, &[literal]) => self.input(literal),
            (Kind::Outputs, &[literal]) => self.output(literal),
            (Kind::Gates, &[literal, left, right]) => self.gate(literal, Pair { left, right }),
            _ => None,
        }
    }

    /// The node of a literal that is even, and names a node above `last`.
    fn above(&self, last: usize, literal: u16) -> Option<usize>
        ensures { MatchOption result (follows last literal (drafted self.now).nodes ≡ false) (λ n. (follows last literal (drafted self.now).nodes ≡ true) × (n ≡ node_of literal)) }
    {
        let node = usize::from(literal / 2);
        (literal % 2 == 0 && last < node && node < self.nodes.len()).then_some(node)
    }

    /// The line of an input.
    fn input(&mut self, literal: u16) -> Option<()>
        ensures puts { Puts Inputs (drafted self.old) (literal ∷ []) result (drafted self.new) }
        ensures room { (drafted self.new).outputs ≡ (drafted self.old).outputs }
    {
        let node = self.above(self.input, literal)?;
        self.nodes[node] = Node::Input;
        self.input = node;
        Some(())
    }

    /// The line of an output.
    fn output(&mut self, literal: u16) -> Option<()>
        requires { length (drafted self.old).outputs < most_outputs }
        ensures puts { Puts Outputs (drafted self.old) (literal ∷ []) result (drafted self.new) }
        ensures room { length (drafted self.new).outputs ≤ length (drafted self.old).outputs + 1 }
    {
        if usize::from(literal / 2) >= self.nodes.len() {
            return None;
        }
        self.outputs.push(literal);
        Some(())
    }

    /// The line of a gate.
    fn gate(&mut self, literal: u16, pair: Pair) -> Option<()>
        ensures puts { Puts Gates (drafted self.old) (literal ∷ pair.left ∷ pair.right ∷ []) result (drafted self.new) }
        ensures room { (drafted self.new).outputs ≡ (drafted self.old).outputs }
    {
        let node = self.above(self.gate, literal)?;
        if self.nodes[node].is_input() || !pair.is_below(literal / 2) {
            return None;
        }
        self.nodes[node] = Node::Gate(pair);
        self.gate = node;
        Some(())
    }

    /// The table of a drawing that is whole.
    pub(crate) fn table(self) -> Table
        requires { lawful (drawn self) ≡ true }
        ensures { drawing_of result ≡ drawn self }
    {
        Table::of(self.nodes, self.outputs)
    }
}
