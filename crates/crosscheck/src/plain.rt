//! A drawing as this program reads it, and its values by plain simulation.

use drawing::node::Node;
use drawing::table::Table;

/// The node that a literal names.
pub fn node_of(literal: u16) -> u8 {
    ((literal / 2) & 255) as u8
}

/// The nodes and the outputs of a drawing.
#[derive(Clone, Copy)]
pub struct Plain<'a> {
    nodes: &'a [Node],
    pub outputs: &'a [u16],
}

impl<'a> From<&'a Table> for Plain<'a> {
    fn from(table: &'a Table) -> Plain<'a> {
        Plain {
            nodes: table.nodes(),
            outputs: table.outputs(),
        }
    }
}

impl Plain<'_> {
    /// The fanins of a gate; an input and the constant have none.
    pub fn fanins(&self, v: u8) -> Option<[u8; 2]> {
        match self.nodes.get(v as usize)? {
            Node::Gate(pair) => Some([node_of(pair.left), node_of(pair.right)]),
            Node::Constant | Node::Input => None,
        }
    }

    pub fn is_input(&self, v: u8) -> bool {
        self.nodes
            .get(v as usize)
            .is_some_and(|node| node.is_input())
    }

    /// How many inputs there are.
    pub fn inputs(&self) -> usize {
        self.nodes.iter().filter(|node| node.is_input()).count()
    }

    /// The gates that some output depends on.
    pub fn needed(&self) -> [bool; 256] {
        let mut reached = [false; 256];
        let mut needed = [false; 256];
        for literal in self.outputs {
            reached[node_of(*literal) as usize] = true;
        }
        // by number, since the marks of lower nodes are set on the way down
        for v in (0..=255u8).rev() {
            if reached[v as usize]
                && let Some(fanins) = self.fanins(v)
            {
                needed[v as usize] = true;
                for fanin in fanins {
                    reached[fanin as usize] = true;
                }
            }
        }
        needed
    }

    /// The values of all nodes, the inputs being those of the row.
    pub fn simulate(&self, row: &[u8]) -> [u8; 256] {
        let mut values = [0u8; 256];
        let mut row = row.iter();
        // by number, since a gate's value is worked out from those below it
        for (v, node) in (0..=255u8).zip(self.nodes) {
            values[v as usize] = match node {
                Node::Constant => 0,
                Node::Input => row.next().copied().unwrap_or(0),
                Node::Gate(pair) => literal_value(&values, pair.left)
                    & literal_value(&values, pair.right),
            };
        }
        values
    }
}

/// The value of a literal.
pub fn literal_value(values: &[u8; 256], literal: u16) -> u8 {
    values[node_of(literal) as usize] ^ (literal & 1) as u8
}
