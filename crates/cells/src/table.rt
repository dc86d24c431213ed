//! The truth table of a cell, by shifts and masks over its cone. A word has a bit for each row of the
//! leaves' values, so that one walk over the nodes works out all rows.

ghost use Rattle.std.specs.Prelude.{◌≡◌, ℕ, ◌/◌, ◌^◌, ◌<◌, ◌≤◌, true, length, slice_index_or};
ghost use Rattle.cells.specs.Limits.{table_bits};
ghost use Rattle.drawing.specs.Drawing.{most_leaves, most_nodes};
ghost use Rattle.cells.specs.Netlist.{cell_of};
ghost use Rattle.cells.specs.Truth.{bit, cone, in_row, leaf_bits, pinned, table_bit, table_of, unset};
ghost use Rattle.drawing.specs.Drawing.{fanins};
ghost use Rattle.drawing.specs.Sets.{below};
ghost use Rattle.drawing.specs.Values.{literal as literal_value, lookup, turned, valuing};

use crate::cell::Cell;
use drawing::node::Node;
use drawing::nodes::Nodes;

/// The rows in which leaf j has the value 1.
const LEAF_WORDS: [u32; 5] = [
    0xaaaa_aaaa,
    0xcccc_cccc,
    0xf0f0_f0f0,
    0xff00_ff00,
    0xffff_0000,
];

/// A root in a drawing, and the leaves of its cone.
#[derive(Clone, Copy)]
pub struct Cone<'a> {
    pub nodes: &'a Nodes<'a>,
    pub root: u8,
    pub leaves: &'a [u8],
    ghost there: { root < length nodes.now },
    ghost few: { length leaves.now ≤ most_leaves },
}

/// The values of a literal whose node has these values.
pub fn turn(word: u32, literal: u16) -> u32
    ensures { (m : ℕ) → m < table_bits → bit result m ≡ turned (bit word m) literal }
{
    if literal % 2 == 0 { word } else { !word }
}

/// The values of a literal, by those of the nodes.
fn literal_word(words: &[u32], literal: u16) -> u32
    requires { literal / 2 < length words.now }
    ensures { (m : ℕ) → m < table_bits → bit result m ≡ literal_value (in_row m words.now) literal }
{
    turn(words[literal as usize / 2], literal)
}

/// A node's own values, by those below it; an input counts as 0.
fn own_word(node: Node, words: &[u32]) -> u32
    requires { below (length words.now) (fanins node) ≡ true }
    ensures { (m : ℕ) → m < table_bits → bit result m ≡ valuing unset (in_row m words.now) node }
{
    match node {
        Node::Constant | Node::Input => 0,
        Node::Gate(pair) => literal_word(words, pair.left) & literal_word(words, pair.right),
    }
}

/// The table of `count` leaves with these values in its rows: bits from 2^count upwards are 0.
fn fill(word: u32, count: usize) -> u32
    requires { count ≤ most_leaves }
    ensures { (m : ℕ) → m < table_bits → bit result m ≡ table_bit count (bit word) m }
{
    let rows = 1u32 << count;
    if rows < u32::BITS {
        word & ((1u32 << rows) - 1)
    } else {
        word
    }
}

impl<'a> Cone<'a> {
    /// For each node its values in all rows, where it is a leaf.
    fn pins(&self) -> [Option<u32>; 256]
        ensures long { length result ≡ most_nodes }
        ensures hides { (m node d : ℕ) → m < table_bits → pinned (slice_index_or result node None) m d ≡ lookup (leaf_bits self.now.leaves.now m) node d }
    {
        let mut pins = [None; 256];
        for (leaf, word) in self.leaves.iter().zip(&LEAF_WORDS) {
            let node = *leaf as usize;
            pins[node] = pins[node].or(Some(*word));
        }
        pins
    }

    /// The root's values in all rows: leaf j has bit j of the row's number.
    fn word(&self) -> u32
        ensures { (m : ℕ) → m < table_bits → bit result m ≡ cone self.now.nodes.now self.now.leaves.now self.now.root m }
    {
        let nodes = self.nodes;
        let up_to = &nodes.as_slice()[..=self.root as usize];
        let pins = self.pins();
        let mut words = [0u32; 256];
        for (n, node) in up_to.iter().enumerate() {
            words[n] = match pins[n] {
                Some(word) => word,
                None => own_word(*node, &words[..n]),
            };
        }
        words[self.root as usize]
    }

    /// The table of the cell with this root and these leaves: bit m is the root's value when leaf j,
    /// counted from 0 by rising number, has bit j of m, and bits from 2^n upwards are 0.
    pub fn table(&self) -> u32
        ensures is { result ≡ table_of self.now.nodes.now self.now.leaves.now self.now.root }
        ensures rows { (m : ℕ) → m < 2 ^ length self.now.leaves.now → bit result m ≡ cone self.now.nodes.now self.now.leaves.now self.now.root m }
        ensures above { (m : ℕ) → 2 ^ length self.now.leaves.now ≤ m → bit result m ≡ 0 }
    {
        fill(self.word(), self.leaves.len())
    }

    /// The cell with this root and these leaves, its table worked out.
    pub fn cell(&self) -> Cell
        ensures { result ≡ cell_of self.now.nodes.now self.now.root self.now.leaves.now }
    {
        let mut leaves = [0; 5];
        leaves[..self.leaves.len()].copy_from_slice(self.leaves);
        Cell {
            root: self.root,
            count: self.leaves.len() as u8,
            leaves,
            table: self.table(),
        }
    }
}
