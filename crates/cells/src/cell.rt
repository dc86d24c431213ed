//! A lookup cell.

ghost use Rattle.std.specs.Prelude.{◌≡◌, ◌≤◌, length};
ghost use Rattle.drawing.specs.Drawing.{most_leaves};
ghost use Rattle.cells.specs.Netlist.{leaves_of};

/// The root, the leaves by rising number (`count` of them, then zeros), and the truth table.
// an array with its count: a cell is copied freely, and a vector of fixed capacity is not Copy
#[derive(Clone, Copy, Debug, Default, PartialEq, Eq)]
pub struct Cell {
    pub root: u8,
    pub count: u8,
    pub leaves: [u8; 5],
    pub table: u32,
}

impl Cell {
    /// The leaves, by rising number.
    pub fn leaves(&self) -> &[u8]
        ensures is { result.now ≡ leaves_of self.now }
        ensures few { length result.now ≤ most_leaves }
    {
        let count = (self.count as usize).min(self.leaves.len());
        &self.leaves[..count]
    }
}
