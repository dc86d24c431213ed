//! The cover of a drawing by cells.

pub mod evaluate;
pub mod fill;

ghost use Rattle.std.specs.Prelude.{◌≡◌, ◌≤◌, true, length};
ghost use Rattle.cells.specs.Laws.{lawful_cover};
ghost use Rattle.cells.specs.Limits.{most_cells, most_inputs};
ghost use Rattle.cells.specs.Netlist.{netlist};
ghost use Rattle.drawing.specs.Drawing.{most_outputs};

use crate::cell::Cell;
use arrayvec::ArrayVec;

/// A lawful cover: the numbers of the inputs, the cells, and the outputs' literals.
#[derive(Debug, PartialEq, Drop)]
pub struct Cover {
    inputs: ArrayVec<u8, 255>,
    cells: ArrayVec<Cell, 255>,
    outputs: ArrayVec<u16, 64>,
    ghost within: { (length inputs.items ≤ most_inputs) × (length cells.items ≤ most_cells) × (length outputs.items ≤ most_outputs) },
    ghost law: { lawful_cover (netlist inputs.items cells.items outputs.items) ≡ true },
}
