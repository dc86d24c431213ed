//! Making a cover piece by piece, and reading it. What adds a piece is a building block of a mapper:
//! it asks for what keeps the cover lawful, and refuses nothing.

ghost use Rattle.std.specs.Prelude.{◌≡◌, ◌<◌, ◌≤◌, true, false, [], length};
ghost use Rattle.cells.specs.Laws.{cell_lawful, known, names_of, output_lawful, roots_of};
ghost use Rattle.cells.specs.Limits.{most_cells, most_inputs};
ghost use Rattle.cells.specs.Netlist.{cell_of, empty_netlist, with_cell, with_input, with_output};
ghost use Rattle.cells.specs.Netlists.{netlist_of};
ghost use Rattle.drawing.specs.Drawing.{most_outputs};
ghost use Rattle.drawing.specs.Sets.{below, mem, rises};

use super::Cover;
use crate::cell::Cell;
use crate::table::Cone;
use arrayvec::ArrayVec;

impl Cover {
    /// A cover with nothing in it.
    #[tactic(auto, using(crate::proofs::Laws::lawful_bare))]
    pub fn new() -> Cover
        ensures { netlist_of result ≡ empty_netlist }
    {
        Cover {
            inputs: ArrayVec::new(),
            cells: ArrayVec::new(),
            outputs: ArrayVec::new(),
        }
    }

    /// Takes out all that the cover holds.
    #[tactic(auto, using(crate::proofs::Laws::lawful_bare))]
    pub fn clear(&mut self)
        ensures { netlist_of self.new ≡ empty_netlist }
    {
        self.outputs.clear();
        self.cells.clear();
        self.inputs.clear();
    }

    /// The numbers of the inputs, rising.
    pub fn inputs(&self) -> &[u8]
        ensures is { result.now ≡ (netlist_of self.now).inputs }
        ensures few { length result.now ≤ most_inputs }
    {
        &self.inputs
    }

    /// The cells, by rising root.
    pub fn cells(&self) -> &[Cell]
        ensures is { result.now ≡ (netlist_of self.now).cells }
        ensures few { length result.now ≤ most_cells }
    {
        &self.cells
    }

    /// The outputs' literals, in their order.
    pub fn outputs(&self) -> &[u16]
        ensures is { result.now ≡ (netlist_of self.now).outputs }
        ensures few { length result.now ≤ most_outputs }
    {
        &self.outputs
    }

    /// Adds an input above the others, before any cell or output.
    pub fn push_input(&mut self, number: u8)
        requires room { length (netlist_of self.old).inputs < most_inputs }
        requires cells { (netlist_of self.old).cells ≡ [] }
        requires outputs { (netlist_of self.old).outputs ≡ [] }
        requires positive { 0 < number }
        requires above { below number (netlist_of self.old).inputs ≡ true }
        ensures { netlist_of self.new ≡ with_input (netlist_of self.old) number }
    {
        self.inputs.push(number);
    }

    /// Adds a cell above the others.
    pub fn push_cell(&mut self, cell: Cell)
        requires room { length (netlist_of self.old).cells < most_cells }
        requires positive { 0 < cell.root }
        requires above { below cell.root (roots_of (netlist_of self.old)) ≡ true }
        requires law { cell_lawful (netlist_of self.old).inputs (names_of (netlist_of self.old)) cell ≡ true }
        ensures { netlist_of self.new ≡ with_cell (netlist_of self.old) cell }
    {
        self.cells.push(cell);
    }

    /// Adds the cell of a gate of the drawing above the others, its table worked out.
    pub fn push_gate(&mut self, cone: &Cone<'_>)
        requires room { length (netlist_of self.old).cells < most_cells }
        requires positive { 0 < cone.now.root }
        requires above { below cone.now.root (roots_of (netlist_of self.old)) ≡ true }
        requires fresh { mem cone.now.root (netlist_of self.old).inputs ≡ false }
        requires rising { rises 0 cone.now.leaves.now ≡ true }
        requires known { known (names_of (netlist_of self.old)) cone.now.leaves.now ≡ true }
        ensures { netlist_of self.new ≡ with_cell (netlist_of self.old) (cell_of cone.now.nodes.now cone.now.root cone.now.leaves.now) }
    {
        self.push_cell(cone.cell());
    }

    /// Adds an output behind the others.
    pub fn push_output(&mut self, literal: u16)
        requires room { length (netlist_of self.old).outputs < most_outputs }
        requires law { output_lawful (names_of (netlist_of self.old)) literal ≡ true }
        ensures { netlist_of self.new ≡ with_output (netlist_of self.old) literal }
    {
        self.outputs.push(literal);
    }
}
