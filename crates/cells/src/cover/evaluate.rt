//! What a cover answers to a row.

ghost use Rattle.std.specs.Prelude.{◌≡◌, ℕ, ◌<◌, ◌≤◌, true, List, [], ◌∷◌, ◌++◌, map, length, drop, nat_lt, slice_index};
ghost use Rattle.cells.specs.Evaluate.{Agrees, evaluate_answer, evaluate_writes, first_above, Holds};
ghost use Rattle.cells.specs.Limits.{most_literals, table_bits};
ghost use Rattle.cells.specs.Netlist.{after, output_value, plain};
ghost use Rattle.cells.specs.Netlists.{netlist_of};
ghost use Rattle.drawing.specs.Drawing.{most_leaves, most_nodes, node_of};
ghost use Rattle.drawing.specs.Sets.{every, rises};
ghost use Rattle.drawing.specs.Values.{Binary, bound};

use super::Cover;
use crate::cell::Cell;
use crate::table::turn;
use drawing::refusal::Refusal;

/// The values of names, each 0 or 1 in the place of its name; nodes are named by their plain literals.
#[derive(Drop)]
struct Values {
    bits: [u8; 512],
    ghost long: { length bits ≡ most_literals },
    ghost small: { Binary bits },
}

impl Values {
    ghost use Rattle.cells.specs.Netlist.{cell_value, row_of};

    /// No name has a value.
    fn new() -> Values
        ensures { Holds result.bits [] }
    {
        Values { bits: [0; 512] }
    }

    /// The value of a node.
    fn of(&self, node: u8) -> u8
        ensures { result ≡ slice_index self.now.bits (plain node) }
    {
        self.bits[2 * node as usize]
    }

    /// Gives a node this value.
    fn set(&mut self, node: u8, value: u8)
        requires { value ≤ 1 }
        ensures { (env : List (ℕ × ℕ)) → Holds self.old.bits env → Holds self.new.bits ((plain node, value) ∷ env) }
    {
        self.bits[2 * node as usize] = value;
    }

    /// The row that the leaves' values make, leaf 0 being its lowest bit.
    fn row(&self, leaves: &[u8]) -> u32
        requires { length leaves.now ≤ most_leaves }
        ensures is { result ≡ row_of (λ l. slice_index self.now.bits l) leaves.now }
        ensures there { result < table_bits }
    {
        leaves
            .iter()
            .rev()
            .fold(0, |row, leaf| (row << 1) | self.of(*leaf) as u32)
    }

    /// The bit of the cell's table that stands in its leaves' row.
    fn cell(&self, cell: &Cell) -> u8
        ensures is { result ≡ cell_value (λ l. slice_index self.now.bits l) cell.now }
        ensures small { result ≤ 1 }
    {
        ((cell.table >> self.row(cell.leaves())) & 1) as u8
    }

    /// The value of a literal.
    fn literal(&self, literal: u16) -> u8
        requires { node_of literal < most_nodes }
        ensures { result ≡ output_value (λ n. slice_index self.now.bits n) literal }
    {
        let value = self.of((literal / 2) as u8);
        (turn(value as u32, literal) & 1) as u8
    }
}

/// The index of the first byte above 1.
fn first_above_one(row: &[u8]) -> Option<usize>
    ensures { result ≡ first_above row.now }
{
    row.iter().position(|byte| *byte > 1)
}

/// The values of the inputs under a row.
fn bind_inputs(inputs: &[u8], row: &[u8]) -> Values
    requires long { length row.now ≡ length inputs.now }
    requires small { Binary row.now }
    requires rising { rises 0 inputs.now ≡ true }
    ensures { Holds result.bits (bound (map plain inputs.now) row.now) }
{
    let mut values = Values::new();
    for (number, value) in inputs.iter().zip(row) {
        values.set(*number, *value);
    }
    values
}

/// Works out the cells in their order.
fn settle_cells(cells: &[Cell], values: &mut Values)
    ensures { (env : List (ℕ × ℕ)) → Holds values.old.bits env → Holds values.new.bits (after env cells.now) }
{
    for cell in cells {
        let value = values.cell(cell);
        values.set(cell.root, value);
    }
}

/// Writes the outputs' values in front of the buffer.
fn write_outputs(outputs: &[u16], values: &Values, out: &mut [u8])
    requires there { every (λ l. nat_lt (node_of l) most_nodes) outputs.now ≡ true }
    requires room { length outputs.now ≤ length out.old }
    ensures { out.new ≡ map (output_value (λ n. slice_index values.now.bits n)) outputs.now ++ drop (length outputs.now) out.old }
{
    for (k, literal) in outputs.iter().enumerate() {
        out[k] = values.literal(*literal);
    }
}

/// What the cover's outputs are when the inputs, by rising number, have the values of `row`: writes one
/// byte 0 or 1 for each output, and leaves what stands behind them.
///
/// Refuses a row that is not as long as the inputs or a buffer that is shorter than the outputs, and then
/// a row with a byte above 1; it has written nothing then.
pub fn evaluate(cover: &Cover, row: &[u8], out: &mut [u8]) -> Result<(), Refusal>
    ensures answer { result ≡ evaluate_answer (netlist_of cover.now) row.now out.old }
    ensures buffer { out.new ≡ evaluate_writes (netlist_of cover.now) row.now out.old }
    ensures agrees { Agrees (netlist_of cover.now) row.now result out.new }
{
    let inputs = cover.inputs();
    let outputs = cover.outputs();
    if row.len() != inputs.len() || out.len() < outputs.len() {
        return Err(Refusal::TooShort);
    }
    if let Some(i) = first_above_one(row) {
        return Err(Refusal::BadBit(i));
    }
    let mut values = bind_inputs(inputs, row);
    settle_cells(cover.cells(), &mut values);
    write_outputs(outputs, &values, out);
    Ok(())
}
