//! Filling a cover with the chosen cells: the inputs, a cell for each gate that the outputs reach through the cuts, and the outputs.

ghost use Rattle.std.specs.Prelude.{◌≡◌, ◌≤◌, true, [], length};
ghost use Rattle.cells.specs.Laws.{names_of, output_lawful};
ghost use Rattle.cells.specs.Netlist.{empty_netlist, netlist};
ghost use Rattle.cells.specs.Netlists.{netlist_of};
ghost use Rattle.choice.specs.Choice.{cells as chosen_cells, Chosen};
ghost use Rattle.choice.specs.Rivals.{Rival};
ghost use Rattle.covering.specs.Chosen.{chosen, cover_up_to, marked_gate, set_at};
ghost use Rattle.cuts.specs.Leaves.{sets_of};
ghost use Rattle.drawing.specs.Drawing.{most_leaves};
ghost use Rattle.drawing.specs.Sets.{every};
ghost use Rattle.drawing.specs.Tables.{drawing_of};
ghost use Rattle.drawing.specs.Values.{inputs_of};

use cells::cover::Cover;
use cells::table::Cone;
use choice::marks::{Taken, reached_by};
use drawing::table::Table;
use family::Family;

/// Puts the inputs of the drawing into an empty cover.
fn put_inputs(table: &Table, cover: &mut Cover)
    requires { netlist_of cover.old ≡ empty_netlist }
    ensures { netlist_of cover.new ≡ netlist (inputs_of (drawing_of table.now).nodes) [] [] }
{
    let nodes = table.nodes();
    for (number, node) in nodes.iter().enumerate() {
        if node.is_input() {
            cover.push_input(number as u8);
        }
    }
}

/// Puts a cell for each gate that is marked behind the inputs, by its cut.
fn put_cells(taken: &Taken<'_>, marks: &[bool; 256], cover: &mut Cover)
    requires stands { Rival (drawing_of taken.now.table.now).nodes [] most_leaves (marked_gate (drawing_of taken.now.table.now).nodes marks.now) (set_at (sets_of taken.now.cuts.now)) }
    requires bare { netlist_of cover.old ≡ netlist (inputs_of (drawing_of taken.now.table.now).nodes) [] [] }
    ensures { netlist_of cover.new ≡ cover_up_to (drawing_of taken.now.table.now).nodes (marked_gate (drawing_of taken.now.table.now).nodes marks.now) (set_at (sets_of taken.now.cuts.now)) (length (drawing_of taken.now.table.now).nodes) }
{
    let table = taken.table;
    let cuts = taken.cuts;
    let drawn = table.sound_nodes();
    let nodes = table.nodes();
    for (v, node) in nodes.iter().enumerate() {
        if node.is_gate() && marks[v] {
            let cone = Cone {
                nodes: &drawn,
                root: v as u8,
                leaves: cuts[v].leaves(),
            };
            cover.push_gate(&cone);
        }
    }
}

/// Puts the outputs behind the cells.
fn put_outputs(table: &Table, cover: &mut Cover)
    requires bare { (netlist_of cover.old).outputs ≡ [] }
    requires named { every (output_lawful (names_of (netlist_of cover.old))) (drawing_of table.now).outputs ≡ true }
    ensures { netlist_of cover.new ≡ netlist (netlist_of cover.old).inputs (netlist_of cover.old).cells (drawing_of table.now).outputs }
{
    let outputs = table.outputs();
    for output in outputs {
        cover.push_output(*output);
    }
}

/// Fills the cover, whatever it held, with the chosen cover of a drawing, from the cuts that its needed gates take, and answers the number
/// of cells. The family and the width say which cuts these are.
pub fn fill<F: Family>(family: &F, taken: &Taken<'_>, width: u8, cover: &mut Cover) -> usize
    requires wide { (2 ≤ width) × (width ≤ most_leaves) }
    requires taken { Chosen (F.delay family.now) (drawing_of taken.now.table.now).nodes (drawing_of taken.now.table.now).outputs width (length (drawing_of taken.now.table.now).nodes) (sets_of taken.now.cuts.now) }
    ensures netlist { netlist_of cover.new ≡ chosen (F.delay family.now) (drawing_of taken.now.table.now) width }
    ensures count { result ≡ length (chosen_cells (F.delay family.now) (drawing_of taken.now.table.now).nodes width (drawing_of taken.now.table.now).outputs) }
{
    let table = taken.table;
    let marks = reached_by(taken);
    cover.clear();
    put_inputs(table, cover);
    put_cells(taken, &marks, cover);
    put_outputs(table, cover);
    cover.cells().len()
}
