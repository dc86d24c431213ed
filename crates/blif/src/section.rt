//! The sections of the cell list.

ghost use Rattle.std.specs.Prelude.{◌≡◌, ◌<◌, ◌≤◌, length};
ghost use Rattle.cells.specs.Netlist.{leaves_of};
ghost use Rattle.blif.specs.Meaning.{HasMeaning, Means};
ghost use Rattle.blif.specs.Sections.{section_answer, section_count, section_text, section_writes};
ghost use Rattle.blif.specs.Text.{cell_text, head_text, line, node_names, output_text, table_lines};
ghost use Rattle.cells.specs.Netlists.{netlist_of};
ghost use Rattle.drawing.specs.Drawing.{most_leaves, most_nodes, most_outputs, node_of};
ghost use Rattle.pen.specs.Wrote.{Wrote};

use crate::put::put_name;
use cells::cell::Cell;
use cells::cover::Cover;
use drawing::refusal::Refusal;
use pen::Pen;

/// The names of nodes.
fn put_nodes(pen: &mut Pen<'_>, nodes: &[u8])
    ensures { Wrote pen.old (node_names nodes.now) pen.new }
{
    for node in nodes {
        put_name(pen, b'n', usize::from(*node));
    }
}

/// The line of row `m`: the values of the leaves, leaf 0 first, and the value 1.
fn put_line(pen: &mut Pen<'_>, m: u32, count: usize)
    requires { count ≤ most_leaves }
    ensures { Wrote pen.old (line count m) pen.new }
{
    if count == 0 {
        return pen.text(b"1\n");
    }
    for j in 0..count {
        pen.byte(b'0' + ((m >> j) & 1) as u8);
    }
    pen.text(b" 1\n");
}

/// The lines of a cell's table: one for each row whose bit is 1.
fn put_table(pen: &mut Pen<'_>, cell: &Cell)
    ensures { Wrote pen.old (table_lines cell.now.table (length (leaves_of cell.now))) pen.new }
{
    let table = cell.table;
    let leaves = cell.leaves();
    let count = leaves.len();
    for m in 0..1u32 << count {
        if (table >> m) & 1 == 1 {
            put_line(pen, m, count);
        }
    }
}

/// A cell.
fn put_cell(pen: &mut Pen<'_>, cell: &Cell)
    ensures { Wrote pen.old (cell_text cell.now) pen.new }
{
    pen.text(b".names");
    put_nodes(pen, cell.leaves());
    put_name(pen, b'n', usize::from(cell.root));
    pen.text(b"\n");
    put_table(pen, cell);
}

/// Output `k`, of this literal.
fn put_output(pen: &mut Pen<'_>, k: usize, literal: u16)
    requires few { k < most_outputs }
    requires there { node_of literal < most_nodes }
    ensures { Wrote pen.old (output_text k literal) pen.new }
{
    pen.text(b".names");
    if literal / 2 == 0 {
        put_name(pen, b'o', k);
        return pen.text(if literal % 2 == 0 { b"\n" } else { b"\n1\n" });
    }
    put_name(pen, b'n', usize::from(literal / 2));
    put_name(pen, b'o', k);
    pen.text(if literal % 2 == 0 {
        b"\n1 1\n"
    } else {
        b"\n0 1\n"
    });
}

/// The head: the model's name, the inputs and the outputs.
fn put_head(pen: &mut Pen<'_>, inputs: &[u8], outputs: usize)
    requires { outputs ≤ most_outputs }
    ensures { Wrote pen.old (head_text inputs.now outputs) pen.new }
{
    pen.text(b".model lutmap\n.inputs");
    put_nodes(pen, inputs);
    pen.text(b"\n.outputs");
    for k in 0..outputs {
        put_name(pen, b'o', k);
    }
    pen.text(b"\n");
}

/// How many sections the cell list of a cover has: the head, each cell, each output, the end.
///
/// Read as BLIF, all of them together mean the cover: whatever values of the names satisfy every block
/// of the text, the outputs have what the cover answers to the inputs, and every row of the inputs has
/// such values.
pub fn sections(cover: &Cover) -> usize
    ensures count { result ≡ section_count (netlist_of cover.now) }
    ensures means { Means (netlist_of cover.now) }
    ensures stands { HasMeaning (netlist_of cover.now) }
{
    2 + cover.cells().len() + cover.outputs().len()
}

/// A section, counted from 0.
fn put_section(pen: &mut Pen<'_>, cover: &Cover, section: usize)
    requires { section < section_count (netlist_of cover.now) }
    ensures { Wrote pen.old (section_text (netlist_of cover.now) section) pen.new }
{
    let cells = cover.cells();
    let outputs = cover.outputs();
    if section == 0 {
        return put_head(pen, cover.inputs(), outputs.len());
    }
    if section <= cells.len() {
        return put_cell(pen, &cells[section - 1]);
    }
    let k = section - 1 - cells.len();
    if k < outputs.len() {
        return put_output(pen, k, outputs[k]);
    }
    pen.text(b".end\n");
}

/// The bytes of a page. A section that fits one is written once, and a longer one twice.
const PAGE: usize = 512;

/// Writes a section of the cell list, counted from 0, and answers its length; what stands behind it
/// in the buffer stays.
///
/// Refuses a section past the last, and then a buffer that is shorter than the section; it has written
/// nothing then.
pub fn write_section(cover: &Cover, section: usize, out: &mut [u8]) -> Result<usize, Refusal>
    ensures answer { result ≡ section_answer (netlist_of cover.now) section out.old }
    ensures buffer { out.new ≡ section_writes (netlist_of cover.now) section out.old }
{
    if section >= sections(cover) {
        return Err(Refusal::NoSection);
    }
    let mut page = [0; PAGE];
    let mut pen = Pen::new(&mut page);
    put_section(&mut pen, cover, section);
    let length = pen.at;
    if out.len() < length {
        return Err(Refusal::TooShort);
    }
    if length <= PAGE {
        out[..length].copy_from_slice(&page[..length]);
    } else {
        put_section(&mut Pen::new(out), cover, section);
    }
    Ok(length)
}
