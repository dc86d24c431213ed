//! The writer of a drawing's text.

ghost use Rattle.std.specs.Prelude.{ℕ, ◌^◌, ◌<◌, List, ◌++◌};
ghost use Rattle.std.specs.List.{flat_map};
ghost use Rattle.aiger.specs.Writes.{Copied};
ghost use Rattle.aiger.specs.Text.{gate_row, heading, input_row, line_of, output_rows, rows, text, word as aag};
ghost use Rattle.drawing.specs.Drawing.{drawing};
ghost use Rattle.drawing.specs.Tables.{drawing_of};
ghost use Rattle.drawing.specs.declared.node.Node.{Node as NodeOf};
ghost use Rattle.pen.specs.Wrote.{Wrote};

use drawing::node::Node;
use drawing::refusal::Refusal;
use drawing::table::Table;
use pen::Pen;

/// No text of a drawing has more bytes.
pub const MOST_TEXT: usize = 4376;

/// A kind of nodes that have a line each.
trait Row {
    ghost lines: { ℕ → NodeOf → List (List ℕ) };

    /// The line of node `k`, if it is of this kind.
    fn put(pen: &mut Pen<'_>, k: usize, node: Node)
        requires { k < 2 ^ 63 }
        ensures { Wrote pen.old (flat_map line_of (Self.lines k node)) pen.new };
}

/// An input's line is its literal.
struct Inputs;

impl Row for Inputs {
    ghost lines = { input_row };

    fn put(pen: &mut Pen<'_>, k: usize, node: Node) {
        if let Node::Input = node {
            put_line(pen, &[2 * k]);
        }
    }
}

/// A gate's line is its literal and its two fanin literals.
struct Gates;

impl Row for Gates {
    ghost lines = { gate_row };

    fn put(pen: &mut Pen<'_>, k: usize, node: Node) {
        if let Node::Gate(pair) = node {
            put_line(
                pen,
                &[2 * k, usize::from(pair.left), usize::from(pair.right)],
            );
        }
    }
}

/// A line of numbers: one space between two, and the line's end.
fn put_line(pen: &mut Pen<'_>, numbers: &[usize])
    ensures { Wrote pen.old (line_of numbers.now) pen.new }
{
    match numbers {
        [] => {}
        [last] => {
            pen.number(*last);
            pen.byte(b'\n');
        }
        [first, rest @ ..] => {
            pen.number(*first);
            pen.byte(b' ');
            put_line(pen, rest);
        }
    }
}

/// The lines of the nodes of one kind.
fn put_rows<R: Row>(pen: &mut Pen<'_>, nodes: &[Node])
    ensures { Wrote pen.old (flat_map line_of (rows R.lines 0 nodes.now)) pen.new }
{
    for (k, node) in nodes.iter().enumerate() {
        R::put(pen, k, *node);
    }
}

/// The lines of the outputs.
fn put_outputs(pen: &mut Pen<'_>, outputs: &[u16])
    ensures { Wrote pen.old (flat_map line_of (output_rows outputs.now)) pen.new }
{
    for literal in outputs {
        put_line(pen, &[usize::from(*literal)]);
    }
}

/// The header.
fn put_header(pen: &mut Pen<'_>, nodes: &[Node], outputs: &[u16])
    ensures { Wrote pen.old (aag ++ line_of (heading (drawing nodes.now outputs.now))) pen.new }
{
    let last = nodes.len().saturating_sub(1);
    let inputs = nodes.iter().filter(|node| node.is_input()).count();
    let gates = nodes.iter().filter(|node| node.is_gate()).count();
    pen.text(b"aag ");
    put_line(pen, &[last, inputs, 0, outputs.len(), gates]);
}

/// The text of the drawing.
fn put_drawing(pen: &mut Pen<'_>, table: &Table)
    ensures { Wrote pen.old (text (drawing_of table.now)) pen.new }
{
    let nodes = table.nodes();
    let outputs = table.outputs();
    put_header(pen, nodes, outputs);
    put_rows::<Inputs>(pen, nodes);
    put_outputs(pen, outputs);
    put_rows::<Gates>(pen, nodes);
}

/// Writes the text of the drawing to the front of the buffer, and answers the text's length. Where the buffer is
/// shorter than the text it refuses and leaves the buffer alone.
pub fn write(table: &Table, buffer: &mut [u8]) -> Result<usize, Refusal>
    ensures { Copied (text (drawing_of table.now)) buffer.old result buffer.new }
{
    let mut page = [0; MOST_TEXT];
    let mut pen = Pen::new(&mut page);
    put_drawing(&mut pen, table);
    let length = pen.at;
    if buffer.len() < length {
        return Err(Refusal::TooShort);
    }
    buffer[..length].copy_from_slice(&page[..length]);
    Ok(length)
}
