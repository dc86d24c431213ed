//! The cell list of a text: the work of `lutmap`, from bytes to bytes.

ghost use Rattle.std.specs.Prelude.{◌≡◌, ◌≤◌, length, IfOk};
ghost use Rattle.cells.specs.Netlists.{netlist_of};
ghost use Rattle.flow.specs.Listing.{cell_list, Listed, place_of, Printed};

use blif::section::{sections, write_section};
use cells::cover::Cover;
use drawing::refusal::Refusal;
use drawing::table::calls::MOST_NODES;
use family::levels::Levels;
use fitter::job::Job;

/// The most bytes that a text may have.
pub const MOST_BYTES: usize = 8192;

/// The bytes that the programs keep for a cell list.
pub const MOST_LIST: usize = 131_072;

/// The width of the cells.
const WIDTH: u8 = 4;

/// Writes all sections of the cell list of a cover, and answers their length. Refused for a buffer that is shorter, which then
/// holds the sections before the one that did not fit.
pub fn write_sections(cover: &Cover, out: &mut [u8]) -> Result<usize, Refusal>
    ensures within { IfOk result (λ n. n ≤ length out.new) }
    ensures printed { Printed (cell_list (netlist_of cover.now)) out.old result out.new }
{
    // the answer is how many bytes are written, so their number is kept, and not a slice that shrinks
    let mut at = 0;
    for section in 0..sections(cover) {
        let part = &mut out[at..];
        at += write_section(cover, section, part)?;
    }
    Ok(at)
}

/// Reads a text of at most `MOST_BYTES` bytes as a drawing, maps it by levels with cells of four leaves, and writes the cell list.
/// The answer is its length.
pub fn cell_list(text: &[u8], out: &mut [u8]) -> Result<usize, Refusal>
    ensures within { IfOk result (λ n. n ≤ length out.new) }
    ensures listed { Listed text.now out.old result out.new }
{
    if text.len() > MOST_BYTES {
        return Err(Refusal::TooShort);
    }
    let mut job = Job::new();
    job.load(text)?;
    let family = Levels::new(WIDTH)?;
    let mut cover = Cover::new();
    let mut arrivals = [0; MOST_NODES];
    let _ = job.map(&family, &mut cover, &mut arrivals)?;
    write_sections(&cover, out)
}

/// The place that a refusal names: the byte of a text's fault, or the gate; the most bytes where the text has more.
pub fn place(refusal: Refusal) -> usize
    ensures { result ≡ place_of refusal }
{
    match refusal {
        Refusal::Text(fault) => fault.byte,
        Refusal::Crowded(gate) => gate as usize,
        _ => MOST_BYTES,
    }
}
