//! A job.

pub mod calls;
pub mod changes;
mod making;
pub mod map;
pub mod reading;
mod taking;

ghost use Rattle.std.specs.Prelude.{◌≡◌, ℕ, true, List, length};
ghost use Rattle.cuts.specs.Cuts.{least_cuts};
ghost use Rattle.cuts.specs.Leaves.{sets_of};
ghost use Rattle.drawing.specs.Drawing.{at, is_gate};
ghost use Rattle.drawing.specs.Sets.{elem};
ghost use Rattle.drawing.specs.Tables.{drawing_of};
ghost use Rattle.family.specs.Supplied.{is_width};
ghost use Rattle.fitter.specs.Keeping.{held_of, row_of};

use crate::kept::Kept;
use drawing::table::Table;

/// A drawing, the width and, for some gates, a kept list of cuts. In every job that exists a kept list is
/// the whole list of that gate for the present drawing and width: the same sets, and as many.
#[derive(Drop)]
pub struct Job {
    table: Table,
    width: u8,
    lists: Kept,
    ghost part: { is_width width ≡ true },
    ghost gates: { (v : ℕ) → held_of lists v ≡ true → is_gate (at (drawing_of table).nodes v) ≡ true },
    ghost listed: { (v : ℕ) → held_of lists v ≡ true → (s : List ℕ) → elem s (sets_of (row_of lists v)) ≡ elem s (least_cuts (drawing_of table).nodes width v) },
    ghost counted: { (v : ℕ) → held_of lists v ≡ true → length (row_of lists v) ≡ length (least_cuts (drawing_of table).nodes width v) },
}
