//! The lists of cuts that a job keeps.

pub mod rows;

ghost use Rattle.std.specs.Prelude.{◌≡◌, ℕ, ◌≤◌, length};
ghost use Rattle.cuts.specs.Limits.{most_cuts};
ghost use Rattle.fitter.specs.Rows.{flat_rows, slot_at};
ghost use Rattle.drawing.specs.Drawing.{most_nodes};

use cuts::cut::Cut;

/// What a node's row holds: how many cuts, and whether they are a kept list.
#[derive(Clone, Copy)]
struct Slot {
    len: u8,
    held: bool,
}

impl Slot {
    /// A row without cuts, which is no kept list.
    const EMPTY: Slot = Slot {
        len: 0,
        held: false,
    };
}

/// Flat rows of cuts, one row for each node, and a slot for each row.
// flat rows in fixed arrays: a job has no heap, and is written as `[v; n]`
#[derive(Drop)]
pub struct Kept {
    cuts: [Cut; 8192],
    slots: [Slot; 256],
    ghost room: { (length cuts ≡ flat_rows) × (length slots ≡ most_nodes) },
    ghost short: { (v : ℕ) → (slot_at slots v).len ≤ most_cuts },
}
