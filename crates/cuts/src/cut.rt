//! Stored cuts.

pub mod ops;

ghost use Rattle.std.specs.Prelude.{◌≡◌, ◌≤◌, true, length, take};
ghost use Rattle.drawing.specs.Drawing.{most_leaves};
ghost use Rattle.drawing.specs.Sets.{rises};

/// The most leaves that a cut has.
pub const MOST_LEAVES: usize = 5;

/// A cut: its leaves are the first `len` of the array, and rise from above 0.
// an array with its count: a cut copies and never allocates, and a job holds 8,192 of them
#[derive(Clone, Copy, Debug)]
pub struct Cut {
    leaves: [u8; MOST_LEAVES],
    len: u8,
    ghost room: { length leaves ≡ most_leaves },
    ghost few: { len ≤ most_leaves },
    ghost rising: { rises 0 (take len leaves) ≡ true },
}
