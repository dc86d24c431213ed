//! Keeping lists, lending them and forgetting them.

ghost use Rattle.std.specs.Prelude.{◌≡◌, ℕ, ◌≤◌, true, false, not, ◌&&◌, ◌||◌, ◌≢◌, ◌==◌, List, length, slice_index_or, MatchOption};
ghost use Rattle.cuts.specs.Limits.{most_cuts};
ghost use Rattle.fitter.specs.Keeping.{held_of, row_of};
ghost use Rattle.fitter.specs.Rows.{flat_rows, slot_at, row_at};

use super::{Kept, Slot};
use cuts::cut::Cut;
use cuts::list::MOST_CUTS;
use drawing::table::calls::MOST_NODES;

/// The cuts that there is room for: a row of the most cuts for each node.
const FLAT: usize = MOST_NODES * MOST_CUTS;

/// Writes a list to the front of row v of flat rows.
fn put_row(flat: &mut [Cut], v: u8, list: &[Cut])
    requires room { length flat.old ≡ flat_rows }
    requires short { length list.now ≤ most_cuts }
    ensures here { (slots : List Slot) → (slot_at slots v).len ≡ length list.now → row_at flat.new slots v ≡ list.now }
    ensures others { (slots : List Slot) (u : ℕ) → (u ≢ v) → (slot_at slots u).len ≤ most_cuts → row_at flat.new slots u ≡ row_at flat.old slots u }
{
    let base = usize::from(v) * MOST_CUTS;
    flat[base..base + list.len()].copy_from_slice(list);
}

impl Kept {
    /// Nothing is kept.
    pub fn new() -> Kept
        ensures { (u : ℕ) → held_of result u ≡ false }
    {
        Kept {
            cuts: [Cut::empty(); FLAT],
            slots: [Slot::EMPTY; MOST_NODES],
        }
    }

    /// Whether the list of node v is kept.
    pub fn holds(&self, v: u8) -> bool
        ensures { result ≡ held_of self.now v }
    {
        self.slots[usize::from(v)].held
    }

    /// The list of node v, if it is kept.
    pub fn get(&self, v: u8) -> Option<&[Cut]>
        ensures { MatchOption result (held_of self.now v ≡ false) (λ l. (held_of self.now v ≡ true) × (l.now ≡ row_of self.now v)) }
    {
        self.holds(v).then_some(self.row(v))
    }

    /// The row of node v: its list, if it is kept.
    pub fn row(&self, v: u8) -> &[Cut]
        ensures { result.now ≡ row_of self.now v }
    {
        let base = usize::from(v) * MOST_CUTS;
        let len = usize::from(self.slots[usize::from(v)].len);
        &self.cuts[base..base + len]
    }

    /// Keeps a list for node v.
    pub fn keep(&mut self, v: u8, list: &[Cut])
        requires { length list.now ≤ most_cuts }
        ensures held { (u : ℕ) → held_of self.new u ≡ (held_of self.old u || u == v) }
        ensures row { row_of self.new v ≡ list.now }
        ensures others { (u : ℕ) → (u ≢ v) → row_of self.new u ≡ row_of self.old u }
    {
        put_row(&mut self.cuts, v, list);
        self.slots[usize::from(v)] = Slot {
            len: list.len() as u8,
            held: true,
        };
    }

    /// Forgets every list.
    pub fn clear(&mut self)
        ensures { (u : ℕ) → held_of self.new u ≡ false }
    {
        self.slots = [Slot::EMPTY; MOST_NODES];
    }

    /// Forgets the lists of the marked nodes. What is in their rows stays.
    pub fn forget(&mut self, marks: &[bool; 256])
        ensures held { (u : ℕ) → held_of self.new u ≡ (held_of self.old u && not (slice_index_or marks.now u false)) }
        ensures rows { (u : ℕ) → row_of self.new u ≡ row_of self.old u }
    {
        for (v, marked) in marks.iter().enumerate() {
            if *marked {
                self.slots[v].held = false;
            }
        }
    }
}
