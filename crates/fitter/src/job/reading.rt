//! Reading a job.

ghost use Rattle.cuts.specs.Lists.{Lists};
ghost use Rattle.drawing.specs.Tables.{drawing_of};
ghost use Rattle.fitter.specs.Calls.{Call, kept_of_calls};
ghost use Rattle.fitter.specs.History.{Handled};
ghost use Rattle.fitter.specs.Jobs.{book_of, is_kept};
ghost use Rattle.std.specs.Prelude.{◌≡◌, true, false, List, MatchOption};

use super::Job;
use cuts::cut::Cut;
use drawing::table::Table;

impl Job {
    /// The drawing.
    pub fn table(&self) -> &Table
        ensures { drawing_of result.now ≡ (book_of self.now).drawing }
    {
        &self.table
    }

    /// The width.
    pub fn present_width(&self) -> u8
        ensures { result ≡ (book_of self.now).width }
    {
        self.width
    }

    /// Whether the list of a gate is kept.
    pub fn is_kept(&self, gate: u8) -> bool
        ensures value { result ≡ is_kept self.now gate }
        ensures law { (h : List Call) → Handled h self.now → result ≡ kept_of_calls h gate }
    {
        self.lists.holds(gate)
    }

    /// The kept list of a gate: its least cuts with at most `width` leaves, each once, in any order. `None` if it is not kept.
    #[tactic(auto, using(crate::proofs::AtHand::list_lent))]
    pub fn list(&self, gate: u8) -> Option<&[Cut]>
        ensures { MatchOption result (is_kept self.now gate ≡ false) (λ l. (is_kept self.now gate ≡ true) × Lists (book_of self.now).drawing.nodes self.now.width gate l.now) }
    {
        self.lists.get(gate)
    }
}
