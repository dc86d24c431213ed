//! The calls that change a drawing.

ghost use Rattle.drawing.specs.Calls.{retie_answer, Unless};
ghost use Rattle.fitter.specs.Book.{load_answer};
ghost use Rattle.fitter.specs.Calls.{load_text, retie_gate};
ghost use Rattle.fitter.specs.History.{Did};
ghost use Rattle.fitter.specs.Jobs.{book_of};
ghost use Rattle.std.specs.Prelude.{◌≡◌};

use super::Job;
use crate::above::dependents;
use aiger::read;
use drawing::node::Pair;
use drawing::refusal::Refusal;

impl Job {
    /// Replaces the drawing by that of a text. Nothing is kept then, and the width stays.
    pub fn load(&mut self, text: &[u8]) -> Result<(), Refusal>
        ensures answer { result ≡ load_answer text.now }
        ensures did { Did (load_text text.now) self.old self.new }
        ensures refused { Unless result (self.new ≡ self.old) }
    {
        let table = read(text)?;
        self.lists.clear();
        self.table = table;
        Ok(())
    }

    /// Gives a gate two new literals. That gate and every gate that depends on it are no longer kept.
    pub fn retie(&mut self, gate: u8, pair: Pair) -> Result<(), Refusal>
        ensures answer { result ≡ retie_answer (book_of self.old).drawing gate pair }
        ensures did { Did (retie_gate gate pair) self.old self.new }
        ensures refused { Unless result (self.new ≡ self.old) }
    {
        let above = dependents(&self.table, gate);
        self.table.retie(gate, pair)?;
        self.lists.forget(&above);
        Ok(())
    }
}
