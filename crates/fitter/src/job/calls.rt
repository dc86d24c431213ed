//! The calls that make a drawing and set the width.

ghost use Rattle.drawing.specs.Calls.{gate_answer, input_answer, output_answer, Unless};
ghost use Rattle.fitter.specs.Book.{width_answer};
ghost use Rattle.fitter.specs.Calls.{add_gate, add_input, add_output, set_width};
ghost use Rattle.fitter.specs.History.{Did, Fresh};
ghost use Rattle.fitter.specs.Jobs.{book_of};
ghost use Rattle.std.specs.Prelude.{◌≡◌};

use super::Job;
use crate::kept::Kept;
use drawing::node::Pair;
use drawing::refusal::Refusal;
use drawing::table::Table;

impl Job {
    /// Node 0 alone, no outputs, width 4, and nothing kept.
    pub fn new() -> Job
        ensures { Fresh result }
    {
        Job {
            table: Table::new(),
            width: 4,
            lists: Kept::new(),
        }
    }

    /// Adds an input, and answers its number.
    pub fn input(&mut self) -> Result<u8, Refusal>
        ensures answer { result ≡ input_answer (book_of self.old).drawing }
        ensures did { Did add_input self.old self.new }
        ensures refused { Unless result (self.new ≡ self.old) }
    {
        self.table.input()
    }

    /// Adds a gate, and answers its number.
    pub fn gate(&mut self, pair: Pair) -> Result<u8, Refusal>
        ensures answer { result ≡ gate_answer (book_of self.old).drawing pair }
        ensures did { Did (add_gate pair) self.old self.new }
        ensures refused { Unless result (self.new ≡ self.old) }
    {
        self.table.gate(pair)
    }

    /// Adds an output, and answers its place.
    pub fn output(&mut self, literal: u16) -> Result<u8, Refusal>
        ensures answer { result ≡ output_answer (book_of self.old).drawing literal }
        ensures did { Did (add_output literal) self.old self.new }
        ensures refused { Unless result (self.new ≡ self.old) }
    {
        self.table.output(literal)
    }

    /// Sets the width to 2, 3, 4 or 5. After a change nothing is kept.
    pub fn width(&mut self, width: u8) -> Result<(), Refusal>
        ensures answer { result ≡ width_answer width }
        ensures did { Did (set_width width) self.old self.new }
        ensures refused { Unless result (self.new ≡ self.old) }
    {
        if width < 2 || 5 < width {
            return Err(Refusal::BadWidth);
        }
        if width != self.width {
            self.lists.clear();
            self.width = width;
        }
        Ok(())
    }
}
