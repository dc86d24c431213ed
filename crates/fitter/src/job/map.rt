//! Map: the cover of a job's drawing with the earliest arrivals.

ghost use Rattle.cells.specs.Netlists.{netlist_of};
ghost use Rattle.fitter.specs.Calls.{book_of_calls, Call, map_by};
ghost use Rattle.fitter.specs.History.{Did, Handled};
ghost use Rattle.fitter.specs.Mapping.{AnswersFor, Mapped};
ghost use Rattle.std.specs.Prelude.{List, length};

use super::Job;
use cells::cover::Cover;
use choice::marks::Taken;
use covering::fill::fill;
use drawing::refusal::Refusal;
use family::Family;

impl Job {
    /// Fills the cover with the chosen cells and the table with the arrivals of all nodes, and answers two numbers: the cells, and
    /// the lists that were made. It keeps the lists that it makes.
    pub fn map<F: Family>(
        &mut self,
        family: &F,
        cover: &mut Cover,
        arrivals: &mut [F::Arrival],
    ) -> Result<(usize, usize), Refusal>
        ensures mapped { Mapped (F.delay family.now) self.old cover.old arrivals.old result self.new cover.new arrivals.new }
        ensures did { Did (map_by (F.delay family.now).width (length arrivals.old)) self.old self.new }
        ensures law { (h : List Call) → Handled h self.old → AnswersFor (F.delay family.now) (book_of_calls h) (length arrivals.old) result (netlist_of cover.new) }
    {
        if family.width() != self.width {
            return Err(Refusal::BadWidth);
        }
        if arrivals.len() < self.table.nodes().len() {
            return Err(Refusal::TooShort);
        }
        let made = self.make_lists()?;
        let cuts = self.take_cuts(family, arrivals);
        let job = &*self;
        let taken = Taken {
            table: &job.table,
            cuts: &cuts,
        };
        let cells = fill(family, &taken, job.width, cover);
        Ok((cells, made))
    }
}
