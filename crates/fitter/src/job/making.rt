//! Making the lists that are missing.

ghost use Rattle.std.specs.Prelude.{◌≡◌, ◌<◌, true, length};
ghost use Rattle.cuts.specs.Lists.{MadeIn};
ghost use Rattle.drawing.specs.Drawing.{at, is_gate};
ghost use Rattle.fitter.specs.Book.{needed_in};
ghost use Rattle.fitter.specs.Jobs.{book_of};
ghost use Rattle.fitter.specs.Making.{FaninsKept, KeptUpTo, Making, MakingAll, MakingNeeded, MarksNeeded};
ghost use Rattle.fitter.specs.Taking.{AllKept};

use super::Job;
use choice::marks::reached;
use cuts::cut::Cut;
use cuts::list::{Rows, list_in};
use drawing::node::Node;
use drawing::refusal::Refusal;

impl Job {
    /// Makes the list of a gate whose fanins have theirs in the rows, and lends it. `None` if it has too many cuts.
    fn list_of<'a>(&self, v: u8, rows: &'a mut Rows) -> Option<&'a [Cut]>
        requires gate { is_gate (at (book_of self.now).drawing.nodes v) ≡ true }
        requires fanins { FaninsKept self.now v }
        ensures { MadeIn (book_of self.now).drawing.nodes self.now.width v result }
    {
        let nodes = self.table.sound_nodes();
        let Node::Gate(pair) = nodes.node(usize::from(v)) else {
            unreachable()
        };
        let left = self.lists.row((pair.left / 2) as u8);
        let right = self.lists.row((pair.right / 2) as u8);
        list_in(rows, &nodes, v, self.width, left, right)
    }

    /// Makes and keeps the list of a gate whose fanins have theirs, unless it is kept. The answer is whether it was made.
    fn make(&mut self, v: u8, rows: &mut Rows) -> Result<bool, Refusal>
        requires gate { is_gate (at (book_of self.old).drawing.nodes v) ≡ true }
        requires fanins { FaninsKept self.old v }
        ensures { Making v self.old result self.new }
    {
        if self.lists.holds(v) {
            return Ok(false);
        }
        let list = self.list_of(v, rows).ok_or(Refusal::Crowded(v))?;
        self.lists.keep(v, list);
        Ok(true)
    }

    /// Whether node v is a needed gate.
    pub(super) fn needs(&self, v: u8, marks: &[bool; 256]) -> bool
        requires inside { v < length (book_of self.now).drawing.nodes }
        requires marked { MarksNeeded (book_of self.now).drawing marks.now }
        ensures { result ≡ needed_in (book_of self.now) v }
    {
        self.table.nodes()[v as usize].is_gate() && marks[v as usize]
    }

    /// Makes and keeps the list of node v if it is a needed gate, unless it is kept. The answer is whether it was made.
    fn make_needed(&mut self, v: u8, marks: &[bool; 256], rows: &mut Rows) -> Result<bool, Refusal>
        requires inside { v < length (book_of self.old).drawing.nodes }
        requires marked { MarksNeeded (book_of self.old).drawing marks.now }
        requires below { KeptUpTo self.old v }
        ensures { MakingNeeded v self.old result self.new }
    {
        if !self.needs(v, marks) {
            return Ok(false);
        }
        self.make(v, rows)
    }

    /// Whether the lists of all needed gates are kept.
    fn keeps_needed(&self, marks: &[bool; 256]) -> bool
        requires { MarksNeeded (book_of self.now).drawing marks.now }
        ensures { result ≡ true → AllKept self.now }
    {
        for v in 0..self.table.nodes().len() {
            if self.needs(v as u8, marks) && !self.lists.holds(v as u8) {
                return false;
            }
        }
        true
    }

    /// Makes and keeps the lists that the needed gates lack, by rising number, and answers how many these were.
    fn make_missing(&mut self, marks: &[bool; 256]) -> Result<usize, Refusal>
        requires { MarksNeeded (book_of self.old).drawing marks.now }
        ensures { MakingAll self.old result self.new }
    {
        let mut rows = Rows::new();
        let mut made = 0;
        // by number, since making a list changes the job, whose nodes could not be lent meanwhile
        for v in 0..self.table.nodes().len() {
            if self.make_needed(v as u8, marks, &mut rows)? {
                made += 1;
            }
        }
        Ok(made)
    }

    /// Makes and keeps the lists that the needed gates lack, and answers how many these were.
    pub(crate) fn make_lists(&mut self) -> Result<usize, Refusal>
        ensures { MakingAll self.old result self.new }
    {
        let marks = reached(&self.table);
        // new rows are blanked whole, so a map that has every list at hand goes without
        if self.keeps_needed(&marks) {
            return Ok(0);
        }
        self.make_missing(&marks)
    }
}
