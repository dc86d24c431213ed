//! Taking a cut for each needed gate.

ghost use Rattle.std.specs.Prelude.{◌≡◌, ◌≤◌, ◌++◌, length, drop};
ghost use Rattle.choice.specs.Choice.{Chosen};
ghost use Rattle.cuts.specs.Leaves.{sets_of};
ghost use Rattle.fitter.specs.Jobs.{book_of};
ghost use Rattle.fitter.specs.Taking.{AllKept, arrival_table};

use super::Job;
use choice::choose::arrive;
use choice::marks::reached;
use cuts::cut::Cut;
use drawing::table::calls::MOST_NODES;
use family::Family;

impl Job {
    /// Writes the arrivals of all nodes into the table, by rising number, and answers the cuts that the needed gates take.
    pub(crate) fn take_cuts<F: Family>(&self, family: &F, table: &mut [F::Arrival]) -> [Cut; 256]
        requires lists { AllKept self.now }
        requires room { length (book_of self.now).drawing.nodes ≤ length table.old }
        ensures cuts { Chosen (F.delay family.now) (book_of self.now).drawing.nodes (book_of self.now).drawing.outputs self.now.width (length (book_of self.now).drawing.nodes) (sets_of result) }
        ensures arrivals { table.new ≡ arrival_table (F.delay family.now) (book_of self.now) ++ drop (length (book_of self.now).drawing.nodes) table.old }
    {
        let marks = reached(&self.table);
        let mut cuts = [Cut::empty(); MOST_NODES];
        // by number, since a cut and an arrival are written for each node from the arrivals of those below it
        for v in 0..self.table.nodes().len() {
            let needed = self.needs(v as u8, &marks);
            let list = needed.then_some(self.lists.row(v as u8));
            cuts[v] = arrive(family, list, v, table);
        }
        cuts
    }
}
