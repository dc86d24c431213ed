//! The arrivals of the nodes under a family: the latest among a cell's leaves, and that of the cell's result.

ghost use Rattle.std.specs.Prelude.{◌≡◌, ◌<◌, ◌≤◌, true, length, slice_index_or};
ghost use Rattle.drawing.specs.Sets.{below};
ghost use Rattle.family.specs.Family.{cell_arrival, later_of, latest_among};
ghost use Rattle.drawing.specs.Drawing.{most_leaves};
ghost use Rattle.family.specs.Folds.{CellNotLater, LatestIsLast, LatestRises, MoreNotEarlier, PartNotLater};

use crate::Family;

/// A family, and the arrivals of the nodes by number.
#[derive(Drop)]
pub struct Arrivals<'a, F: Family> {
    pub family: &'a F,
    pub table: &'a [F::Arrival],
}

impl<'a, F: Family> Arrivals<'a, F> {
    /// The arrival of a leaf.
    fn at(&self, leaf: u8) -> F::Arrival
        requires { leaf < length self.now.table.now }
        ensures { result ≡ slice_index_or self.now.table.now leaf (F.delay self.now.family.now).start }
    {
        self.table[leaf as usize]
    }

    /// The later of two arrivals, the first where the second is not later.
    fn later(&self, r: F::Arrival, s: F::Arrival) -> F::Arrival
        ensures { result ≡ later_of (F.delay self.now.family.now) r s }
    {
        if self.family.not_later(s, r) { r } else { s }
    }

    /// The latest arrival among the leaves, the first of the latest where several are, and the start where there are no leaves.
    pub fn latest(&self, leaves: &[u8]) -> F::Arrival
        requires { below (length self.now.table.now) leaves.now ≡ true }
        ensures { result ≡ latest_among (F.delay self.now.family.now) self.now.table.now leaves.now }
    {
        let [first, rest @ ..] = leaves else {
            return self.family.start();
        };
        let mut last = self.at(*first);
        for leaf in rest {
            last = self.later(last, self.at(*leaf));
        }
        last
    }

    /// The arrival of a cell with these leaves.
    pub fn cell(&self, leaves: &[u8]) -> F::Arrival
        requires within { below (length self.now.table.now) leaves.now ≡ true }
        requires few { length leaves.now ≤ most_leaves }
        ensures { result ≡ cell_arrival (F.delay self.now.family.now) self.now.table.now leaves.now }
    {
        self.family.result(self.latest(leaves), leaves.len() as u8)
    }
}

/// What holds of the latest arrival and of a cell's arrival, for every family.
pub fn fold_stands<F: Family>(family: &F)
    ensures last { LatestIsLast (F.delay family.now) }
    ensures table { LatestRises (F.delay family.now) }
    ensures part { PartNotLater (F.delay family.now) }
    ensures more { MoreNotEarlier (F.delay family.now) }
    ensures cell { CellNotLater (F.delay family.now) }
{}
