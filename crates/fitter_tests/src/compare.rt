//! Making jobs, mapping them, and comparing what they hold.

use cells::cover::Cover;
use cuts::cut::Cut;
use drawing::node::Pair;
use drawing::refusal::Refusal;
use family::Family;
use family::levels::Levels;
use fitter::job::Job;

/// A gate's two literals.
pub fn pair((left, right): (u16, u16)) -> Pair {
    Pair { left, right }
}

/// A job with so many inputs and these gates and outputs.
pub fn made(inputs: u8, gates: &[(u16, u16)], outputs: &[u16], width: u8) -> Result<Job, Refusal> {
    let mut job = Job::new();
    for _ in 0..inputs {
        let _ = job.input()?;
    }
    for gate in gates {
        let _ = job.gate(pair(*gate))?;
    }
    for literal in outputs {
        let _ = job.output(*literal)?;
    }
    job.width(width)?;
    Ok(job)
}

/// What a map fills: the cover, and the arrivals of all nodes.
#[derive(PartialEq, Drop)]
pub struct Mapped<A: Copy> {
    pub cover: Cover,
    pub arrivals: [A; 256],
}

impl<A: Copy> Mapped<A> {
    /// Before the first map, with this arrival in each place.
    pub fn filled(arrival: A) -> Mapped<A> {
        Mapped {
            cover: Cover::new(),
            arrivals: [arrival; 256],
        }
    }

    /// Maps by a family, and answers the cells and the lists that were made.
    pub fn map<F: Family<Arrival = A>>(
        &mut self,
        job: &mut Job,
        family: &F,
    ) -> Result<(usize, usize), Refusal> {
        job.map(family, &mut self.cover, &mut self.arrivals)
    }
}

impl Mapped<u16> {
    /// Maps by levels, and answers the cells and the lists that were made.
    pub fn map_levels(&mut self, job: &mut Job) -> Result<(usize, usize), Refusal> {
        self.map(job, &Levels::new(job.present_width())?)
    }
}

/// Whether a cut of the list has these leaves.
fn has_cut(list: &[Cut], leaves: &[u8]) -> bool {
    list.iter().any(|cut| cut.leaves() == leaves)
}

/// Whether the lists hold the same cuts; each cut stands in a list once.
// by hand, since the order of a list is open, and an equality that is derived would compare it
fn same_cuts(left: &[Cut], right: &[Cut]) -> bool {
    left.len() == right.len() && left.iter().all(|cut| has_cut(right, cut.leaves()))
}

/// Whether the same gates are kept, and with the same lists.
pub fn same_kept(left: &Job, right: &Job) -> bool {
    (0..=255u8).all(|v| match (left.list(v), right.list(v)) {
        (None, None) => !left.is_kept(v) && !right.is_kept(v),
        (Some(one), Some(other)) => same_cuts(one, other),
        _ => false,
    })
}

/// How many cuts the kept list of a gate has, where it is kept.
pub fn cuts_of(job: &Job, gate: u8) -> Option<usize> {
    job.list(gate).map(|list| list.len())
}

/// Whether the kept list of the gate has a cut of these leaves.
pub fn takes(job: &Job, gate: u8, leaves: &[u8]) -> bool {
    job.list(gate).is_some_and(|list| has_cut(list, leaves))
}

/// Whether the cover has just one cell, with this root, these leaves and this table.
pub fn one_cell(cover: &Cover, root: u8, leaves: &[u8], table: u32) -> bool {
    match cover.cells() {
        [cell] => cell.root == root && cell.leaves() == leaves && cell.table == table,
        _ => false,
    }
}
