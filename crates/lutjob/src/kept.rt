//! Answers that tell what a job keeps.

use crate::console::Console;
use crate::joined::{Joined, spaced};
use arrayvec::ArrayVec;
use cuts::cut::Cut;
use drawing::table::calls::MOST_NODES;
use fitter::job::Job;
use std::fmt::Display;
use std::io::{BufRead, Write};
use std::{fmt, io};

/// Writes the numbers of the kept gates, rising.
pub fn write_kept<R: BufRead + Drop, W: Write + Drop>(
    job: &Job,
    console: &mut Console<R, W>,
) -> io::Result<()> {
    let mut kept: ArrayVec<u8, MOST_NODES> = ArrayVec::new();
    for (gate, _) in (0..=255u8).zip(job.table().nodes()) {
        if job.is_kept(gate) {
            // there is room for all nodes
            let _ = kept.try_push(gate);
        }
    }
    console.write_line(spaced(kept.as_slice()))
}

/// The leaves of a cut.
#[derive(Clone, Copy)]
struct Leaves<'a>(&'a [u8]);

impl Display for Leaves<'_> {
    fn fmt<W: fmt::Write>(&self, f: &mut fmt::Formatter<W>) -> fmt::Result {
        let leaves = Joined {
            items: self.0,
            separator: ",",
        };
        write!(f, "{{{leaves}}}")
    }
}

/// Writes a list of cuts: first those with fewer leaves, and among as many first those with the smaller leaf at
/// the first difference.
pub fn write_list<R: BufRead + Drop, W: Write + Drop>(
    list: &[Cut],
    console: &mut Console<R, W>,
) -> io::Result<()> {
    let mut cuts: Vec<Leaves<'_>> = list
        .iter()
        .map(|cut| Leaves(cut.leaves()))
        .collect(console.heap())?;
    cuts.sort_unstable_by_key(|cut| (cut.0.len(), cut.0));
    console.write_line(spaced(cuts.as_slice()))
}
