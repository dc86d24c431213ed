//! What is compared at one width, and how much of it.

use crate::flow::levels_of;
use crate::plain::{Plain, literal_value};
use crate::random::Random;
use cells::cover::Cover;
use cells::cover::evaluate::evaluate;
use drawing::refusal::Refusal;
use drawing::table::calls::MOST_NODES;
use family::Family;
use family::levels::Levels;
use fitter::job::Job;
use std::fmt;
use std::ops::AddAssign;

/// A count that stops at its largest number.
#[derive(Clone, Copy, Default)]
struct Count(u64);

impl AddAssign<u64> for Count {
    fn add_assign(&mut self, more: u64) {
        self.0 = self.0.saturating_add(more);
    }
}

impl fmt::Display for Count {
    fn fmt<W: fmt::Write>(&self, f: &mut fmt::Formatter<W>) -> fmt::Result {
        write!(f, "{}", self.0)
    }
}

/// Counts of what was compared, and of differences.
#[derive(Clone, Copy, Default)]
pub struct Tally {
    width: u8,
    crowded: Count,
    gates: Count,
    levels: Count,
    cells: Count,
    lists: Count,
    rows: Count,
    ones: Count,
    differences: Count,
}

impl Tally {
    pub fn new(width: u8) -> Tally {
        Tally {
            width,
            ..Tally::default()
        }
    }

    /// Maps the drawing at this width, and compares.
    pub fn compare(&mut self, job: &mut Job, random: &mut Random) {
        let mut cover = Cover::new();
        let mut arrivals = [0u16; 256];
        match self.map(job, &mut cover, &mut arrivals) {
            Ok((cells, lists)) => {
                self.cells += cells as u64;
                self.lists += lists as u64;
                let drawing = Plain::from(job.table());
                self.compare_levels(&drawing, &arrivals);
                self.compare_rows(&drawing, &cover, random);
            }
            Err(Refusal::Crowded(_)) => self.crowded += 1,
            Err(_) => self.differences += 1,
        }
    }

    fn map(
        &self,
        job: &mut Job,
        cover: &mut Cover,
        arrivals: &mut [u16],
    ) -> Result<(usize, usize), Refusal> {
        job.width(self.width)?;
        job.map(&Levels::new(self.width)?, cover, arrivals)
    }

    /// Compares the arrivals of all nodes with the levels that flows give.
    fn compare_levels(&mut self, drawing: &Plain, arrivals: &[u16; 256]) {
        let needed = drawing.needed();
        let levels = levels_of(*drawing, &needed, self.width);
        for ((level, arrival), needed) in levels.iter().zip(arrivals).zip(&needed) {
            if level != arrival {
                self.differences += 1;
            }
            if *needed {
                self.gates += 1;
                self.levels += u64::from(*level);
            }
        }
    }

    /// Compares the outputs under all rows, or under 64 rows where there are more than 6 inputs.
    fn compare_rows(&mut self, drawing: &Plain, cover: &Cover, random: &mut Random) {
        let inputs = drawing.inputs().min(MOST_NODES);
        let rows = if inputs < 6 { 1u16 << inputs } else { 64 };
        for m in 0..rows {
            let mut row = [0; MOST_NODES];
            for (i, place) in row.iter_mut().enumerate().take(inputs) {
                let bit = if i < 6 { m >> i & 1 } else { random.below(2) };
                *place = (bit & 1) as u8;
            }
            self.compare_row(drawing, cover, &row[..inputs]);
        }
    }

    /// Compares the outputs under a row.
    fn compare_row(&mut self, drawing: &Plain, cover: &Cover, row: &[u8]) {
        let values = drawing.simulate(row);
        let mut found = [2u8; 64];
        if evaluate(cover, row, &mut found).is_err() {
            self.differences += 1;
        }
        self.rows += 1;
        for (literal, value) in drawing.outputs.iter().zip(&found) {
            if literal_value(&values, *literal) != *value {
                self.differences += 1;
            }
            self.ones += u64::from(*value);
        }
    }
}

impl fmt::Display for Tally {
    fn fmt<W: fmt::Write>(&self, f: &mut fmt::Formatter<W>) -> fmt::Result {
        write!(
            f,
            "width {}: crowded {}, gates {}, levels {}, ",
            self.width, self.crowded, self.gates, self.levels
        )?;
        write!(
            f,
            "cells {}, lists {}, rows {}, ones {}, differences {}",
            self.cells, self.lists, self.rows, self.ones, self.differences
        )
    }
}
