//! What an accepted map gave.

use crate::answer::Answer;
use crate::console::Console;
use crate::joined::spaced;
use arrayvec::ArrayVec;
use blif::section::{sections, write_section};
use cells::cover::Cover;
use cells::cover::evaluate::evaluate;
use drawing::table::calls::{MOST_NODES, MOST_OUTPUTS};
use std::fmt::Display;
use std::io::{BufRead, Write};
use std::{fmt, io};

/// No section of a cell list is longer.
const MOST_SECTION: usize = 2048;

/// The arrivals of all nodes.
#[derive(Clone, Copy)]
pub enum Arrivals<'a> {
    Levels(&'a [u16]),
    Pins(&'a [(u16, u16)]),
}

/// An arrival as levels and pins.
#[derive(Clone, Copy, Default)]
struct LevelsPins((u16, u16));

impl Display for LevelsPins {
    fn fmt<W: fmt::Write>(&self, f: &mut fmt::Formatter<W>) -> fmt::Result {
        let (levels, pins) = self.0;
        write!(f, "{levels},{pins}")
    }
}

/// A cover, and the arrivals of all nodes.
#[derive(Clone, Copy)]
pub struct Mapped<'a> {
    pub cover: &'a Cover,
    pub arrivals: Arrivals<'a>,
}

impl Mapped<'_> {
    /// Writes the arrivals.
    pub fn write_arrivals<R: BufRead + Drop, W: Write + Drop>(
        &self,
        console: &mut Console<R, W>,
    ) -> io::Result<()> {
        match self.arrivals {
            Arrivals::Levels(levels) => console.write_line(spaced(levels)),
            Arrivals::Pins(pins) => {
                let mut shown: ArrayVec<LevelsPins, MOST_NODES> = ArrayVec::new();
                shown.extend(pins.iter().map(|pin| LevelsPins(*pin)))?;
                console.write_line(spaced(shown.as_slice()))
            }
        }
    }

    /// Writes the cell list of the cover.
    pub fn write_cover<R: BufRead + Drop, W: Write + Drop>(
        &self,
        console: &mut Console<R, W>,
    ) -> io::Result<()> {
        let mut text = [0; MOST_SECTION];
        for section in 0..sections(self.cover) {
            let written = write_section(self.cover, section, &mut text);
            console.write_text(written, &text)?;
        }
        Ok(())
    }

    /// Writes what the outputs of the cover are when the inputs have the values of these digits.
    pub fn write_values<R: BufRead + Drop, W: Write + Drop>(
        &self,
        digits: &[u8],
        console: &mut Console<R, W>,
    ) -> io::Result<()> {
        let row: Vec<u8> = digits
            .iter()
            .map(|digit| digit.saturating_sub(b'0'))
            .collect(console.heap())?;
        let mut values = [0; MOST_OUTPUTS];
        match evaluate(self.cover, row.as_slice(), &mut values) {
            Ok(()) => console.write_digits(&values[..self.cover.outputs().len()]),
            Err(refusal) => console.write_line(Answer::Refused(refusal)),
        }
    }
}
