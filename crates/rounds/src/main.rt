//! Maps the drawing on standard input over and over by Levels, for timing, and prints the cells and lists of all rounds:
//! `rounds WIDTH ROUNDS load|fresh|kept`.
#![tactic(auto)]

use anyhow::{Context, bail};
use cells::cover::Cover;
use drawing::refusal::Refusal;
use family::Family;
use family::levels::Levels;
use fitter::job::Job;
use std::error::Error;
use std::io::Read;
use std::rt::Env;
use std::str::FromStr;
use std::{env, fmt};

/// What each round does. A map that follows a map keeps every list.
#[derive(Clone, Copy, PartialEq, Eq)]
enum Mode {
    /// It reads the text again.
    Load,
    /// It reads the text again, and maps.
    Fresh,
    /// It maps.
    Kept,
}

/// A word that names no mode.
#[derive(Clone, Copy, Debug)]
struct NoSuchMode;

impl fmt::Display for NoSuchMode {
    fn fmt<W: fmt::Write>(&self, f: &mut fmt::Formatter<W>) -> fmt::Result {
        write!(f, "no such mode")
    }
}

impl Error for NoSuchMode {}

impl FromStr for Mode {
    type Err = NoSuchMode;

    fn from_str(word: &str) -> Result<Mode, NoSuchMode> {
        match word {
            "load" => Ok(Mode::Load),
            "fresh" => Ok(Mode::Fresh),
            "kept" => Ok(Mode::Kept),
            _ => Err(NoSuchMode),
        }
    }
}

/// What the command line asks for.
#[derive(Clone, Copy)]
struct Plan {
    width: u8,
    rounds: u32,
    mode: Mode,
}

impl Plan {
    /// Reads the arguments behind the program's name.
    fn read(rt: &(impl Env + Alloc)) -> anyhow::Result<Plan> {
        let mut args = env::args(rt)?.skip(1);
        let width = args.next().context("no width")?.as_str().parse::<u8>()?;
        let rounds = args.next().context("no rounds")?.as_str().parse::<u32>()?;
        let mode = args.next().context("no mode")?.as_str().parse::<Mode>()?;
        Ok(Plan {
            width,
            rounds,
            mode,
        })
    }

    /// Reads the text, and then goes the rounds.
    fn go(&self, text: &[u8]) -> Result<Sums, Refusal> {
        let mut job = Job::new();
        job.width(self.width)?;
        job.load(text)?;
        let family = Levels::new(self.width)?;
        let mut cover = Cover::new();
        let mut arrivals = [0u16; 256];
        let mut sums = Sums::default();
        for _ in 0..self.rounds {
            if self.mode != Mode::Kept {
                job.load(text)?;
            }
            if self.mode != Mode::Load {
                sums.add(job.map(&family, &mut cover, &mut arrivals)?);
            }
        }
        Ok(sums)
    }
}

/// The cells and the lists of all rounds.
#[derive(Clone, Copy, Default)]
struct Sums {
    cells: u64,
    lists: u64,
}

impl Sums {
    /// Adds those of a round.
    fn add(&mut self, (cells, lists): (usize, usize)) {
        self.cells = self.cells.saturating_add(cells as u64);
        self.lists = self.lists.saturating_add(lists as u64);
    }
}

impl fmt::Display for Sums {
    fn fmt<W: fmt::Write>(&self, f: &mut fmt::Formatter<W>) -> fmt::Result {
        write!(f, "cells {} lists {}", self.cells, self.lists)
    }
}

fn main(rt: HostRuntime) -> anyhow::Result<()> {
    let plan = Plan::read(&rt)?;
    let mut text = Vec::new(rt.alloc());
    let _ = rt.stdin().read_to_end(&mut text)?;
    match plan.go(text.as_slice()) {
        Ok(sums) => println!(rt; "{sums}")?,
        Err(refusal) => {
            println!(rt; "refused {}", refusal.number())?;
            bail!("refused");
        }
    }
    Ok(())
}
