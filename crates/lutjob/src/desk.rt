//! The job of a script, and what its last accepted map gave.

use crate::answer::Answer;
use crate::console::Console;
use crate::kept::{write_kept, write_list};
use crate::mapped::{Arrivals, Mapped};
use aiger::{MOST_TEXT, write};
use cells::cover::Cover;
use drawing::refusal::Refusal;
use drawing::table::calls::MOST_NODES;
use family::Family;
use family::levels::Levels;
use family::pins::Pins;
use fitter::job::Job;
use script::command::{Command, Kind};
use script::parse::parse;
use std::io;
use std::io::{BufRead, Write};

/// A job, with the cover and the arrivals of its last accepted map.
#[derive(Drop)]
pub struct Desk {
    job: Job,
    cover: Cover,
    levels: [u16; MOST_NODES],
    pins: [(u16, u16); MOST_NODES],
    last: Option<Last>,
}

/// Which table the last accepted map filled, and for how many nodes.
#[derive(Clone, Copy)]
struct Last {
    kind: Kind,
    nodes: usize,
}

impl Desk {
    pub fn new() -> Desk {
        Desk {
            job: Job::new(),
            cover: Cover::new(),
            levels: [0; MOST_NODES],
            pins: [(0, 0); MOST_NODES],
            last: None,
        }
    }

    /// Maps by the family of this name. A refusal leaves what the last accepted map gave.
    fn map(&mut self, kind: Kind, width: u8) -> Result<(usize, usize), Refusal> {
        let nodes = self.job.table().nodes().len();
        let cover = &mut self.cover;
        let answer = match kind {
            Kind::Levels => self.job.map(&Levels::new(width)?, cover, &mut self.levels)?,
            Kind::Pins => self.job.map(&Pins::new(width)?, cover, &mut self.pins)?,
        };
        self.last = Some(Last { kind, nodes });
        Ok(answer)
    }

    /// What the last accepted map gave.
    fn mapped(&self) -> Option<Mapped<'_>> {
        let Last { kind, nodes } = self.last?;
        let arrivals = match kind {
            Kind::Levels => Arrivals::Levels(self.levels.get(..nodes)?),
            Kind::Pins => Arrivals::Pins(self.pins.get(..nodes)?),
        };
        Some(Mapped {
            cover: &self.cover,
            arrivals,
        })
    }

    /// Loads a text, and answers how many nodes and outputs it has.
    fn load(&mut self, text: &[u8]) -> Result<(usize, usize), Refusal> {
        self.job.load(text)?;
        let table = self.job.table();
        Ok((table.nodes().len(), table.outputs().len()))
    }

    /// Writes the text of the drawing.
    fn write_drawing<R: BufRead + Drop, W: Write + Drop>(
        &self,
        console: &mut Console<R, W>,
    ) -> io::Result<()> {
        let mut text = [0; MOST_TEXT];
        let written = write(self.job.table(), &mut text);
        console.write_text(written, &text)
    }

    /// Writes what the last accepted map gave, by this function.
    fn tell<R, W, T>(&self, console: &mut Console<R, W>, tell: T) -> io::Result<()>
    where
        R: BufRead + Drop,
        W: Write + Drop,
        T: FnOnce(&Mapped, &mut Console<R, W>) -> io::Result<()>,
        requires { T.IsAlwaysCallable tell }
    {
        match self.mapped() {
            Some(mapped) => tell(&mapped, console),
            None => console.write_line(Answer::Nothing),
        }
    }

    /// Does what a command asks, and writes the answer.
    fn obey<R: BufRead + Drop, W: Write + Drop>(
        &mut self,
        command: Command,
        console: &mut Console<R, W>,
    ) -> io::Result<()> {
        match command {
            Command::Input => console.answer(self.job.input()),
            Command::Gate(pair) => console.answer(self.job.gate(pair)),
            Command::Output(literal) => console.answer(self.job.output(literal)),
            Command::Retie(gate, pair) => console.answer(self.job.retie(gate, pair)),
            Command::Width(width) => console.answer(self.job.width(width)),
            Command::Load(size) => match console.next_text(size)? {
                Some(text) => console.answer(self.load(text.as_slice())),
                None => console.write_line(Answer::Unknown),
            },
            Command::Map(kind, width) => console.answer(self.map(kind, width)),
            Command::Arrivals => self.tell(console, |map, console| map.write_arrivals(console)),
            Command::Cover => self.tell(console, |map, console| map.write_cover(console)),
            Command::Evaluate(digits) => {
                self.tell(console, |map, console| map.write_values(digits, console))
            }
            Command::Write => self.write_drawing(console),
            Command::Kept => write_kept(&self.job, console),
            Command::List(gate) => match self.job.list(gate) {
                Some(list) => write_list(list, console),
                None => console.write_line(Answer::NotKept),
            },
            Command::Comment(_) => Ok(()),
        }
    }

    /// Answers a line. The text that a `load` announces is read from the script too.
    pub fn handle<R: BufRead + Drop, W: Write + Drop>(
        &mut self,
        line: &[u8],
        console: &mut Console<R, W>,
    ) -> io::Result<()> {
        match parse(line) {
            Some(command) => self.obey(command, console),
            None => console.write_line(Answer::Unknown),
        }
    }
}
