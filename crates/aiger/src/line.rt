//! A line of numbers, byte by byte.

ghost use Rattle.std.specs.Prelude.{◌+◌, ◌<◌, ◌≤◌, length};

use arrayvec::ArrayVec;
use drawing::refusal::{Fault, Rule};
use std::mem;

/// The line that is being read.
#[derive(Drop)]
pub struct Line {
    /// The line's number, counted from 0.
    row: usize,
    /// Its first byte.
    start: usize,
    /// The byte that comes next.
    pos: usize,
    /// How many numbers come after this one.
    pub(crate) more: usize,
    /// The numbers that are whole.
    numbers: ArrayVec<u16, 5>,
    /// The number so far, if it has begun.
    number: Option<u16>,
    ghost rows: { row ≤ pos },
    ghost room: { length numbers.items + more < 5 },
}

impl Line {
    ghost use Rattle.std.specs.Prelude.{◌≡◌, ◌≢◌, ◌^◌, Some, None, MatchResult};
    ghost use Rattle.aiger.specs.Reads.{act, Digit, Stop};
    ghost use Rattle.aiger.specs.States.{Breaks, broken_at, Closes, First, Goes, misplaced_in, Passed};

    /// The first line of a text, which has five figures behind the first word.
    pub(crate) fn first() -> Line
        ensures { (First 0 result) × (result.pos ≡ 0) }
    {
        Line {
            row: 0,
            start: 0,
            pos: 0,
            more: 4,
            numbers: ArrayVec::new(),
            number: None,
        }
    }

    /// The next byte breaks the pattern.
    pub(crate) fn broken(&self) -> Fault
        ensures { result ≡ broken_at self.now }
    {
        Fault {
            rule: Rule::Pattern,
            byte: self.pos,
            line: self.row,
        }
    }

    /// A literal of this line is outside the rules.
    pub(crate) fn misplaced(&self) -> Fault
        ensures { result ≡ misplaced_in self.now }
    {
        Fault {
            rule: Rule::Literal,
            byte: self.start,
            line: self.row,
        }
    }

    /// Moves on behind this byte, where the next line may begin.
    pub(crate) fn pass(&mut self, byte: u8)
        requires { self.old.pos + 1 < 2 ^ 64 }
        ensures { Passed byte self.old self.new }
    {
        self.pos += 1;
        if byte == b'\n' {
            self.row += 1;
            self.start = self.pos;
        }
    }

    /// The number so far with one more digit. A number has at most three digits, and only 0 itself begins with 0: so a
    /// digit may follow the number v exactly where 0 < v < 100.
    fn digit(&self, byte: u8) -> Result<u16, Fault>
        requires { (48 ≤ byte) × (byte < 58) }
        ensures { MatchResult result (λ v. act self.now.more self.now.number byte ≡ Digit v) (λ f. (act self.now.more self.now.number byte ≡ Stop) × (f ≡ broken_at self.now)) }
    {
        let digit = u16::from(byte - b'0');
        match self.number {
            None => Ok(digit),
            Some(v) if 0 < v && v < 100 => Ok(10 * v + digit),
            Some(_) => Err(self.broken()),
        }
    }

    /// One more byte of the line, other than the one that ends it.
    pub(crate) fn take(&mut self, byte: u8) -> Result<(), Fault>
        requires { byte ≢ 10 }
        ensures { MatchResult result (λ _. Goes self.old byte self.new) (λ f. Breaks self.old byte f) }
    {
        match (byte, self.number) {
            (b'0'..=b'9', _) => {
                self.number = Some(self.digit(byte)?);
                Ok(())
            }
            (b' ', Some(number)) if self.more > 0 => {
                self.numbers.push(number);
                self.more -= 1;
                self.number = None;
                Ok(())
            }
            _ => Err(self.broken()),
        }
    }

    /// The byte that ends the line: all its numbers.
    pub(crate) fn close(&mut self) -> Result<ArrayVec<u16, 5>, Fault>
        ensures { MatchResult result (λ v. Closes self.old v.items self.new) (λ f. Breaks self.old 10 f) }
    {
        match self.number {
            Some(number) if self.more == 0 => {
                let mut numbers = mem::take(&mut self.numbers);
                numbers.push(number);
                self.number = None;
                Ok(numbers)
            }
            _ => Err(self.broken()),
        }
    }
}
