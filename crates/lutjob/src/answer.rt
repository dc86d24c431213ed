//! Answers of one line.

use drawing::refusal::Refusal;
use std::fmt;

/// The answer to a command.
#[derive(Clone, Copy, Debug, PartialEq)]
pub enum Answer {
    /// Done.
    Done,
    /// Done, with the number or the place of what was added.
    Added(u8),
    /// Done, with two numbers.
    Counted(usize, usize),
    Refused(Refusal),
    /// There is no accepted map to tell of.
    Nothing,
    /// The list of the gate is not kept.
    NotKept,
    /// The line is no command.
    Unknown,
}

impl From<()> for Answer {
    fn from(_done: ()) -> Answer {
        Answer::Done
    }
}

impl From<u8> for Answer {
    fn from(number: u8) -> Answer {
        Answer::Added(number)
    }
}

impl From<(usize, usize)> for Answer {
    fn from((first, second): (usize, usize)) -> Answer {
        Answer::Counted(first, second)
    }
}

impl<T: Into<Answer>> From<Result<T, Refusal>> for Answer {
    fn from(outcome: Result<T, Refusal>) -> Answer {
        match outcome {
            Ok(value) => value.into(),
            Err(refusal) => Answer::Refused(refusal),
        }
    }
}

impl fmt::Display for Answer {
    fn fmt<W: fmt::Write>(&self, f: &mut fmt::Formatter<W>) -> fmt::Result {
        match *self {
            Answer::Done => write!(f, "ok"),
            Answer::Added(number) => write!(f, "ok {number}"),
            Answer::Counted(first, second) => write!(f, "ok {first} {second}"),
            Answer::Refused(refusal) => write!(f, "{refusal}"),
            Answer::Nothing => write!(f, "nothing"),
            Answer::NotKept => write!(f, "none"),
            Answer::Unknown => write!(f, "unknown"),
        }
    }
}
