//! The commands.

use drawing::node::Pair;

/// The name of a family.
#[derive(Clone, Copy, Debug, PartialEq)]
pub enum Kind {
    Levels,
    Pins,
}

/// A command of a script.
#[derive(Clone, Copy, Debug, PartialEq)]
pub enum Command<'a> {
    Input,
    Gate(Pair),
    Output(u16),
    Retie(u8, Pair),
    Width(u8),
    /// With the number of bytes of the text that follows the line.
    Load(usize),
    Map(Kind, u8),
    Arrivals,
    Cover,
    /// With a digit for each input.
    Evaluate(&'a [u8]),
    Write,
    Kept,
    List(u8),
    /// With what stands behind the sign `#`.
    Comment(&'a [u8]),
}
