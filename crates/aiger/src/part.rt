//! The parts of a text.

ghost use Rattle.aiger.specs.Reads.{width};
ghost use Rattle.std.specs.Prelude.{◌≡◌};

/// What a line below the header is of.
#[derive(Clone, Copy)]
pub enum Kind {
    Inputs,
    Outputs,
    Gates,
}

impl Kind {
    /// How many numbers come after the first in a line of this kind.
    pub(crate) fn width(self) -> usize
        ensures { result ≡ width self }
    {
        match self {
            Kind::Inputs | Kind::Outputs => 0,
            Kind::Gates => 2,
        }
    }
}

/// The part of a text that a reader stands in.
#[derive(Clone, Copy)]
pub enum Part {
    /// The first word, of which so many letters are read.
    Word(usize),
    /// The header's figures.
    Header,
    /// A line below the header.
    Lines(Kind),
    /// Behind the last line.
    End,
}
