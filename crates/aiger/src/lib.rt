//! The text of a drawing, in a subset of ASCII AIGER (format 20071012): reading and writing it.
//!
//! Every line ends with byte 10, and one space stands between two numbers. A number has one to three decimal digits,
//! and only 0 itself begins with 0. The first line is `aag M I L O A`, with L = 0, M = I + A, M at most 255 and O at
//! most 64. Then come I lines of inputs and O lines of outputs, a literal each, and A lines of gates: the gate's
//! literal and its two fanin literals. The literals of inputs are even and rise from at least 2; those of gates are
//! even, rise and name no input; none names a node above M; the fanins of a gate are below it. Nothing follows the
//! last line.
//!
//! The first line with a fault decides, and in a line the pattern comes before the numbers. A fault of the pattern is
//! at the byte that breaks it, or at the text's length where the text ends early; one of the header's figures is at
//! byte 0; one of a literal is at its line's first byte.
#![tactic(auto)]

mod draft;
mod header;
mod line;
mod part;
mod reader;
mod writer;

ghost use Rattle.aiger.specs.Laws.{BreaksForGood, EndsEarly, Examples, OnlyTexts, PlacesFaults, ReadsBack, ShortTexts};

pub use reader::read;
pub use writer::{MOST_TEXT, write};

/// What is proved of the format.
pub fn format_stands()
    ensures only { OnlyTexts }
    ensures back { ReadsBack }
    ensures short { ShortTexts }
    ensures places { PlacesFaults }
    ensures breaks { BreaksForGood }
    ensures early { EndsEarly }
    ensures examples { Examples }
{}
