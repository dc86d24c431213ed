//! Why a call is refused.

ghost use Rattle.drawing.specs.Refusals.{number_of, refusal_text, rule_number};
ghost use Rattle.drawing.specs.declared.refusal.Refusal.TheVariants.{Text};
ghost use Rattle.std.specs.Prelude.{◌≡◌, Some};

use std::error::Error;
use std::fmt;

/// The rule of the text format that a fault breaks.
#[derive(Clone, Copy, Debug, PartialEq, Eq)]
pub enum Rule {
    /// A byte that breaks the pattern.
    Pattern = 6,
    /// Header figures outside the rules.
    Figures = 7,
    /// A literal outside the rules.
    Literal = 8,
}

impl Rule {
    /// The number that the rule goes by.
    pub fn number(self) -> u8
        ensures { result ≡ rule_number self }
    {
        self as u8
    }
}

/// A fault of a text: the rule, the byte where it shows, and that byte's line, both counted from 0.
#[derive(Clone, Copy, Debug, PartialEq, Eq)]
pub struct Fault {
    pub rule: Rule,
    pub byte: usize,
    pub line: usize,
}

/// What a call answers when it refuses.
#[derive(Clone, Copy, Debug, PartialEq, Eq)]
pub enum Refusal {
    /// 1: one more node than a drawing may have.
    NodesFull,
    /// 2: one more output than a drawing may have.
    OutputsFull,
    /// 3: a literal of a node that does not exist, or that is not below the gate.
    BadLiteral,
    /// 4: a number that is no gate's.
    NotAGate,
    /// 5: a width that no part has, or a family of another width.
    BadWidth,
    /// 6, 7, 8: a fault of a text.
    Text(Fault),
    /// 9: an arrival table, a buffer or a row that is not long enough.
    TooShort,
    /// 10: a needed gate, here named, with more least cuts than a list holds.
    Crowded(u8),
    /// 11: a byte of a row that is above 1, at this index.
    BadBit(usize),
    /// 12: a section past the last.
    NoSection,
}

impl Refusal {
    /// The number that the refusal goes by.
    pub fn number(self) -> u8
        ensures { result ≡ number_of self }
    {
        match self {
            Refusal::NodesFull => 1,
            Refusal::OutputsFull => 2,
            Refusal::BadLiteral => 3,
            Refusal::NotAGate => 4,
            Refusal::BadWidth => 5,
            Refusal::Text(fault) => fault.rule.number(),
            Refusal::TooShort => 9,
            Refusal::Crowded(_) => 10,
            Refusal::BadBit(_) => 11,
            Refusal::NoSection => 12,
        }
    }
}

/// `refused`, the refusal's number, and its place where it has one.
impl fmt::Display for Refusal {
    ghost output = { λ r. Some (refusal_text r) };

    fn fmt<W: fmt::Write>(&self, f: &mut fmt::Formatter<W>) -> fmt::Result {
        let number = self.number();
        match *self {
            Refusal::Text(Fault { byte, line, .. }) => {
                write!(f, "refused {number} at {byte} line {line}")
            }
            Refusal::Crowded(gate) => write!(f, "refused {number} at {gate}"),
            Refusal::BadBit(index) => write!(f, "refused {number} at {index}"),
            _ => write!(f, "refused {number}"),
        }
    }
}

impl Error for Refusal {}

/// A fault of a text is passed on as the refusal of the call that read it.
impl From<Fault> for Refusal {
    ghost from_gives = { λ f r. r ≡ Text f };

    fn from(fault: Fault) -> Refusal {
        Refusal::Text(fault)
    }
}
