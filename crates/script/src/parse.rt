//! Reading a line.

ghost use Rattle.script.specs.Fields.{then};
ghost use Rattle.script.specs.Lines.{Fits, line_of};
ghost use Rattle.script.specs.Names.{verb_name};
ghost use Rattle.script.specs.Reads.{Reads};
ghost use Rattle.std.specs.Prelude.{◌≡◌, ◌∷◌, MatchOption, ◌≢◌, slice_index};

use crate::command::Command;
use crate::fields::{Field, row};
use crate::verb::Verb;
use crate::word::split;

/// A command of one word.
fn alone<'a>(verb: Verb) -> Option<Command<'a>>
    ensures { Reads Fits line_of (verb_name verb) result }
{
    match verb {
        Verb::Input => Some(Command::Input),
        Verb::Arrivals => Some(Command::Arrivals),
        Verb::Cover => Some(Command::Cover),
        Verb::Evaluate => Some(Command::Evaluate(&[])),
        Verb::Write => Some(Command::Write),
        Verb::Kept => Some(Command::Kept),
        Verb::Gate
        | Verb::Output
        | Verb::Retie
        | Verb::Width
        | Verb::Load
        | Verb::Map
        | Verb::List => None,
    }
}

/// A command with fields.
fn with_fields(verb: Verb, rest: &[u8]) -> Option<Command<'_>>
    ensures { Reads Fits line_of (then (verb_name verb) rest.now) result }
{
    match verb {
        Verb::Gate => Some(Command::Gate(Field::read(rest)?)),
        Verb::Output => Some(Command::Output(Field::read(rest)?)),
        Verb::Retie => {
            let (gate, pair) = Field::read(rest)?;
            Some(Command::Retie(gate, pair))
        }
        Verb::Width => Some(Command::Width(Field::read(rest)?)),
        Verb::Load => Some(Command::Load(Field::read(rest)?)),
        Verb::Map => {
            let (kind, width) = Field::read(rest)?;
            Some(Command::Map(kind, width))
        }
        Verb::Evaluate => Some(Command::Evaluate(row(rest)?)),
        Verb::List => Some(Command::List(Field::read(rest)?)),
        Verb::Input | Verb::Arrivals | Verb::Cover | Verb::Write | Verb::Kept => None,
    }
}

/// What stands behind the sign of a comment.
fn comment(line: &[u8]) -> Option<&[u8]>
    ensures { MatchOption result ((slice_index line.now 0 ≢ 35)) (λ t. 35 ∷ t.now ≡ line.now) }
{
    match line {
        [b'#', text @ ..] => Some(text),
        _ => None,
    }
}

/// The command that a line is, without its end.
pub fn parse(line: &[u8]) -> Option<Command<'_>>
    ensures { Reads Fits line_of line.now result }
{
    if let Some(text) = comment(line) {
        return Some(Command::Comment(text));
    }
    let (word, rest) = split(line);
    let verb = Verb::named(word)?;
    match rest {
        None => alone(verb),
        Some(rest) => with_fields(verb, rest),
    }
}
