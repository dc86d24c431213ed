//! Reading the first word.

ghost use Rattle.script.specs.Names.{verb_name};
ghost use Rattle.script.specs.Reads.{Reads};

use super::Verb;

impl Verb {
    /// The verb of this name.
    pub fn named(word: &[u8]) -> Option<Verb>
        ensures { Reads (λ _. Unit {0}) verb_name word.now result }
    {
        match word {
            b"input" => Some(Verb::Input),
            b"gate" => Some(Verb::Gate),
            b"output" => Some(Verb::Output),
            b"retie" => Some(Verb::Retie),
            b"width" => Some(Verb::Width),
            b"load" => Some(Verb::Load),
            b"map" => Some(Verb::Map),
            b"arrivals" => Some(Verb::Arrivals),
            b"cover" => Some(Verb::Cover),
            b"evaluate" => Some(Verb::Evaluate),
            b"write" => Some(Verb::Write),
            b"kept" => Some(Verb::Kept),
            b"list" => Some(Verb::List),
            _ => None,
        }
    }
}
