//! The first word of a line.

pub mod named;

/// What a line asks for.
#[derive(Clone, Copy, Debug, PartialEq)]
pub enum Verb {
    Input,
    Gate,
    Output,
    Retie,
    Width,
    Load,
    Map,
    Arrivals,
    Cover,
    Evaluate,
    Write,
    Kept,
    List,
}
