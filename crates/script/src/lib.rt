//! The commands of a script that handles a job, and how a line is read as one.
#![tactic(auto)]

pub mod command;
mod fields;
mod number;
pub mod parse;
mod verb;
mod word;
