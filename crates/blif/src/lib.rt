//! The cell list of a cover as BLIF text, section by section.
#![tactic(auto)]

pub mod put;
pub mod section;
