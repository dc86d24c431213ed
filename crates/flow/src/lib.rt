//! From a text to its cell list, and a walk through all calls.
#![tactic(auto)]

pub mod listing;
pub mod walk;
