//! A family of a user's own, and tests of the families.
#![tactic(auto)]

pub mod ranks;
#[cfg(test)]
mod tests;
