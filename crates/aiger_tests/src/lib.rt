//! Tests of reading and writing drawings as text.
#![tactic(auto)]

#[cfg(test)]
mod texts;
