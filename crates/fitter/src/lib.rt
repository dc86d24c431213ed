//! The job: a drawing, a width and kept lists of cuts, and the calls that handle it.
#![tactic(auto)]

mod above;
pub mod job;
pub mod kept;
