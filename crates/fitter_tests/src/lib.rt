//! Tests of jobs: the worked figures, the refusals, and histories of calls.
#![tactic(auto)]

#[cfg(test)]
mod compare;
#[cfg(test)]
mod figures;
#[cfg(test)]
mod histories;
#[cfg(test)]
mod refusals;
