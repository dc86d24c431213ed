//! The drawing of AND gates and inverters: its nodes and outputs, the refusals that calls answer with,
//! and the definitions of values, of what depends on what, and of which gates are needed.
#![tactic(auto)]

pub mod node;
pub mod nodes;
pub mod refusal;
pub mod table;
