//! How map chooses among cuts, and which nodes it has to look at.
#![tactic(auto)]

pub mod choose;
pub mod marks;

ghost use Rattle.choice.specs.Rivals.{BestIsFirst, BestIsReached, NeededSuffice, OutputsFirst};

use family::Family;

/// What is proved of the choice, for every family.
pub fn choice_stands<F: Family>(family: &F)
    ensures first { BestIsFirst (F.delay family.now) }
    ensures reached { BestIsReached (F.delay family.now) }
    ensures outputs { OutputsFirst (F.delay family.now) }
    ensures needed { NeededSuffice (F.delay family.now) }
{}
