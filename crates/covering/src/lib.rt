//! The last pass of map: filling a cover with the chosen cells.
#![tactic(auto)]

pub mod fill;

ghost use Rattle.covering.specs.Claims.{ChosenAgrees, ChosenBest, ChosenCovers, ChosenEarliest, ChosenFirst, ChosenFits, ChosenNarrow, RivalsCover};

use family::Family;

/// What is proved of the chosen cover, for every family.
pub fn chosen_stands<F: Family>(family: &F)
    ensures covers { ChosenCovers (F.delay family.now) }
    ensures agrees { ChosenAgrees (F.delay family.now) }
    ensures narrow { ChosenNarrow (F.delay family.now) }
    ensures fits { ChosenFits (F.delay family.now) }
    ensures rivals { RivalsCover }
    ensures earliest { ChosenEarliest (F.delay family.now) }
    ensures first { ChosenFirst (F.delay family.now) }
    ensures best { ChosenBest (F.delay family.now) }
{}
