//! Least cuts: stored cuts, and the making of a gate's list of least cuts from those of its fanins.
#![tactic(auto)]

pub mod cut;
pub mod list;

ghost use Rattle.cuts.specs.Claims.{LeavesDepend, ListsApart, ListsJoin, SurvivorsAre};

/// What is proved of the lists of least cuts.
pub fn lists_stand()
    ensures joined { ListsJoin }
    ensures leaves { LeavesDepend }
    ensures survivors { SurvivorsAre }
    ensures apart { ListsApart }
{}
