//! Worked figures: small drawings with the lists of cuts, cells, tables and arrivals that the definitions give for them.
#![tactic(auto)]

ghost use Rattle.figures.specs.Figures.{figures, FiguresHold};
ghost use Rattle.std.specs.Prelude.{length, ◌≡◌};

/// The definitions give what the list of figures says. Answers how many entries the list has.
pub fn figures_hold() -> u8
    ensures hold { FiguresHold }
    ensures entries { result ≡ length figures }
{
    15
}
