//! Lookup cells: their truth tables, the cover of a drawing by cells, and what a cover answers to a row.
#![tactic(auto)]

pub mod cell;
pub mod cover;
pub mod table;

ghost use Rattle.cells.specs.Covers.{CoversAgree};
ghost use Rattle.cells.specs.Laws.{TablesFilled};

/// What is proved of covers: one that covers a drawing answers every row as the drawing does.
pub fn covers_agree()
    ensures { CoversAgree }
{}

/// What is proved of the tables of covers: the bits that no row of the leaves reaches are filled by the one rule.
pub fn tables_filled()
    ensures { TablesFilled }
{}
