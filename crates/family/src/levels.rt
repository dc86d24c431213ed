//! Arrivals as levels: how many cells stand in a row.

ghost use Rattle.family.specs.Supplied.{levels, MadeFor};
ghost use Rattle.std.proofs.Common.{rules, arith};

use crate::Family;
use crate::width::Width;
use drawing::refusal::Refusal;

/// Each cell is one level later than its latest leaf, up to level 65,535.
#[derive(Clone, Copy)]
pub struct Levels {
    width: Width,
}

impl Levels {
    /// The family of this width, which is 2 to 5.
    pub fn new(width: u8) -> Result<Levels, Refusal>
        ensures { MadeFor (λ f. f.width.leaves) width result }
    {
        let width = Width::try_from(width)?;
        Ok(Levels { width })
    }
}

impl Family for Levels {
    type Arrival = u16;

    ghost delay = { λ f. levels f.width.leaves };

    ghost lawful = { first_of (Prim.search rules, Prim.grind (arith, Self.row.coded.inj)) };

    fn width(&self) -> u8 {
        u8::from(self.width)
    }

    fn start(&self) -> u16 {
        0
    }

    fn not_later(&self, r: u16, s: u16) -> bool {
        r <= s
    }

    fn result(&self, latest: u16, _leaves: u8) -> u16 {
        latest.saturating_add(1)
    }
}
