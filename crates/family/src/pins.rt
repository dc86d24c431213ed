//! Arrivals as levels and pins: among equal levels the fewer pins are earlier.

ghost use Rattle.family.specs.Supplied.{pins, MadeFor};
ghost use Rattle.std.proofs.Common.{rules, arith};

use crate::Family;
use crate::width::Width;
use drawing::refusal::Refusal;

/// Each cell is one level later than its latest leaf and has a pin more for each leaf. The pins stop at 65,535;
/// from level 65,535 on both halves are 65,535, so that an arrival that is not later still gives a result that is not later.
#[derive(Clone, Copy)]
pub struct Pins {
    width: Width,
}

impl Pins {
    /// The family of this width, which is 2 to 5.
    pub fn new(width: u8) -> Result<Pins, Refusal>
        ensures { MadeFor (λ f. f.width.leaves) width result }
    {
        let width = Width::try_from(width)?;
        Ok(Pins { width })
    }
}

impl Family for Pins {
    type Arrival = (u16, u16);

    ghost delay = { λ f. pins f.width.leaves };

    ghost lawful = { first_of (Prim.search rules, Prim.grind (arith, Self.row.coded.inj)) };

    fn width(&self) -> u8 {
        u8::from(self.width)
    }

    fn start(&self) -> (u16, u16) {
        (0, 0)
    }

    fn not_later(&self, r: (u16, u16), s: (u16, u16)) -> bool {
        r <= s
    }

    fn result(&self, latest: (u16, u16), leaves: u8) -> (u16, u16) {
        if latest.0 < u16::MAX {
            (latest.0 + 1, latest.1.saturating_add(u16::from(leaves)))
        } else {
            (u16::MAX, u16::MAX)
        }
    }
}
