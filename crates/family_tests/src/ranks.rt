//! Arrivals that are compared by their rank alone, and carry a tag that tells where they come from.

ghost use Rattle.family.specs.Supplied.{MadeFor};
ghost use Rattle.family_tests.specs.Ranks.{ranks};
ghost use Rattle.std.proofs.Common.{rules, arith};

use drawing::refusal::Refusal;
use family::Family;
use family::width::Width;

/// When a value is there: the number of cells in a row, and a tag. Of two arrivals with one rank neither is earlier,
/// whatever their tags are.
#[derive(Clone, Copy, Debug, PartialEq)]
pub struct Rank {
    pub rank: u16,
    pub tag: u16,
}

/// Each cell has one rank more than its latest leaf, and the tag of that leaf times 6 plus its number of leaves. So a
/// tag spells, in base 6, the numbers of leaves on one latest way.
#[derive(Clone, Copy)]
pub struct Ranks {
    width: Width,
}

impl Ranks {
    /// The family of this width, which is 2 to 5.
    pub fn new(width: u8) -> Result<Ranks, Refusal>
        ensures { MadeFor (λ f. f.width.leaves) width result }
    {
        let width = Width::try_from(width)?;
        Ok(Ranks { width })
    }
}

impl Family for Ranks {
    type Arrival = Rank;

    ghost delay = { λ f. ranks f.width.leaves };

    ghost lawful = { first_of (Prim.search rules, Prim.grind (arith, Self.row.coded.inj)) };

    fn width(&self) -> u8 {
        u8::from(self.width)
    }

    fn start(&self) -> Rank {
        Rank { rank: 0, tag: 0 }
    }

    fn not_later(&self, r: Rank, s: Rank) -> bool {
        r.rank <= s.rank
    }

    fn result(&self, latest: Rank, leaves: u8) -> Rank {
        Rank {
            rank: latest.rank.saturating_add(1),
            tag: latest.tag.wrapping_mul(6).wrapping_add(u16::from(leaves)),
        }
    }
}
