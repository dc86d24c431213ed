//! Widths: the most leaves that the cells of a family have.

ghost use Rattle.family.specs.Supplied.{is_width, MadeFor};
ghost use Rattle.std.specs.Prelude.{◌≡◌, true};

use drawing::refusal::Refusal;

/// A width that a part has, which is 2 to 5 leaves.
#[derive(Clone, Copy, Debug, PartialEq)]
pub struct Width {
    leaves: u8,
    ghost known: { is_width leaves ≡ true },
}

impl TryFrom<u8> for Width {
    type Error = Refusal;

    ghost try_from_gives = { MadeFor (λ w. w.leaves) };

    fn try_from(leaves: u8) -> Result<Width, Refusal> {
        match leaves {
            2..=5 => Ok(Width { leaves }),
            _ => Err(Refusal::BadWidth),
        }
    }
}

impl From<Width> for u8 {
    ghost from_gives = { λ w n. (n ≡ w.leaves) × (is_width n ≡ true) };

    fn from(width: Width) -> u8 {
        width.leaves
    }
}
