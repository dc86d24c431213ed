//! Numbers that look random and are the same in every run.

ghost use Rattle.std.specs.Prelude.{◌<◌};

/// A linear congruential generator of 32 bits; its upper half is used.
// the kit's generators give other numbers, and so other drawings than those whose counts this program prints
#[derive(Drop)]
pub struct Random {
    state: u32,
}

impl Random {
    pub fn new(seed: u32) -> Random {
        Random { state: seed }
    }

    /// A number below the bound; 0 where the bound is 0.
    pub fn below(&mut self, bound: u16) -> u16
        ensures { 0 < bound → result < bound }
    {
        self.state = self.state.wrapping_mul(1664525).wrapping_add(1013904223);
        if bound == 0 {
            return 0;
        }
        (self.state >> 16) as u16 % bound
    }
}
