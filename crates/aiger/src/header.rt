//! The header of a text.

ghost use Rattle.std.specs.Prelude.{◌≡◌, false, length, MatchOption};
ghost use Rattle.aiger.specs.Reads.{headed};
ghost use Rattle.aiger.specs.States.{Announces};

use drawing::table::calls::{MOST_NODES, MOST_OUTPUTS};

/// What a header announces: the number of the last node, and how many lines of each part follow.
#[derive(Clone, Copy)]
pub struct Header {
    pub(crate) last: usize,
    pub(crate) inputs: usize,
    pub(crate) outputs: usize,
    pub(crate) gates: usize,
}

impl Header {
    /// The header of the figures `M I L O A`, if they are inside the rules.
    pub(crate) fn of(figures: &[u16]) -> Option<Header>
        requires { length figures.now ≡ 5 }
        ensures { MatchOption result (headed figures.now ≡ false) (Announces figures.now) }
    {
        match figures {
            &[last, inputs, 0, outputs, gates]
                if usize::from(last) == usize::from(inputs) + usize::from(gates)
                    && usize::from(last) < MOST_NODES
                    && usize::from(outputs) <= MOST_OUTPUTS => {
                Some(Header {
                    last: usize::from(last),
                    inputs: usize::from(inputs),
                    outputs: usize::from(outputs),
                    gates: usize::from(gates),
                })
            }
            _ => None,
        }
    }
}
