//! Part families: what a family of cells tells of arrivals, two that are supplied, and the arrival of a cell.
#![tactic(auto)]

pub mod fold;
pub mod levels;
pub mod pins;
pub mod width;

ghost use Rattle.family.specs.Family.{Delay, Laws};
ghost use Rattle.std.specs.Prelude.{◌≡◌};

/// A family of lookup cells with at most `width` leaves each. `delay` is what it tells, and `lawful` that this keeps the five laws.
pub trait Family {
    /// When a node's value is there.
    type Arrival: Copy;

    ghost delay: { Self → Delay Self.Arrival };

    /// The most leaves that its cells have.
    fn width(&self) -> u8
        ensures { result ≡ (delay self.now).width };

    /// The arrival of node 0 and of the inputs.
    fn start(&self) -> Self::Arrival
        ensures { result ≡ (delay self.now).start };

    /// Whether `r` is not later than `s`.
    fn not_later(&self, r: Self::Arrival, s: Self::Arrival) -> bool
        ensures { result ≡ (delay self.now).not_later r s };

    /// The arrival of a cell's result, by the latest arrival among its leaves and their number.
    fn result(&self, latest: Self::Arrival, leaves: u8) -> Self::Arrival
        ensures { result ≡ (delay self.now).result latest leaves };

    ghost lawful: { (f : Self) → Laws (delay f) };
}
