#![tactic(auto)]

pub mod count;
pub mod loss;
pub mod prices;
pub mod state_count;
#[cfg(test)]
mod tests;
pub mod theorems;

ghost use Rattle.std.specs.Prelude.{◌≡◌};
ghost use Rattle.sums.specs.Semiring.{Meaning, Semiring};

use rules::item_type::ItemType;

// A tally: figures that are added and multiplied, with one for a working and one for a failed item
// of each type. Its figures are a commutative semiring. No call refuses, and each answers alike
// each time.
pub trait Tally {
    type Figure: Copy;

    // The figures none and unit, plus and times, and the figures of each type.
    ghost meaning: { Self → Meaning Self.Figure };

    fn none(&self) -> Self::Figure
        ensures { result ≡ (meaning self.now).none };

    fn unit(&self) -> Self::Figure
        ensures { result ≡ (meaning self.now).unit };

    fn plus(&self, a: Self::Figure, b: Self::Figure) -> Self::Figure
        ensures { result ≡ (meaning self.now).plus a b };

    fn times(&self, a: Self::Figure, b: Self::Figure) -> Self::Figure
        ensures { result ≡ (meaning self.now).times a b };

    fn working(&self, item_type: ItemType) -> Self::Figure
        ensures { result ≡ (meaning self.now).working item_type };

    fn failed(&self, item_type: ItemType) -> Self::Figure
        ensures { result ≡ (meaning self.now).failed item_type };

    ghost lawful: { (t : Self) → Semiring (meaning t) };
}
