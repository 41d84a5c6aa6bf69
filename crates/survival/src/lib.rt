#![tactic(auto)]

mod bounds;
pub mod fixed_point;
mod fractions;
pub mod shares;
#[cfg(test)]
mod tests;

ghost use Rattle.std.specs.Prelude.{◌≡◌, length};
ghost use Rattle.book.specs.Keeps.{Tells};
ghost use Rattle.survival.specs.Held.{Held, fraction_of};
ghost use Rattle.survival.specs.Ruled.{SurvivalRuled};

use book::book::Book;
use bounds::Bounds;
use fixed_point::FixedPoint;
use fractions::Fractions;
use reckoning::reckon;
use rules::part_number::PartNumber;
use rules::refusal::Refusal;
use shares::Shares;

// No more lines than this stand at once.
const MOST_LINES: usize = 31;

// The low and the high of the line's survival, in that order.
pub fn survival(
    book: &Book,
    number: PartNumber,
    shares: Shares,
) -> Result<(FixedPoint, FixedPoint), Refusal>
    ensures { Tells book.now (λ h. SurvivalRuled h number.value shares result) }
{
    let place = book.seek(number)?;
    let fractions = Fractions::try_from(shares)?;
    let named = all_bounds(book, &fractions)[place];
    Ok((named.low, named.high))
}

// The bounds of every standing line, each at its place.
fn all_bounds(book: &Book, fractions: &Fractions) -> [Bounds; MOST_LINES]
    ensures long { length result ≡ 31 }
    ensures held { Tells book.now (λ h. Held (fraction_of fractions.now) h result) }
{
    // Each place is filled before it is read.
    let mut places = [Bounds::exact(fractions.by_type.one); MOST_LINES];
    reckon(book, fractions, &mut places);
    places
}
