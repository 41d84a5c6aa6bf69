#![tactic(auto)]

pub mod calls;
#[cfg(test)]
mod tests;

ghost use Rattle.std.specs.Prelude.{◌≡◌};
ghost use Rattle.account.specs.Runs.{WholeRuns, Accounts};
ghost use Rattle.account.specs.Tallies.{meanings};

use book::book::Book;
use tally::Tally;

// How the numbers of a book were used.
#[derive(Clone, Copy, PartialEq, Eq, Debug)]
pub struct Numbers {
    pub given: u32,
    pub standing: u32,
    pub withdrawn: u32,
}

// How many numbers a book has given, how many lines stand, and how many withdrawals were made. The
// book does not count its withdrawals: they are what is left, since every run of calls keeps the law
// that numbers given are lines standing and withdrawals made. T is any tally under which the book was
// surveyed on the way.
pub fn account<T: Tally>(book: &Book) -> Numbers
    ensures runs { WholeRuns (meanings T.Tally.meaning) }
    ensures here { Accounts book.now result.given result.standing result.withdrawn }
{
    let given = book.last_number();
    let standing = book.lines().len() as u32;
    Numbers {
        given,
        standing,
        withdrawn: given - standing,
    }
}
