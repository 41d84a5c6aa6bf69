use crate::kind::Kind;
use crate::part_number::PartNumber;

// A change that is asked of a book: to issue an item of the type with a number, to join two lines
// into a block, or to withdraw a line.
#[derive(Clone, Copy, PartialEq, Eq, Debug)]
pub enum Change {
    Issue(u32),
    Join(Kind, PartNumber, PartNumber),
    Withdraw(PartNumber),
}
