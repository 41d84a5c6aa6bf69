ghost use Rattle.std.specs.Prelude.{◌≡◌};
ghost use Rattle.rules.specs.Refusals.{number_of};

use std::error::Error;
use std::fmt;

// Why a call was refused: the first condition, in the call's order, that holds. Each refusal is known
// by its number.
#[derive(Clone, Copy, PartialEq, Eq, Debug)]
pub enum Refusal {
    // the type is not 1 to 3 (of a path list's place: not 0 to 3)
    UnknownType = 11,
    // 16 items stand
    TooManyItems = 12,
    // 7 items of the type stand
    TooManyOfType = 13,
    // number 9,999 is given
    NumbersUsedUp = 14,
    // the number is 0, or above the last one given
    NeverGiven = 15,
    // the number was given, and stands no more
    Withdrawn = 16,
    // the line is built in
    BuiltIn = 17,
    // a line is to be joined to itself
    SameLine = 18,
    // the bench has fewer places than there are standing lines
    BenchTooShort = 21,
    // a share is above 1,073,741,824
    ShareTooHigh = 22,
    // the items beneath are of several types
    MixedTypes = 23,
    // a price is above 1,000,000
    PriceTooHigh = 24,
    // a path list has no path
    NoPath = 31,
    // a path names no place
    EmptyPath = 32,
    // a path names an empty place
    EmptyPlace = 33,
    // a plan has more than 7 places of one type
    TooManyPlaces = 34,
    // a path list has more than 64 paths
    TooManyPaths = 35,
    // a sheet has more than 1,024 bytes
    SheetTooLong = 41,
    // a sheet is empty, does not end with byte 10, or its last line is no closing line
    NoClosingLine = 42,
    // the closing line miscounts the lines above it
    WrongLineCount = 43,
    // the closing line names another number than the next one
    WrongNextNumber = 44,
    // a line of a sheet has no known form
    Unreadable = 45,
    // a place is above 15
    NoSuchPlace = 51,
}

impl Refusal {
    // The number by which the refusal is known.
    pub fn number(&self) -> u8
        ensures { result ≡ number_of self.now }
    {
        *self as u8
    }
}

impl fmt::Display for Refusal {
    fn fmt<W: fmt::Write>(&self, f: &mut fmt::Formatter<W>) -> fmt::Result {
        write!(f, "refused {}", self.number())
    }
}

impl Error for Refusal {}
