ghost use Rattle.std.specs.Prelude.{◌≡◌};

use std::fmt;

// The number of a line, which is never given to another. It is no place in a table.
#[derive(Clone, Copy, PartialEq, Eq, PartialOrd, Ord, Debug)]
pub struct PartNumber {
    value: u32,
}

impl PartNumber {
    pub fn new(value: u32) -> PartNumber
        ensures { result.value ≡ value }
    {
        PartNumber { value }
    }

    pub fn get(self) -> u32
        ensures { result ≡ self.value }
    {
        self.value
    }
}

impl fmt::Display for PartNumber {
    fn fmt<W: fmt::Write>(&self, f: &mut fmt::Formatter<W>) -> fmt::Result {
        write!(f, "{}", self.value)
    }
}
