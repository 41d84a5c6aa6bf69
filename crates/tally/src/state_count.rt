ghost use Rattle.std.specs.Prelude.{◌≡◌, ◌<◌};

use std::fmt;

// A number of states, modulo 2^32.
#[derive(Clone, Copy, PartialEq, Eq, Debug)]
pub struct StateCount {
    value: u32,
    ghost fits: { value < 4294967296 },
}

impl StateCount {
    ghost use Rattle.tally.specs.Counts.{counted};

    pub fn new(value: u32) -> StateCount
        ensures { result ≡ counted value }
    {
        StateCount { value }
    }

    pub fn get(self) -> u32
        ensures { result ≡ self.value }
    {
        self.value
    }
}

impl fmt::Display for StateCount {
    fn fmt<W: fmt::Write>(&self, f: &mut fmt::Formatter<W>) -> fmt::Result {
        write!(f, "{}", self.value)
    }
}
