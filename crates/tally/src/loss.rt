ghost use Rattle.std.specs.Prelude.{◌≡◌, ◌≤◌};

use std::fmt;

// A total price of failed items. 4,294,967,295 is none: that no such items were found.
#[derive(Clone, Copy, PartialEq, Eq, Debug)]
pub struct Loss {
    value: u32,
    ghost fits: { value ≤ 4294967295 },
}

impl Loss {
    ghost use Rattle.tally.specs.Pricing.{lost};

    pub fn new(value: u32) -> Loss
        ensures { result ≡ lost value }
    {
        Loss { value }
    }

    pub fn get(self) -> u32
        ensures { result ≡ self.value }
    {
        self.value
    }
}

impl fmt::Display for Loss {
    fn fmt<W: fmt::Write>(&self, f: &mut fmt::Formatter<W>) -> fmt::Result {
        write!(f, "{}", self.value)
    }
}
