ghost use Rattle.std.specs.Prelude.{◌≡◌};
ghost use Rattle.rules.specs.Kinds.{block_works};

use std::fmt;

// How a block depends on its two lines.
#[derive(Clone, Copy, PartialEq, Eq, Debug)]
pub enum Kind {
    Series,
    Parallel,
}

impl Kind {
    // Whether a block of this kind works, where `a` and `b` say whether its lines do.
    pub fn works(self, a: bool, b: bool) -> bool
        ensures { result ≡ block_works self a b }
    {
        match self {
            Kind::Series => a && b,
            Kind::Parallel => a || b,
        }
    }
}

impl fmt::Display for Kind {
    fn fmt<W: fmt::Write>(&self, f: &mut fmt::Formatter<W>) -> fmt::Result {
        f.write_str(match self {
            Kind::Series => "series",
            Kind::Parallel => "parallel",
        })
    }
}
