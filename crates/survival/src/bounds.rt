ghost use Rattle.std.specs.Prelude.{◌≡◌};
ghost use Rattle.survival.specs.LowHigh.{block_low, block_high};

use crate::fixed_point::FixedPoint;
use rules::kind::Kind;

// A low and a high for the survival of a line.
#[derive(Clone, Copy)]
pub struct Bounds {
    pub low: FixedPoint,
    pub high: FixedPoint,
}

impl Bounds {
    // The bounds of an item, which is known exactly.
    pub fn exact(share: FixedPoint) -> Bounds
        ensures { (result.low ≡ share) × (result.high ≡ share) }
    {
        Bounds {
            low: share,
            high: share,
        }
    }

    // The bounds of a block over two lines that have the bounds x and y.
    pub fn joined(kind: Kind, x: &Bounds, y: &Bounds) -> Bounds
        ensures low { result.low.units ≡ block_low kind x.now.low.units y.now.low.units }
        ensures high { result.high.units ≡ block_high kind x.now.high.units y.now.high.units }
    {
        match kind {
            Kind::Series => Bounds {
                low: x.low.mul_floor(y.low),
                high: x.high.mul_ceil(y.high),
            },
            Kind::Parallel => {
                let low_failing = x.low.complement().mul_ceil(y.low.complement());
                let high_failing = x.high.complement().mul_floor(y.high.complement());
                Bounds {
                    low: low_failing.complement(),
                    high: high_failing.complement(),
                }
            }
        }
    }
}
