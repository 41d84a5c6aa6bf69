ghost use Rattle.std.specs.Prelude.{◌≡◌, ◌-◌, ◌*◌, ◌≤◌};
ghost use Rattle.survival.specs.LowHigh.{S, down, up};

use rules::refusal::Refusal;

// 1, in units.
const ONE: u32 = 1_073_741_824;

// A fixed-point number from 0 to 1, in units of 1 / 1,073,741,824.
#[derive(Clone, Copy, PartialEq, Eq, Debug)]
pub struct FixedPoint {
    units: u32,
    ghost within: { units ≤ 1073741824 },
}

impl FixedPoint {
    // The number times 1,073,741,824.
    pub fn units(self) -> u32
        ensures { result ≡ self.units }
    {
        self.units
    }

    // 1 less the number.
    pub(crate) fn complement(self) -> FixedPoint
        ensures { result.units ≡ S - self.units }
    {
        FixedPoint {
            units: ONE - self.units,
        }
    }

    // The product, rounded down.
    pub(crate) fn mul_floor(self, other: FixedPoint) -> FixedPoint
        ensures { result.units ≡ down (self.units * other.units) }
    {
        FixedPoint {
            units: (self.product(other) / u64::from(ONE)) as u32,
        }
    }

    // The product, rounded up.
    pub(crate) fn mul_ceil(self, other: FixedPoint) -> FixedPoint
        ensures { result.units ≡ up (self.units * other.units) }
    {
        FixedPoint {
            units: self.product(other).div_ceil(u64::from(ONE)) as u32,
        }
    }

    // The product of the units.
    fn product(self, other: FixedPoint) -> u64
        ensures value { result ≡ self.units * other.units }
        ensures small { result ≤ S * S }
    {
        u64::from(self.units) * u64::from(other.units)
    }
}

// The number of so many units, if it is not above 1.
impl TryFrom<u32> for FixedPoint {
    ghost use Rattle.survival.specs.Held.{ShareRuled};

    type Error = Refusal;

    ghost try_from_gives = { ShareRuled };

    fn try_from(units: u32) -> Result<Self, Refusal> {
        if units > ONE {
            return Err(Refusal::ShareTooHigh);
        }
        Ok(FixedPoint { units })
    }
}
