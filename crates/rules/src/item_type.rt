ghost use Rattle.std.specs.Prelude.{◌≡◌};
ghost use Rattle.rules.specs.Types.{type_number, TypeRuled};

use crate::refusal::Refusal;
use std::fmt;

// The type of an item: 1, 2 or 3.
#[derive(Clone, Copy, PartialEq, Eq, Debug)]
pub enum ItemType {
    One = 1,
    Two = 2,
    Three = 3,
}

impl ItemType {
    pub fn number(self) -> u8
        ensures { result ≡ type_number self }
    {
        self as u8
    }
}

// The type with the number.
impl TryFrom<u32> for ItemType {
    type Error = Refusal;

    ghost try_from_gives = { TypeRuled };

    fn try_from(number: u32) -> Result<Self, Refusal> {
        match number {
            1 => Ok(ItemType::One),
            2 => Ok(ItemType::Two),
            3 => Ok(ItemType::Three),
            _ => Err(Refusal::UnknownType),
        }
    }
}

impl fmt::Display for ItemType {
    fn fmt<W: fmt::Write>(&self, f: &mut fmt::Formatter<W>) -> fmt::Result {
        write!(f, "{}", self.number())
    }
}
