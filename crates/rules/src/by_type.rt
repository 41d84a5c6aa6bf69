ghost use Rattle.std.specs.Prelude.{◌≡◌};
ghost use Rattle.rules.specs.ByType.{of_type};

use crate::item_type::ItemType;

// A value for each type of item.
#[derive(Clone, Copy, PartialEq, Eq, Debug)]
pub struct ByType<T> {
    pub one: T,
    pub two: T,
    pub three: T,
}

impl<T: Copy> ByType<T> {
    // The value for the type.
    pub fn of(self, item_type: ItemType) -> T
        ensures { result ≡ of_type self item_type }
    {
        match item_type {
            ItemType::One => self.one,
            ItemType::Two => self.two,
            ItemType::Three => self.three,
        }
    }
}
