ghost use Rattle.std.specs.Prelude.{◌≡◌, not, Some};
ghost use Rattle.rules.specs.History.{is_item, is_item_of};
ghost use Rattle.rules.specs.Lines.{type_of_part};
ghost use Rattle.rules.specs.Types.{type_number};

use crate::item_type::ItemType;
use crate::kind::Kind;
use crate::part_number::PartNumber;

// What a line is: an item of a type, or a block over two lines.
#[derive(Clone, Copy, PartialEq, Eq, Debug)]
pub enum Part {
    Item(ItemType),
    Block(Kind, PartNumber, PartNumber),
}

// A standing line. It is built in if it lies beneath a block, and free otherwise.
#[derive(Clone, Copy, PartialEq, Eq, Debug)]
pub struct Line {
    pub number: PartNumber,
    pub part: Part,
    pub built_in: bool,
}

impl Part {
    // The type of an item; a block has none.
    pub fn item_type(&self) -> Option<ItemType>
        ensures { result ≡ type_of_part self.now }
    {
        match self {
            Part::Item(item_type) => Some(*item_type),
            Part::Block(_, _, _) => None,
        }
    }

    pub fn is_item(&self) -> bool
        ensures { result ≡ is_item (Some self.now) }
    {
        matches!(self, Part::Item(_))
    }

    pub fn is_item_of(&self, item_type: ItemType) -> bool
        ensures { result ≡ is_item_of (type_number item_type) (Some self.now) }
    {
        self.item_type() == Some(item_type)
    }
}

impl Line {
    pub fn is_free(&self) -> bool
        ensures { result ≡ not self.now.built_in }
    {
        !self.built_in
    }
}
