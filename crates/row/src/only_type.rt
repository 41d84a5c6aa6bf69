ghost use Rattle.std.specs.Prelude.{◌≡◌};
ghost use Rattle.rules.specs.Rules.{Decided};
ghost use Rattle.rules.specs.Ruled.{naming};
ghost use Rattle.book.specs.Keeps.{Tells};
ghost use Rattle.row.specs.Steps.{OnlyType, common_type};

use book::book::Book;
use rules::item_type::ItemType;
use rules::part_number::PartNumber;
use rules::refusal::Refusal;
use survey::beneath::fold_beneath;

// The type of all items beneath a line, or None where they are of several types.
pub fn only_type(book: &Book, number: PartNumber) -> Result<Option<ItemType>, Refusal>
    ensures { Tells book.now (λ h. Decided (naming h number.value) (OnlyType h number.value) result) }
{
    fold_beneath(book, number, &|_, item_type| Some(item_type), &common)
}

// The type that both are.
fn common(x: Option<ItemType>, y: Option<ItemType>) -> Option<ItemType>
    ensures { result ≡ common_type x y }
{
    if x == y { x } else { None }
}
