ghost use Rattle.book.specs.Keeps.{Tells};
ghost use Rattle.survey.specs.Folds.{FoldRuled};

use book::book::Book;
use rules::item_type::ItemType;
use rules::line::Part;
use rules::part_number::PartNumber;
use rules::refusal::Refusal;

// Goes down the tree beneath a line: `item` answers for an item, and `block` joins the answers of
// the two lines of a block.
pub fn fold_beneath<A: Copy, I: Fn(PartNumber, ItemType) -> A, B: Fn(A, A) -> A>(
    book: &Book,
    number: PartNumber,
    item: &I,
    block: &B,
) -> Result<A, Refusal>
    requires item { I.IsAlwaysCallable item.now }
    requires block { B.IsAlwaysCallable block.now }
    ensures { Tells book.now (λ h. FoldRuled h number.value (I.post item.now) (B.post block.now) result) }
{
    match book.question(number)?.part {
        Part::Item(item_type) => Ok(item(number, item_type)),
        Part::Block(_, a, b) => {
            let first = fold_beneath(book, a, item, block)?;
            let second = fold_beneath(book, b, item, block)?;
            Ok(block(first, second))
        }
    }
}
