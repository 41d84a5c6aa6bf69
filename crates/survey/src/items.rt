ghost use Rattle.book.specs.Keeps.{Tells};
ghost use Rattle.survey.specs.Items.{ItemsRuled};

use crate::beneath::fold_beneath;
use book::book::Book;
use rules::part_number::PartNumber;
use rules::refusal::Refusal;

// How many items lie beneath a line. At most 16 stand, so that no sum is cut off.
pub fn items_beneath(book: &Book, number: PartNumber) -> Result<u32, Refusal>
    ensures { Tells book.now (λ h. ItemsRuled h number.value result) }
{
    fold_beneath(book, number, &|_, _| 1, &u32::saturating_add)
}
