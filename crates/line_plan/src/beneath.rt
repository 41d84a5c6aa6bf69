ghost use Rattle.std.specs.Prelude.{◌≡◌, true, is_some, ◌==◌};
ghost use Rattle.rules.specs.History.{standing, has};
ghost use Rattle.rules.specs.Trees.{items as beneath, works};
ghost use Rattle.place_set.specs.Sets.{members};
ghost use Rattle.book.specs.Keeps.{Tells};
ghost use Rattle.line_plan.specs.Items.{listed, state_of};
ghost use Rattle.line_plan.specs.Beneath.{stands_and, Marks, ItemsBeneath};

use crate::item_list::{ItemList, TypedItem};
use book::book::Book;
use place_set::PlaceSet;
use rules::kind::Kind;
use rules::line::Part;
use rules::part_number::PartNumber;
use survey::beneath::fold_beneath;

// Whether the line stands and works, where each item of the list is as the set has its place. A
// block's second line is asked only where the first does not decide; a fold asks both.
pub fn line_works(book: &Book, number: PartNumber, items: &ItemList, state: PlaceSet) -> bool
    ensures { Tells book.now (λ h. result ≡ stands_and h number.value (λ x. works x (state_of (listed items.now) (members state)))) }
{
    match book.question(number) {
        Ok(line) => match line.part {
            Part::Item(_) => items.works(number, state),
            Part::Block(kind, a, b) => {
                let first = line_works(book, a, items, state);
                match kind {
                    Kind::Series => first && line_works(book, b, items, state),
                    Kind::Parallel => first || line_works(book, b, items, state),
                }
            }
        },
        Err(_) => false,
    }
}

// The line's place among the standing lines, of which there are at most 31, as a mask: bit i for the
// place i. It is 0 where the line does not stand.
fn mark(book: &Book, number: PartNumber) -> u32
    ensures { Tells book.now (λ h. Marks h result (λ n. n == number.value)) }
{
    match book.seek(number) {
        Ok(place) => 1 << place,
        Err(_) => 0,
    }
}

// The places of the items beneath the line, as a mask; 0 where the line does not stand.
fn marked_beneath(book: &Book, number: PartNumber) -> u32
    ensures { Tells book.now (λ h. Marks h result (λ n. stands_and h number.value (λ x. has (beneath x) n))) }
{
    fold_beneath(book, number, &|found, _| mark(book, found), &|a, b| a | b).unwrap_or(0)
}

// The items beneath a line that stands, in rising number.
pub fn items_beneath(book: &Book, number: PartNumber) -> ItemList
    requires { Tells book.now (λ h. is_some (standing h number.value) ≡ true) }
    ensures { Tells book.now (λ h. ItemsBeneath h number.value (listed result)) }
{
    let marks = marked_beneath(book, number);
    let mut items = ItemList::empty();
    for (place, line) in book.lines().iter().enumerate() {
        if let Part::Item(item_type) = line.part {
            if (marks >> place) & 1 == 1 {
                items.add(TypedItem {
                    number: line.number,
                    item_type,
                });
            }
        }
    }
    items
}
