use crate::book::Book;
use rules::item_type::ItemType;
use rules::kind::Kind;
use rules::line::{Line, Part};
use rules::part_number::PartNumber;
use rules::refusal::Refusal;
use std::alloc::Global;
use std::test::Fail;

fn n(value: u32) -> PartNumber {
    PartNumber::new(value)
}

// Items 1 and 2 of type 1, item 3 of type 2, series 4 over 1 and 2, parallel 5 over 4 and 3.
fn five_lines(heap: Global) -> Result<Book, Fail> {
    let mut book = Book::new(heap)?;
    let _ = book.issue(1);
    let _ = book.issue(1);
    let _ = book.issue(2);
    let _ = book.join(Kind::Series, n(1), n(2));
    let _ = book.join(Kind::Parallel, n(4), n(3));
    Ok(book)
}

#[test]
fn capacity(rt: HostRuntime) -> Result<(), Fail> {
    let mut book = Book::new(rt.alloc())?;
    for number in 1..8 {
        assert_eq!(rt; book.issue(1), Ok(n(number)));
    }
    assert_eq!(rt; book.issue(1), Err(Refusal::TooManyOfType));
    for number in 8..15 {
        assert_eq!(rt; book.issue(2), Ok(n(number)));
    }
    assert_eq!(rt; book.issue(3), Ok(n(15)));
    assert_eq!(rt; book.issue(3), Ok(n(16)));
    assert_eq!(rt; book.issue(3), Err(Refusal::TooManyItems));
    assert_eq!(rt; book.issue(0), Err(Refusal::UnknownType));
    Ok(())
}

#[test]
fn withdrawals(rt: HostRuntime) -> Result<(), Fail> {
    let mut book = five_lines(rt.alloc())?;
    assert_eq!(rt; book.withdraw(n(4)), Err(Refusal::BuiltIn));
    assert_eq!(rt; book.withdraw(n(5)), Ok(n(5)));
    assert_eq!(rt;
        book.question(n(4)),
        Ok(Line {
            number: n(4),
            part: Part::Block(Kind::Series, n(1), n(2)),
            built_in: false,
        })
    );
    assert_eq!(rt; book.join(Kind::Parallel, n(3), n(4)), Ok(n(6)));
    assert_eq!(rt;
        book.question(n(3)),
        Ok(Line {
            number: n(3),
            part: Part::Item(ItemType::Two),
            built_in: true,
        })
    );
    assert_eq!(rt; book.question(n(5)), Err(Refusal::Withdrawn));
    assert_eq!(rt; book.question(n(7)), Err(Refusal::NeverGiven));
    assert_eq!(rt; book.question(n(0)), Err(Refusal::NeverGiven));
    Ok(())
}

#[test]
fn joinings(rt: HostRuntime) -> Result<(), Fail> {
    let mut book = five_lines(rt.alloc())?;
    assert_eq!(rt; book.join(Kind::Series, n(5), n(5)), Err(Refusal::SameLine));
    assert_eq!(rt; book.join(Kind::Series, n(5), n(4)), Err(Refusal::BuiltIn));
    assert_eq!(rt;
        book.join(Kind::Series, n(9), n(4)),
        Err(Refusal::NeverGiven)
    );
    assert!(rt; book.lines().len() == 5);
    Ok(())
}
