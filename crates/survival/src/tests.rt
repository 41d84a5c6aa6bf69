use crate::fixed_point::FixedPoint;
use crate::shares::Shares;
use crate::survival;
use book::book::Book;
use rules::kind::Kind;
use rules::part_number::PartNumber;
use rules::refusal::Refusal;
use std::alloc::Global;
use std::test::Fail;

const ONE: u32 = 1_073_741_824;

// Items 1 and 2 of type 1 and 3 of type 2; line 4 is 1 and 2 in series, line 5 is 4 and 3 in parallel.
fn example(heap: Global) -> Result<Book, Fail> {
    let mut book = Book::new(heap)?;
    book.issue(1)?;
    book.issue(1)?;
    book.issue(2)?;
    book.join(Kind::Series, PartNumber::new(1), PartNumber::new(2))?;
    book.join(Kind::Parallel, PartNumber::new(4), PartNumber::new(3))?;
    Ok(book)
}

fn shares(one: u32, two: u32, three: u32) -> Shares {
    Shares { one, two, three }
}

#[test]
fn answers(rt: HostRuntime) -> Result<(), Fail> {
    let book = example(rt.alloc())?;
    let cases = [
        (
            5,
            shares(ONE / 2, ONE / 2, ONE / 2),
            671_088_640,
            671_088_640,
        ),
        (4, shares(1, ONE, 0), 0, 1),
        (5, shares(1, 1, ONE), 1, 2),
        (3, shares(1, 7, 2), 7, 7),
        (5, shares(0, 0, 0), 0, 0),
        (5, shares(ONE, ONE, ONE), ONE, ONE),
    ];
    for (number, given, low, high) in cases {
        let (l, h) = survival(&book, PartNumber::new(number), given)?;
        assert_eq!(rt; l.units(), low);
        assert_eq!(rt; h.units(), high);
    }
    Ok(())
}

#[test]
fn refusals(rt: HostRuntime) -> Result<(), Fail> {
    let mut book = example(rt.alloc())?;
    book.withdraw(PartNumber::new(5))?;
    let cases = [
        (0, shares(ONE + 1, 0, 0), Refusal::NeverGiven),
        (6, shares(ONE + 1, 0, 0), Refusal::NeverGiven),
        (5, shares(ONE + 1, 0, 0), Refusal::Withdrawn),
        (4, shares(ONE + 1, 0, 0), Refusal::ShareTooHigh),
        (4, shares(0, ONE + 1, 0), Refusal::ShareTooHigh),
        (1, shares(0, 0, u32::MAX), Refusal::ShareTooHigh),
    ];
    for (number, given, refusal) in cases {
        assert_eq!(rt;
            survival(&book, PartNumber::new(number), given),
            Err(refusal)
        );
    }
    Ok(())
}
