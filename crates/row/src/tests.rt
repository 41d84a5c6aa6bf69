use crate::failure_row;
use book::book::Book;
use cells::table::CellTable;
use rules::kind::Kind;
use rules::part_number::PartNumber;
use rules::refusal::Refusal;
use std::alloc::Global;
use std::test::Fail;
use survey::bench::{Bench, Sums};

// Items 1, 2 and 3 of the types; line 4 is 1 and 2 in series, line 5 is 4 and 3 in parallel.
fn example(heap: Global, types: [u32; 3]) -> Result<Book, Fail> {
    let mut book = Book::new(heap)?;
    for item_type in types {
        book.issue(item_type)?;
    }
    book.join(Kind::Series, PartNumber::new(1), PartNumber::new(2))?;
    book.join(Kind::Parallel, PartNumber::new(4), PartNumber::new(3))?;
    Ok(book)
}

// Seven items of type 2, joined one after another; line 13 is over all of them.
fn seven(heap: Global, kind: Kind) -> Result<Book, Fail> {
    let mut book = Book::new(heap)?;
    for _ in 0..7 {
        book.issue(2)?;
    }
    let mut line = PartNumber::new(1);
    for item in 2..8 {
        line = book.join(kind, line, PartNumber::new(item))?;
    }
    Ok(book)
}

fn row_of(book: &Book, number: u32) -> Result<[u32; 7], Refusal> {
    let table = CellTable::new([1; 512]);
    let mut places = [Sums {
        working: table,
        failing: table,
    }; 31];
    let mut row = [9; 7];
    failure_row(
        book,
        PartNumber::new(number),
        &mut Bench::new(&mut places),
        &mut row,
    )?;
    Ok(row)
}

#[test]
fn one_type(rt: HostRuntime) -> Result<(), Fail> {
    for item_type in [1, 3] {
        let book = example(rt.alloc(), [item_type, item_type, item_type])?;
        assert_eq!(rt; row_of(&book, 5), Ok([0, 4, 2, 0, 0, 0, 0]));
        assert_eq!(rt; row_of(&book, 3), Ok([1, 0, 0, 0, 0, 0, 0]));
    }
    Ok(())
}

#[test]
fn seven_items(rt: HostRuntime) -> Result<(), Fail> {
    let series = seven(rt.alloc(), Kind::Series)?;
    assert_eq!(rt; row_of(&series, 13), Ok([5040, 0, 0, 0, 0, 0, 0]));
    let parallel = seven(rt.alloc(), Kind::Parallel)?;
    assert_eq!(rt; row_of(&parallel, 13), Ok([0, 0, 0, 0, 0, 0, 5040]));
    Ok(())
}

#[test]
fn refusals(rt: HostRuntime) -> Result<(), Fail> {
    let mut book = example(rt.alloc(), [1, 1, 2])?;
    assert_eq!(rt; row_of(&book, 5), Err(Refusal::MixedTypes));
    assert_eq!(rt; row_of(&book, 4), Ok([2, 0, 0, 0, 0, 0, 0]));
    assert_eq!(rt; row_of(&book, 0), Err(Refusal::NeverGiven));
    assert_eq!(rt; row_of(&book, 6), Err(Refusal::NeverGiven));
    book.withdraw(PartNumber::new(5))?;
    assert_eq!(rt; row_of(&book, 5), Err(Refusal::Withdrawn));
    Ok(())
}

#[test]
fn short_bench(rt: HostRuntime) -> Result<(), Fail> {
    let book = example(rt.alloc(), [1, 1, 2])?;
    let table = CellTable::new([7; 512]);
    let mut places = [Sums {
        working: table,
        failing: table,
    }; 4];
    let mut bench = Bench::new(&mut places);
    let mut row = [9; 7];
    let mixed = failure_row(&book, PartNumber::new(5), &mut bench, &mut row);
    assert_eq!(rt; mixed, Err(Refusal::MixedTypes));
    let short = failure_row(&book, PartNumber::new(4), &mut bench, &mut row);
    assert_eq!(rt; short, Err(Refusal::BenchTooShort));
    assert_eq!(rt; row, [9; 7]);
    for sums in places {
        assert_eq!(rt; *sums.working.cells(), [7; 512]);
        assert_eq!(rt; *sums.failing.cells(), [7; 512]);
    }
    Ok(())
}
