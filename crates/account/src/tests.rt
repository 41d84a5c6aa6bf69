use crate::calls::{enter, survey};
use crate::{Numbers, account};
use book::book::Book;
use cells::table::CellTable;
use rules::part_number::PartNumber;
use rules::refusal::Refusal;
use signature::Signature;
use std::alloc::Global;
use std::process::Abort;
use std::test::Fail;
use survey::bench::{Bench, Sums};
use tally::count::Count;
use tally::loss::Loss;
use tally::prices::Prices;
use tally::state_count::StateCount;

// Items 1 and 2 of type 1, item 3 of type 2, series 4 over 1 and 2, parallel 5 over 4 and 3.
const FIVE_LINES: &[u8] = b"I 1\nI 1\nI 2\nS 1 2\nP 4 3\nE 5 1\n";

fn five_lines(rt: &impl Abort, heap: Global) -> Result<Book, Fail> {
    let mut book = Book::new(heap)?;
    assert_eq!(rt; enter::<Count>(&mut book, FIVE_LINES), Ok(5));
    Ok(book)
}

#[test]
fn counts(rt: HostRuntime) -> Result<(), Fail> {
    let book = five_lines(&rt, rt.alloc())?;
    let nothing = Sums {
        working: StateCount::new(0),
        failing: StateCount::new(0),
    };
    let mut places = [nothing; 5];
    let mut bench = Bench::new(&mut places);
    assert_eq!(rt;
        survey(&book, PartNumber::new(5), &Count, &mut bench),
        Ok(4)
    );
    assert_eq!(rt; places[4].working.get(), 5);
    assert_eq!(rt; places[4].failing.get(), 3);
    let mut few = [nothing; 4];
    let mut short = Bench::new(&mut few);
    assert_eq!(rt;
        survey(&book, PartNumber::new(5), &Count, &mut short),
        Err(Refusal::BenchTooShort)
    );
    assert_eq!(rt; few[3].working.get(), 0);
    Ok(())
}

#[test]
fn cheapest_loss(rt: HostRuntime) -> Result<(), Fail> {
    let book = five_lines(&rt, rt.alloc())?;
    let prices = Prices::new(40, 25, 0)?;
    let nothing = Sums {
        working: Loss::new(0),
        failing: Loss::new(0),
    };
    let mut places = [nothing; 5];
    let mut bench = Bench::new(&mut places);
    assert_eq!(rt;
        survey(&book, PartNumber::new(5), &prices, &mut bench),
        Ok(4)
    );
    assert_eq!(rt; places[4].failing.get(), 65);
    Ok(())
}

#[test]
fn cells_of_signature(rt: HostRuntime) -> Result<(), Fail> {
    let book = five_lines(&rt, rt.alloc())?;
    let table = CellTable::new([0; 512]);
    let nothing = Sums {
        working: table,
        failing: table,
    };
    let mut places = [nothing; 5];
    let mut bench = Bench::new(&mut places);
    assert_eq!(rt;
        survey(&book, PartNumber::new(5), &Signature, &mut bench),
        Ok(4)
    );
    let sums = places[4];
    assert_eq!(rt; sums.working.cell(2, 0, 0), Some(1));
    assert_eq!(rt; sums.working.cell(0, 1, 0), Some(1));
    assert_eq!(rt; sums.working.cell(1, 1, 0), Some(2));
    assert_eq!(rt; sums.working.cell(2, 1, 0), Some(1));
    assert_eq!(rt; sums.working.cell(1, 0, 0), Some(0));
    Ok(())
}

#[test]
fn numbers(rt: HostRuntime) -> Result<(), Fail> {
    let mut book = five_lines(&rt, rt.alloc())?;
    let _ = book.withdraw(PartNumber::new(5));
    assert_eq!(rt;
        account::<Count>(&book),
        Numbers {
            given: 5,
            standing: 4,
            withdrawn: 1,
        }
    );
    Ok(())
}
