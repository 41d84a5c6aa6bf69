#![tactic(auto)]

use book::book::Book;
use rules::part_number::PartNumber;
use sheet::entering::enter;
use std::io::Read;
use survey::bench::{Bench, Sums};
use survey::items::items_beneath;
use survey::survey;
use tally::count::Count;
use tally::state_count::StateCount;

// One byte more than a sheet may have, so that a longer one is seen to be too long.
const MOST_BYTES: u64 = 1025;

// Reads a sheet into a new book, and prints the states of each free line, or why the sheet is refused.
fn main(rt: HostRuntime) -> anyhow::Result<()> {
    let mut text = Vec::new(rt.alloc());
    rt.stdin().take(MOST_BYTES).read_to_end(&mut text)?;
    let mut book = Book::new(rt.alloc())?;
    match enter(&text, &mut book) {
        Ok(_) => print_book(&rt, &book)?,
        Err(fault) => println!(rt; "{fault}")?,
    }
    Ok(())
}

fn print_book(rt: &impl Print, book: &Book) -> anyhow::Result<()> {
    println!(rt; "line items work fail")?;
    let nothing = Sums {
        working: StateCount::new(0),
        failing: StateCount::new(0),
    };
    let mut places = [nothing; 31];
    let mut bench = Bench::new(&mut places);
    for line in book.lines() {
        if line.is_free() {
            print_line(rt, book, line.number, &mut bench)?;
        }
    }
    Ok(())
}

// Prints the number of a line, the items beneath it, and the states in which it works and fails.
fn print_line(
    rt: &impl Print,
    book: &Book,
    number: PartNumber,
    bench: &mut Bench<StateCount>,
) -> anyhow::Result<()> {
    let items = items_beneath(book, number)?;
    let place = survey(book, number, &Count, bench)?;
    if let Some(Sums { working, failing }) = bench.get(place) {
        println!(rt; "{number} {items} {working} {failing}")?;
    }
    Ok(())
}
