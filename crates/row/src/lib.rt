#![tactic(auto)]

mod one_type_line;
mod only_type;
#[cfg(test)]
mod tests;

ghost use Rattle.std.specs.Prelude.{◌≡◌};
ghost use Rattle.row.specs.Rows.{Rowed};
ghost use Rattle.row.specs.Steps.{UniformRuled, Summed};

use book::book::Book;
use cells::table::CellTable;
use one_type_line::OneTypeLine;
use only_type::only_type;
use rules::item_type::ItemType;
use rules::part_number::PartNumber;
use rules::refusal::Refusal;
use signature::Signature;
use survey::bench::Bench;
use survey::items::items_beneath;
use survey::survey;

// Fills the row with the failure row of a line whose items are all of one type, and leaves the bench
// as a survey under the signature does.
pub fn failure_row(
    book: &Book,
    number: PartNumber,
    bench: &mut Bench<CellTable>,
    row: &mut [u32; 7],
) -> Result<(), Refusal>
    ensures answer { Rowed number.value book.now bench.old.places.now bench.new.places.now row.old row.new result }
    ensures same { bench.new.places.ghost_name ≡ bench.old.places.ghost_name }
{
    let (item_type, items) = uniform(book, number)?;
    let sum = first_sum(book, number, bench)?;
    let line = OneTypeLine {
        sum,
        item_type,
        items,
    };
    *row = line.failure_row();
    Ok(())
}

// The type of the items beneath a line, if they are all of one type, and how many they are.
fn uniform(book: &Book, number: PartNumber) -> Result<(ItemType, usize), Refusal>
    ensures { UniformRuled number.value book.now result }
{
    let items = items_beneath(book, number)?;
    let item_type = only_type(book, number)?.ok_or(Refusal::MixedTypes)?;
    Ok((item_type, items as usize))
}

// Surveys a line under the signature, and answers its first sum.
fn first_sum(
    book: &Book,
    number: PartNumber,
    bench: &mut Bench<CellTable>,
) -> Result<CellTable, Refusal>
    ensures answer { Summed number.value book.now bench.old.places.now bench.new.places.now result }
    ensures same { bench.new.places.ghost_name ≡ bench.old.places.ghost_name }
{
    let place = survey(book, number, &Signature, bench)?;
    Ok(bench.get(place).unwrap().working)
}
