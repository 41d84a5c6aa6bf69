ghost use Rattle.std.specs.Prelude.{◌≡◌};
ghost use Rattle.text.specs.Texts.{lines_of};
ghost use Rattle.text.specs.Cursors.{line_seen};
ghost use Rattle.sheet.specs.Checks.{check_of, check_seen, sheet_seen, closed};
ghost use Rattle.sheet.specs.Applying.{Applies, TakesLine, TakesLines};

use crate::fault::Fault;
use book::book::Book;
use rules::refusal::Refusal;
use text::bytes::is_ended;
use text::lines::{Lines, SheetLine};

// The most bytes that a sheet may have.
const LIMIT: usize = 1024;

// A sheet of which the closing line was not checked.
pub struct UncheckedSheet<'a> {
    text: &'a [u8],
}

// A sheet of which the closing line was checked: the lines above it, how many they are, and the number
// that is to be given next. It is neither copied nor let go: applying it uses it up.
pub struct CheckedSheet<'a> {
    above: &'a [u8],
    count: u32,
    next: u32,
}

// A closing line `E c f`: its number, the place of its first byte, the count c and the next number f.
#[derive(Clone, Copy)]
struct Closing {
    number: usize,
    place: usize,
    count: u32,
    next: u32,
}

impl<'a> UncheckedSheet<'a> {
    pub fn new(text: &'a [u8]) -> UncheckedSheet<'a>
        ensures { result.text.now ≡ text.now }
    {
        UncheckedSheet { text }
    }

    // The checked sheet. Refused with 41 over 1,024 bytes, with 42 without a closing line at the end,
    // and with 43 where that line miscounts those above it.
    pub fn check(self) -> Result<CheckedSheet<'a>, Fault>
        ensures { check_seen result ≡ check_of self.entry.text.now }
    {
        let Self { text } = self;
        if text.len() > LIMIT {
            return Err(Fault::new(Refusal::SheetTooLong, 0, 0, 0));
        }
        let Closing {
            number,
            place,
            count,
            next,
        } = closing_line(text).ok_or(Fault::new(Refusal::NoClosingLine, 0, text.len(), 0))?;
        if count as usize + 1 == number {
            Ok(CheckedSheet {
                above: &text[..place],
                count,
                next,
            })
        } else {
            Err(Fault::new(Refusal::WrongLineCount, number, place, 0))
        }
    }
}

impl<'a> CheckedSheet<'a> {
    // Asks the book for the changes of the lines in turn, and answers how many they are. The first
    // refusal ends the sheet, with the book as before it.
    pub fn apply(self, book: &mut Book) -> Result<u32, Fault>
        ensures { Applies (sheet_seen self.entry) book.old result book.new }
    {
        let Self { above, count, next } = self;
        if next != book.next_number() {
            return Err(Fault::new(
                Refusal::WrongNextNumber,
                count as usize + 1,
                above.len(),
                next,
            ));
        }
        let before = book.snapshot();
        match take_lines(book, above) {
            Ok(()) => Ok(count),
            Err(fault) => {
                book.restore(&before);
                Err(fault)
            }
        }
    }
}

// The closing line of a text that ends with byte 10, if its last line is one.
fn closing_line(text: &[u8]) -> Option<Closing>
    ensures { result ≡ closed text.now }
{
    if !is_ended(text) {
        return None;
    }
    let line = Lines::new(text).last()?;
    let (count, next) = line.closing()?;
    Some(Closing {
        number: line.number,
        place: line.place,
        count,
        next,
    })
}

// Takes the lines in turn, up to the first fault.
fn take_lines(book: &mut Book, above: &[u8]) -> Result<(), Fault>
    ensures { TakesLines (lines_of above.now) book.old result book.new }
{
    for line in Lines::new(above) {
        take_line(book, line)?;
    }
    Ok(())
}

// Asks the book for the change of a line.
fn take_line(book: &mut Book, line: SheetLine<'_>) -> Result<(), Fault>
    ensures { TakesLine (line_seen line.entry) book.old result book.new }
{
    let SheetLine { number, place, .. } = line;
    let change = line
        .change()
        .ok_or(Fault::new(Refusal::Unreadable, number, place, 0))?;
    match book.make(change) {
        Ok(_) => Ok(()),
        Err(refusal) => Err(Fault::new(refusal, number, place, book.blamed(change))),
    }
}

#[cfg(test)]
mod tests;
