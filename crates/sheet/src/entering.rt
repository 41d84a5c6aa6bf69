ghost use Rattle.sheet.specs.Applying.{Enters};

use crate::check::UncheckedSheet;
use crate::fault::Fault;
use book::book::Book;

// Checks a text as a sheet and, if the check accepts it, applies it to the book.
pub fn enter(text: &[u8], book: &mut Book) -> Result<u32, Fault>
    ensures { Enters text.now book.old result book.new }
{
    UncheckedSheet::new(text).check()?.apply(book)
}
