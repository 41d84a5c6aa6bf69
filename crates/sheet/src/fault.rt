ghost use Rattle.std.specs.Prelude.{◌≡◌};
ghost use Rattle.sheet.specs.Faults.{layer_of, carries_number, fault_of};

use rules::refusal::Refusal;
use std::error::Error;
use std::fmt;

// Where a refusal comes from: the sheet's form, or the book that its changes are asked of.
#[derive(Clone, Copy, PartialEq, Eq, Debug)]
pub enum Layer {
    Sheet,
    Book,
}

// Why a sheet was refused, at which line (from 1) and at which place (from 0), and with which number.
#[derive(Clone, Copy, PartialEq, Eq, Debug)]
pub struct Fault {
    pub layer: Layer,
    pub refusal: Refusal,
    pub line: usize,
    pub place: usize,
    pub number: u32,
}

impl From<Refusal> for Layer {
    ghost from_gives = { λ refusal layer. layer ≡ layer_of refusal };

    fn from(refusal: Refusal) -> Layer {
        match refusal {
            Refusal::SheetTooLong
            | Refusal::NoClosingLine
            | Refusal::WrongLineCount
            | Refusal::WrongNextNumber
            | Refusal::Unreadable => Layer::Sheet,
            _ => Layer::Book,
        }
    }
}

impl fmt::Display for Layer {
    fn fmt<W: fmt::Write>(&self, f: &mut fmt::Formatter<W>) -> fmt::Result {
        match self {
            Layer::Sheet => write!(f, "sheet"),
            Layer::Book => write!(f, "book"),
        }
    }
}

// Whether a fault carries a number: the part number that the book refused, or the next number read.
fn carries_number(refusal: Refusal) -> bool
    ensures { result ≡ carries_number refusal }
{
    matches!(
        refusal,
        Refusal::WrongNextNumber
            | Refusal::NeverGiven
            | Refusal::Withdrawn
            | Refusal::BuiltIn
            | Refusal::SameLine
    )
}

impl Fault {
    // The fault of a refusal at a line; it keeps the number only if it carries one. The line and its
    // place are two numbers, as in the fault: half of the callers have them from two sources.
    pub fn new(refusal: Refusal, line: usize, place: usize, number: u32) -> Fault
        ensures { result ≡ fault_of refusal line place number }
    {
        Fault {
            layer: Layer::from(refusal),
            refusal,
            line,
            place,
            number: if carries_number(refusal) { number } else { 0 },
        }
    }
}

impl fmt::Display for Fault {
    fn fmt<W: fmt::Write>(&self, f: &mut fmt::Formatter<W>) -> fmt::Result {
        write!(
            f,
            "{} line {} place {} number {}",
            self.refusal, self.line, self.place, self.number
        )
    }
}

impl Error for Fault {}

#[cfg(test)]
mod tests {
    use super::*;
    use std::test::Fail;

    #[test]
    fn printed(rt: HostRuntime) -> Result<(), Fail> {
        let heap = rt.alloc();
        let book = Fault::new(Refusal::NeverGiven, 9, 38, 2);
        let sheet = Fault::new(Refusal::Unreadable, 1, 0, 2);
        assert_eq!(rt;
            format!(in heap; "{book}")?.as_str(),
            "refused 15 line 9 place 38 number 2"
        );
        assert_eq!(rt;
            format!(in heap; "{sheet}")?.as_str(),
            "refused 45 line 1 place 0 number 0"
        );
        assert_eq!(rt;
            format!(in heap; "{} {}", book.layer, sheet.layer)?.as_str(),
            "book sheet"
        );
        Ok(())
    }
}
