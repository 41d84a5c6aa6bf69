use crate::answers::show;
use crate::command::Survey;
use book::book::Book;
use cells::table::CellTable;
use row::failure_row;
use std::alloc::{AllocError, Global};
use std::io;
use std::io::Write;
use survey::bench::{Bench, Sums};
use survey::survey;
use tally::Tally;
use tally::loss::Loss;
use tally::state_count::StateCount;

// A figure as it stands on a bench before a survey, and as it is shown.
pub trait Shown: Copy + PartialEq {
    // What stands at a place before the survey. No survey leaves it.
    fn junk(place: u16) -> Self;

    // Whether it is still what stood at the place before.
    fn is_junk(&self, place: u16) -> bool {
        *self == Self::junk(place)
    }

    fn show<W: Write>(&self, out: &mut W) -> io::Result<()>;
}

fn junk_number(place: u16) -> u32 {
    4_000_000_000 + u32::from(place)
}

impl Shown for StateCount {
    fn junk(place: u16) -> StateCount {
        StateCount::new(junk_number(place))
    }

    fn show<W: Write>(&self, out: &mut W) -> io::Result<()> {
        write!(out, "{self}")
    }
}

impl Shown for Loss {
    fn junk(place: u16) -> Loss {
        Loss::new(junk_number(place))
    }

    fn show<W: Write>(&self, out: &mut W) -> io::Result<()> {
        write!(out, "{self}")
    }
}

fn junk_cell(place: u16, k: u16) -> u16 {
    40_000u16.wrapping_add(place).wrapping_add(k)
}

impl Shown for CellTable {
    fn junk(place: u16) -> CellTable {
        let mut cells = [0; 512];
        for (k, cell) in (0..512u16).zip(cells.iter_mut()) {
            *cell = junk_cell(place, k);
        }
        CellTable::new(cells)
    }

    // The first cell of a table that was filled differs most often, and then no junk is made.
    fn is_junk(&self, place: u16) -> bool {
        self.cells()[0] == junk_cell(place, 0) && *self == Self::junk(place)
    }

    // The cells that are not 0, as ABC:VALUE.
    fn show<W: Write>(&self, out: &mut W) -> io::Result<()> {
        let mut separator = "";
        for (k, value) in self.cells().iter().enumerate() {
            if *value != 0 {
                let (a, b, c) = (k % 8, k / 8 % 8, k / 64);
                write!(out, "{separator}{a}{b}{c}:{value}")?;
                separator = ",";
            }
        }
        if separator.is_empty() {
            write!(out, "0")?;
        }
        Ok(())
    }
}

// What stands at the place, or `junk` if that is what stood there before.
pub fn show_at<F: Shown, W: Write>(figure: &F, place: u16, out: &mut W) -> io::Result<()> {
    if figure.is_junk(place) {
        write!(out, "junk")
    } else {
        figure.show(out)
    }
}

// So many places of a bench, full of junk.
fn junk_places<F: Shown>(heap: Global, count: u16) -> Result<Vec<Sums<F>>, AllocError> {
    (0..count)
        .map(|place| Sums {
            working: F::junk(place),
            failing: F::junk(place),
        })
        .collect(heap)
}

// Surveys a line on a bench full of junk, and shows the answer and the bench.
pub fn show_survey<T: Tally, W: Write>(
    heap: Global,
    book: &Book,
    tally: &T,
    asked: Survey,
    out: &mut W,
) -> anyhow::Result<()>
where
    T::Figure: Shown,
{
    let mut places = junk_places::<T::Figure>(heap, asked.places)?;
    let mut bench = Bench::new(places.as_mut_slice());
    show("place", survey(book, asked.number, tally, &mut bench), out)?;
    show_places(places.as_slice(), out)?;
    Ok(())
}

// Makes the failure row of a line, with a row and a bench full of junk, and shows both.
pub fn show_row<W: Write>(
    heap: Global,
    book: &Book,
    asked: Survey,
    out: &mut W,
) -> anyhow::Result<()> {
    let mut places = junk_places::<CellTable>(heap, asked.places)?;
    let mut bench = Bench::new(places.as_mut_slice());
    let mut row = [junk_number(0); 7];
    match failure_row(book, asked.number, &mut bench, &mut row) {
        Ok(()) => write!(out, "row")?,
        Err(refusal) => write!(out, "{refusal} row")?,
    }
    show_entries(&row, out)?;
    show_places(places.as_slice(), out)?;
    Ok(())
}

fn show_entries<W: Write>(row: &[u32; 7], out: &mut W) -> io::Result<()> {
    for entry in row {
        if *entry == junk_number(0) {
            write!(out, " junk")?;
        } else {
            write!(out, " {entry}")?;
        }
    }
    writeln!(out)
}

fn show_places<F: Shown, W: Write>(places: &[Sums<F>], out: &mut W) -> io::Result<()> {
    write!(out, "bench")?;
    for (place, sums) in (0u16..).zip(places) {
        write!(out, " ")?;
        show_at(&sums.working, place, out)?;
        write!(out, "/")?;
        show_at(&sums.failing, place, out)?;
    }
    writeln!(out)
}
