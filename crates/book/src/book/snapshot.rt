ghost use Rattle.std.specs.Prelude.{◌≤◌, take};
ghost use Rattle.book.specs.Kept.{Kept};

use super::{Book, MOST_LINES};
use rules::item_type::ItemType;
use rules::line::{Line, Part};
use rules::part_number::PartNumber;

// What a book held at some moment.
#[derive(Clone, Copy)]
pub struct Snapshot {
    // The first `count` are the lines: the type is `Copy`, and a `Vec` or an `ArrayVec` is not.
    lines: [Line; MOST_LINES],
    count: usize,
    last: u32,
    ghost within: { count ≤ 31 },
    ghost kept: { Kept (take count lines) last },
}

impl Book {
    ghost use Rattle.book.specs.Snapshots.{Shows};

    // What the book holds now.
    pub fn snapshot(&self) -> Snapshot
        ensures { Shows result self.now }
    {
        let blank = Line {
            number: PartNumber::new(0),
            part: Part::Item(ItemType::One),
            built_in: false,
        };
        let mut lines = [blank; MOST_LINES];
        let count = self.table.lines.len();
        lines[..count].copy_from_slice(&self.table.lines);
        Snapshot {
            lines,
            count,
            last: self.last,
        }
    }

    // Puts back what the book held at the moment of the snapshot.
    pub fn restore(&mut self, snapshot: &Snapshot)
        ensures { Shows snapshot.now self.new }
    {
        self.table.replace(&snapshot.lines[..snapshot.count]);
        self.last = snapshot.last;
    }
}
