#![tactic(auto)]

ghost use Rattle.std.specs.Prelude.{◌≡◌, ℕ, ◌≤◌, length, slice_index_or};
ghost use Rattle.rules.specs.History.{lines_standing};
ghost use Rattle.rules.specs.Tables.{At, Missing};
ghost use Rattle.rules.specs.declared.item_type.ItemType.{ItemType};
ghost use Rattle.rules.specs.declared.kind.Kind.{Kind};
ghost use Rattle.book.specs.Keeps.{Tells};
ghost use Rattle.reckoning.specs.Figures.{Reckoned};

use book::book::Book;
use rules::item_type::ItemType;
use rules::kind::Kind;
use rules::line::{Line, Part};
use rules::part_number::PartNumber;

// How the figure of a line is made: an item's from its type, a block's from its kind and the figures
// of its two lines.
pub trait Reckoning {
    type Figure: Copy;

    // What the figure of an item of a type may be.
    ghost of_item: { Self → ItemType → Self.Figure → Type 0 };

    // What that of a block of a kind may be, over two lines with the figures x and y.
    ghost of_block: { Self → Kind → Self.Figure → Self.Figure → Self.Figure → Type 0 };

    fn item(&self, item_type: ItemType) -> Self::Figure
        ensures { of_item self.now item_type result };

    fn block(&self, kind: Kind, x: &Self::Figure, y: &Self::Figure) -> Self::Figure
        ensures { of_block self.now kind x.now y.now result };
}

// Puts the figure of every standing line at the line's place, in rising number. The places behind stay
// as they were.
pub fn reckon<R: Reckoning>(book: &Book, reckoning: &R, figures: &mut [R::Figure])
    requires { Tells book.now (λ h. lines_standing h ≤ length figures.old) }
    ensures { Tells book.now (λ h. Reckoned (R.of_item reckoning.now) (R.of_block reckoning.now) h figures.old figures.new) }
{
    let lines = book.lines();
    for (place, line) in lines.iter().enumerate() {
        let figure = match line.part {
            Part::Item(item_type) => reckoning.item(item_type),
            Part::Block(kind, a, b) => {
                let x = figure_of(&lines[..place], figures, a);
                let y = figure_of(&lines[..place], figures, b);
                reckoning.block(kind, x, y)
            }
        };
        // By index: the figures of the lines before it were read.
        figures[place] = figure;
    }
}

// The figure of a line that stands among those before a block. The latest are looked at first: a block
// is most often over lines that were made shortly before it.
fn figure_of<'a, F>(before: &[Line], figures: &'a [F], number: PartNumber) -> &'a F
    requires stands { Missing before.now number.value → ⊥ }
    requires room { length before.now ≤ length figures.now }
    ensures { (i : ℕ) × At before.now number.value i × (result.now ≡ slice_index_or figures.now i result.now) }
{
    let place = before.iter().rposition(|line| line.number == number);
    &figures[place.unwrap()]
}
