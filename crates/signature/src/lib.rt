#![tactic(auto)]

mod padded;
mod product;
mod sum;
#[cfg(test)]
mod tests;
pub mod theorems;

ghost use Rattle.std.specs.Prelude.{◌≡◌, ◌<◌};
ghost use Rattle.cells.specs.Tables.{table_of};
ghost use Rattle.signature.specs.Polynomials.{one_at};
ghost use Rattle.signature.specs.Signature.{signature};
ghost use Rattle.signature.specs.Laws.{signature_semiring};

use cells::table::CellTable;
use product::product;
use rules::item_type::ItemType;
use sum::sum;
use tally::Tally;

// The tally of the survival signature. Its figures are polynomials in three variables, one for each
// type, in tables that keep the powers up to 7 and each coefficient modulo 65,536.
#[derive(Clone, Copy)]
pub struct Signature;

impl Tally for Signature {
    type Figure = CellTable;

    ghost meaning = { λ _. signature };

    ghost lawful = { λ t. signature_semiring };

    fn none(&self) -> CellTable {
        CellTable::new([0; 512])
    }

    fn unit(&self) -> CellTable {
        one_at(0, 0, 0)
    }

    fn plus(&self, a: CellTable, b: CellTable) -> CellTable {
        CellTable::new(sum(a.cells(), b.cells()))
    }

    fn times(&self, a: CellTable, b: CellTable) -> CellTable {
        CellTable::new(product(a.cells(), b.cells()))
    }

    fn working(&self, item_type: ItemType) -> CellTable {
        match item_type {
            ItemType::One => one_at(1, 0, 0),
            ItemType::Two => one_at(0, 1, 0),
            ItemType::Three => one_at(0, 0, 1),
        }
    }

    fn failed(&self, _item_type: ItemType) -> CellTable {
        self.unit()
    }
}

// The table with 1 in the cell (a, b, c) and 0 elsewhere.
fn one_at(a: usize, b: usize, c: usize) -> CellTable
    requires { (a < 8) × ((b < 8) × (c < 8)) }
    ensures { result ≡ table_of (one_at a b c) }
{
    let mut cells = [0u16; 512];
    cells[a + 8 * b + 64 * c] = 1;
    CellTable::new(cells)
}
