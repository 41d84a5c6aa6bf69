ghost use Rattle.tally.specs.Counts.{counts};
ghost use Rattle.tally.specs.Wrapping.{counts_lawful};

use crate::Tally;
use crate::state_count::StateCount;
use rules::item_type::ItemType;

// Counts states, modulo 2^32: every item has the figure 1, whether it works or not.
#[derive(Clone, Copy)]
pub struct Count;

impl Tally for Count {
    type Figure = StateCount;

    ghost meaning = { λ _. counts };

    ghost lawful = { λ t. counts_lawful };

    fn none(&self) -> StateCount {
        StateCount::new(0)
    }

    fn unit(&self) -> StateCount {
        StateCount::new(1)
    }

    fn plus(&self, a: StateCount, b: StateCount) -> StateCount {
        StateCount::new(a.get().wrapping_add(b.get()))
    }

    fn times(&self, a: StateCount, b: StateCount) -> StateCount {
        StateCount::new(a.get().wrapping_mul(b.get()))
    }

    fn working(&self, _item_type: ItemType) -> StateCount {
        self.unit()
    }

    fn failed(&self, item_type: ItemType) -> StateCount {
        self.working(item_type)
    }
}
