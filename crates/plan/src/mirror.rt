ghost use Rattle.std.specs.Prelude.{◌≡◌};
ghost use Rattle.plan.specs.Plans.{mirrored};
ghost use Rattle.plan.specs.PilesLemmas.{mirrored_lawful};

use crate::Plan;
use place_set::PlaceSet;
use rules::item_type::ItemType;

// A plan that works where the plan below does not work with every place turned over.
#[derive(Drop)]
pub struct Mirror<P> {
    pub plan: P,
}

impl<P: Plan> Plan for Mirror<P> {
    ghost meaning = { λ m. mirrored (P.Plan.meaning m.plan) };

    ghost lawful = { λ m. mirrored_lawful (P.Plan.meaning m.plan) (P.Plan.lawful m.plan) };

    fn item_type(&self, place: u8) -> Option<ItemType> {
        self.plan.item_type(place)
    }

    fn works(&self, state: PlaceSet) -> bool {
        !self.plan.works(state.complement())
    }
}
