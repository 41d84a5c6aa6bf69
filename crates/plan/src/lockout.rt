ghost use Rattle.std.specs.Prelude.{◌≡◌, ◌<◌};
ghost use Rattle.plan.specs.Lockouts.{LockoutRuled};
ghost use Rattle.plan.specs.Plans.{locked_out};
ghost use Rattle.plan.specs.PilesLemmas.{locked_out_lawful};

use crate::Plan;
use place_set::PlaceSet;
use rules::item_type::ItemType;
use rules::refusal::Refusal;

// A place from 0 to 15 that is to be locked out. It is checked before a plan goes into a lockout.
#[derive(Clone, Copy, PartialEq, Eq, Debug)]
pub struct LockedPlace {
    pub(crate) place: u8,
}

impl LockedPlace {
    pub fn new(place: u8) -> Result<LockedPlace, Refusal>
        ensures { LockoutRuled place result }
    {
        if place > 15 {
            return Err(Refusal::NoSuchPlace);
        }
        Ok(LockedPlace { place })
    }
}

// A plan with one place failed.
#[derive(Drop)]
pub struct Lockout<P> {
    pub plan: P,
    pub locked: LockedPlace,
}

impl<P: Plan> Plan for Lockout<P> {
    ghost meaning = { λ l. locked_out l.locked.place (P.Plan.meaning l.plan) };

    ghost lawful = { λ l. locked_out_lawful l.locked.place (P.Plan.meaning l.plan) (P.Plan.lawful l.plan) };

    fn item_type(&self, place: u8) -> Option<ItemType> {
        self.plan.item_type(place)
    }

    fn works(&self, state: PlaceSet) -> bool {
        self.plan.works(state.without(self.locked.place))
    }
}
