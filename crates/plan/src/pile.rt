ghost use Rattle.std.specs.Prelude.{◌≡◌};
ghost use Rattle.place_set.specs.Sets.{members};
ghost use Rattle.plan.specs.Piles.{Settled};

use crate::Plan;
use crate::lockout::LockedPlace;
use place_set::PlaceSet;
use rules::item_type::ItemType;

// A lockout of a place, or a mirror.
#[derive(Clone, Copy, PartialEq, Eq, Debug)]
pub enum Layer {
    Lockout(LockedPlace),
    Mirror,
}

// A plan with any number of lockouts and mirrors over it, the lowest first.
#[derive(Drop)]
pub struct Pile<P> {
    pub plan: P,
    pub layers: Vec<Layer>,
}

impl<P: Plan> Plan for Pile<P> {
    ghost use Rattle.plan.specs.Piles.{piled};
    ghost use Rattle.plan.specs.PilesLemmas.{piled_lawful};

    ghost meaning = { λ p. piled p.layers.items (P.Plan.meaning p.plan) };

    ghost lawful = { λ p. piled_lawful p.layers.items (P.Plan.meaning p.plan) (P.Plan.lawful p.plan) };

    fn item_type(&self, place: u8) -> Option<ItemType> {
        self.plan.item_type(place)
    }

    // The state goes down through the layers, and each mirror turns the answer.
    fn works(&self, mut state: PlaceSet) -> bool {
        let mut turned = false;
        for layer in self.layers.iter().rev() {
            match layer {
                Layer::Lockout(locked) => state = state.without(locked.place),
                Layer::Mirror => {
                    state = state.complement();
                    turned = !turned;
                }
            }
        }
        turned != self.plan.works(state)
    }
}

// A pile whose layers were gone through once, and not in every state. A state reaches the plan with
// each place as `idle` has it where it does not work, and as `busy` has it where it does.
#[derive(Drop)]
pub struct SettledPile<P> {
    pile: Pile<P>,
    // What the state without working places is beneath the layers.
    idle: PlaceSet,
    // What the state in which all places work is beneath them.
    busy: PlaceSet,
    // Whether the mirrors turn the answer.
    turned: bool,
    ghost settled: { Settled pile.layers.items (members idle) (members busy) turned },
}

impl<P> From<Pile<P>> for SettledPile<P> {
    ghost from_gives = { λ pile settled. settled.pile ≡ pile };

    fn from(pile: Pile<P>) -> Self {
        let mut idle = PlaceSet::from(0);
        let mut busy = idle.complement();
        let mut mirrored = false;
        for layer in pile.layers.iter().rev() {
            match layer {
                Layer::Lockout(locked) => {
                    idle = idle.without(locked.place);
                    busy = busy.without(locked.place);
                }
                Layer::Mirror => {
                    idle = idle.complement();
                    busy = busy.complement();
                    mirrored = !mirrored;
                }
            }
        }
        SettledPile {
            pile,
            idle,
            busy,
            turned: mirrored,
        }
    }
}

impl<P: Plan> Plan for SettledPile<P> {
    ghost use Rattle.plan.specs.Piles.{piled};
    ghost use Rattle.plan.specs.PilesLemmas.{piled_lawful};

    ghost meaning = { λ s. piled s.pile.layers.items (P.Plan.meaning s.pile.plan) };

    ghost lawful = { λ s. piled_lawful s.pile.layers.items (P.Plan.meaning s.pile.plan) (P.Plan.lawful s.pile.plan) };

    fn item_type(&self, place: u8) -> Option<ItemType> {
        self.pile.plan.item_type(place)
    }

    fn works(&self, state: PlaceSet) -> bool {
        let below = state
            .intersection(self.busy)
            .union(self.idle.difference(state));
        self.turned != self.pile.plan.works(below)
    }
}
