#![tactic(auto)]

pub mod lockout;
pub mod mirror;
pub mod path_list;
pub mod pile;

ghost use Rattle.std.specs.Prelude.{◌≡◌};
ghost use Rattle.place_set.specs.Sets.{members};
ghost use Rattle.plan.specs.Plans.{Structure, LawfulPlan};

use place_set::PlaceSet;
use rules::item_type::ItemType;

// A plan says of each place 0 to 15 whether it has an item, and of which type, and of each state of
// the places whether the plan works. No call refuses, and each answers alike each time.
pub trait Plan {
    ghost meaning: { Self → Structure };

    // The type of the place; an empty place has none, and neither has a place above 15.
    fn item_type(&self, place: u8) -> Option<ItemType>
        ensures { result ≡ (meaning self.now).types place };

    // Whether the plan works in the state in which the places of the set work, and no others.
    fn works(&self, state: PlaceSet) -> bool
        ensures { result ≡ (meaning self.now).works (members state) };

    ghost lawful: { (p : Self) → LawfulPlan (meaning p) };
}

#[cfg(test)]
mod tests {
    use super::*;
    use crate::lockout::{LockedPlace, Lockout};
    use crate::mirror::Mirror;
    use crate::path_list::PathList;
    use crate::pile::{Layer, Pile, SettledPile};
    use rules::refusal::Refusal;
    use std::test::Fail;

    const NUMBERS: [u8; 16] = [1, 1, 2, 0, 0, 0, 0, 0, 0, 0, 0, 0, 0, 0, 0, 0];

    // The paths {0, 1} and {2}, mirrored, with the place 2 locked out, and mirrored again.
    #[test]
    fn pile(rt: HostRuntime) -> Result<(), Fail> {
        let paths = [PlaceSet::from(3), PlaceSet::from(4)].to_vec(rt.alloc())?;
        let list = PathList::new(NUMBERS, paths)?;
        assert_eq!(rt; list.item_type(1), Some(ItemType::One));
        assert_eq!(rt; list.item_type(2), Some(ItemType::Two));
        assert_eq!(rt; list.item_type(3), None);
        assert_eq!(rt; list.item_type(16), None);
        assert_eq!(rt; list.works(PlaceSet::from(3)), true);
        assert_eq!(rt; list.works(PlaceSet::from(4)), true);
        assert_eq!(rt; list.works(PlaceSet::from(1)), false);
        let mirror = Mirror { plan: list };
        assert_eq!(rt; mirror.works(PlaceSet::from(3)), false);
        assert_eq!(rt; mirror.works(PlaceSet::from(5)), true);
        let locked = LockedPlace::new(0)?;
        let pile = Mirror {
            plan: Lockout {
                plan: mirror,
                locked,
            },
        };
        assert_eq!(rt; pile.item_type(2), Some(ItemType::Two));
        assert_eq!(rt; pile.works(PlaceSet::from(2)), true);
        assert_eq!(rt; pile.works(PlaceSet::from(1)), false);
        Ok(())
    }

    // A pile as one value answers as the types that are laid one over another, and settled too.
    #[test]
    fn layers(rt: HostRuntime) -> Result<(), Fail> {
        let paths = [PlaceSet::from(3), PlaceSet::from(4)];
        let locked = LockedPlace::new(0)?;
        let nested = Mirror {
            plan: Lockout {
                plan: Mirror {
                    plan: PathList::new(NUMBERS, paths.to_vec(rt.alloc())?)?,
                },
                locked,
            },
        };
        let layers = [Layer::Mirror, Layer::Lockout(locked), Layer::Mirror];
        let pile = Pile {
            plan: PathList::new(NUMBERS, paths.to_vec(rt.alloc())?)?,
            layers: layers.to_vec(rt.alloc())?,
        };
        for place in 0..=16 {
            assert_eq!(rt; pile.item_type(place), nested.item_type(place));
        }
        for mask in 0..8 {
            let state = PlaceSet::from(mask);
            assert_eq!(rt; pile.works(state), nested.works(state));
        }
        let settled = SettledPile::from(pile);
        for place in 0..=16 {
            assert_eq!(rt; settled.item_type(place), nested.item_type(place));
        }
        for mask in 0..8 {
            let state = PlaceSet::from(mask);
            assert_eq!(rt; settled.works(state), nested.works(state));
        }
        let locked_first = Pile {
            plan: PathList::new(NUMBERS, paths.to_vec(rt.alloc())?)?,
            layers: layers[1..].to_vec(rt.alloc())?,
        };
        assert_eq!(rt; locked_first.works(PlaceSet::from(4)), true);
        assert_eq!(rt;
            SettledPile::from(locked_first).works(PlaceSet::from(4)),
            true
        );
        let mirrored_first = Pile {
            plan: PathList::new(NUMBERS, paths.to_vec(rt.alloc())?)?,
            layers: layers[..2].to_vec(rt.alloc())?,
        };
        assert_eq!(rt; mirrored_first.works(PlaceSet::from(4)), false);
        assert_eq!(rt;
            SettledPile::from(mirrored_first).works(PlaceSet::from(4)),
            false
        );
        Ok(())
    }

    #[test]
    fn refusals(rt: HostRuntime) -> Result<(), Fail> {
        let mut wrong = NUMBERS;
        wrong[9] = 4;
        let none = [PlaceSet::from(0)];
        assert_eq!(rt;
            PathList::new(wrong, Vec::new(rt.alloc())).err(),
            Some(Refusal::UnknownType)
        );
        assert_eq!(rt;
            PathList::new(NUMBERS, Vec::new(rt.alloc())).err(),
            Some(Refusal::NoPath)
        );
        assert_eq!(rt;
            PathList::new(NUMBERS, none.to_vec(rt.alloc())?).err(),
            Some(Refusal::EmptyPath)
        );
        let empty = [PlaceSet::from(3), PlaceSet::from(8)];
        assert_eq!(rt;
            PathList::new(NUMBERS, empty.to_vec(rt.alloc())?).err(),
            Some(Refusal::EmptyPlace)
        );
        assert!(rt; LockedPlace::new(16).is_err());
        Ok(())
    }
}
