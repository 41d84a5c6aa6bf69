#![tactic(auto)]

ghost use Rattle.std.specs.Prelude.{◌≡◌, ℕ, ◌+◌, ◌-◌, ◌*◌, ◌/◌, ◌%◌, ◌^◌, ◌<◌, ◌≤◌, Bool, true, false, MatchOption};
ghost use Rattle.std.specs.Option.{ForSome};
ghost use Rattle.sums.specs.States.{put};
ghost use Rattle.place_set.specs.Sets.{bit, members, adding, either, both, less, others, size, Within, NextBelow};

// A set of the places 0 to 15: bit i of the mask for the place i. A higher place is in no set.
#[derive(Clone, Copy, PartialEq, Eq, Debug)]
pub struct PlaceSet {
    mask: u16,
}

impl From<u16> for PlaceSet {
    ghost from_gives = { λ mask set. set.mask ≡ mask };

    fn from(mask: u16) -> Self {
        PlaceSet { mask }
    }
}

impl PlaceSet {
    ghost use Rattle.place_set.specs.Subsets.{subsets_of, subsets_left};

    pub fn contains(self, place: u8) -> bool
        ensures { result ≡ members self place }
    {
        place < 16 && (self.mask >> place) & 1 == 1
    }

    // The set and the place; the set itself where the place is above 15.
    pub fn with(self, place: u8) -> PlaceSet
        ensures { members result ≡ adding place (members self) }
    {
        if place < 16 {
            PlaceSet {
                mask: self.mask | (1 << place),
            }
        } else {
            self
        }
    }

    pub fn without(self, place: u8) -> PlaceSet
        ensures { members result ≡ put place false (members self) }
    {
        if place < 16 {
            PlaceSet {
                mask: self.mask & !(1 << place),
            }
        } else {
            self
        }
    }

    pub fn union(self, other: PlaceSet) -> PlaceSet
        ensures { members result ≡ either (members self) (members other) }
    {
        PlaceSet {
            mask: self.mask | other.mask,
        }
    }

    pub fn intersection(self, other: PlaceSet) -> PlaceSet
        ensures { members result ≡ both (members self) (members other) }
    {
        PlaceSet {
            mask: self.mask & other.mask,
        }
    }

    pub fn difference(self, other: PlaceSet) -> PlaceSet
        ensures { members result ≡ less (members self) (members other) }
    {
        PlaceSet {
            mask: self.mask & !other.mask,
        }
    }

    // The places 0 to 15 that are not in the set.
    pub fn complement(self) -> PlaceSet
        ensures { members result ≡ others (members self) }
    {
        PlaceSet { mask: !self.mask }
    }

    pub fn is_empty(self) -> bool
        ensures none { result ≡ true → (i : ℕ) → members self i ≡ false }
        ensures some { result ≡ false → (i : ℕ) × (members self i ≡ true) }
    {
        self.mask == 0
    }

    pub fn len(self) -> u32
        ensures { result ≡ size (members self) }
    {
        self.mask.count_ones()
    }

    // The subsets of the set.
    pub fn subsets(self) -> Subsets
        ensures { subsets_left result ≡ subsets_of self }
    {
        Subsets {
            whole: self,
            next: Some(self),
        }
    }

    // After this subset of `whole` the next one, in falling order of masks; None after the empty set.
    pub fn next_subset(self, whole: PlaceSet) -> Option<PlaceSet>
        ensures { Within (members self) (members whole) → MatchOption result (self.mask ≡ 0) (λ t. NextBelow whole self t) }
    {
        let below = self.mask.checked_sub(1)?;
        Some(PlaceSet {
            mask: below & whole.mask,
        })
    }
}

// The subsets of a set of places that are still to come, in falling order of masks: at first the set
// itself, and the empty set at last.
#[derive(Debug, Drop)]
pub struct Subsets {
    whole: PlaceSet,
    next: Option<PlaceSet>,
    ghost within: { ForSome next (λ s. Within (members s) (members whole)) },
}

impl Iterator for Subsets {
    ghost use Rattle.std.specs.Iterator.{YieldsFirst, item_count};
    ghost use Rattle.place_set.specs.Subsets.{subsets_left};

    type Item = PlaceSet;

    ghost next_gives = { YieldsFirst subsets_left };

    ghost remaining = { item_count subsets_left };

    fn next(&mut self) -> Option<PlaceSet> {
        let subset = self.next?;
        self.next = subset.next_subset(self.whole);
        Some(subset)
    }
}
