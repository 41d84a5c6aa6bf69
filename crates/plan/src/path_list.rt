ghost use Rattle.std.specs.Prelude.{◌≡◌, ◌≤◌, true, length};
ghost use Rattle.std.specs.List.{list_any};
ghost use Rattle.place_set.specs.Sets.{members};
ghost use Rattle.rules.specs.Rules.{Decided};
ghost use Rattle.plan.specs.Paths.{PlaceTyped, types_of, covers, all_filled, plan_of_paths, type_rules, path_rules, each_path, path_list_rules};
ghost use Rattle.plan.specs.PathsLemmas.{path_list_lawful};

use crate::Plan;
use place_set::PlaceSet;
use rules::item_type::ItemType;
use rules::refusal::Refusal;

// A plan by paths: it works if some path has all its places working. A place has a type, or none if it
// is empty. There are 1 to 64 paths, and each names a place, and no empty one.
#[derive(Drop)]
pub struct PathList {
    types: [Option<ItemType>; 16],
    paths: Vec<PlaceSet>,
    ghost long: { length types ≡ 16 },
    ghost filled: { all_filled types paths.items ≡ true },
}

impl PathList {
    // A list of paths over 16 places, each with the number of its type, or 0 if it is empty.
    pub fn new(numbers: [u8; 16], paths: Vec<PlaceSet>) -> Result<PathList, Refusal>
        ensures { Decided (path_list_rules numbers paths.items) (λ p. (p.types ≡ types_of numbers) × (p.paths.items ≡ paths.items)) result }
    {
        let types = place_types(numbers)?;
        if paths.is_empty() {
            return Err(Refusal::NoPath);
        }
        if paths.len() > 64 {
            return Err(Refusal::TooManyPaths);
        }
        check_paths(&types, &paths)?;
        Ok(PathList { types, paths })
    }
}

impl Plan for PathList {
    ghost meaning = { λ p. plan_of_paths p.types p.paths.items };

    ghost lawful = { λ p. path_list_lawful p.types p.paths.items p.long p.filled };

    fn item_type(&self, place: u8) -> Option<ItemType> {
        self.types.get(usize::from(place)).copied().flatten()
    }

    fn works(&self, state: PlaceSet) -> bool {
        some_path_works(&self.paths, state)
    }
}

// The type with the number, or none for 0.
fn place_type(number: u8) -> Result<Option<ItemType>, Refusal>
    ensures { PlaceTyped number result }
{
    match number {
        0 => Ok(None),
        _ => ItemType::try_from(u32::from(number)).map(Some),
    }
}

fn place_types(numbers: [u8; 16]) -> Result<[Option<ItemType>; 16], Refusal>
    ensures { Decided (type_rules numbers) (λ types. types ≡ types_of numbers) result }
{
    numbers.try_map(place_type)
}

fn check_path(types: &[Option<ItemType>; 16], path: PlaceSet) -> Result<(), Refusal>
    ensures { Decided (path_rules types.now path) (λ _. Unit {0}) result }
{
    if path.is_empty() {
        return Err(Refusal::EmptyPath);
    }
    for (place, item_type) in types.iter().enumerate() {
        if item_type.is_none() && path.contains(place as u8) {
            return Err(Refusal::EmptyPlace);
        }
    }
    Ok(())
}

fn check_paths(types: &[Option<ItemType>; 16], paths: &[PlaceSet]) -> Result<(), Refusal>
    ensures { Decided (each_path types.now paths.now) (λ _. Unit {0}) result }
{
    for path in paths {
        check_path(types, *path)?;
    }
    Ok(())
}

// Whether some path has all its places working.
fn some_path_works(paths: &[PlaceSet], state: PlaceSet) -> bool
    ensures { result ≡ list_any (covers (members state)) paths.now }
{
    'paths: for path in paths {
        // Made once for the path: to ask both sets of each place took 15 times as long.
        let failed = path.difference(state);
        for place in 0..16 {
            if failed.contains(place) {
                continue 'paths;
            }
        }
        return true;
    }
    false
}
