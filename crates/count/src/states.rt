ghost use Rattle.std.specs.Prelude.{◌≡◌, ℕ, ◌+◌, ◌*◌, ◌<◌, ◌≤◌};
ghost use Rattle.rules.specs.Rules.{Allowed};
ghost use Rattle.count.specs.Counts.{working_states, count_rules};
ghost use Rattle.count.specs.Laws.{Holds};
ghost use Rattle.count.specs.ByType.{Sorted};

use crate::by_type::{all_places, cell_index};
use place_set::PlaceSet;
use plan::Plan;
use rules::by_type::ByType;

// The number of states in which the plan works, cell by cell.
pub fn count_working_states<P: Plan>(plan: &P, places: ByType<PlaceSet>) -> [u16; 512]
    requires few { Allowed (count_rules (P.Plan.meaning plan.now)) }
    requires sorted { Sorted (P.Plan.meaning plan.now) places }
    ensures { Holds result (working_states (P.Plan.meaning plan.now)) }
{
    let mut cells = [0u16; 512];
    for state in all_places(places).subsets() {
        if plan.works(state) {
            cells[cell_index(places, state)] += 1;
        }
    }
    cells
}
