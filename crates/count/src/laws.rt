ghost use Rattle.std.specs.Prelude.{◌≡◌};
ghost use Rattle.count.specs.Counts.{working_states};
ghost use Rattle.count.specs.Laws.{StepUp};

use plan::Plan;

// With l of a type's n places working and the other types' numbers fixed, n − l times a cell of the
// long count is at most l + 1 times the next cell.
pub fn step_up_stands<P: Plan>()
    ensures { (p : P) → StepUp (P.Plan.meaning p) (working_states (P.Plan.meaning p)) }
{}
