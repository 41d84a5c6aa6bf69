ghost use Rattle.sums.specs.Blocks.{BlockSumsStand};
ghost use Rattle.sums.specs.Order.{OrderStands};
ghost use Rattle.tally.specs.Counts.{CountsStand};
ghost use Rattle.tally.specs.Losses.{CheapestLossStands};
ghost use Rattle.tally.specs.declared.prices.Prices.{Prices};

use crate::Tally;

// Under every tally the sums of a block follow from those of its lines.
pub fn block_sums_stand<T: Tally>()
    ensures { (t : T) → BlockSumsStand (T.Tally.meaning t) }
{}

// Under every tally the sums over states do not depend on the order of the items.
pub fn order_stands<T: Tally>()
    ensures { (t : T) → OrderStands (T.Tally.meaning t) }
{}

// Under count the sums of a line are numbers of states.
pub fn counts_stand()
    ensures { CountsStand }
{}

// Under prices the failing sum of a line is the cheapest loss that stops it.
pub fn cheapest_loss_stands()
    ensures { (p : Prices) → CheapestLossStands p }
{}
