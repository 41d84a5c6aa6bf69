use crate::Tally;
use crate::count::Count;
use crate::prices::Prices;
use crate::state_count::StateCount;
use rules::item_type::ItemType;
use std::test::Fail;

#[test]
fn figures_at_their_limits(rt: HostRuntime) -> Result<(), Fail> {
    let highest = StateCount::new(u32::MAX);
    assert_eq!(rt; Count.plus(highest, Count.unit()).get(), 0);
    assert!(rt; Prices::new(0, 1_000_001, 0).is_err());
    let Ok(prices) = Prices::new(0, 25, 1_000_000) else {
        return Err(Fail::new("prices within the limit"));
    };
    let none = prices.none();
    assert_eq!(rt;
        prices.times(none, prices.failed(ItemType::Two)).get(),
        u32::MAX
    );
    Ok(())
}
