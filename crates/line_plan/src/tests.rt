use crate::LinePlan;
use book::book::Book;
use place_set::PlaceSet;
use plan::Plan;
use rules::item_type::ItemType;
use rules::kind::Kind;
use rules::part_number::PartNumber;
use rules::refusal::Refusal;
use std::test::Fail;

fn n(value: u32) -> PartNumber {
    PartNumber::new(value)
}

// Whether the plan has these types at the places 0 to 3, and works in just these of the states
// of the places 0 to 2: bit m for the state with the mask m.
fn is_plan(plan: &LinePlan<'_>, types: [Option<ItemType>; 4], working: u8) -> bool {
    let working = PlaceSet::from(u16::from(working));
    (0..4)
        .zip(types)
        .all(|(place, item_type)| plan.item_type(place) == item_type)
        && (0..8).all(|mask| plan.works(PlaceSet::from(u16::from(mask))) == working.contains(mask))
}

// Items 1 and 2 of type 1, item 3 of type 2, series 4 over 1 and 2, parallel 5 over 4 and 3.
#[test]
fn five_lines(rt: HostRuntime) -> Result<(), Fail> {
    let mut book = Book::new(rt.alloc())?;
    let _ = book.issue(1);
    let _ = book.issue(1);
    let _ = book.issue(2);
    let _ = book.join(Kind::Series, n(1), n(2));
    let _ = book.join(Kind::Parallel, n(4), n(3));
    let plan = LinePlan::new(&book, n(5))?;
    let types = [
        Some(ItemType::One),
        Some(ItemType::One),
        Some(ItemType::Two),
        None,
    ];
    assert!(rt; is_plan(&plan, types, 0b1111_1000));
    assert_eq!(rt; LinePlan::new(&book, n(0)).err(), Some(Refusal::NeverGiven));
    assert_eq!(rt; LinePlan::new(&book, n(6)).err(), Some(Refusal::NeverGiven));
    let _ = book.withdraw(n(5));
    assert_eq!(rt; LinePlan::new(&book, n(5)).err(), Some(Refusal::Withdrawn));
    Ok(())
}

// The block 4 is over 3 and 1, in this order, and 5 over 4 and 2: the places go by number.
#[test]
fn rising_order(rt: HostRuntime) -> Result<(), Fail> {
    let mut book = Book::new(rt.alloc())?;
    let _ = book.issue(1);
    let _ = book.issue(2);
    let _ = book.issue(3);
    let _ = book.join(Kind::Series, n(3), n(1));
    let _ = book.join(Kind::Parallel, n(4), n(2));
    let block = LinePlan::new(&book, n(4))?;
    let types = [Some(ItemType::One), Some(ItemType::Three), None, None];
    assert!(rt; is_plan(&block, types, 0b1000_1000));
    let plan = LinePlan::new(&book, n(5))?;
    let types = [
        Some(ItemType::One),
        Some(ItemType::Two),
        Some(ItemType::Three),
        None,
    ];
    assert!(rt; is_plan(&plan, types, 0b1110_1100));
    Ok(())
}

// Sixteen items in series.
#[test]
fn sixteen_items(rt: HostRuntime) -> Result<(), Fail> {
    let mut book = Book::new(rt.alloc())?;
    for number in 0..16 {
        let _ = book.issue(number / 7 + 1);
    }
    let mut line = n(1);
    for number in 2..17 {
        line = book.join(Kind::Series, line, n(number))?;
    }
    let plan = LinePlan::new(&book, line)?;
    assert!(rt; plan.item_type(15) == Some(ItemType::Three));
    assert!(rt; plan.item_type(16) == None);
    assert!(rt; plan.works(PlaceSet::from(0xffff)));
    assert!(rt; !plan.works(PlaceSet::from(0x7fff)));
    Ok(())
}
