use crate::Signature;
use cells::table::CellTable;
use rules::item_type::ItemType;
use tally::Tally;

// `factor` to the power `n`.
fn power(factor: CellTable, n: usize) -> CellTable {
    let mut product = Signature.unit();
    for _ in 0..n {
        product = Signature.times(product, factor);
    }
    product
}

#[test]
fn items(rt: HostRuntime) {
    assert_eq!(rt; Signature.working(ItemType::One).cell(1, 0, 0), Some(1));
    assert_eq!(rt; Signature.working(ItemType::Two).cell(0, 1, 0), Some(1));
    assert_eq!(rt; Signature.working(ItemType::Three).cell(0, 0, 1), Some(1));
    assert_eq!(rt; Signature.working(ItemType::Three).cell(0, 0, 0), Some(0));
    assert_eq!(rt; Signature.failed(ItemType::Two).cell(0, 0, 0), Some(1));
    assert_eq!(rt; Signature.none().cell(0, 0, 0), Some(0));
}

#[test]
fn products(rt: HostRuntime) {
    let one = Signature.working(ItemType::One);
    assert_eq!(rt; power(one, 2).cell(2, 0, 0), Some(1));
    assert_eq!(rt; power(one, 7).cell(7, 0, 0), Some(1));
    let rest = power(one, 8);
    assert_eq!(rt; rest.cell(7, 0, 0), Some(0));
    assert_eq!(rt; rest.cell(0, 1, 0), Some(0));
    let either = Signature.plus(one, Signature.failed(ItemType::One));
    let five = power(either, 5);
    assert_eq!(rt; five.cell(2, 0, 0), Some(10));
    let mixed = Signature.times(five, Signature.working(ItemType::Three));
    assert_eq!(rt; mixed.cell(3, 0, 1), Some(10));
    assert_eq!(rt; mixed.cell(3, 0, 0), Some(0));
    let both = Signature.plus(Signature.unit(), Signature.unit());
    assert_eq!(rt; power(both, 15).cell(0, 0, 0), Some(32768));
    assert_eq!(rt; power(both, 16).cell(0, 0, 0), Some(0));
}
