use super::*;
use rules::kind::Kind;
use rules::part_number::PartNumber;

fn change(bytes: &[u8]) -> Option<Change> {
    if bytes.len() > 99 {
        return None;
    }
    let line = SheetLine {
        bytes,
        number: 1,
        place: 0,
    };
    line.change()
}

fn join(kind: Kind, a: u32, b: u32) -> Option<Change> {
    Some(Change::Join(kind, PartNumber::new(a), PartNumber::new(b)))
}

#[test]
fn changes(rt: HostRuntime) {
    assert_eq!(rt; change(b"I 1"), Some(Change::Issue(1)));
    assert_eq!(rt; change(b"I 0"), Some(Change::Issue(0)));
    assert_eq!(rt;
        change(b"W 99999"),
        Some(Change::Withdraw(PartNumber::new(99_999)))
    );
    assert_eq!(rt; change(b"S 1 20"), join(Kind::Series, 1, 20));
    assert_eq!(rt; change(b"P 10 2"), join(Kind::Parallel, 10, 2));
}

#[test]
fn unreadable(rt: HostRuntime) {
    let lines: [&[u8]; 20] = [
        b"",
        b"I",
        b"I ",
        b"I 100000",
        b"I 00",
        b"I 01",
        b"I  1",
        b" I 1",
        b"I 1 ",
        b"I 1 2",
        b"I 1\r",
        b"I +1",
        b"i 1",
        b"II 1",
        b"I I",
        b"S 1",
        b"S 1 2 3",
        b"E 1 1",
        b"\x00 1",
        b"I \xff",
    ];
    for line in lines {
        assert_eq!(rt; change(line), None);
    }
}
