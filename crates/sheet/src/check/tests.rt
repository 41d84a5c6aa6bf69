use super::*;

// How many bytes stand above the closing line, its count and its next number.
fn checked(text: &[u8]) -> Result<(usize, u32, u32), Fault> {
    let CheckedSheet { above, count, next } = UncheckedSheet::new(text).check()?;
    Ok((above.len(), count, next))
}

fn refused(refusal: Refusal, line: usize, place: usize) -> Result<(usize, u32, u32), Fault> {
    Err(Fault::new(refusal, line, place, 0))
}

#[test]
fn closing_lines(rt: HostRuntime) {
    assert_eq!(rt; checked(b"E 0 1\n"), Ok((0, 0, 1)));
    assert_eq!(rt; checked(b"I 1\nI 2\nE 2 1\n"), Ok((8, 2, 1)));
    assert_eq!(rt; checked(b"\nE 9 9\nE 2 99999\n"), Ok((7, 2, 99_999)));
    assert_eq!(rt;
        checked(b"I 1\nE 2 1\n"),
        refused(Refusal::WrongLineCount, 2, 4)
    );
    assert_eq!(rt; checked(b"E 1 1\n"), refused(Refusal::WrongLineCount, 1, 0));
}

#[test]
fn no_closing_lines(rt: HostRuntime) {
    let texts: [&[u8]; 11] = [
        b"",
        b"\n",
        b"E 0 1",
        b"E 0 1\r\n",
        b"E 0 1 \n",
        b"E 0  1\n",
        b"E 00 1\n",
        b"E 0 123456\n",
        b"E 0 1\n\n",
        b"I 1\n",
        b"\x00\xff",
    ];
    for text in texts {
        assert_eq!(rt;
            checked(text),
            refused(Refusal::NoClosingLine, 0, text.len())
        );
    }
}

// Empty lines and a closing line, in 1,023, 1,024 and 1,025 bytes.
#[test]
fn lengths(rt: HostRuntime) {
    let mut text = [b'\n'; 1025];
    text[1014..1023].copy_from_slice(b"E 1014 1\n");
    assert_eq!(rt; checked(&text[0..1023]), Ok((1014, 1014, 1)));
    text[1014..1024].copy_from_slice(b"\nE 1015 1\n");
    assert_eq!(rt; checked(&text[0..1024]), Ok((1015, 1015, 1)));
    text[1015..1025].copy_from_slice(b"\nE 1016 1\n");
    assert_eq!(rt;
        checked(&text[0..1025]),
        refused(Refusal::SheetTooLong, 0, 0)
    );
}
