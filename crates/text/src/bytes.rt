ghost use Rattle.std.specs.Prelude.{◌≡◌};
ghost use Rattle.std.specs.Option.{option_map};
ghost use Rattle.text.specs.Texts.{before, after, ended};

// The bytes before the first `byte`, and those after it, if there is one.
pub fn cut<'a>(text: &'a [u8], byte: u8) -> (&'a [u8], Option<&'a [u8]>)
    ensures front { result.0.now ≡ before byte text.now }
    ensures rest { option_map (λ x. x.now) result.1 ≡ after byte text.now }
{
    match text.iter().position(|b| *b == byte) {
        Some(i) => (&text[..i], Some(&text[i + 1..])),
        None => (text, None),
    }
}

// Whether the last byte is byte 10.
pub fn is_ended(text: &[u8]) -> bool
    ensures { result ≡ ended text.now }
{
    text.last() == Some(&b'\n')
}
