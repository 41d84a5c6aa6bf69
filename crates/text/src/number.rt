ghost use Rattle.std.specs.Prelude.{◌≡◌, ◌≤◌, length};
ghost use Rattle.text.specs.Numbers.{number_in, decimal_after};

// The number that a word stands for: one to five digits, and no leading zero but in `0` itself.
pub fn read_number(word: &[u8]) -> Option<u32>
    ensures { result ≡ number_in word.now }
{
    match word {
        [] | [b'0', _, ..] => None,
        _ if word.len() > 5 => None,
        _ => read_digits(word),
    }
}

// The value of at most five digits, or None where a byte is no digit.
fn read_digits(word: &[u8]) -> Option<u32>
    requires { length word.now ≤ 5 }
    ensures { result ≡ decimal_after 0 word.now }
{
    let mut n = 0;
    for b in word {
        n = n * 10 + char::from(*b).to_digit(10)?;
    }
    Some(n)
}
