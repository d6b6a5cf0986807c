//! Numbers and modes, as they stand in a line.

ghost use Rattle.std.specs.Prelude.{◌≡◌, ◌≤◌, IfSome};
ghost use Rattle.mj_texts.specs.Number.{number_of, mode_of, digits_in};

/// The number that a word spells: decimal, without a leading zero, and at most `most`.
pub fn read_number(word: &[u8], most: u64) -> Option<u64>
    ensures number { result ≡ number_of most word.now }
    ensures small { IfSome result (λ n. n ≤ most) }
{
    match word {
        [] => return None,
        [b'0', _, ..] => return None,
        _ => {}
    }
    let number = read_digits(word, 10)?;
    if number <= most { Some(number) } else { None }
}

/// The mode that a word spells: three or four octal digits.
pub fn read_mode(word: &[u8]) -> Option<u16>
    ensures mode { result ≡ mode_of word.now }
    ensures small { IfSome result (λ mode. mode ≤ 0o7777) }
{
    if word.len() != 3 && word.len() != 4 {
        return None;
    }
    let mode = read_digits(word, 8)?;
    u16::try_from(mode).ok()
}

// The value of a word of digits: none where another byte stands among them, or where the value does not fit.
fn read_digits(word: &[u8], base: u32) -> Option<u64>
    requires few { base ≤ 36 }
    requires some { 2 ≤ base }
    ensures { result ≡ digits_in base word.now }
{
    let mut value = 0u64;
    for b in word {
        let digit = char::from(*b).to_digit(base)?;
        value = value
            .checked_mul(u64::from(base))?
            .checked_add(u64::from(digit))?;
    }
    Some(value)
}
