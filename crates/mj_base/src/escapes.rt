//! The escapes of texts.

ghost use Rattle.std.specs.Prelude.{◌≡◌, ◌<◌, ◌++◌, IsTrue, IfOk, IfErr, OnOk, OnErr, Ok, false, take, vec_len};
ghost use Rattle.std.specs.Option.{option_map};
ghost use Rattle.std.specs.Fmt.{digit_glyph};
ghost use Rattle.mj_base.specs.Name.{is_plain, escaped, escaped_byte};
ghost use Rattle.mj_base.specs.PathText.{is_hex, hex_value, escape_of, plain_first, first_byte, unescaped, IsEscapeRefusal};

use crate::cursor::or_take_back;
use std::alloc::{AllocError, AllocFailed, Global};

/// Why a text stands for no bytes.
#[derive(Clone, Copy, Debug, PartialEq, Eq)]
pub enum EscapeRefusal {
    /// What begins here is neither a byte that stands for itself nor an escape of one that does not.
    BadEscape(u64),
    /// There was no memory.
    Memory,
}

impl From<AllocError> for EscapeRefusal {
    ghost use Rattle.std.specs.Prelude.{◌≡◌};
    ghost use Rattle.mj_base.specs.declared.escapes.EscapeRefusal.TheVariants.{Memory};

    ghost from_gives = { λ _ e. e ≡ Memory };

    fn from(_e: AllocError) -> EscapeRefusal {
        EscapeRefusal::Memory
    }
}

impl<T: Drop> From<AllocFailed<T>> for EscapeRefusal {
    ghost use Rattle.std.specs.Prelude.{◌≡◌};
    ghost use Rattle.mj_base.specs.declared.escapes.EscapeRefusal.TheVariants.{Memory};

    ghost from_gives = { λ _ e. e ≡ Memory };

    fn from(_e: AllocFailed<T>) -> EscapeRefusal {
        EscapeRefusal::Memory
    }
}

/// Whether a byte stands for itself in a text.
fn is_plain(byte: u8) -> bool
    ensures { result ≡ is_plain byte }
{
    (0x21..=0x7e).contains(&byte) && byte != b'%'
}

/// Appends the text of bytes. After an error the buffer is as before.
pub fn escape(bytes: &[u8], out: &mut Vec<u8>) -> Result<(), AllocError>
    ensures ok { OnOk result (out.new.items ≡ out.old.items ++ escaped bytes.now) }
    ensures err { OnErr result (out.new.items ≡ out.old.items) }
{
    let before = out.len();
    let done = append_escaped(bytes, out);
    or_take_back(done, before, out)
}

fn append_escaped(bytes: &[u8], out: &mut Vec<u8>) -> Result<(), AllocError>
    ensures ok { OnOk result (out.new.items ≡ out.old.items ++ escaped bytes.now) }
    ensures err { OnErr result (take (vec_len out.old) out.new.items ≡ out.old.items) }
{
    for byte in bytes {
        append_byte(*byte, out)?;
    }
    Ok(())
}

fn append_byte(byte: u8, out: &mut Vec<u8>) -> Result<(), AllocError>
    ensures ok { OnOk result (out.new.items ≡ out.old.items ++ escaped_byte byte) }
    ensures err { OnErr result (out.new.items ≡ out.old.items) }
{
    if is_plain(byte) {
        out.push(byte)?;
        return Ok(());
    }
    out.extend_from_slice(&[b'%', hex_digit(byte / 16), hex_digit(byte % 16)])
}

/// The lower-case digit of a value below 16.
pub fn hex_digit(value: u8) -> u8
    requires { value < 16 }
    ensures { result ≡ digit_glyph false value }
{
    if value < 10 {
        b'0' + value
    } else {
        b'a' + (value - 10)
    }
}

/// The bytes that a text stands for, refused at the first place that stands for none.
pub fn unescape(alloc: Global, text: &[u8]) -> Result<Vec<u8>, EscapeRefusal>
    ensures bytes { IfOk result (λ bytes. unescaped text.now ≡ Ok bytes.items) }
    ensures refused { IfErr result (λ why. IsEscapeRefusal why text.now) }
{
    let mut bytes = Vec::with_capacity(alloc, text.len())?;
    let mut rest = text;
    while !rest.is_empty() {
        let Some((byte, after)) = first_byte(rest) else {
            return Err(EscapeRefusal::BadEscape((text.len() - rest.len()) as u64));
        };
        bytes.push(byte)?;
        rest = after;
    }
    Ok(bytes)
}

/// The byte that a text begins with, and the text behind it.
fn first_byte(text: &[u8]) -> Option<(u8, &[u8])>
    ensures { option_map (λ x. (x.0, x.1.now)) result ≡ first_byte text.now }
{
    match text {
        [] => None,
        [first, high, low, rest @ ..] => match escape_of(*first, *high, *low) {
            Some(byte) => Some((byte, rest)),
            None => plain_first(*first, &text[1..]),
        },
        [first, rest @ ..] => plain_first(*first, rest),
    }
}

fn plain_first(first: u8, rest: &[u8]) -> Option<(u8, &[u8])>
    ensures { option_map (λ x. (x.0, x.1.now)) result ≡ plain_first first rest.now }
{
    if is_plain(first) {
        Some((first, rest))
    } else {
        None
    }
}

/// The byte of `%` and two digits, where it does not stand for itself.
fn escape_of(first: u8, high: u8, low: u8) -> Option<u8>
    ensures { result ≡ escape_of first high low }
{
    if first != b'%' || !is_hex(high) || !is_hex(low) {
        return None;
    }
    let byte = hex_value(high) * 16 + hex_value(low);
    if is_plain(byte) { None } else { Some(byte) }
}

fn is_hex(digit: u8) -> bool
    ensures { result ≡ is_hex digit }
{
    matches!(digit, b'0'..=b'9' | b'a'..=b'f')
}

fn hex_value(digit: u8) -> u8
    requires { IsTrue (is_hex digit) }
    ensures value { result ≡ hex_value digit }
    ensures small { result < 16 }
{
    if digit <= b'9' {
        digit - b'0'
    } else {
        digit - b'a' + 10
    }
}
