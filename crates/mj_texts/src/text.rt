//! Texts, as lines of words that are parted by one space each.

ghost use Rattle.std.specs.Prelude.{◌≡◌, ◌++◌, ◌∷◌, map, OnOk, decimal};
ghost use Rattle.std.specs.List.{flat_map};
ghost use Rattle.mj_tree.specs.Listing.{words, octal};
ghost use Rattle.mj_base.specs.ObjectName.{object_text};
ghost use Rattle.mj_texts.specs.Text.{line_text, word_text, numbered};

use itoa::Buffer;
use mj_base::{ObjectName, escape};
use std::alloc::AllocError;

/// A word of a text.
#[derive(Clone, Copy)]
pub enum Word<'a> {
    Text(&'a str),
    Number(u64),
    Object(ObjectName),
    /// With the escapes of names and targets.
    Escaped(&'a [u8]),
    /// Four octal digits.
    Mode(u16),
}

/// Appends a line of words.
pub fn append_line(words: &[Word], out: &mut Vec<u8>) -> Result<(), AllocError>
    ensures { OnOk result (out.new.items ≡ out.old.items ++ line_text words.now) }
{
    append_words(words, out)?;
    out.push(b'\n')?;
    Ok(())
}

/// Appends words, parted by one space each.
pub fn append_words(parts: &[Word], out: &mut Vec<u8>) -> Result<(), AllocError>
    ensures { OnOk result (out.new.items ≡ out.old.items ++ words (map word_text parts.now)) }
{
    match parts {
        [] => Ok(()),
        [first, rest @ ..] => {
            append_word(first, out)?;
            append_spaced(rest, out)?;
            Ok(())
        }
    }
}

/// Appends words, each behind a space.
pub fn append_spaced(parts: &[Word], out: &mut Vec<u8>) -> Result<(), AllocError>
    ensures { OnOk result (out.new.items ≡ out.old.items ++ flat_map (λ w. 32 ∷ word_text w) parts.now) }
{
    for word in parts {
        out.push(b' ')?;
        append_word(word, out)?;
    }
    Ok(())
}

fn append_word(word: &Word, out: &mut Vec<u8>) -> Result<(), AllocError>
    ensures { OnOk result (out.new.items ≡ out.old.items ++ word_text word.now) }
{
    match word {
        Word::Text(text) => out.extend_from_slice(text.as_bytes()),
        Word::Number(n) => append_number(*n, out),
        Word::Object(name) => append_object(name, out),
        Word::Escaped(bytes) => escape(bytes, out),
        Word::Mode(mode) => append_mode(*mode, out),
    }
}

/// Appends a number in decimal.
pub fn append_number(n: u64, out: &mut Vec<u8>) -> Result<(), AllocError>
    ensures { OnOk result (out.new.items ≡ out.old.items ++ decimal n) }
{
    let mut digits = Buffer::new();
    out.extend_from_slice(digits.format(n).as_bytes())
}

fn append_object(name: &ObjectName, out: &mut Vec<u8>) -> Result<(), AllocError>
    ensures { OnOk result (out.new.items ≡ out.old.items ++ object_text name.now) }
{
    let text = name.text(*out.allocator())?;
    out.extend_from_slice(&text)?;
    Ok(())
}

#[tactic(auto, using(crate::proofs::TextLemmas::padded_zeros))]
fn append_mode(mode: u16, out: &mut Vec<u8>) -> Result<(), AllocError>
    ensures { OnOk result (out.new.items ≡ out.old.items ++ octal mode) }
{
    let digits = [
        b'0' + (mode / 512 % 8) as u8,
        b'0' + (mode / 64 % 8) as u8,
        b'0' + (mode / 8 % 8) as u8,
        b'0' + (mode % 8) as u8,
    ];
    out.extend_from_slice(&digits)
}

/// Appends a line of a word and numbers.
pub fn append_numbers(word: &str, numbers: &[u64], out: &mut Vec<u8>) -> Result<(), AllocError>
    ensures { OnOk result (out.new.items ≡ out.old.items ++ numbered word.now numbers.now) }
{
    out.extend_from_slice(word.as_bytes())?;
    append_spaced_numbers(numbers, out)?;
    out.push(b'\n')?;
    Ok(())
}

fn append_spaced_numbers(numbers: &[u64], out: &mut Vec<u8>) -> Result<(), AllocError>
    ensures { OnOk result (out.new.items ≡ out.old.items ++ flat_map (λ n. 32 ∷ decimal n) numbers.now) }
{
    for n in numbers {
        out.push(b' ')?;
        append_number(*n, out)?;
    }
    Ok(())
}
