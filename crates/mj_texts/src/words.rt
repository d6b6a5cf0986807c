//! The words of a line.

ghost use Rattle.std.specs.Prelude.{◌≡◌, ◌==◌, ◌<◌, ◌≤◌, None, Some, ◌∷◌, ◌↔◌, [], List, length, position, MatchOption, IfSome, IsTrue};
ghost use Rattle.std.specs.List.{slice_split};
ghost use Rattle.std.specs.List.{list_all};
ghost use Rattle.std.specs.Char.{is_ascii};
ghost use Rattle.mj_base.specs.InOrder.{same_bytes};
ghost use Rattle.mj_texts.specs.Words.{words_of, field, last, Reads};
ghost use Rattle.mj_texts.specs.Object.{object_of};
ghost use Rattle.mj_texts.specs.Number.{number_of, mode_of};

use crate::number::{read_mode, read_number};
use mj_base::ObjectName;
use std::marker::Model;

/// The words that are left of a line, parted by one space each.
#[derive(Drop)]
pub struct Words<'a> {
    left: Option<&'a [u8]>,
}

impl<'a> Model for Words<'a> {
    ghost use Rattle.std.specs.Prelude.{ℕ, List};
    ghost use Rattle.mj_texts.specs.Words.{words_left};

    ghost Value = { List (List ℕ) };

    ghost view = { λ w. words_left w.left };
}

impl<'a> Words<'a> {
    pub fn of(line: &'a [u8]) -> Words<'a>
        ensures { result ≡ words_of line.now }
    {
        Words { left: Some(line) }
    }

    /// The next word: none at the end of the line.
    pub fn next(&mut self) -> Option<&'a [u8]>
        ensures { MatchOption result (self.old ≡ []) (λ word. self.old ≡ word.now ∷ self.new) }
    {
        let line = self.left?;
        match cut_at(line, b' ') {
            Some((word, rest)) => {
                self.left = Some(rest);
                Some(word)
            }
            None => {
                self.left = None;
                Some(line)
            }
        }
    }

    /// The number that the next word spells.
    pub fn number(&mut self, most: u64) -> Option<u64>
        ensures number { Reads (field (number_of most)) self.old result self.new }
        ensures small { IfSome result (λ n. n ≤ most) }
    {
        read_number(self.next()?, most)
    }

    /// The mode that the next word spells.
    pub fn mode(&mut self) -> Option<u16>
        ensures mode { Reads (field mode_of) self.old result self.new }
        ensures small { IfSome result (λ mode. mode ≤ 0o7777) }
    {
        read_mode(self.next()?)
    }

    /// The object that the next word names.
    pub fn object(&mut self) -> Option<ObjectName>
        ensures { Reads (field object_of) self.old result self.new }
    {
        read_object(self.next()?)
    }

    /// The text of the words that are left.
    pub fn text(&self) -> Option<&'a [u8]>
        ensures { MatchOption result (self.now ≡ []) (λ text. self.now ≡ words_of text.now) }
    {
        self.left
    }

    /// Whether no word is left.
    pub fn is_empty(&self) -> bool
        ensures { IsTrue result ↔ (self.now ≡ []) }
    {
        self.left.is_none()
    }
}

/// What stands before the first such byte, and behind it: none where there is none.
pub fn cut_at(text: &[u8], byte: u8) -> Option<(&[u8], &[u8])>
    ensures shorter { IfSome result (λ cut. length cut.1.now < length text.now) }
    ensures parts { MatchOption result (slice_split (λ b. b == byte) text.now ≡ text.now ∷ []) (λ cut. slice_split (λ b. b == byte) text.now ≡ cut.0.now ∷ slice_split (λ b. b == byte) cut.1.now) }
{
    match place_of(text, byte) {
        Some(at) => Some((&text[..at], &text[at + 1..])),
        None => None,
    }
}

fn place_of(text: &[u8], byte: u8) -> Option<usize>
    ensures place { result ≡ position (λ b. b == byte) text.now }
    ensures within { IfSome result (λ at. at < length text.now) }
{
    text.iter().position(|b| *b == byte)
}

fn read_object(word: &[u8]) -> Option<ObjectName>
    ensures { result ≡ object_of word.now }
{
    ObjectName::read(word)
}

/// Whether a word is this one.
pub fn is_word(word: &[u8], wanted: &str) -> bool
    ensures { result ≡ same_bytes word.now wanted.now }
{
    word == wanted.as_bytes()
}

/// The value, where no word is left.
pub fn last<T: Drop>(value: T, words: &Words) -> Option<T>
    ensures { result ≡ last value words.now }
{
    if words.is_empty() { Some(value) } else { None }
}

/// Whether all bytes are ASCII.
pub fn is_all_ascii(text: &[u8]) -> bool
    ensures { result ≡ list_all is_ascii text.now }
{
    text.iter().all(|b| *b < 128)
}
