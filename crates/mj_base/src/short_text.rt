//! A short text in place.

ghost use Rattle.std.specs.Prelude.{◌≡◌, ◌+◌, ◌<◌, ◌≤◌, [], ◌∷◌, ◌++◌, length};
ghost use Rattle.std.specs.Fmt.{decimal};
ghost use Rattle.mj_base.specs.ObjectText.{hex_padded};

use crate::escapes::hex_digit;
use crate::numbers::RankNo;
use std::marker::Model;

/// A text of at most 40 bytes that takes no memory. It grows at its front, since the last digit of a
/// number is known first.
#[derive(Drop)]
pub struct ShortText {
    bytes: [u8; 40],
    start: usize,
}

impl Model for ShortText {
    ghost use Rattle.std.specs.Prelude.{◌≡◌, List, ℕ, ◌≤◌, drop, length};

    ghost Value = { List ℕ };

    ghost view = { λ a. drop a.start a.bytes };

    ghost invariant = { λ a. (length a.bytes ≡ 40) × (a.start ≤ 40) };
}

impl ShortText {
    /// The empty text.
    pub fn new() -> ShortText
        ensures { result ≡ [] }
    {
        ShortText {
            bytes: [0; 40],
            start: 40,
        }
    }

    /// The bytes of the text.
    pub fn as_slice(&self) -> &[u8]
        ensures { result.now ≡ self.now }
    {
        &self.bytes[self.start..]
    }

    fn prepend(&mut self, byte: u8)
        requires { length self.old < 40 }
        ensures { self.new ≡ byte ∷ self.old }
    {
        self.start -= 1;
        self.bytes[self.start] = byte;
    }

    /// Puts bytes before the text.
    pub fn prepend_all(&mut self, bytes: &[u8])
        requires { length bytes.now + length self.old ≤ 40 }
        ensures { self.new ≡ bytes.now ++ self.old }
    {
        let mut left = bytes.len();
        while left > 0 {
            left -= 1;
            self.prepend(bytes[left]);
        }
    }

    /// Puts the number of a rank before the text, in decimal.
    pub fn prepend_rank(&mut self, rank: RankNo)
        requires { length self.old ≤ 38 }
        ensures text { self.new ≡ decimal rank ++ self.old }
        ensures short { length self.new ≤ length self.old + 2 }
        ensures in_range { rank ≤ 15 }
    {
        let number = rank.number();
        self.prepend(b'0' + number % 10);
        if number >= 10 {
            self.prepend(b'1');
        }
    }

    /// Puts a number before the text, in at least so many hexadecimal digits.
    pub fn prepend_hex(&mut self, number: u64, least: usize)
        requires { length (hex_padded least number) + length self.old ≤ 40 }
        ensures { self.new ≡ hex_padded least number ++ self.old }
    {
        self.prepend(hex_digit((number % 16) as u8));
        if number >= 16 || least > 1 {
            self.prepend_hex(number / 16, least.saturating_sub(1));
        }
    }
}
