//! Object names.

ghost use Rattle.std.specs.Prelude.{◌≡◌, ◌≢◌, ℕ, ◌^◌, ◌<◌, ◌≤◌, ◌++◌, IfSome, IfNone, IfOk, IsTrue, ◌↔◌, Some, ◌==◌, codes, length, position, replicate};
ghost use Rattle.std.specs.Fmt.{decimal};
ghost use Rattle.mj_base.specs.ObjectText.{file_object_text, hex};

use crate::numbers::RankNo;
use crate::short_text::ShortText;
use std::alloc::{AllocError, Global};
use std::cmp::Ordering;
use std::str;

/// The name of an object of the store: the object with this index of an inode, or one of a rank's two tables.
#[derive(Clone, Copy, Debug, PartialEq, Eq)]
pub enum ObjectName {
    /// `INO.INDEX` in hexadecimal, the index with at least 8 digits.
    File { ino: u64, index: u64 },
    /// `mdsR_inotable`.
    InoTable(RankNo),
    /// `mdsR_sessionmap`.
    SessionMap(RankNo),
}

impl PartialOrd for ObjectName {
    ghost use Rattle.std.specs.Ordering.{as_partial_cmp};
    ghost use Rattle.std.specs.Prelude.{refl};
    ghost use Rattle.mj_base.specs.ObjectName.{object_order};
    ghost use Rattle.mj_base.specs.ObjectOrder.{partial_order_from_structural};

    ghost partial_cmp = { as_partial_cmp object_order };

    ghost laws = { partial_order_from_structural _ (record {
      files = λ i x j y. refl;
      inode_tables = λ r s. refl;
      session_tables = λ r s. refl;
      file_inode = λ i x s. refl;
      file_session = λ i x s. refl;
      inode_file = λ r j y. refl;
      inode_session = λ r s. refl;
      session_file = λ r j y. refl;
      session_inode = λ r s. refl;
    }) };

    fn partial_cmp(&self, other: &ObjectName) -> Option<Ordering> {
        Some(self.cmp(other))
    }
}

// Names go by the bytes of their texts.
impl Ord for ObjectName {
    ghost use Rattle.std.specs.Prelude.{refl};
    ghost use Rattle.mj_base.specs.ObjectName.{object_order};
    ghost use Rattle.mj_base.specs.ObjectOrder.{object_order_total, ties_from_structural};

    ghost cmp = { object_order };

    ghost total = { object_order_total };

    ghost matches_partial_cmp = { λ x y. refl };

    ghost matches_eq = { ties_from_structural _ (record {
      files = λ i x j y. refl;
      inode_tables = λ r s. refl;
      session_tables = λ r s. refl;
      file_inode = λ i x s. refl;
      file_session = λ i x s. refl;
      inode_file = λ r j y. refl;
      inode_session = λ r s. refl;
      session_file = λ r j y. refl;
      session_inode = λ r s. refl;
    }) };

    fn cmp(&self, other: &ObjectName) -> Ordering {
        self.short_text()
            .as_slice()
            .cmp(other.short_text().as_slice())
    }
}

/// The digits that an object's index has at least.
const INDEX_DIGITS: usize = 8;

impl ObjectName {
    ghost use Rattle.mj_base.specs.ObjectName.{object_text, IsObjectName};

    /// The object that a text names, or nothing where it names none. Each object has one text.
    pub fn read(text: &[u8]) -> Option<ObjectName>
        ensures named { IfSome result (λ name. text.now ≡ object_text name) }
        ensures in_range { IfSome result IsObjectName }
        ensures found { (name : ObjectName) → IsObjectName name → text.now ≡ object_text name → result ≡ Some name }
    {
        match Self::file_named(text) {
            Some(name) => Some(name),
            None => Self::table_named(text),
        }
    }

    fn file_named(text: &[u8]) -> Option<ObjectName>
        ensures named { IfSome result (λ name. text.now ≡ object_text name) }
        ensures in_range { IfSome result IsObjectName }
        ensures found { (ino index : ℕ) → ino < 2 ^ 64 → index < 2 ^ 64
            → text.now ≡ file_object_text ino index → result ≡ Some (ObjectName.File ino index) }
    {
        let (ino, index) = file_numbers(text)?;
        let name = ObjectName::File { ino, index };
        if name.is_named(text) {
            Some(name)
        } else {
            None
        }
    }

    fn table_named(text: &[u8]) -> Option<ObjectName>
        ensures named { IfSome result (λ name. text.now ≡ object_text name) }
        ensures in_range { IfSome result IsObjectName }
        ensures none { IfNone result ((rank : ℕ) → rank ≤ 15
            → (text.now ≢ object_text (ObjectName.InoTable rank))
            × (text.now ≢ object_text (ObjectName.SessionMap rank))) }
    {
        for number in 0..16u8 {
            if let Some(rank) = RankNo::new(number) {
                if ObjectName::InoTable(rank).is_named(text) {
                    return Some(ObjectName::InoTable(rank));
                }
                if ObjectName::SessionMap(rank).is_named(text) {
                    return Some(ObjectName::SessionMap(rank));
                }
            }
        }
        None
    }

    fn is_named(&self, text: &[u8]) -> bool
        ensures { IsTrue result ↔ (text.now ≡ object_text self.now) }
    {
        self.short_text().as_slice() == text
    }

    /// The text of the name.
    pub fn text(&self, alloc: Global) -> Result<Vec<u8>, AllocError>
        ensures { IfOk result (λ text. text.items ≡ object_text self.now) }
    {
        Vec::from_slice(alloc, self.short_text().as_slice())
    }

    fn short_text(&self) -> ShortText
        ensures text { result ≡ object_text self.now }
        ensures in_range { IsObjectName self.now }
    {
        match self {
            ObjectName::File { ino, index } => file_text(*ino, *index),
            ObjectName::InoTable(rank) => table_text(*rank, b"_inotable"),
            ObjectName::SessionMap(rank) => table_text(*rank, b"_sessionmap"),
        }
    }
}

fn file_text(ino: u64, index: u64) -> ShortText
    ensures { result ≡ file_object_text ino index }
{
    let mut text = ShortText::new();
    text.prepend_hex(index, INDEX_DIGITS);
    text.prepend_all(b".");
    text.prepend_hex(ino, 1);
    text
}

fn table_text(rank: RankNo, kind: &[u8]) -> ShortText
    requires { length kind.now ≤ 11 }
    ensures text { result ≡ codes "mds" ++ decimal rank ++ kind.now }
    ensures in_range { rank ≤ 15 }
{
    let mut text = ShortText::new();
    text.prepend_all(kind);
    text.prepend_rank(rank);
    text.prepend_all(b"mds");
    text
}

/// The numbers on both sides of the dot. A text that is spelled otherwise may have some, too.
fn file_numbers(text: &[u8]) -> Option<(u64, u64)>
    ensures { (ino index : ℕ) → ino < 2 ^ 64 → index < 2 ^ 64 → text.now ≡ file_object_text ino index
        → result ≡ Some (ino, index) }
{
    let dot = first_dot(text)?;
    let ino = hex_number(&text[..dot])?;
    let index = hex_number(&text[dot + 1..])?;
    Some((ino, index))
}

fn first_dot(text: &[u8]) -> Option<usize>
    ensures { result ≡ position (λ b. b == 46) text.now }
{
    text.iter().position(|b| *b == b'.')
}

/// The number of 64 bits that hexadecimal digits stand for.
fn hex_number(digits: &[u8]) -> Option<u64>
    ensures { (zeros n : ℕ) → n < 2 ^ 64 → digits.now ≡ replicate zeros 48 ++ hex n → result ≡ Some n }
{
    match str::from_utf8(digits) {
        Ok(text) => u64::from_str_radix(text, 16).ok(),
        Err(_) => None,
    }
}
