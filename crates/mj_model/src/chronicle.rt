//! Chronicles.

ghost use Rattle.std.specs.Prelude.{◌≡◌, IfOk, IfErr, Ok};
ghost use Rattle.mj_texts.specs.Words.{words_of};
ghost use Rattle.mj_model.specs.Chronicle.{is_end, given_of, of_words, line_of, chronicle_of, IsChronicleRefusal};

use crate::reply::is_reply;
use mj_base::Items;
use mj_texts::{Words, cut_at, is_all_ascii, is_word, read_request};
use mj_tree::ClientRequest;
use std::alloc::{AllocError, AllocFailed, Global};

/// A line of a chronicle.
#[derive(Drop)]
pub enum ChronicleLine {
    /// A line that begins with `end `.
    Skipped,
    /// A request, and the text of the reply that was given, if one was.
    Asked {
        request: ClientRequest,
        given: Option<Items<u8>>,
    },
}

/// Why bytes are no chronicle.
#[derive(Clone, Copy, Debug, PartialEq, Eq)]
pub enum ChronicleRefusal {
    /// The line with this number, from 1, is the first outside the grammar.
    BadLine(u64),
    Memory,
}

impl From<AllocError> for ChronicleRefusal {
    ghost use Rattle.std.specs.Prelude.{◌≡◌};
    ghost use Rattle.mj_model.specs.declared.chronicle.ChronicleRefusal.TheVariants.{Memory};

    ghost from_gives = { λ _ e. e ≡ Memory };

    fn from(_e: AllocError) -> ChronicleRefusal {
        ChronicleRefusal::Memory
    }
}

impl<T: Drop> From<AllocFailed<T>> for ChronicleRefusal {
    ghost use Rattle.std.specs.Prelude.{◌≡◌};
    ghost use Rattle.mj_model.specs.declared.chronicle.ChronicleRefusal.TheVariants.{Memory};

    ghost from_gives = { λ _ e. e ≡ Memory };

    fn from(_e: AllocFailed<T>) -> ChronicleRefusal {
        ChronicleRefusal::Memory
    }
}

/// The lines of a chronicle, each ended by a line feed.
pub fn read_chronicle(alloc: Global, bytes: &[u8]) -> Result<Vec<ChronicleLine>, ChronicleRefusal>
    ensures lines { IfOk result (λ lines. chronicle_of bytes.now ≡ Ok lines.items) }
    ensures refused { IfErr result (λ why. IsChronicleRefusal why bytes.now) }
{
    let mut lines = Vec::new(alloc);
    let mut rest = bytes;
    'lines: while let Some((text, after)) = cut_at(rest, b'\n') {
        match read_line(alloc, text)? {
            Some(line) => lines.push(line)?,
            None => return Err(ChronicleRefusal::BadLine(lines.len() as u64 + 1)),
        }
        rest = after;
    }
    if rest.is_empty() {
        Ok(lines)
    } else {
        Err(ChronicleRefusal::BadLine(lines.len() as u64 + 1))
    }
}

fn read_line(alloc: Global, text: &[u8]) -> Result<Option<ChronicleLine>, AllocError>
    ensures { IfOk result (λ line. line ≡ line_of text.now) }
{
    if !is_all_ascii(text) {
        return Ok(None);
    }
    if is_end(text) {
        return Ok(Some(ChronicleLine::Skipped));
    }
    read_words(alloc, Words::of(text))
}

fn is_end(text: &[u8]) -> bool
    ensures { result ≡ is_end text.now }
{
    text.starts_with(b"end ")
}

fn read_words(alloc: Global, mut words: Words) -> Result<Option<ChronicleLine>, AllocError>
    ensures { IfOk result (λ line. line ≡ of_words words.entry) }
{
    let Some(request) = read_request(alloc, &mut words)? else {
        return Ok(None);
    };
    match read_given(alloc, words)? {
        Some(given) => Ok(Some(ChronicleLine::Asked { request, given })),
        None => Ok(None),
    }
}

// The reply that was given, if one was.
fn read_given(alloc: Global, mut words: Words) -> Result<Option<Option<Items<u8>>>, AllocError>
    ensures { IfOk result (λ given. given ≡ given_of words.entry) }
{
    let Some(word) = words.next() else {
        return Ok(Some(None));
    };
    let Some(text) = words.text() else {
        return Ok(None);
    };
    if is_word(word, "=>") && is_reply(alloc, &mut words)? {
        Ok(Some(Some(Items::of_bytes(alloc, text)?)))
    } else {
        Ok(None)
    }
}
