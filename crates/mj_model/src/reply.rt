//! Which words are those of a reply.

ghost use Rattle.std.specs.Prelude.{◌≡◌, IfOk};
ghost use Rattle.std.specs.List.{list_all};
ghost use Rattle.mj_texts.specs.Words.{Reads, field};
ghost use Rattle.mj_texts.specs.Number.{number_of};
ghost use Rattle.mj_texts.specs.Request.{target_in};
ghost use Rattle.mj_model.specs.Reply.{is_reply, is_whole, found_of, octal_in, is_kind, is_name_word};

use mj_base::{EscapeRefusal, Name, NameRefusal, unescape};
use mj_texts::{Words, is_word, read_mode, read_target};
use std::alloc::{AllocError, Global};

/// Whether the words are those of a reply.
pub fn is_reply(alloc: Global, words: &mut Words) -> Result<bool, AllocError>
    ensures { IfOk result (λ is. is ≡ is_reply words.old) }
{
    let Some(word) = words.next() else {
        return Ok(false);
    };
    if is_word(word, "done") {
        return Ok(is_number(words, u64::MAX));
    }
    if is_word(word, "error") {
        return Ok(is_number(words, u64::from(u16::MAX)));
    }
    if is_word(word, "found") {
        return Ok(is_found(words));
    }
    if is_word(word, "names") {
        return are_names(alloc, words);
    }
    if is_word(word, "target") {
        return is_target(alloc, words);
    }
    Ok(false)
}

fn is_number(words: &mut Words, most: u64) -> bool
    ensures { result ≡ is_whole (field (number_of most) words.old) }
{
    words.number(most).is_some() && words.is_empty()
}

fn is_found(words: &mut Words) -> bool
    ensures { result ≡ is_whole (found_of words.old) }
{
    read_found(words).is_some() && words.is_empty()
}

// The last number of a record, its links.
fn read_found(words: &mut Words) -> Option<u64>
    ensures { Reads found_of words.old result words.new }
{
    let _ino = words.number(u64::MAX)?;
    if !is_kind(words.next()?) {
        return None;
    }
    let _mode = read_octal(words.next()?)?;
    let _uid = words.number(u64::from(u32::MAX))?;
    let _gid = words.number(u64::from(u32::MAX))?;
    let _size = words.number(u64::MAX)?;
    let _mtime = words.number(u64::MAX)?;
    words.number(u64::from(u32::MAX))
}

fn is_kind(word: &[u8]) -> bool
    ensures { result ≡ is_kind word.now }
{
    is_word(word, "dir") || is_word(word, "file") || is_word(word, "symlink")
}

fn read_octal(word: &[u8]) -> Option<u16>
    ensures { result ≡ octal_in word.now }
{
    if word.len() == 4 {
        read_mode(word)
    } else {
        None
    }
}

fn is_target(alloc: Global, words: &mut Words) -> Result<bool, AllocError>
    ensures { IfOk result (λ is. is ≡ is_whole (field target_in words.old)) }
{
    let Some(word) = words.next() else {
        return Ok(false);
    };
    let target = read_target(alloc, word)?;
    Ok(target.is_some() && words.is_empty())
}

fn are_names(alloc: Global, words: &mut Words) -> Result<bool, AllocError>
    ensures { IfOk result (λ are. are ≡ list_all is_name_word words.old) }
{
    while let Some(word) = words.next() {
        if !is_name_word(alloc, word)? {
            return Ok(false);
        }
    }
    Ok(true)
}

fn is_name_word(alloc: Global, word: &[u8]) -> Result<bool, AllocError>
    ensures { IfOk result (λ is. is ≡ is_name_word word.now) }
{
    let bytes = match unescape(alloc, word) {
        Ok(bytes) => bytes,
        Err(EscapeRefusal::Memory) => return Err(AllocError),
        Err(_) => return Ok(false),
    };
    match Name::read(alloc, &bytes) {
        Ok(_) => Ok(true),
        Err(NameRefusal::Memory) => Err(AllocError),
        Err(_) => Ok(false),
    }
}
