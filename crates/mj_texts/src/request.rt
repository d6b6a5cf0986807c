//! Requests of clients, as they stand in a line.

ghost use Rattle.std.specs.Prelude.{◌≡◌, IfOk, IfSome};
ghost use Rattle.mj_tree.specs.Request.{IsRequest};
ghost use Rattle.mj_texts.specs.Words.{Reads, field};
ghost use Rattle.mj_texts.specs.Request.{verb_of, op_behind, paths_of, path_and_mode, symlink_of, settings_of, op_of, request_of, path_in, target_in};

use crate::law::requests_are_read_from_their_spellings;
use crate::words::{Words, is_word};
use mj_base::{
    ClientId, EscapeRefusal, Ino, Path, PathRefusal, Target, TargetRefusal, Tid, unescape,
};
use mj_tree::{ClientRequest, Op};
use std::alloc::{AllocError, Global};

/// The greatest size that a request may set.
const MOST_SIZE: u64 = (1 << 62) - 1;

/// The operations, by their words.
#[derive(Clone, Copy, Debug, PartialEq, Eq)]
enum Verb {
    SessionOpen,
    SessionClose,
    Mkdir,
    Create,
    Symlink,
    Link,
    Unlink,
    Rmdir,
    Rename,
    SetAttr,
    OpenFile,
    Release,
    Lookup,
    Readdir,
    Readlink,
}

/// The request that the words begin with, from the client's number on.
pub fn read_request(alloc: Global, words: &mut Words) -> Result<Option<ClientRequest>, AllocError>
    ensures request { IfOk result (λ request. Reads request_of words.old request words.new) }
    ensures fits { IfOk result (λ request. IfSome request IsRequest) }
{
    let request = read_fields(alloc, words)?;
    requests_are_read_from_their_spellings();
    Ok(request)
}

fn read_fields(alloc: Global, words: &mut Words) -> Result<Option<ClientRequest>, AllocError>
    ensures { IfOk result (λ request. Reads request_of words.old request words.new) }
{
    let Some(client) = words.number(u64::from(u32::MAX)) else {
        return Ok(None);
    };
    let Some(tid) = words.number(u64::MAX) else {
        return Ok(None);
    };
    let Some(oldest) = words.number(u64::MAX) else {
        return Ok(None);
    };
    let Some(now) = words.number(u64::MAX) else {
        return Ok(None);
    };
    let Some(op) = read_op(alloc, words)? else {
        return Ok(None);
    };
    Ok(Some(ClientRequest {
        client: ClientId(client as u32),
        tid: Tid(tid),
        oldest: Tid(oldest),
        now,
        op,
    }))
}

fn read_op(alloc: Global, words: &mut Words) -> Result<Option<Op>, AllocError>
    ensures { IfOk result (λ op. Reads op_of words.old op words.new) }
{
    let Some(word) = words.next() else {
        return Ok(None);
    };
    match read_verb(word) {
        Some(verb) => read_behind(alloc, verb, words),
        None => Ok(None),
    }
}

fn read_verb(word: &[u8]) -> Option<Verb>
    ensures { result ≡ verb_of word.now }
{
    if is_word(word, "session-open") {
        return Some(Verb::SessionOpen);
    }
    if is_word(word, "session-close") {
        return Some(Verb::SessionClose);
    }
    if is_word(word, "mkdir") {
        return Some(Verb::Mkdir);
    }
    if is_word(word, "create") {
        return Some(Verb::Create);
    }
    if is_word(word, "symlink") {
        return Some(Verb::Symlink);
    }
    if is_word(word, "link") {
        return Some(Verb::Link);
    }
    if is_word(word, "unlink") {
        return Some(Verb::Unlink);
    }
    if is_word(word, "rmdir") {
        return Some(Verb::Rmdir);
    }
    if is_word(word, "rename") {
        return Some(Verb::Rename);
    }
    if is_word(word, "setattr") {
        return Some(Verb::SetAttr);
    }
    if is_word(word, "open") {
        return Some(Verb::OpenFile);
    }
    if is_word(word, "release") {
        return Some(Verb::Release);
    }
    if is_word(word, "lookup") {
        return Some(Verb::Lookup);
    }
    if is_word(word, "readdir") {
        return Some(Verb::Readdir);
    }
    if is_word(word, "readlink") {
        return Some(Verb::Readlink);
    }
    None
}

// What stands behind the word of an operation.
fn read_behind(alloc: Global, verb: Verb, words: &mut Words) -> Result<Option<Op>, AllocError>
    ensures { IfOk result (λ op. Reads (op_behind verb) words.old op words.new) }
{
    match verb {
        Verb::SessionOpen => Ok(Some(Op::SessionOpen)),
        Verb::SessionClose => Ok(Some(Op::SessionClose)),
        Verb::Mkdir => {
            Ok(read_path_and_mode(alloc, words)?.map(|(path, mode)| Op::Mkdir { path, mode }))
        }
        Verb::Create => {
            Ok(read_path_and_mode(alloc, words)?.map(|(path, mode)| Op::Create { path, mode }))
        }
        Verb::Symlink => read_symlink(alloc, words),
        Verb::Link => Ok(read_paths(alloc, words)?.map(|(from, to)| Op::Link { from, to })),
        Verb::Unlink => Ok(read_path(alloc, words)?.map(|path| Op::Unlink { path })),
        Verb::Rmdir => Ok(read_path(alloc, words)?.map(|path| Op::Rmdir { path })),
        Verb::Rename => Ok(read_paths(alloc, words)?.map(|(from, to)| Op::Rename { from, to })),
        Verb::SetAttr => read_settings(alloc, words),
        Verb::OpenFile => Ok(read_path(alloc, words)?.map(|path| Op::OpenFile { path })),
        Verb::Release => Ok(
            words
                .number(u64::MAX)
                .map(|ino| Op::Release { ino: Ino(ino) }),
        ),
        Verb::Lookup => Ok(read_path(alloc, words)?.map(|path| Op::Lookup { path })),
        Verb::Readdir => Ok(read_path(alloc, words)?.map(|path| Op::Readdir { path })),
        Verb::Readlink => Ok(read_path(alloc, words)?.map(|path| Op::Readlink { path })),
    }
}

fn read_paths(alloc: Global, words: &mut Words) -> Result<Option<(Path, Path)>, AllocError>
    ensures { IfOk result (λ paths. Reads paths_of words.old paths words.new) }
{
    let Some(from) = read_path(alloc, words)? else {
        return Ok(None);
    };
    Ok(read_path(alloc, words)?.map(|to| (from, to)))
}

fn read_path_and_mode(alloc: Global, words: &mut Words) -> Result<Option<(Path, u16)>, AllocError>
    ensures { IfOk result (λ both. Reads path_and_mode words.old both words.new) }
{
    let Some(path) = read_path(alloc, words)? else {
        return Ok(None);
    };
    Ok(words.mode().map(|mode| (path, mode)))
}

fn read_symlink(alloc: Global, words: &mut Words) -> Result<Option<Op>, AllocError>
    ensures { IfOk result (λ op. Reads symlink_of words.old op words.new) }
{
    let Some(path) = read_path(alloc, words)? else {
        return Ok(None);
    };
    let Some(word) = words.next() else {
        return Ok(None);
    };
    Ok(read_target(alloc, word)?.map(|target| Op::Symlink { path, target }))
}

fn read_settings(alloc: Global, words: &mut Words) -> Result<Option<Op>, AllocError>
    ensures { IfOk result (λ op. Reads settings_of words.old op words.new) }
{
    let Some((path, mode)) = read_path_and_mode(alloc, words)? else {
        return Ok(None);
    };
    let Some(uid) = words.number(u64::from(u32::MAX)) else {
        return Ok(None);
    };
    let Some(gid) = words.number(u64::from(u32::MAX)) else {
        return Ok(None);
    };
    let Some(size) = words.number(MOST_SIZE) else {
        return Ok(None);
    };
    let Some(mtime) = words.number(u64::MAX) else {
        return Ok(None);
    };
    Ok(Some(Op::SetAttr {
        path,
        mode,
        uid: uid as u32,
        gid: gid as u32,
        size,
        mtime,
    }))
}

/// The path that the next word spells.
fn read_path(alloc: Global, words: &mut Words) -> Result<Option<Path>, AllocError>
    ensures { IfOk result (λ path. Reads (field path_in) words.old path words.new) }
{
    let Some(word) = words.next() else {
        return Ok(None);
    };
    match Path::read(alloc, word) {
        Ok(path) => Ok(Some(path)),
        Err(PathRefusal::Memory) => Err(AllocError),
        Err(_) => Ok(None),
    }
}

/// The target that a word spells: 1 to 4,095 bytes, none of them 0.
pub fn read_target(alloc: Global, word: &[u8]) -> Result<Option<Target>, AllocError>
    ensures { IfOk result (λ target. target ≡ target_in word.now) }
{
    let bytes = match unescape(alloc, word) {
        Ok(bytes) => bytes,
        Err(EscapeRefusal::Memory) => return Err(AllocError),
        Err(_) => return Ok(None),
    };
    match Target::read(alloc, &bytes) {
        Ok(target) => Ok(Some(target)),
        Err(TargetRefusal::Memory) => Err(AllocError),
        Err(_) => Ok(None),
    }
}
