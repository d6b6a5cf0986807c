//! Replies as text.

ghost use Rattle.std.specs.Prelude.{◌≡◌, ◌++◌, ◌∷◌, codes, map, OnOk};
ghost use Rattle.std.specs.List.{flat_map};
ghost use Rattle.mj_base.specs.Name.{escaped};
ghost use Rattle.mj_tree.specs.Listing.{line, words, kind_word};
ghost use Rattle.mj_texts.specs.Text.{reply_text, found_words, early_words, ends_words};

use crate::steps::Early;
use crate::text::{Word, append_spaced, append_words};
use mj_base::{InodeRecord, Kind, Name, escape};
use mj_tree::Reply;
use std::alloc::AllocError;

/// Appends the text of a reply.
pub fn append_reply(reply: &Reply, out: &mut Vec<u8>) -> Result<(), AllocError>
    ensures { OnOk result (out.new.items ≡ out.old.items ++ reply_text reply.now) }
{
    match reply {
        Reply::Done { ino } => append_words(&[Word::Text("done"), Word::Number(ino.0)], out),
        Reply::Error(code) => append_words(
            &[Word::Text("error"), Word::Number(u64::from(*code))],
            out,
        ),
        Reply::Found(found) => append_found(found, out),
        Reply::Names(names) => append_names(names.as_slice(), out),
        Reply::Link(target) => append_words(
            &[Word::Text("target"), Word::Escaped(target.as_slice())],
            out,
        ),
    }
}

fn append_found(found: &InodeRecord, out: &mut Vec<u8>) -> Result<(), AllocError>
    ensures { OnOk result (out.new.items ≡ out.old.items ++ words (found_words found.now)) }
{
    append_words(
        &[
            Word::Text("found"),
            Word::Number(found.ino.0),
            Word::Text(kind_word(found.kind)),
            Word::Mode(found.mode),
            Word::Number(u64::from(found.uid)),
            Word::Number(u64::from(found.gid)),
            Word::Number(found.size),
            Word::Number(found.mtime),
            Word::Number(u64::from(found.links)),
        ],
        out,
    )
}

fn kind_word(kind: Kind) -> &'static str
    ensures { result.now ≡ kind_word kind }
{
    match kind {
        Kind::Dir => "dir",
        Kind::File => "file",
        Kind::Symlink => "symlink",
    }
}

fn append_names(names: &[Name], out: &mut Vec<u8>) -> Result<(), AllocError>
    ensures { OnOk result (out.new.items ≡ out.old.items ++ words (codes "names" ∷ map escaped names.now)) }
{
    out.extend_from_slice(b"names")?;
    append_spaced_names(names, out)?;
    Ok(())
}

fn append_spaced_names(names: &[Name], out: &mut Vec<u8>) -> Result<(), AllocError>
    ensures { OnOk result (out.new.items ≡ out.old.items ++ flat_map (λ n. 32 ∷ escaped n) names.now) }
{
    for name in names {
        out.push(b' ')?;
        escape(name.as_slice(), out)?;
    }
    Ok(())
}

/// Appends the line of a reply, with the end of the request's event.
pub(crate) fn append_early(early: &Early, out: &mut Vec<u8>) -> Result<(), AllocError>
    ensures { OnOk result (out.new.items ≡ out.old.items ++ line (early_words early.now)) }
{
    append_reply(&early.reply, out)?;
    append_ends(early.ends_at, out)?;
    out.push(b'\n')?;
    Ok(())
}

fn append_ends(ends_at: Option<u64>, out: &mut Vec<u8>) -> Result<(), AllocError>
    ensures { OnOk result (out.new.items ≡ out.old.items ++ flat_map (λ y. 32 ∷ y) (ends_words ends_at)) }
{
    match ends_at {
        Some(end) => append_spaced(&[Word::Text("ends"), Word::Number(end)], out),
        None => Ok(()),
    }
}
