//! What an entry weighs. A weight is taken from an allowance, so that no sum passes it.

ghost use Rattle.mj_chronicle.specs.Weight.{names_bytes, op_bytes, reply_bytes, weight, entry_weight, Leaves};
ghost use Rattle.std.specs.Prelude.{length};

use mj_base::{Name, Path};
use mj_machine::ChronicleEntry;
use mj_tree::{ClientRequest, Op, Reply};

/// What each entry weighs, without its names and targets.
const ENTRY: u64 = 64;

/// What is left of an allowance without the weight of a request and its reply, where it is enough.
pub fn less_weight(left: u64, r: &ClientRequest, reply: &Reply) -> Option<u64>
    ensures { Leaves left (weight r.entry.now reply.now) result }
{
    let left = left.checked_sub(ENTRY)?;
    let left = less_op(left, &r.op)?;
    less_reply(left, reply)
}

/// The same of an entry.
pub fn less_entry(left: u64, entry: &ChronicleEntry) -> Option<u64>
    ensures { Leaves left (entry_weight entry.now) result }
{
    less_weight(left, &entry.request, &entry.reply)
}

fn less_op(left: u64, op: &Op) -> Option<u64>
    ensures { Leaves left (op_bytes op.now) result }
{
    match op {
        Op::SessionOpen => Some(left),
        Op::SessionClose => Some(left),
        Op::Mkdir { path, .. } => less_path(left, path),
        Op::Create { path, .. } => less_path(left, path),
        Op::Symlink { path, target } => less_bytes(less_path(left, path)?, target.as_slice()),
        Op::Link { from, to } => less_path(less_path(left, from)?, to),
        Op::Unlink { path } => less_path(left, path),
        Op::Rmdir { path } => less_path(left, path),
        Op::Rename { from, to } => less_path(less_path(left, from)?, to),
        Op::SetAttr { path, .. } => less_path(left, path),
        Op::OpenFile { path } => less_path(left, path),
        Op::Release { .. } => Some(left),
        Op::Lookup { path } => less_path(left, path),
        Op::Readdir { path } => less_path(left, path),
        Op::Readlink { path } => less_path(left, path),
    }
}

fn less_reply(left: u64, reply: &Reply) -> Option<u64>
    ensures { Leaves left (reply_bytes reply.now) result }
{
    match reply {
        Reply::Done { .. } => Some(left),
        Reply::Error(_) => Some(left),
        Reply::Found(inode) => less_bytes(left, inode.target.as_slice()),
        Reply::Names(names) => less_names(left, names.as_slice()),
        Reply::Link(target) => less_bytes(left, target.as_slice()),
    }
}

fn less_path(left: u64, path: &Path) -> Option<u64>
    ensures { Leaves left (names_bytes path.now) result }
{
    less_names(left, path.names())
}

fn less_names(left: u64, names: &[Name]) -> Option<u64>
    ensures { Leaves left (names_bytes names.now) result }
{
    let mut rest = left;
    for name in names {
        rest = less_bytes(rest, name.as_slice())?;
    }
    Some(rest)
}

fn less_bytes(left: u64, bytes: &[u8]) -> Option<u64>
    ensures { Leaves left (length bytes.now) result }
{
    left.checked_sub(bytes.len() as u64)
}
