//! The operations that only look.
ghost use Rattle.std.specs.Prelude.{◌≡◌, IfOk};
ghost use Rattle.mj_tree.specs.State.{attributes, attributes_of, record_of, root_attributes};
ghost use Rattle.mj_tree.specs.Row.{lookup, readdir, readlink};
ghost use Rattle.mj_tree.specs.Walk.{found};
ghost use Rattle.mj_tree.specs.Given.{Gives};

use crate::change::Attributes;
use crate::errno::{EINVAL, ENOENT, ENOTDIR, Stop};
use crate::limits::ROOT;
use crate::request::Reply;
use crate::view::{TreeView, is_dir};
use crate::walking::walk;
use mj_base::{Ino, InodeRecord, Kind, Path, Target};
use std::alloc::{AllocError, Global};

/// The fixed attributes of the root.
pub fn root_attributes(alloc: Global) -> Attributes
    ensures { result ≡ root_attributes }
{
    Attributes {
        kind: Kind::Dir,
        mode: 0o755,
        uid: 0,
        gid: 0,
        size: 0,
        mtime: 0,
        target: Target::empty(alloc),
    }
}

/// What a record says but for its inode and links.
pub fn attributes_of(alloc: Global, record: &InodeRecord) -> Result<Attributes, AllocError>
    ensures { IfOk result (λ a. a ≡ attributes_of «record».now) }
{
    Ok(Attributes {
        kind: record.kind,
        mode: record.mode,
        uid: record.uid,
        gid: record.gid,
        size: record.size,
        mtime: record.mtime,
        target: record.target.copy(alloc)?,
    })
}

/// The record of an inode with this many links.
pub fn record_of(ino: Ino, links: u32, attributes: Attributes) -> InodeRecord
    ensures { result ≡ record_of ino links attributes }
{
    InodeRecord {
        ino,
        kind: attributes.kind,
        mode: attributes.mode,
        uid: attributes.uid,
        gid: attributes.gid,
        size: attributes.size,
        mtime: attributes.mtime,
        links,
        target: attributes.target,
    }
}

// What the record of an inode says, the root's too.
fn attributes<V: TreeView>(alloc: Global, view: &V, ino: Ino) -> Result<Attributes, Stop>
    ensures { Gives result (found (attributes (V.tree view.now) ino)) }
{
    if ino == ROOT {
        return Ok(root_attributes(alloc));
    }
    match view.record(ino) {
        Some(record) => Ok(attributes_of(alloc, record)?),
        None => Err(Stop::Refused(ENOENT)),
    }
}

// A record says its links in 32 bits: where there are more, there is no room for the answer.
#[tactic(auto, unfolding(crate::specs::Row::lookup))]
pub fn lookup<V: TreeView>(alloc: Global, view: &V, path: &Path) -> Result<Reply, Stop>
    ensures { Gives result (lookup (V.tree view.now) path.now) }
{
    let ino = walk(alloc, view, path)?;
    let attributes = attributes(alloc, view, ino)?;
    match u32::try_from(view.link_count(ino)) {
        Ok(links) => Ok(Reply::Found(record_of(ino, links, attributes))),
        Err(_) => Err(Stop::Memory),
    }
}

#[tactic(auto, unfolding(crate::specs::Row::readdir))]
pub fn readdir<V: TreeView>(alloc: Global, view: &V, path: &Path) -> Result<Reply, Stop>
    ensures { Gives result (readdir (V.tree view.now) path.now) }
{
    let dir = walk(alloc, view, path)?;
    if !is_dir(view, dir) {
        return Err(Stop::Refused(ENOTDIR));
    }
    Ok(Reply::Names(view.names_in(alloc, dir)?))
}

#[tactic(auto, unfolding(crate::specs::Row::readlink))]
pub fn readlink<V: TreeView>(alloc: Global, view: &V, path: &Path) -> Result<Reply, Stop>
    ensures { Gives result (readlink (V.tree view.now) path.now) }
{
    let ino = walk(alloc, view, path)?;
    let attributes = attributes(alloc, view, ino)?;
    if attributes.kind != Kind::Symlink {
        return Err(Stop::Refused(EINVAL));
    }
    Ok(Reply::Link(attributes.target))
}
