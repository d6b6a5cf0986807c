//! Lumps of one directory, and those of each change that writes at most two dentries.

ghost use Rattle.std.specs.Prelude.{◌≡◌, ◌<◌, ◌==◌, ◌∷◌, [], false, Some, IfOk};
ghost use Rattle.mj_maps.specs.Map.{get};
ghost use Rattle.mj_tree.specs.declared.request.ClientRequest.{ClientRequest};
ghost use Rattle.mj_tree.specs.Change.{set_in};
ghost use Rattle.mj_tree.specs.State.{attributes_of, link_count, record_of};
ghost use Rattle.mj_tree.specs.Row.{most_links};
ghost use Rattle.mj_cache.specs.Cached.{early_table, early_tree};
ghost use Rattle.mj_delta.specs.Events.{next_version, full_place, full_lump, empty_lump, remote_lump, both_lump, null_lump, begin_lumps, set_lumps, second_lumps, link_lumps, says};
ghost use Rattle.mj_cache.specs.HasTree.{HasTree};

use crate::fulls::{FullDentry, full_of};
use mj_base::{Ino, InodeRecord, Items, Kind, Name};
use mj_cache::{Cache, head_of};
use mj_meta::{DirLump, FullBit, HeadBit, NullBit, RemoteBit};
use mj_tree::{Attributes, Settings};
use std::alloc::{AllocError, Global};

/// A list of one item.
pub fn one<T: Drop>(alloc: Global, item: T) -> Result<Vec<T>, AllocError>
    ensures { IfOk result (λ all. all.items ≡ item ∷ []) }
{
    let mut all = Vec::new(alloc);
    all.push(item)?;
    Ok(all)
}

// A list of two items.
fn two<T: Drop>(alloc: Global, first: T, second: T) -> Result<Vec<T>, AllocError>
    ensures { IfOk result (λ all. all.items ≡ first ∷ second ∷ []) }
{
    let mut all = one(alloc, first)?;
    all.push(second)?;
    Ok(all)
}

/// The version that the head of a directory has next. The greatest stays.
pub fn next_version(cache: &Cache, dir: Ino) -> u64
    ensures { result ≡ next_version (early_table cache.now) dir }
{
    let version = head_of(cache, dir).unwrap_or(0);
    version.saturating_add(1)
}

fn full_lump(
    alloc: Global,
    dir: Ino,
    version: u64,
    name: Name,
    inode: InodeRecord,
) -> Result<DirLump, AllocError>
    ensures { IfOk result (λ lump. lump ≡ full_lump dir version name inode) }
{
    let full = one(
        alloc,
        FullBit {
            name,
            version,
            inode,
        },
    )?;
    Ok(DirLump {
        dir,
        head: HeadBit::At(version),
        full: Items::from_vec(full),
        remote: Items::from_vec(Vec::new(alloc)),
        null: Items::from_vec(Vec::new(alloc)),
    })
}

fn empty_lump(alloc: Global, dir: Ino) -> DirLump
    ensures { result ≡ empty_lump dir }
{
    DirLump {
        dir,
        head: HeadBit::At(1),
        full: Items::from_vec(Vec::new(alloc)),
        remote: Items::from_vec(Vec::new(alloc)),
        null: Items::from_vec(Vec::new(alloc)),
    }
}

fn remote_lump(
    alloc: Global,
    dir: Ino,
    version: u64,
    name: Name,
    ino: Ino,
    kind: Kind,
) -> Result<DirLump, AllocError>
    ensures { IfOk result (λ lump. lump ≡ remote_lump dir version name ino kind) }
{
    let remote = one(
        alloc,
        RemoteBit {
            name,
            version,
            ino,
            kind,
        },
    )?;
    Ok(DirLump {
        dir,
        head: HeadBit::At(version),
        full: Items::from_vec(Vec::new(alloc)),
        remote: Items::from_vec(remote),
        null: Items::from_vec(Vec::new(alloc)),
    })
}

// A full dentry under one name, and a remote one of its inode under another.
fn both_lump(
    alloc: Global,
    dir: Ino,
    version: u64,
    full_name: Name,
    inode: InodeRecord,
    name: Name,
) -> Result<DirLump, AllocError>
    ensures { IfOk result (λ lump. lump ≡ both_lump dir version full_name inode name) }
{
    let remote = one(
        alloc,
        RemoteBit {
            name,
            version,
            ino: inode.ino,
            kind: inode.kind,
        },
    )?;
    let full = one(
        alloc,
        FullBit {
            name: full_name,
            version,
            inode,
        },
    )?;
    Ok(DirLump {
        dir,
        head: HeadBit::At(version),
        full: Items::from_vec(full),
        remote: Items::from_vec(remote),
        null: Items::from_vec(Vec::new(alloc)),
    })
}

/// The lump of a dentry that goes.
pub fn null_lump(alloc: Global, dir: Ino, version: u64, name: Name) -> Result<DirLump, AllocError>
    ensures { IfOk result (λ lump. lump ≡ null_lump dir version name) }
{
    let null = one(alloc, NullBit { name, version })?;
    Ok(DirLump {
        dir,
        head: HeadBit::At(version),
        full: Items::from_vec(Vec::new(alloc)),
        remote: Items::from_vec(Vec::new(alloc)),
        null: Items::from_vec(null),
    })
}

// ---- records

// The record of a new inode, which has one link.
fn new_record(alloc: Global, ino: Ino, attributes: &Attributes) -> Result<InodeRecord, AllocError>
    ensures { IfOk result (λ inode. inode ≡ record_of ino 1 attributes.now) }
{
    Ok(InodeRecord {
        ino,
        kind: attributes.kind,
        mode: attributes.mode,
        uid: attributes.uid,
        gid: attributes.gid,
        size: attributes.size,
        mtime: attributes.mtime,
        links: 1,
        target: attributes.target.copy(alloc)?,
    })
}

/// The record of an inode that says what another does, but for the links.
pub fn with_links(
    alloc: Global,
    ino: Ino,
    old: &InodeRecord,
    links: u32,
) -> Result<InodeRecord, AllocError>
    ensures { IfOk result (λ inode. inode ≡ record_of ino links (attributes_of old.now)) }
{
    Ok(InodeRecord {
        ino,
        kind: old.kind,
        mode: old.mode,
        uid: old.uid,
        gid: old.gid,
        size: old.size,
        mtime: old.mtime,
        links,
        target: old.target.copy(alloc)?,
    })
}

// The record once these attributes are set in it.
fn with_settings(
    alloc: Global,
    ino: Ino,
    old: &InodeRecord,
    settings: &Settings,
) -> Result<InodeRecord, AllocError>
    ensures { IfOk result (λ inode. inode ≡ record_of ino old.now.links (set_in settings.now (attributes_of old.now))) }
{
    Ok(InodeRecord {
        ino,
        kind: old.kind,
        mode: settings.mode,
        uid: settings.uid,
        gid: settings.gid,
        size: settings.size,
        mtime: settings.mtime,
        links: old.links,
        target: old.target.copy(alloc)?,
    })
}

fn says(settings: &Settings, inode: &InodeRecord) -> bool
    ensures { result ≡ says settings.now (attributes_of inode.now) }
{
    settings.mode == inode.mode
        && settings.uid == inode.uid
        && settings.gid == inode.gid
        && settings.size == inode.size
        && settings.mtime == inode.mtime
}

// ---- the lumps of changes

/// The parent of a new inode with its full dentry, and a new directory by itself.
pub fn begin_lumps(
    alloc: Global,
    cache: &Cache,
    ino: Ino,
    place: &(Ino, Name),
    attributes: &Attributes,
) -> Result<Vec<DirLump>, AllocError>
    ensures { IfOk result (λ lumps. lumps.items ≡ begin_lumps (early_table cache.now) ino place.now attributes.now) }
{
    let version = next_version(cache, place.0);
    let name = place.1.copy(alloc)?;
    let inode = new_record(alloc, ino, attributes)?;
    let parent = full_lump(alloc, place.0, version, name, inode)?;
    if attributes.kind == Kind::Dir {
        two(alloc, parent, empty_lump(alloc, ino))
    } else {
        one(alloc, parent)
    }
}

// The full dentry with these attributes, unless its record says them already.
fn settings_lumps(
    alloc: Global,
    cache: &Cache,
    ino: Ino,
    full: &FullDentry<'_>,
    settings: &Settings,
) -> Result<Vec<DirLump>, AllocError>
    requires links { full.now.inode.now.links ≡ link_count (early_tree cache.now) ino }
    ensures { IfOk result (λ lumps. lumps.items ≡ set_lumps (early_table cache.now) (early_tree cache.now) (full.now.dir, full.now.name.now) ino settings.now (Some (attributes_of full.now.inode.now))) }
{
    if says(settings, full.inode) {
        return Ok(Vec::new(alloc));
    }
    let version = next_version(cache, full.dir);
    let name = full.name.copy(alloc)?;
    let inode = with_settings(alloc, ino, full.inode, settings)?;
    one(alloc, full_lump(alloc, full.dir, version, name, inode)?)
}

/// The full dentry of an inode with these attributes, unless its record says them already.
pub fn set_lumps(
    alloc: Global,
    cache: &Cache,
    ino: Ino,
    settings: &Settings,
) -> Result<Vec<DirLump>, AllocError>
    requires tree { HasTree cache.now }
    ensures { IfOk result (λ lumps. (r : ClientRequest) → lumps.items ≡ set_lumps (early_table cache.now) (early_tree cache.now) (full_place cache.now.rank (early_table cache.now) r ino) ino settings.now (get (early_tree cache.now).records ino)) }
{
    match full_of(cache, ino) {
        Some(full) => settings_lumps(alloc, cache, ino, &full, settings),
        None => Ok(Vec::new(alloc)),
    }
}

// A remote dentry begins in another directory than that of the full one.
fn apart_lumps(
    alloc: Global,
    cache: &Cache,
    full: &FullDentry<'_>,
    place: &(Ino, Name),
    inode: InodeRecord,
) -> Result<Vec<DirLump>, AllocError>
    requires apart { (full.now.dir == place.now.0) ≡ false }
    ensures { IfOk result (λ lumps. lumps.items ≡ second_lumps (early_table cache.now) (full.now.dir, full.now.name.now) place.now inode) }
{
    let name = place.1.copy(alloc)?;
    let version = next_version(cache, place.0);
    let remote = remote_lump(alloc, place.0, version, name, inode.ino, inode.kind)?;
    let full_name = full.name.copy(alloc)?;
    let version = next_version(cache, full.dir);
    let counted = full_lump(alloc, full.dir, version, full_name, inode)?;
    if full.dir < place.0 {
        two(alloc, counted, remote)
    } else {
        two(alloc, remote, counted)
    }
}

// The full dentry with its new record, and a remote dentry that begins.
fn second_lumps(
    alloc: Global,
    cache: &Cache,
    full: &FullDentry<'_>,
    place: &(Ino, Name),
    inode: InodeRecord,
) -> Result<Vec<DirLump>, AllocError>
    ensures { IfOk result (λ lumps. lumps.items ≡ second_lumps (early_table cache.now) (full.now.dir, full.now.name.now) place.now inode) }
{
    if full.dir != place.0 {
        return apart_lumps(alloc, cache, full, place, inode);
    }
    let name = place.1.copy(alloc)?;
    let full_name = full.name.copy(alloc)?;
    let version = next_version(cache, place.0);
    one(
        alloc,
        both_lump(alloc, place.0, version, full_name, inode, name)?,
    )
}

// The full dentry counts one link more, and a remote one begins.
fn counted_lumps(
    alloc: Global,
    cache: &Cache,
    ino: Ino,
    full: &FullDentry<'_>,
    place: &(Ino, Name),
) -> Result<Vec<DirLump>, AllocError>
    requires links { full.now.inode.now.links ≡ link_count (early_tree cache.now) ino }
    requires room { link_count (early_tree cache.now) ino < most_links }
    ensures { IfOk result (λ lumps. lumps.items ≡ link_lumps (early_table cache.now) (early_tree cache.now) (full.now.dir, full.now.name.now) place.now ino (Some (attributes_of full.now.inode.now))) }
{
    let links = full.inode.links + 1;
    let inode = with_links(alloc, ino, full.inode, links)?;
    second_lumps(alloc, cache, full, place, inode)
}

/// The full dentry of an inode counts one link more, and a remote one begins.
pub fn link_lumps(
    alloc: Global,
    cache: &Cache,
    ino: Ino,
    place: &(Ino, Name),
) -> Result<Vec<DirLump>, AllocError>
    requires tree { HasTree cache.now }
    requires room { link_count (early_tree cache.now) ino < most_links }
    ensures { IfOk result (λ lumps. (r : ClientRequest) → lumps.items ≡ link_lumps (early_table cache.now) (early_tree cache.now) (full_place cache.now.rank (early_table cache.now) r ino) place.now ino (get (early_tree cache.now).records ino)) }
{
    match full_of(cache, ino) {
        Some(full) => counted_lumps(alloc, cache, ino, &full, place),
        None => Ok(Vec::new(alloc)),
    }
}
