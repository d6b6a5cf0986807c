//! Objects that are outside their format.

ghost use Rattle.std.specs.Prelude.{◌≡◌, filter, is_some, IfOk};
ghost use Rattle.mj_recovery.specs.Objects.{pair_entries};
ghost use Rattle.mj_recovery.specs.Stored.{bad_pair};
ghost use Rattle.mj_recovery.specs.Listed.{listed_bad};
ghost use Rattle.mj_recovery.specs.ListedObjects.{is_bad_inotable, is_bad_sessionmap, listed_bad_table, listed_bad_key, listed_bad_dirfrag};

use crate::stored::{head_cell, pair_cell};
use crate::stream::find;
use mj_base::{Damage, Ino, Items, ObjectName, RankNo};
use mj_judge::least;
use mj_store::{HeldObject, Pair};
use std::alloc::{AllocError, Global};

// The first key whose pair is outside the format.
fn bad_pair(
    alloc: Global,
    name: &ObjectName,
    pairs: &[Pair],
) -> Result<Option<Items<u8>>, AllocError>
    ensures { IfOk result (λ o. o ≡ bad_pair name.now (pair_entries pairs.now)) }
{
    for pair in pairs {
        if pair_cell(alloc, name, pair)?.is_none() {
            return Ok(Some(pair.key.copy(alloc)?));
        }
    }
    Ok(None)
}

// The key of the first thing outside the format: it is empty for the head.
fn bad_key(alloc: Global, object: &HeldObject) -> Result<Option<Items<u8>>, AllocError>
    ensures { IfOk result (λ o. o ≡ listed_bad object.now) }
{
    if let Some(head) = &object.head {
        if head_cell(&object.name, head.as_slice()).is_none() {
            return Ok(Some(Items::of_bytes(alloc, &[])?));
        }
    }
    bad_pair(alloc, &object.name, object.pairs.as_slice())
}

// The first damage of the rank's tables.
fn bad_inodes(alloc: Global, objects: &[HeldObject], rank: RankNo) -> Result<bool, AllocError>
    ensures { IfOk result (λ b. b ≡ is_bad_inotable rank objects.now) }
{
    let Some(object) = find(objects, &ObjectName::InoTable(rank)) else {
        return Ok(true);
    };
    if object.head.is_none() {
        return Ok(true);
    }
    Ok(bad_key(alloc, object)?.is_some())
}

fn bad_sessions(alloc: Global, objects: &[HeldObject], rank: RankNo) -> Result<bool, AllocError>
    ensures { IfOk result (λ b. b ≡ is_bad_sessionmap rank objects.now) }
{
    let Some(object) = find(objects, &ObjectName::SessionMap(rank)) else {
        return Ok(false);
    };
    Ok(bad_key(alloc, object)?.is_some())
}

/// The first damage of the rank's tables.
pub fn bad_table(
    alloc: Global,
    objects: &[HeldObject],
    rank: RankNo,
) -> Result<Option<Damage>, AllocError>
    ensures { IfOk result (λ o. o ≡ listed_bad_table rank objects.now) }
{
    if bad_inodes(alloc, objects, rank)? {
        return Ok(Some(Damage::TableBad(ObjectName::InoTable(rank))));
    }
    if bad_sessions(alloc, objects, rank)? {
        return Ok(Some(Damage::TableBad(ObjectName::SessionMap(rank))));
    }
    Ok(None)
}

// The first wrong key of a directory's object.
fn bad_key_of(
    alloc: Global,
    objects: &[HeldObject],
    dir: Ino,
) -> Result<Option<Items<u8>>, AllocError>
    ensures { IfOk result (λ o. o ≡ listed_bad_key objects.now dir) }
{
    let name = ObjectName::File {
        ino: dir.0,
        index: 0,
    };
    match find(objects, &name) {
        Some(object) => bad_key(alloc, object),
        None => Ok(None),
    }
}

fn bad_dirs(alloc: Global, objects: &[HeldObject], dirs: &[Ino]) -> Result<Vec<Ino>, AllocError>
    ensures { IfOk result (λ v. v.items ≡ filter (λ d. is_some (listed_bad_key objects.now d)) dirs.now) }
{
    let mut found = Vec::new(alloc);
    for dir in dirs {
        if bad_key_of(alloc, objects, *dir)?.is_some() {
            found.push(*dir)?;
        }
    }
    Ok(found)
}

/// The damage of the least of these directories whose object is outside the format.
pub fn bad_dirfrag(
    alloc: Global,
    objects: &[HeldObject],
    dirs: &[Ino],
) -> Result<Option<Damage>, AllocError>
    ensures { IfOk result (λ o. o ≡ listed_bad_dirfrag objects.now dirs.now) }
{
    let bad = bad_dirs(alloc, objects, dirs)?;
    let Some(dir) = least(&bad) else {
        return Ok(None);
    };
    match bad_key_of(alloc, objects, dir)? {
        Some(key) => Ok(Some(Damage::DirfragBad(dir, key))),
        None => Ok(None),
    }
}
