//! What is read of a cache by going over keys.

ghost use Rattle.std.specs.Prelude.{◌≡◌, ◌+◌, ◌<◌, ◌∷◌, ◌++◌, [], ℕ, Some, true, cond, filter, is_some, nat_lt, nat_le, option_map, IfOk, IfSome, IsTrue, OnOk};
ghost use Rattle.std.specs.Option.{option_copied};
ghost use Rattle.mj_maps.specs.Map.{get, count};
ghost use Rattle.mj_tree.specs.State.{is_dir, opens_of};
ghost use Rattle.mj_tree.specs.Sessions.{oldest_of, kept_of};
ghost use Rattle.mj_tree.specs.Row.{names_in};
ghost use Rattle.mj_tree.specs.Answer.{kept_reply};
ghost use Rattle.mj_cells.specs.declared.cell.CellKey.TheVariants.{Dentry};
ghost use Rattle.mj_cache.specs.Cached.{early_tree};
ghost use Rattle.mj_delta.specs.Events.{tids};
ghost use Rattle.mj_cache.specs.HasTree.{HasTree};
ghost use Rattle.mj_cache.specs.Reads.{is_open_by, name_below, name_in, name_of, next_name, next_tid, tid_in};

use crate::cache::Cache;
use crate::tree::has_tree;
use mj_base::{ClientId, Ino, Items, Name, Tid};
use mj_cells::CellKey;
use mj_tree::{NameList, TreeView};
use std::alloc::{AllocError, Global};

// The number of a kept reply, where it is the client's.
fn tid_in(client: ClientId, key: &CellKey) -> Option<Tid>
    ensures { result ≡ tid_in client key.now }
{
    match key {
        CellKey::Done(of, tid) => { if *of == client { Some(*tid) } else { None } }
        _ => None,
    }
}

/// The least number above `after` among a client's kept replies.
fn next_tid(cache: &Cache, client: ClientId, after: Tid) -> Option<Tid>
    requires tree { HasTree cache.now }
    ensures { result ≡ next_tid (early_tree cache.now) client after }
{
    cache.all_fit();
    let key = CellKey::Done(client, after);
    match cache.next_early(Some(&key)) {
        Some(cell) => tid_in(client, cell.key),
        None => None,
    }
}

// The number, where the reply to it is kept.
fn tids_at(alloc: Global, cache: &Cache, client: ClientId, tid: Tid) -> Result<Vec<Tid>, AllocError>
    requires tree { HasTree cache.now }
    ensures { IfOk result (λ found. found.items ≡ cond (is_some (kept_reply (early_tree cache.now) client tid)) (tid ∷ []) []) }
{
    let mut found = Vec::new(alloc);
    if cache.kept_reply(client, tid).is_some() {
        found.push(tid)?;
        Ok(found)
    } else {
        Ok(found)
    }
}

// The numbers of the kept replies of a client whose session has this oldest number.
fn session_tids(
    alloc: Global,
    cache: &Cache,
    client: ClientId,
    oldest: Tid,
) -> Result<Vec<Tid>, AllocError>
    requires tree { HasTree cache.now }
    requires oldest { oldest_of (get (early_tree cache.now).sessions client) ≡ Some oldest }
    ensures { IfOk result (λ found. found.items ≡ tids (kept_of (early_tree cache.now) client)) }
{
    let mut found = tids_at(alloc, cache, client, oldest)?;
    let mut after = oldest;
    while let Some(tid) = next_tid(cache, client, after) {
        found.push(tid)?;
        after = tid;
    }
    Ok(found)
}

/// The numbers of a client's kept replies, ascending. There are at most 64.
pub fn kept_tids(alloc: Global, cache: &Cache, client: ClientId) -> Result<Vec<Tid>, AllocError>
    ensures { IfOk result (λ found. found.items ≡ tids (kept_of (early_tree cache.now) client)) }
{
    has_tree(cache);
    match cache.session_oldest(client) {
        Some(oldest) => session_tids(alloc, cache, client, oldest),
        None => Ok(Vec::new(alloc)),
    }
}

// Whether no number above this one is below the bound.
fn no_more_below(tid: Tid, bound: Tid) -> bool
    ensures { result ≡ nat_le bound (tid + 1) }
{
    bound.0 <= tid.0.saturating_add(1)
}

/// The numbers of a client's kept replies that are below a bound, ascending, where its session has this oldest number.
/// It takes a step for each of them and one more, a look-up alone where the bound is the number after the oldest, and
/// nothing where it is the oldest.
pub fn kept_tids_below(
    alloc: Global,
    cache: &Cache,
    client: ClientId,
    oldest: Tid,
    bound: Tid,
) -> Result<Vec<Tid>, AllocError>
    requires tree { HasTree cache.now }
    requires oldest { oldest_of (get (early_tree cache.now).sessions client) ≡ Some oldest }
    ensures { IfOk result (λ found. found.items ≡ filter (λ tid. nat_lt tid bound) (tids (kept_of (early_tree cache.now) client))) }
{
    if oldest >= bound {
        return Ok(Vec::new(alloc));
    }
    let mut found = tids_at(alloc, cache, client, oldest)?;
    if no_more_below(oldest, bound) {
        return Ok(found);
    }
    let mut after = oldest;
    // Numbers ascend, so the first that isn't below the bound ends the walk.
    while let Some(tid) = next_tid(cache, client, after) {
        if tid >= bound {
            return Ok(found);
        }
        found.push(tid)?;
        after = tid;
    }
    Ok(found)
}

// 1 where the reply to this number is kept, and else 0.
fn kept_at(cache: &Cache, client: ClientId, tid: Tid) -> u64
    requires tree { HasTree cache.now }
    ensures { result ≡ cond (is_some (kept_reply (early_tree cache.now) client tid)) 1 0 }
{
    if cache.kept_reply(client, tid).is_some() {
        1
    } else {
        0
    }
}

// How many replies from a number on are kept for a client.
fn kept_from(cache: &Cache, client: ClientId, oldest: Tid) -> u64
    requires tree { HasTree cache.now }
    ensures { result ≡ count (λ (e : ℕ × ℕ). nat_le oldest e.0) (kept_of (early_tree cache.now) client) }
{
    let mut kept = kept_at(cache, client, oldest);
    let mut after = oldest;
    while let Some(tid) = next_tid(cache, client, after) {
        kept += 1;
        after = tid;
    }
    kept
}

// Whether a client's kept replies from a number on lie so close to it that they are fewer than `most`, since none is
// above the `most` - 1 numbers from it on. One step tells.
fn lie_close(cache: &Cache, client: ClientId, oldest: Tid, most: u64) -> bool
    requires tree { HasTree cache.now }
    ensures { IsTrue result → count (λ (e : ℕ × ℕ). nat_le oldest e.0) (kept_of (early_tree cache.now) client) < most }
{
    most > 1 && next_tid(cache, client, Tid(oldest.0.saturating_add(most - 2))).is_none()
}

/// Whether a client has `most` or more kept replies from a number on. They are counted only where one of them is so far
/// from that number that there may be so many, so it takes one step for a client that acknowledges as it goes.
pub fn keeps_from(cache: &Cache, client: ClientId, oldest: Tid, most: u64) -> bool
    requires tree { HasTree cache.now }
    ensures { result ≡ nat_le most (count (λ (e : ℕ × ℕ). nat_le oldest e.0) (kept_of (early_tree cache.now) client)) }
{
    !lie_close(cache, client, oldest, most) && kept_from(cache, client, oldest) >= most
}

fn is_open_by(client: ClientId, key: &CellKey) -> bool
    ensures { result ≡ is_open_by client key.now }
{
    match key {
        CellKey::OpenOf(of, _) => *of == client,
        _ => false,
    }
}

/// Whether a client has a file open. No open is of inode 0.
pub fn has_opens(cache: &Cache, client: ClientId) -> bool
    requires tree { HasTree cache.now }
    ensures { result ≡ nat_lt 0 (opens_of (early_tree cache.now) client) }
{
    cache.all_fit();
    let below = CellKey::OpenOf(client, Ino(0));
    match cache.next_early(Some(&below)) {
        Some(cell) => is_open_by(client, cell.key),
        None => false,
    }
}

// The least name of all.
fn least_name(alloc: Global) -> Result<Name, AllocError>
    ensures { IfOk result (λ name. name ≡ 1 ∷ []) }
{
    match Name::read(alloc, &[1]) {
        Ok(name) => Ok(name),
        Err(_) => Err(AllocError),
    }
}

// The name of a dentry, where it is in the directory.
fn name_in(dir: Ino, key: &CellKey) -> Option<&Name>
    ensures name { option_copied result ≡ name_in dir key.now }
    ensures key { IfSome result (λ name. key.now ≡ Dentry dir name.now) }
{
    match key {
        CellKey::Dentry(at, name) => { if *at == dir { Some(name) } else { None } }
        _ => None,
    }
}

// The key of the least name above, among those of a directory, and that name.
fn next_name<'a>(cache: &'a Cache, dir: Ino, after: &CellKey) -> Option<(&'a CellKey, &'a Name)>
    requires tree { HasTree cache.now }
    requires dir { is_dir (early_tree cache.now) dir ≡ true }
    requires here { after.now ≡ Dentry dir (name_of after.now) }
    ensures name { option_map (λ found. found.1.now) result ≡ next_name (early_tree cache.now) dir (name_of after.now) }
    ensures key { IfSome result (λ found. found.0.now ≡ Dentry dir found.1.now) }
{
    cache.all_fit();
    match cache.next_early(Some(after)) {
        Some(cell) => match name_in(dir, cell.key) {
            Some(name) => Some((cell.key, name)),
            None => None,
        },
        None => None,
    }
}

// The least name of all, where the directory has it.
fn least_names(
    alloc: Global,
    cache: &Cache,
    dir: Ino,
    least: &Name,
) -> Result<Vec<Name>, AllocError>
    requires tree { HasTree cache.now }
    requires dir { is_dir (early_tree cache.now) dir ≡ true }
    requires least { least.now ≡ 1 ∷ [] }
    ensures { IfOk result (λ names. names.items ++ filter (name_below least.now) (names_in (early_tree cache.now) dir) ≡ names_in (early_tree cache.now) dir) }
{
    let mut names = Vec::new(alloc);
    if cache.link_at(alloc, dir, least)?.is_some() {
        names.push(least.copy(alloc)?)?;
        Ok(names)
    } else {
        Ok(names)
    }
}

// Pushes the names of a directory that are above that of the key.
fn push_names<'a>(
    alloc: Global,
    cache: &'a Cache,
    dir: Ino,
    first: &'a CellKey,
    names: &mut Vec<Name>,
) -> Result<(), AllocError>
    requires tree { HasTree cache.now }
    requires dir { is_dir (early_tree cache.now) dir ≡ true }
    requires here { first.now ≡ Dentry dir (name_of first.now) }
    ensures { OnOk result (names.new.items ≡ names.old.items ++ filter (name_below (name_of first.now)) (names_in (early_tree cache.now) dir)) }
{
    let mut after = first;
    while let Some((key, name)) = next_name(cache, dir, after) {
        names.push(name.copy(alloc)?)?;
        after = key;
    }
    Ok(())
}

/// The names of a directory, ascending by bytes.
pub fn names_in(alloc: Global, cache: &Cache, dir: Ino) -> Result<NameList, AllocError>
    requires tree { HasTree cache.now }
    requires dir { is_dir (early_tree cache.now) dir ≡ true }
    ensures { IfOk result (λ names. names ≡ names_in (early_tree cache.now) dir) }
{
    let least = least_name(alloc)?;
    let mut names = least_names(alloc, cache, dir, &least)?;
    let first = CellKey::Dentry(dir, least);
    push_names(alloc, cache, dir, &first, &mut names)?;
    Ok(Items::from_vec(names))
}
