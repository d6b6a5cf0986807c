//! What is wrong with a table, row by row.

ghost use Rattle.std.specs.Prelude.{◌≡◌, [], ◌∷◌, ◌==◌, ◌||◌, ℕ, map, filter, filter_map, nat_lt, is_some, IfOk};
ghost use Rattle.mj_base.specs.ObjectName.{stray_ino};
ghost use Rattle.mj_tree.specs.State.{root};
ghost use Rattle.mj_cells.specs.Next.{cell_of};
ghost use Rattle.mj_tables.specs.Layered.{early_cells};
ghost use Rattle.mj_recovery.specs.Damage.{headless, bad_opens};
ghost use Rattle.mj_judge.specs.Kinds.{is_kind};
ghost use Rattle.mj_judge.specs.Rows.{count_in, is_counted, miscounted_ino, if_lone, replies_badly, oldest_at, version_at, kept_of, over_dirs};

use crate::counts::Counts;
use crate::dentries::full_in;
use crate::kinds::Kinds;
use crate::parts::number_at;
use mj_base::{ClientId, Ino, Kind, RankNo, Tid};
use mj_cells::{CellKey, CellView};
use mj_recovery::{ROOT, stray_ino};
use mj_tables::Layers;
use mj_tree::{MOST_ENTRIES, MOST_KEPT};
use std::alloc::{AllocError, Global};
use std::collections::BTreeSet;

fn has_head(layers: &Layers, dir: Ino) -> bool
    ensures { result ≡ is_some (version_at (early_cells layers.now) dir) }
{
    number_at(layers, &CellKey::DirHead(dir)).is_some()
}

// Stray, where it has no head.
fn headless_stray(alloc: Global, layers: &Layers, rank: RankNo) -> Result<Vec<Ino>, AllocError>
    ensures { IfOk result (λ v. v.items ≡ headless (version_at (early_cells layers.now)) (stray_ino rank ∷ [])) }
{
    let mut found = Vec::new(alloc);
    if !has_head(layers, stray_ino(rank)) {
        found.push(stray_ino(rank))?;
    }
    Ok(found)
}

/// The directories, stray among them, that have no head.
pub fn headless(
    alloc: Global,
    layers: &Layers,
    rank: RankNo,
    dirs: &BTreeSet<Ino>,
) -> Result<Vec<Ino>, AllocError>
    ensures { IfOk result (λ v. v.items ≡ headless (version_at (early_cells layers.now)) (stray_ino rank ∷ dirs.now.keys)) }
{
    let mut found = headless_stray(alloc, layers, rank)?;
    for dir in dirs.iter() {
        if !has_head(layers, *dir) {
            found.push(*dir)?;
        }
    }
    Ok(found)
}

/// Those that were counted twice, or are the root's.
pub fn twice(alloc: Global, counts: &Counts, inodes: &[Ino]) -> Result<Vec<Ino>, AllocError>
    ensures { IfOk result (λ v. v.items ≡ filter (λ i. (i == root) || nat_lt 1 (count_in counts.now i)) inodes.now) }
{
    let mut found = Vec::new(alloc);
    for ino in inodes {
        if *ino == ROOT || 1 < counts.count(ino.0) {
            found.push(*ino)?;
        }
    }
    Ok(found)
}

/// The inodes of those remote dentries that have no full one.
pub fn lone_among(
    alloc: Global,
    kinds: &Kinds,
    remotes: &[(Ino, Kind)],
) -> Result<Vec<Ino>, AllocError>
    ensures { IfOk result (λ v. v.items ≡ filter_map (if_lone (is_kind kinds.now)) remotes.now) }
{
    let mut found = Vec::new(alloc);
    for remote in remotes {
        if !kinds.has(remote.0, remote.1) {
            found.push(remote.0)?;
        }
    }
    Ok(found)
}

fn miscounted_ino(
    rank: RankNo,
    dirs: &BTreeSet<Ino>,
    links: &Counts,
    cell: &CellView<'_>,
) -> Option<Ino>
    ensures { result ≡ miscounted_ino (stray_ino rank ∷ dirs.now.keys) (count_in links.now) (cell_of cell.now) }
{
    match full_in(rank, dirs, cell) {
        Some(inode) => {
            if u64::from(inode.links) == links.count(inode.ino.0) {
                None
            } else {
                Some(inode.ino)
            }
        }
        None => None,
    }
}

/// The inodes whose stored count is not that of their links.
pub fn miscounted(
    alloc: Global,
    rank: RankNo,
    dirs: &BTreeSet<Ino>,
    links: &Counts,
    cells: &[CellView<'_>],
) -> Result<Vec<Ino>, AllocError>
    ensures { IfOk result (λ v. v.items ≡ filter_map (miscounted_ino (stray_ino rank ∷ dirs.now.keys) (count_in links.now)) (map cell_of cells.now)) }
{
    let mut found = Vec::new(alloc);
    for cell in cells {
        if let Some(ino) = miscounted_ino(rank, dirs, links, cell) {
            found.push(ino)?;
        }
    }
    Ok(found)
}

/// The opens without a session or without a file's record.
pub fn bad_opens(
    alloc: Global,
    layers: &Layers,
    files: &Counts,
    opens: &[(ClientId, Ino)],
) -> Result<Vec<(ClientId, Ino)>, AllocError>
    ensures { IfOk result (λ v. v.items ≡ bad_opens (oldest_at (early_cells layers.now)) (is_counted files.now) opens.now) }
{
    let mut found = Vec::new(alloc);
    for open in opens {
        if oldest_of(layers, open.0).is_none() || !files.has(open.1.0) {
            found.push((open.0, open.1))?;
        }
    }
    Ok(found)
}

/// The oldest tid of a client's session.
fn oldest_of(layers: &Layers, client: ClientId) -> Option<u64>
    ensures { result ≡ oldest_at (early_cells layers.now) client }
{
    number_at(layers, &CellKey::Session(client))
}

fn replies_badly(layers: &Layers, counts: &Counts, client: ClientId, tid: Tid) -> bool
    ensures { result ≡ replies_badly (oldest_at (early_cells layers.now)) (count_in counts.now) ((client, tid), 0) }
{
    match oldest_of(layers, client) {
        None => true,
        Some(oldest) => tid.0 < oldest || MOST_KEPT < counts.count(u64::from(client.0)),
    }
}

/// The clients of kept replies without a session or below its oldest, or of more than 64.
pub fn bad_replies(
    alloc: Global,
    layers: &Layers,
    counts: &Counts,
    done: &[((ClientId, Tid), Ino)],
) -> Result<Vec<ClientId>, AllocError>
    ensures { IfOk result (λ v. v.items ≡ map (λ (e : (ℕ × ℕ) × ℕ). e.0.0) (filter (replies_badly (oldest_at (early_cells layers.now)) (count_in counts.now)) done.now)) }
{
    let mut found = Vec::new(alloc);
    for reply in done {
        if replies_badly(layers, counts, reply.0.0, reply.0.1) {
            found.push(reply.0.0)?;
        }
    }
    Ok(found)
}

/// The client of each kept reply.
pub fn reply_clients(
    alloc: Global,
    done: &[((ClientId, Tid), Ino)],
) -> Result<Vec<ClientId>, AllocError>
    ensures { IfOk result (λ v. v.items ≡ map (λ (e : (ℕ × ℕ) × ℕ). e.0.0) done.now) }
{
    let mut found = Vec::new(alloc);
    for reply in done {
        found.push(reply.0.0)?;
    }
    Ok(found)
}

/// Those that a link or an open keeps.
pub fn kept_of(
    alloc: Global,
    links: &Counts,
    opens: &Counts,
    inodes: &[Ino],
) -> Result<Vec<Ino>, AllocError>
    ensures { IfOk result (λ v. v.items ≡ kept_of (count_in links.now) (count_in opens.now) inodes.now) }
{
    let mut found = Vec::new(alloc);
    for ino in inodes {
        if links.has(ino.0) || opens.has(ino.0) {
            found.push(*ino)?;
        }
    }
    Ok(found)
}

/// The directories that have too many entries.
pub fn over_dirs(
    alloc: Global,
    counts: &Counts,
    dirs: &BTreeSet<Ino>,
) -> Result<Vec<Ino>, AllocError>
    ensures { IfOk result (λ v. v.items ≡ over_dirs (count_in counts.now) dirs.now.keys) }
{
    let mut found = Vec::new(alloc);
    for dir in dirs.iter() {
        if MOST_ENTRIES < counts.count(dir.0) {
            found.push(*dir)?;
        }
    }
    Ok(found)
}
