//! What the dentries of some directories name.

ghost use Rattle.std.specs.Prelude.{◌≡◌, ◌∷◌, map, filter_map, IfOk};
ghost use Rattle.std.specs.Option.{option_copied};
ghost use Rattle.mj_base.specs.ObjectName.{stray_ino};
ghost use Rattle.mj_cells.specs.Next.{cell_of};
ghost use Rattle.mj_recovery.specs.Tree.{is_among};
ghost use Rattle.mj_judge.specs.Rows.{full_in, full_ino, kind_ino, link_ino, link_dir, remote_in, dentry_dir};

use crate::parts::{dir_of, ino_in};
use mj_base::{Ino, InodeRecord, Kind, RankNo};
use mj_cells::{CellKey, CellValue, CellView};
use mj_recovery::stray_ino;
use std::alloc::{AllocError, Global};
use std::collections::BTreeSet;

/// Whether a directory is one of these.
#[tactic(auto, using(crate::proofs::Passes::contains_is))]
pub fn is_dir(dirs: &BTreeSet<Ino>, dir: Ino) -> bool
    ensures { result ≡ is_among dirs.now.keys dir }
{
    dirs.contains(&dir)
}

/// Whether a directory is one of these or stray.
pub fn is_held(rank: RankNo, dirs: &BTreeSet<Ino>, dir: Ino) -> bool
    ensures { result ≡ is_among (stray_ino rank ∷ dirs.now.keys) dir }
{
    stray_ino(rank) == dir || is_dir(dirs, dir)
}

/// The record of a full dentry of these directories or stray.
pub fn full_in<'a>(
    rank: RankNo,
    dirs: &BTreeSet<Ino>,
    cell: &CellView<'a>,
) -> Option<&'a InodeRecord>
    ensures { option_copied result ≡ full_in (stray_ino rank ∷ dirs.now.keys) (cell_of cell.now) }
{
    match (cell.key, cell.value) {
        (CellKey::Dentry(dir, _), CellValue::Full(_, inode)) if is_held(rank, dirs, *dir) => {
            Some(inode)
        }
        _ => None,
    }
}

fn full_ino(rank: RankNo, dirs: &BTreeSet<Ino>, cell: &CellView<'_>) -> Option<Ino>
    ensures { result ≡ full_ino (stray_ino rank ∷ dirs.now.keys) (cell_of cell.now) }
{
    match full_in(rank, dirs, cell) {
        Some(inode) => Some(inode.ino),
        None => None,
    }
}

/// The inodes of the full dentries.
pub fn full_inodes(
    alloc: Global,
    rank: RankNo,
    dirs: &BTreeSet<Ino>,
    cells: &[CellView<'_>],
) -> Result<Vec<Ino>, AllocError>
    ensures { IfOk result (λ v. v.items ≡ filter_map (full_ino (stray_ino rank ∷ dirs.now.keys)) (map cell_of cells.now)) }
{
    let mut found = Vec::new(alloc);
    for cell in cells {
        if let Some(ino) = full_ino(rank, dirs, cell) {
            found.push(ino)?;
        }
    }
    Ok(found)
}

fn kind_ino(rank: RankNo, dirs: &BTreeSet<Ino>, kind: Kind, cell: &CellView<'_>) -> Option<Ino>
    ensures { result ≡ kind_ino (stray_ino rank ∷ dirs.now.keys) kind (cell_of cell.now) }
{
    match full_in(rank, dirs, cell) {
        Some(inode) if inode.kind == kind => Some(inode.ino),
        _ => None,
    }
}

/// The inodes of the full dentries of one kind.
pub fn kind_inodes(
    alloc: Global,
    rank: RankNo,
    dirs: &BTreeSet<Ino>,
    kind: Kind,
    cells: &[CellView<'_>],
) -> Result<Vec<Ino>, AllocError>
    ensures { IfOk result (λ v. v.items ≡ filter_map (kind_ino (stray_ino rank ∷ dirs.now.keys) kind) (map cell_of cells.now)) }
{
    let mut found = Vec::new(alloc);
    for cell in cells {
        if let Some(ino) = kind_ino(rank, dirs, kind, cell) {
            found.push(ino)?;
        }
    }
    Ok(found)
}

fn link_ino(dirs: &BTreeSet<Ino>, cell: &CellView<'_>) -> Option<Ino>
    ensures { result ≡ link_ino dirs.now.keys (cell_of cell.now) }
{
    match (dir_of(cell.key), ino_in(cell.value)) {
        (Some(dir), Some(ino)) if is_dir(dirs, dir) => Some(ino),
        _ => None,
    }
}

/// The inodes that links of these directories name.
pub fn link_inodes(
    alloc: Global,
    dirs: &BTreeSet<Ino>,
    cells: &[CellView<'_>],
) -> Result<Vec<Ino>, AllocError>
    ensures { IfOk result (λ v. v.items ≡ filter_map (link_ino dirs.now.keys) (map cell_of cells.now)) }
{
    let mut found = Vec::new(alloc);
    for cell in cells {
        if let Some(ino) = link_ino(dirs, cell) {
            found.push(ino)?;
        }
    }
    Ok(found)
}

fn link_dir(dirs: &BTreeSet<Ino>, cell: &CellView<'_>) -> Option<Ino>
    ensures { result ≡ link_dir dirs.now.keys (cell_of cell.now) }
{
    match (dir_of(cell.key), ino_in(cell.value)) {
        (Some(dir), Some(_)) if is_dir(dirs, dir) => Some(dir),
        _ => None,
    }
}

/// The directory of each link of these directories.
pub fn link_dirs(
    alloc: Global,
    dirs: &BTreeSet<Ino>,
    cells: &[CellView<'_>],
) -> Result<Vec<Ino>, AllocError>
    ensures { IfOk result (λ v. v.items ≡ filter_map (link_dir dirs.now.keys) (map cell_of cells.now)) }
{
    let mut found = Vec::new(alloc);
    for cell in cells {
        if let Some(dir) = link_dir(dirs, cell) {
            found.push(dir)?;
        }
    }
    Ok(found)
}

fn remote_in(dirs: &BTreeSet<Ino>, cell: &CellView<'_>) -> Option<(Ino, Kind)>
    ensures { result ≡ remote_in dirs.now.keys (cell_of cell.now) }
{
    match (cell.key, cell.value) {
        (CellKey::Dentry(dir, _), CellValue::Remote(_, ino, kind)) if is_dir(dirs, *dir) => {
            Some((*ino, *kind))
        }
        _ => None,
    }
}

/// The inodes and kinds that the remote dentries of these directories name.
pub fn remotes(
    alloc: Global,
    dirs: &BTreeSet<Ino>,
    cells: &[CellView<'_>],
) -> Result<Vec<(Ino, Kind)>, AllocError>
    ensures { IfOk result (λ v. v.items ≡ filter_map (remote_in dirs.now.keys) (map cell_of cells.now)) }
{
    let mut found = Vec::new(alloc);
    for cell in cells {
        if let Some(remote) = remote_in(dirs, cell) {
            found.push(remote)?;
        }
    }
    Ok(found)
}

fn dentry_dir(cell: &CellView<'_>) -> Option<Ino>
    ensures { result ≡ dentry_dir (cell_of cell.now) }
{
    match (dir_of(cell.key), ino_in(cell.value)) {
        (Some(dir), Some(_)) => Some(dir),
        _ => None,
    }
}

/// The directory of each dentry.
pub fn dentry_dirs(alloc: Global, cells: &[CellView<'_>]) -> Result<Vec<Ino>, AllocError>
    ensures { IfOk result (λ v. v.items ≡ filter_map dentry_dir (map cell_of cells.now)) }
{
    let mut found = Vec::new(alloc);
    for cell in cells {
        if let Some(dir) = dentry_dir(cell) {
            found.push(dir)?;
        }
    }
    Ok(found)
}
