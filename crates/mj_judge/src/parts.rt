//! The cells of a table by their kinds.

ghost use Rattle.std.specs.Prelude.{◌≡◌, map, filter_map, IfOk};
ghost use Rattle.std.specs.Option.{option_map, option_and_then};
ghost use Rattle.mj_cells.specs.Next.{cell_of};
ghost use Rattle.mj_recovery.specs.Tree.{ino_of, subdir};
ghost use Rattle.mj_cells.specs.declared.cell.CellKey.TheVariants.{NextIno};
ghost use Rattle.mj_cells.specs.Table.{dentry_of, number_of};
ghost use Rattle.mj_tables.specs.Layered.{early_cells};
ghost use Rattle.mj_judge.specs.Parts.{number_at, dir_at, head_dir, session_entry, done_entry, open_place};

use mj_base::{ClientId, Ino, Kind, Tid};
use mj_cells::{CellKey, CellValue, CellView};
use mj_tables::Layers;
use std::alloc::{AllocError, Global};

/// The directory of a dentry.
pub fn dir_of(key: &CellKey) -> Option<Ino>
    ensures { result ≡ dir_at key.now }
{
    match key {
        CellKey::Dentry(dir, _) => Some(*dir),
        _ => None,
    }
}

/// The inode that a dentry names.
pub fn ino_in(value: &CellValue) -> Option<Ino>
    ensures { result ≡ option_map ino_of (dentry_of value.now) }
{
    match value {
        CellValue::Full(_, inode) => Some(inode.ino),
        CellValue::Remote(_, ino, _) => Some(*ino),
        _ => None,
    }
}

/// The directory that a full dentry names.
pub fn subdir_in(value: &CellValue) -> Option<Ino>
    ensures { result ≡ option_and_then subdir (dentry_of value.now) }
{
    match value {
        CellValue::Full(_, inode) if inode.kind == Kind::Dir => Some(inode.ino),
        _ => None,
    }
}

fn number_of(value: &CellValue) -> Option<u64>
    ensures { result ≡ number_of value.now }
{
    match value {
        CellValue::Number(n) => Some(*n),
        _ => None,
    }
}

fn head_of(cell: &CellView<'_>) -> Option<Ino>
    ensures { result ≡ head_dir (cell_of cell.now) }
{
    match (cell.key, number_of(cell.value)) {
        (CellKey::DirHead(dir), Some(_)) => Some(*dir),
        _ => None,
    }
}

fn session_of(cell: &CellView<'_>) -> Option<(ClientId, Tid)>
    ensures { result ≡ session_entry (cell_of cell.now) }
{
    match (cell.key, number_of(cell.value)) {
        (CellKey::Session(client), Some(n)) => Some((*client, Tid(n))),
        _ => None,
    }
}

fn done_of(cell: &CellView<'_>) -> Option<((ClientId, Tid), Ino)>
    ensures { result ≡ done_entry (cell_of cell.now) }
{
    match (cell.key, number_of(cell.value)) {
        (CellKey::Done(client, tid), Some(n)) => Some(((*client, *tid), Ino(n))),
        _ => None,
    }
}

fn open_of(cell: &CellView<'_>) -> Option<(ClientId, Ino)>
    ensures { result ≡ open_place (cell_of cell.now) }
{
    match (cell.key, cell.value) {
        (CellKey::OpenOf(client, ino), CellValue::Present) => Some((*client, *ino)),
        _ => None,
    }
}

/// The directories that have a head.
pub fn head_dirs(alloc: Global, cells: &[CellView<'_>]) -> Result<Vec<Ino>, AllocError>
    ensures { IfOk result (λ v. v.items ≡ filter_map head_dir (map cell_of cells.now)) }
{
    let mut found = Vec::new(alloc);
    for cell in cells {
        if let Some(dir) = head_of(cell) {
            found.push(dir)?;
        }
    }
    Ok(found)
}

/// The oldest tids of sessions.
pub fn sessions(alloc: Global, cells: &[CellView<'_>]) -> Result<Vec<(ClientId, Tid)>, AllocError>
    ensures { IfOk result (λ v. v.items ≡ filter_map session_entry (map cell_of cells.now)) }
{
    let mut found = Vec::new(alloc);
    for cell in cells {
        if let Some(session) = session_of(cell) {
            found.push(session)?;
        }
    }
    Ok(found)
}

/// The inodes of kept replies.
pub fn kept_replies(
    alloc: Global,
    cells: &[CellView<'_>],
) -> Result<Vec<((ClientId, Tid), Ino)>, AllocError>
    ensures { IfOk result (λ v. v.items ≡ filter_map done_entry (map cell_of cells.now)) }
{
    let mut found = Vec::new(alloc);
    for cell in cells {
        if let Some(reply) = done_of(cell) {
            found.push(reply)?;
        }
    }
    Ok(found)
}

/// The open files.
pub fn opens(alloc: Global, cells: &[CellView<'_>]) -> Result<Vec<(ClientId, Ino)>, AllocError>
    ensures { IfOk result (λ v. v.items ≡ filter_map open_place (map cell_of cells.now)) }
{
    let mut found = Vec::new(alloc);
    for cell in cells {
        if let Some(place) = open_of(cell) {
            found.push(place)?;
        }
    }
    Ok(found)
}

/// The number that a key has.
pub fn number_at(layers: &Layers, key: &CellKey) -> Option<u64>
    ensures { result ≡ number_at (early_cells layers.now) key.now }
{
    match layers.early(key) {
        Some(value) => number_of(value),
        None => None,
    }
}

/// The next inode.
pub fn next_ino(layers: &Layers) -> Option<Ino>
    ensures { result ≡ number_at (early_cells layers.now) NextIno }
{
    match number_at(layers, &CellKey::NextIno) {
        Some(n) => Some(Ino(n)),
        None => None,
    }
}
