//! What a cell says of inodes.

ghost use Rattle.std.specs.Prelude.{◌≡◌, true};
ghost use Rattle.std.specs.Option.{option_copied};
ghost use Rattle.mj_index.specs.Known.{is_dir_at, held_by};
ghost use Rattle.mj_judge.specs.Rows.{dentry_dir};
ghost use Rattle.mj_index.specs.Said.{full_said, full_inode, dir_named, open_inode, is_session};

use crate::known::KnownInodes;
use mj_base::{Ino, InodeRecord, RankNo};
use mj_cells::{CellKey, CellValue};
use mj_judge::{dir_of, ino_in, subdir_in};
use mj_recovery::stray_ino;

/// The directory of a dentry that is there.
pub fn dentry_dir(key: &CellKey, value: &CellValue) -> Option<Ino>
    ensures { result ≡ dentry_dir (key.now, value.now) }
{
    match (dir_of(key), ino_in(value)) {
        (Some(dir), Some(_)) => Some(dir),
        _ => None,
    }
}

fn is_held(rank: RankNo, known: &KnownInodes, dir: Ino) -> bool
    ensures { result ≡ held_by rank (is_dir_at known.now) dir }
{
    stray_ino(rank) == dir || known.is_dir(dir)
}

/// The record of a full dentry in a reachable directory or in stray.
pub fn full_said<'a>(
    rank: RankNo,
    known: &KnownInodes,
    key: &CellKey,
    value: &'a CellValue,
) -> Option<&'a InodeRecord>
    ensures { option_copied result ≡ full_said (held_by rank (is_dir_at known.now)) (key.now, value.now) }
{
    match (key, value) {
        (CellKey::Dentry(dir, _), CellValue::Full(_, inode)) if is_held(rank, known, *dir) => {
            Some(inode)
        }
        _ => None,
    }
}

/// The inode of a full dentry in a reachable directory or in stray.
pub fn full_inode(
    rank: RankNo,
    known: &KnownInodes,
    key: &CellKey,
    value: &CellValue,
) -> Option<Ino>
    ensures { result ≡ full_inode (held_by rank (is_dir_at known.now)) (key.now, value.now) }
{
    match full_said(rank, known, key, value) {
        Some(inode) => Some(inode.ino),
        None => None,
    }
}

/// The inode of any full dentry.
pub fn any_full_inode(key: &CellKey, value: &CellValue) -> Option<Ino>
    ensures { result ≡ full_inode (λ _. true) (key.now, value.now) }
{
    match (key, value) {
        (CellKey::Dentry(_, _), CellValue::Full(_, inode)) => Some(inode.ino),
        _ => None,
    }
}

/// The directory that a full dentry in a reachable directory names.
pub fn dir_named(known: &KnownInodes, key: &CellKey, value: &CellValue) -> Option<Ino>
    ensures { result ≡ dir_named (is_dir_at known.now) (key.now, value.now) }
{
    match (dir_of(key), subdir_in(value)) {
        (Some(dir), Some(below)) if known.is_dir(dir) => Some(below),
        _ => None,
    }
}

/// The inode that an open is of.
pub fn open_inode(key: &CellKey, value: &CellValue) -> Option<Ino>
    ensures { result ≡ open_inode (key.now, value.now) }
{
    match (key, value) {
        (CellKey::OpenOf(_, ino), CellValue::Present) => Some(*ino),
        _ => None,
    }
}

/// Whether it is a session.
pub fn is_session(key: &CellKey, value: &CellValue) -> bool
    ensures { result ≡ is_session (key.now, value.now) }
{
    match (key, value) {
        (CellKey::Session(_), CellValue::Number(_)) => true,
        _ => false,
    }
}
