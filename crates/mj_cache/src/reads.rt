//! What is read of a cache, each in O(log n).

ghost use Rattle.std.specs.Prelude.{◌≡◌, is_some, option_map, IfOk, IfSome};
ghost use Rattle.std.specs.Option.{option_and_then, option_copied};
ghost use Rattle.mj_maps.specs.Map.{get};
ghost use Rattle.mj_tree.specs.State.{attributes_of, link_count, is_kept};
ghost use Rattle.mj_cells.specs.Table.{dentry_of, number_of, presence_of};
ghost use Rattle.mj_cache.specs.Cached.{early_cells, early_table, early_tree};
ghost use Rattle.mj_index.specs.Places.{full_place};
ghost use Rattle.mj_cache.specs.HasTree.{HasTree};
ghost use Rattle.mj_cache.specs.Reads.{full_record, record_in};

use crate::cache::Cache;
use crate::tree::has_tree;
use mj_base::{Ino, InodeRecord, Name};
use mj_cells::{CellKey, CellValue};
use std::alloc::{AllocError, Global};

/// The number that a cell has.
pub fn number(cache: &Cache, key: &CellKey) -> Option<u64>
    ensures { result ≡ option_and_then number_of (get (early_cells cache.now) key.now) }
{
    match cache.early(key) {
        Some(CellValue::Number(n)) => Some(*n),
        _ => None,
    }
}

/// What stands at a name of a directory. It is full or remote, or else nothing is there.
pub fn dentry_at<'a>(
    alloc: Global,
    cache: &'a Cache,
    dir: Ino,
    name: &Name,
) -> Result<Option<&'a CellValue>, AllocError>
    ensures { IfOk result (λ found. option_and_then dentry_of (option_copied found) ≡ get (early_table cache.now).dentries (dir, name.now)) }
{
    let key = CellKey::Dentry(dir, name.copy(alloc)?);
    Ok(cache.early(&key))
}

/// Where the full dentry of an inode stands: a directory, or stray, and a name in it.
pub fn full_place(cache: &Cache, ino: Ino) -> Option<(Ino, &Name)>
    ensures { option_map (λ place. (place.0, place.1.now)) result ≡ full_place cache.now.rank (early_table cache.now) ino }
{
    match cache.primary_of(ino) {
        Some(CellKey::Dentry(dir, name)) => Some((*dir, name)),
        _ => None,
    }
}

// The record of a full dentry.
fn record_in(value: &CellValue) -> Option<&InodeRecord>
    ensures { option_copied result ≡ record_in (dentry_of value.now) }
{
    match value {
        CellValue::Full(_, inode) => Some(inode),
        _ => None,
    }
}

/// The record that the full dentry of an inode carries.
pub fn full_record(cache: &Cache, ino: Ino) -> Option<&InodeRecord>
    ensures { option_copied result ≡ full_record cache.now ino }
{
    match cache.primary_of(ino) {
        Some(key) => match cache.early(key) {
            Some(value) => record_in(value),
            None => None,
        },
        None => None,
    }
}

// Whether a link or an open names the inode of this record.
fn is_kept(cache: &Cache, ino: Ino, inode: &InodeRecord) -> bool
    requires tree { HasTree cache.now }
    requires links { inode.now.links ≡ link_count (early_tree cache.now) ino }
    ensures { result ≡ is_kept (early_tree cache.now) ino }
{
    inode.links > 0 || cache.opens_of(ino) > 0
}

/// The record of an inode that a link or an open names. The root has none.
pub fn record(cache: &Cache, ino: Ino) -> Option<&InodeRecord>
    ensures attributes { option_map attributes_of (option_copied result) ≡ get (early_tree cache.now).records ino }
    ensures links { IfSome (option_copied result) (λ inode. inode.links ≡ link_count (early_tree cache.now) ino) }
{
    has_tree(cache);
    match full_record(cache, ino) {
        Some(inode) => {
            if is_kept(cache, ino, inode) {
                Some(inode)
            } else {
                None
            }
        }
        None => None,
    }
}

/// The version of a directory's head.
pub fn head_of(cache: &Cache, dir: Ino) -> Option<u64>
    ensures { result ≡ get (early_table cache.now).heads dir }
{
    number(cache, &CellKey::DirHead(dir))
}

/// Whether a value says that something is there.
pub fn is_present(value: &CellValue) -> bool
    ensures { result ≡ is_some (presence_of value.now) }
{
    match value {
        CellValue::Present => true,
        _ => false,
    }
}
