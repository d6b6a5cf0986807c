//! The full dentry of an inode that a link or an open names.

ghost use Rattle.std.specs.Prelude.{◌≡◌};
ghost use Rattle.mj_cache.specs.HasTree.{HasTree};
ghost use Rattle.mj_plan.specs.Fulls.{FullOf};

use mj_base::{Ino, InodeRecord, Name};
use mj_cache::{Cache, full_place, record};

/// Where a full dentry stands, and the record that it carries.
#[derive(Clone, Copy)]
pub struct FullDentry<'a> {
    pub dir: Ino,
    pub name: &'a Name,
    pub inode: &'a InodeRecord,
}

/// The full dentry of an inode that a link or an open names.
pub fn full_of(cache: &Cache, ino: Ino) -> Option<FullDentry<'_>>
    requires tree { HasTree cache.now }
    ensures { FullOf cache.now ino result }
{
    let Some(inode) = record(cache, ino) else {
        return None;
    };
    match full_place(cache, ino) {
        Some((dir, name)) => Some(FullDentry { dir, name, inode }),
        None => None,
    }
}
