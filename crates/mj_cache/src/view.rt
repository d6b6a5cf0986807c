//! What a decision looks up in a cache's early tree, each in O(log n) but for what goes over keys.

ghost use Rattle.mj_cache.specs.Cached.{early_tree};

use crate::cache::Cache;
use crate::over_keys::{has_opens, keeps_from, names_in};
use crate::reads::{dentry_at, full_record, is_present, number, record};
use crate::tree::has_tree;
use mj_base::{ClientId, Ino, InodeRecord, Name, Tid};
use mj_cells::{CellKey, CellValue};
use mj_tree::{NameList, TreeView};
use std::alloc::{AllocError, Global};

impl TreeView for Cache {
    ghost tree = { early_tree };

    fn next_ino(&self) -> Ino {
        has_tree(self);
        match number(self, &CellKey::NextIno) {
            Some(next) => Ino(next),
            None => Ino(0),
        }
    }

    fn record(&self, ino: Ino) -> Option<&InodeRecord> {
        record(self, ino)
    }

    fn link_at(&self, alloc: Global, dir: Ino, name: &Name) -> Result<Option<Ino>, AllocError> {
        has_tree(self);
        match dentry_at(alloc, self, dir, name)? {
            Some(CellValue::Full(_, inode)) => Ok(Some(inode.ino)),
            Some(CellValue::Remote(_, ino, _)) => Ok(Some(*ino)),
            _ => Ok(None),
        }
    }

    fn names_in(&self, alloc: Global, dir: Ino) -> Result<NameList, AllocError> {
        has_tree(self);
        names_in(alloc, self, dir)
    }

    fn link_count(&self, ino: Ino) -> u64 {
        has_tree(self);
        match full_record(self, ino) {
            Some(inode) => u64::from(inode.links),
            None => 0,
        }
    }

    fn entry_count(&self, dir: Ino) -> u64 {
        self.entries_of(dir)
    }

    fn inode_count(&self) -> u64 {
        self.sums().inodes
    }

    fn session_count(&self) -> u64 {
        self.sums().sessions
    }

    fn open_count(&self) -> u64 {
        self.sums().opens
    }

    fn is_open(&self, client: ClientId, ino: Ino) -> bool {
        let key = CellKey::OpenOf(client, ino);
        match self.early(&key) {
            Some(value) => is_present(value),
            None => false,
        }
    }

    fn has_opens(&self, client: ClientId) -> bool {
        has_tree(self);
        has_opens(self, client)
    }

    fn session_oldest(&self, client: ClientId) -> Option<Tid> {
        has_tree(self);
        match number(self, &CellKey::Session(client)) {
            Some(oldest) => Some(Tid(oldest)),
            None => None,
        }
    }

    fn kept_reply(&self, client: ClientId, tid: Tid) -> Option<Ino> {
        has_tree(self);
        match number(self, &CellKey::Done(client, tid)) {
            Some(ino) => Some(Ino(ino)),
            None => None,
        }
    }

    fn keeps_from(&self, client: ClientId, oldest: Tid, most: u64) -> bool {
        has_tree(self);
        keeps_from(self, client, oldest, most)
    }
}
