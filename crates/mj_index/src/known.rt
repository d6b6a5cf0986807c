//! What is known of inodes.

ghost use Rattle.std.specs.Prelude.{◌≡◌, true, ◌+◌, ◌-◌, ◌^◌, ◌<◌, OnOk, OnErr, if◌then◌else◌};
ghost use Rattle.std.specs.Option.{option_copied};
ghost use Rattle.std.specs.Fn.{FnOnceReturnsAtMut};
ghost use Rattle.mj_maps.specs.Map.{get, count, empty};
ghost use Rattle.mj_cells.specs.Cell.{same_key};
ghost use Rattle.mj_index.specs.Known.{SameKnown, nothing, known_at, keeps, keeps_entry, is_dir_at, AltersBy, with_room, altered, less_dentry, more_dentry, less_open, more_open, as_dir, without_full, with_full, unless_at, is_nothing};

use mj_base::Ino;
use mj_cells::{CellKey, compare};
use std::alloc::{AllocError, Global};
use std::cmp::Ordering;
use std::collections::HashMap;
use std::marker::Model;

/// Where the full dentry of an inode stands, and how many links its record counts.
#[derive(Drop)]
pub struct FullPlace {
    pub key: CellKey,
    pub links: u32,
}

/// What is known of an inode: its full dentry in a reachable directory or in stray; whether it is a reachable directory; how many
/// dentries the table has in it, reachable or not; and how many clients have it open.
#[derive(Drop)]
pub struct Known {
    pub full: Option<FullPlace>,
    pub is_dir: bool,
    pub dentries: u64,
    pub opens: u64,
}

impl Known {
    fn nothing() -> Known
        ensures { result ≡ nothing }
    {
        Known {
            full: None,
            is_dir: false,
            dentries: 0,
            opens: 0,
        }
    }

    // Whether it has a full dentry, and a link or an open keeps it.
    fn keeps(&self) -> bool
        ensures { result ≡ keeps self.now }
    {
        match &self.full {
            Some(place) => place.links > 0 || self.opens > 0,
            None => false,
        }
    }

    fn is_nothing(&self) -> bool
        ensures { result ≡ is_nothing self.now }
    {
        self.full.is_none() && !self.is_dir && self.dentries == 0 && self.opens == 0
    }
}

fn unless_at(full: Option<FullPlace>, key: &CellKey) -> Option<FullPlace>
    ensures { result ≡ unless_at key.now full }
{
    match full {
        Some(place) => {
            if is_same(key, &place.key) {
                None
            } else {
                Some(place)
            }
        }
        None => None,
    }
}

/// Whether the keys are the same.
pub fn is_same(key: &CellKey, other: &CellKey) -> bool
    ensures { result ≡ same_key key.now other.now }
{
    match compare(key, other) {
        Ordering::Equal => true,
        _ => false,
    }
}

/// What is known of each inode, and of how many inodes the records are kept. An inode without an entry is one of which nothing is
/// known, and so is an entry that only makes room.
#[derive(Drop)]
pub struct KnownInodes {
    by_inode: HashMap<u64, Known>,
    kept: u64,
}

impl Model for KnownInodes {
    ghost use Rattle.std.specs.Prelude.{◌≡◌, ℕ};
    ghost use Rattle.std.specs.Coded.{coded_ℕ};
    ghost use Rattle.mj_maps.specs.Map.{Map, code, count, from_entries};
    ghost use Rattle.mj_maps.specs.Orders.{nat_cmp};
    ghost use Rattle.mj_index.specs.Known.{Inodes, keeps_entry};
    ghost use Rattle.mj_index.specs.contracts.known.Known as known_row;

    ghost Value = { Inodes };

    ghost coded = { code coded_ℕ (known_row.the_row).coded };

    ghost view = { λ a. from_entries a.by_inode.entries };

    ghost invariant = { λ a. a.kept ≡ count keeps_entry (from_entries {R = nat_cmp} a.by_inode.entries) };
}

impl KnownInodes {
    /// Nothing of any.
    pub fn new(alloc: Global) -> KnownInodes
        ensures { result ≡ empty }
    {
        KnownInodes {
            by_inode: HashMap::new(alloc),
            kept: 0,
        }
    }

    /// What is known of an inode.
    pub fn get(&self, ino: Ino) -> Option<&Known>
        ensures { option_copied result ≡ get self.now ino }
    {
        self.by_inode.get(&ino.0)
    }

    /// Whether an inode is a reachable directory.
    pub fn is_dir(&self, ino: Ino) -> bool
        ensures { result ≡ is_dir_at self.now ino }
    {
        match self.get(ino) {
            Some(known) => known.is_dir,
            None => false,
        }
    }

    /// How many dentries the table has in a directory, reachable or not.
    pub fn dentries_in(&self, dir: Ino) -> u64
        ensures { result ≡ (known_at self.now dir).dentries }
    {
        match self.get(dir) {
            Some(known) => known.dentries,
            None => 0,
        }
    }

    /// At most how many inodes something is known of.
    pub fn len(&self) -> usize {
        self.by_inode.len()
    }

    /// Of how many inodes the records are kept.
    pub fn kept(&self) -> u64
        ensures { result ≡ count keeps_entry self.now }
    {
        self.kept
    }

    /// Makes room for an inode. What is known stays.
    pub fn make_room(&mut self, ino: Ino) -> Result<(), AllocError>
        ensures ok { OnOk result (self.new ≡ with_room self.old ino) }
        ensures err { OnErr result (self.new ≡ self.old) }
    {
        if !self.by_inode.contains_key(&ino.0) {
            drop(self.by_inode.insert(ino.0, Known::nothing())?);
        }
        Ok(())
    }

    // Changes what is known of an inode with room.
    fn alter<F: FnOnce(&mut Known)>(&mut self, ino: Ino, change: F)
        requires { F.IsAlwaysCallable change }
        ensures { AltersBy (λ k l. FnOnceReturnsAtMut F.FnOnce change k tt l) self.old ino self.new }
    {
        // The length bounds how many are kept.
        let _ = self.by_inode.len();
        if let Some(known) = self.by_inode.get_mut(&ino.0) {
            let before = known.keeps();
            change(known);
            self.kept = counted(self.kept, before, known.keeps());
        }
    }

    /// One dentry less in a directory.
    pub fn less_dentry(&mut self, dir: Ino)
        ensures { self.new ≡ altered self.old dir less_dentry }
    {
        self.alter(
            dir,
            |known| known.dentries = known.dentries.saturating_sub(1),
        );
    }

    /// One dentry more in a directory that has room.
    pub fn more_dentry(&mut self, dir: Ino)
        ensures { self.new ≡ altered self.old dir more_dentry }
    {
        self.alter(
            dir,
            |known| known.dentries = known.dentries.saturating_add(1),
        );
    }

    /// One client less has an inode open.
    pub fn less_open(&mut self, ino: Ino)
        ensures { self.new ≡ altered self.old ino less_open }
    {
        self.alter(ino, |known| known.opens = known.opens.saturating_sub(1));
    }

    /// One client more has an inode open that has room.
    pub fn more_open(&mut self, ino: Ino)
        ensures { self.new ≡ altered self.old ino more_open }
    {
        self.alter(ino, |known| known.opens = known.opens.saturating_add(1));
    }

    /// The full dentry of an inode, where it is at this key, is gone.
    pub fn less_full(&mut self, ino: Ino, key: &CellKey)
        ensures { self.new ≡ altered self.old ino (without_full key.now) }
    {
        self.alter(ino, |known| known.full = unless_at(known.full.take(), key));
    }

    /// The full dentry of an inode that has room is at this key.
    pub fn more_full(&mut self, ino: Ino, key: CellKey, links: u32)
        ensures { self.new ≡ altered self.old ino (with_full key links) }
    {
        self.alter(ino, |known| known.full = Some(FullPlace { key, links }));
    }

    /// An inode that has room is a reachable directory, or is none.
    pub fn set_dir(&mut self, ino: Ino, is_dir: bool)
        ensures { self.new ≡ altered self.old ino (as_dir is_dir) }
    {
        self.alter(ino, |known| known.is_dir = is_dir);
    }

    // Whether an entry only makes room.
    fn is_room(&self, ino: Ino) -> bool
        ensures { result ≡ true → known_at self.now ino ≡ nothing }
    {
        match self.get(ino) {
            Some(known) => known.is_nothing(),
            None => false,
        }
    }

    /// Gives up the room of an inode of which nothing is known.
    pub fn drop_room(&mut self, ino: Ino)
        ensures { SameKnown self.old self.new }
    {
        if self.is_room(ino) {
            drop(self.by_inode.remove(&ino.0));
        }
    }
}

// A count that one leaves, or that one joins.
fn counted(count: u64, leaves: bool, joins: bool) -> u64
    requires { count + 1 < 2 ^ 64 }
    ensures { result ≡ (count - (if leaves then 1 else 0)) + (if joins then 1 else 0) }
{
    let left = if leaves {
        count.saturating_sub(1)
    } else {
        count
    };
    if joins { left + 1 } else { left }
}
