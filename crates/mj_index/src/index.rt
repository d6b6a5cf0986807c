//! What is looked up in the early tree.

ghost use Rattle.std.specs.Prelude.{◌≡◌, OnOk};
ghost use Rattle.std.specs.Option.{option_copied};
ghost use Rattle.mj_maps.specs.Map.{count};
ghost use Rattle.mj_index.specs.Known.{known_at, keeps_entry};
ghost use Rattle.mj_index.specs.Indexed.{place_key, entries_known};
ghost use Rattle.mj_index.specs.Following.{dentry_out, full_out, open_out, session_out, taken, dentry_in, record_in, open_in, session_in, put_in, all_dirs_set, with_dir, no_index, SameIndex, HasRoomAt, HasRoomFor, RoomStays};

use crate::known::KnownInodes;
use crate::said::{any_full_inode, dentry_dir, full_inode, full_said, is_session, open_inode};
use mj_base::{Ino, InodeRecord, RankNo};
use mj_cells::{CellKey, CellValue};
use std::alloc::{AllocError, Global};

/// How many records, sessions and opens the early tree has.
#[derive(Clone, Copy, Debug, PartialEq, Eq)]
pub struct Sums {
    pub inodes: u64,
    pub sessions: u64,
    pub opens: u64,
}

/// What is known of each inode, and how many dentries, reachable or not, sessions and opens there are in all.
#[derive(Drop)]
pub struct Index {
    pub known: KnownInodes,
    pub dentries: u64,
    pub sessions: u64,
    pub opens: u64,
}

impl Index {
    /// The index of no cells.
    pub fn new(alloc: Global) -> Index
        ensures { result ≡ no_index }
    {
        Index {
            known: KnownInodes::new(alloc),
            dentries: 0,
            sessions: 0,
            opens: 0,
        }
    }

    /// The key of an inode's full dentry.
    pub fn primary_of(&self, ino: Ino) -> Option<&CellKey>
        ensures { option_copied result ≡ place_key (known_at self.now.known ino).full }
    {
        match self.known.get(ino) {
            Some(known) => {
                match &known.full {
                    Some(place) => Some(&place.key),
                    None => None,
                }
            }
            None => None,
        }
    }

    /// How many entries a directory has, where it is reachable.
    pub fn entries_of(&self, dir: Ino) -> u64
        ensures { result ≡ entries_known (known_at self.now.known dir) }
    {
        match self.known.get(dir) {
            Some(known) if known.is_dir => known.dentries,
            _ => 0,
        }
    }

    /// How many clients have an inode open.
    pub fn opens_of(&self, ino: Ino) -> u64
        ensures { result ≡ (known_at self.now.known ino).opens }
    {
        match self.known.get(ino) {
            Some(known) => known.opens,
            None => 0,
        }
    }

    /// How much there is.
    pub fn sums(&self) -> Sums
        ensures inodes { result.inodes ≡ count keeps_entry self.now.known }
        ensures sessions { result.sessions ≡ self.now.sessions }
        ensures opens { result.opens ≡ self.now.opens }
    {
        Sums {
            inodes: self.known.kept(),
            sessions: self.sessions,
            opens: self.opens,
        }
    }

    fn take_dentry(&mut self, dir: Option<Ino>)
        ensures { self.new ≡ dentry_out dir self.old }
    {
        if let Some(dir) = dir {
            self.known.less_dentry(dir);
            self.dentries = self.dentries.saturating_sub(1);
        }
    }

    fn take_full(&mut self, key: &CellKey, ino: Option<Ino>)
        ensures { self.new ≡ full_out key.now ino self.old }
    {
        if let Some(ino) = ino {
            self.known.less_full(ino, key);
        }
    }

    fn take_open(&mut self, ino: Option<Ino>)
        ensures { self.new ≡ open_out ino self.old }
    {
        if let Some(ino) = ino {
            self.known.less_open(ino);
            self.opens = self.opens.saturating_sub(1);
        }
    }

    fn take_session(&mut self, is_session: bool)
        ensures { self.new ≡ session_out is_session self.old }
    {
        if is_session {
            self.sessions = self.sessions.saturating_sub(1);
        }
    }

    /// Takes out what a cell says.
    pub fn take_cell(&mut self, rank: RankNo, key: &CellKey, value: &CellValue)
        ensures { self.new ≡ taken rank (key.now, value.now) self.old }
    {
        let full = full_inode(rank, &self.known, key, value);
        self.take_dentry(dentry_dir(key, value));
        self.take_full(key, full);
        self.take_open(open_inode(key, value));
        self.take_session(is_session(key, value));
    }

    fn put_dentry(&mut self, dir: Option<Ino>)
        ensures { self.new ≡ dentry_in dir self.old }
    {
        if let Some(dir) = dir {
            self.known.more_dentry(dir);
            self.dentries = self.dentries.saturating_add(1);
        }
    }

    fn put_full(&mut self, key: CellKey, inode: Option<&InodeRecord>)
        ensures { self.new ≡ record_in key (option_copied inode.entry) self.old }
    {
        if let Some(inode) = inode {
            self.known.more_full(inode.ino, key, inode.links);
        }
    }

    fn put_open(&mut self, ino: Option<Ino>)
        ensures { self.new ≡ open_in ino self.old }
    {
        if let Some(ino) = ino {
            self.known.more_open(ino);
            self.opens = self.opens.saturating_add(1);
        }
    }

    fn put_session(&mut self, is_session: bool)
        ensures { self.new ≡ session_in is_session self.old }
    {
        if is_session {
            self.sessions = self.sessions.saturating_add(1);
        }
    }

    /// Puts in what a cell says, where its inodes have room.
    pub fn put_cell(&mut self, rank: RankNo, key: CellKey, value: &CellValue)
        ensures { self.new ≡ put_in rank (key, value.now) self.old }
    {
        let full = full_said(rank, &self.known, &key, value);
        let open = open_inode(&key, value);
        let is_session = is_session(&key, value);
        self.put_dentry(dentry_dir(&key, value));
        self.put_full(key, full);
        self.put_open(open);
        self.put_session(is_session);
    }

    fn make_room_at(&mut self, ino: Option<Ino>) -> Result<(), AllocError>
        ensures same { SameIndex self.old self.new }
        ensures stays { RoomStays self.old.known self.new.known }
        ensures room { OnOk result (HasRoomAt self.new.known ino) }
    {
        if let Some(ino) = ino {
            self.known.make_room(ino)?;
        }
        Ok(())
    }

    /// Makes room for what a cell says.
    pub fn make_room_for(&mut self, key: &CellKey, value: &CellValue) -> Result<(), AllocError>
        ensures same { SameIndex self.old self.new }
        ensures stays { RoomStays self.old.known self.new.known }
        ensures room { OnOk result (HasRoomFor self.new.known (key.now, value.now)) }
    {
        self.make_room_at(dentry_dir(key, value))?;
        self.make_room_at(any_full_inode(key, value))?;
        self.make_room_at(open_inode(key, value))?;
        Ok(())
    }

    fn drop_room_at(&mut self, ino: Option<Ino>)
        ensures { SameIndex self.old self.new }
    {
        if let Some(ino) = ino {
            self.known.drop_room(ino);
        }
    }

    /// Gives up the room of a cell's inodes of which nothing is known.
    pub fn drop_room_for(&mut self, key: &CellKey, value: &CellValue)
        ensures { SameIndex self.old self.new }
    {
        self.drop_room_at(dentry_dir(key, value));
        self.drop_room_at(any_full_inode(key, value));
        self.drop_room_at(open_inode(key, value));
    }

    /// One reachable directory more, with its room.
    pub fn add_dir(&mut self, dir: Ino) -> Result<(), AllocError>
        ensures { OnOk result (self.new ≡ with_dir dir self.old) }
    {
        self.known.make_room(dir)?;
        self.known.set_dir(dir, true);
        Ok(())
    }

    /// These are reachable directories, or none is one.
    pub fn set_dirs(&mut self, dirs: &[Ino], is_dir: bool)
        ensures { self.new ≡ all_dirs_set is_dir dirs.now self.old }
    {
        for dir in dirs {
            self.known.set_dir(*dir, is_dir);
        }
    }
}
