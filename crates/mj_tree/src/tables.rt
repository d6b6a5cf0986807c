//! What is looked up and counted in a plain tree.
ghost use Rattle.std.specs.Prelude.{◌≡◌, ℕ, nat_le};
ghost use Rattle.std.specs.Option.{option_copied, option_map};
ghost use Rattle.mj_maps.specs.Map.{count, get};
ghost use Rattle.mj_tree.specs.State.{open_count, is_kept};
ghost use Rattle.mj_tree.specs.Sessions.{kept_of};
ghost use Rattle.mj_tree.specs.Lists.{session_of};
ghost use Rattle.mj_tree.specs.Meaning.{state_of};

use crate::lists;
use crate::plain::PlainTree;
use crate::request::NameList;
use crate::session::PlainSession;
use crate::view::TreeView;
use mj_base::{ClientId, Ino, InodeRecord, Name, Tid};
use std::alloc::{AllocError, Global};

impl TreeView for PlainTree {
    ghost tree = { state_of };

    fn next_ino(&self) -> Ino {
        self.next
    }

    fn record(&self, ino: Ino) -> Option<&InodeRecord> {
        lists::record_in(&self.records, ino)
    }

    fn link_at(&self, _alloc: Global, dir: Ino, name: &Name) -> Result<Option<Ino>, AllocError> {
        Ok(lists::link_in(&self.links, dir, name))
    }

    fn names_in(&self, alloc: Global, dir: Ino) -> Result<NameList, AllocError> {
        lists::names_in(alloc, &self.links, dir)
    }

    fn link_count(&self, ino: Ino) -> u64 {
        lists::links_to(&self.links, ino) as u64
    }

    fn entry_count(&self, dir: Ino) -> u64 {
        lists::links_from(&self.links, dir) as u64
    }

    fn inode_count(&self) -> u64 {
        self.records.len() as u64
    }

    fn session_count(&self) -> u64 {
        self.sessions.len() as u64
    }

    fn open_count(&self) -> u64 {
        self.opens.len() as u64
    }

    fn is_open(&self, client: ClientId, ino: Ino) -> bool {
        lists::open_in(&self.opens, client, ino).is_some()
    }

    fn has_opens(&self, client: ClientId) -> bool {
        lists::opens_from(&self.opens, client) > 0
    }

    fn session_oldest(&self, client: ClientId) -> Option<Tid> {
        match self.session(client) {
            Some(session) => Some(session.oldest),
            None => None,
        }
    }

    fn kept_reply(&self, client: ClientId, tid: Tid) -> Option<Ino> {
        match self.session(client) {
            Some(session) => lists::reply_in(&session.kept, tid),
            None => None,
        }
    }

    fn keeps_from(&self, client: ClientId, oldest: Tid, most: u64) -> bool {
        self.kept_from(client, oldest) as u64 >= most
    }
}

impl PlainTree {
    /// The session of a client.
    pub fn session(&self, client: ClientId) -> Option<&PlainSession>
        ensures { option_map session_of (option_copied result) ≡ get (state_of self.now).sessions client }
    {
        lists::session_in(&self.sessions, client)
    }

    // How many replies are kept for a client from a number on.
    fn kept_from(&self, client: ClientId, oldest: Tid) -> usize
        ensures { result ≡ count (λ (e : ℕ × ℕ). nat_le oldest e.0) (kept_of (state_of self.now) client) }
    {
        match self.session(client) {
            Some(session) => lists::kept_from(&session.kept, oldest),
            None => 0,
        }
    }

    /// Whether a link or an open names the inode.
    pub(crate) fn is_kept(&self, ino: Ino) -> bool
        ensures { result ≡ is_kept (state_of self.now) ino }
    {
        self.link_count(ino) > 0 || self.opens_to(ino) > 0
    }

    // How many clients have the inode open.
    fn opens_to(&self, ino: Ino) -> usize
        ensures { result ≡ open_count (state_of self.now) ino }
    {
        lists::opens_to(&self.opens, ino)
    }
}
