//! What a decision looks up in a tree, whatever holds it.

ghost use Rattle.std.specs.Prelude.{◌≡◌, ℕ, true, nat_le, nat_lt, IfOk};
ghost use Rattle.std.specs.Option.{option_copied, option_map};
ghost use Rattle.mj_maps.specs.Map.{count, get, len};
ghost use Rattle.mj_tree.specs.State.{PlainState, attributes_of, is_kind, is_dir, is_file, is_symlink, link_count, entry_count, opens_of};
ghost use Rattle.mj_tree.specs.Sessions.{oldest_of, kept_of};
ghost use Rattle.mj_tree.specs.Row.{is_open, names_in};
ghost use Rattle.mj_tree.specs.Answer.{kept_reply};

use crate::limits::ROOT;
use crate::request::NameList;
use mj_base::{ClientId, Ino, InodeRecord, Kind, Name, Tid};
use std::alloc::{AllocError, Global};

/// Look-ups in a tree. Nothing changes.
pub trait TreeView {
    /// The tree.
    ghost tree: { Self → PlainState };

    /// The inode that the next new file or directory gets.
    fn next_ino(&self) -> Ino
        ensures { result ≡ (tree self.now).next };

    /// The record of an inode, which the root has none of. Its field `links` is not spoken of.
    fn record(&self, ino: Ino) -> Option<&InodeRecord>
        ensures { option_map attributes_of (option_copied result) ≡ get (tree self.now).records ino };

    /// The inode that a name of a directory names.
    fn link_at(&self, alloc: Global, dir: Ino, name: &Name) -> Result<Option<Ino>, AllocError>
        requires dir { is_dir (tree self.now) dir ≡ true }
        ensures { IfOk result (λ found. found ≡ get (tree self.now).links (dir, name.now)) };

    /// The names of a directory, ascending by bytes.
    fn names_in(&self, alloc: Global, dir: Ino) -> Result<NameList, AllocError>
        requires dir { is_dir (tree self.now) dir ≡ true }
        ensures { IfOk result (λ names. names ≡ names_in (tree self.now) dir) };

    /// How many links an inode has.
    fn link_count(&self, ino: Ino) -> u64
        ensures { result ≡ link_count (tree self.now) ino };

    /// How many entries a directory has.
    fn entry_count(&self, dir: Ino) -> u64
        ensures { result ≡ entry_count (tree self.now) dir };

    /// How many records there are.
    fn inode_count(&self) -> u64
        ensures { result ≡ len (tree self.now).records };

    /// How many sessions there are.
    fn session_count(&self) -> u64
        ensures { result ≡ len (tree self.now).sessions };

    /// How many opens there are.
    fn open_count(&self) -> u64
        ensures { result ≡ len (tree self.now).opens };

    /// Whether a client has a file open.
    fn is_open(&self, client: ClientId, ino: Ino) -> bool
        ensures { result ≡ is_open (tree self.now) client ino };

    /// Whether a client has any file open.
    fn has_opens(&self, client: ClientId) -> bool
        ensures { result ≡ nat_lt 0 (opens_of (tree self.now) client) };

    /// The oldest number of a client's session, if it has one.
    fn session_oldest(&self, client: ClientId) -> Option<Tid>
        ensures { result ≡ oldest_of (get (tree self.now).sessions client) };

    /// The inode of the reply that is kept for a client and a number.
    fn kept_reply(&self, client: ClientId, tid: Tid) -> Option<Ino>
        ensures { result ≡ kept_reply (tree self.now) client tid };

    /// Whether `most` or more replies are kept for a client from a number on.
    fn keeps_from(&self, client: ClientId, oldest: Tid, most: u64) -> bool
        ensures { result ≡ nat_le most (count (λ (e : ℕ × ℕ). nat_le oldest e.0) (kept_of (tree self.now) client)) };
}

// Whether there is a record, of this kind.
fn has_kind(found: Option<&InodeRecord>, kind: Kind) -> bool
    ensures { result ≡ is_kind kind (option_map attributes_of (option_copied found.entry)) }
{
    match found {
        Some(inode) => inode.kind == kind,
        None => false,
    }
}

pub fn is_dir<V: TreeView>(view: &V, ino: Ino) -> bool
    ensures { result ≡ is_dir (V.tree view.now) ino }
{
    ino == ROOT || has_kind(view.record(ino), Kind::Dir)
}

pub fn is_file<V: TreeView>(view: &V, ino: Ino) -> bool
    ensures { result ≡ is_file (V.tree view.now) ino }
{
    has_kind(view.record(ino), Kind::File)
}

pub fn is_symlink<V: TreeView>(view: &V, ino: Ino) -> bool
    ensures { result ≡ is_symlink (V.tree view.now) ino }
{
    has_kind(view.record(ino), Kind::Symlink)
}
