//! The plain tree: four lists and a number.

ghost use Rattle.std.specs.Prelude.{IsTrue};
ghost use Rattle.mj_tree.specs.Lists.{do_records_rise, do_links_rise, do_opens_rise, do_sessions_rise};

use crate::session::PlainSession;
use mj_base::{ClientId, Ino, InodeRecord, Items, Name};

/// A name of an inode in a directory.
#[derive(Drop)]
pub struct PlainLink {
    pub parent: Ino,
    pub name: Name,
    pub ino: Ino,
}

/// A file that a client has open.
#[derive(Clone, Copy)]
pub struct PlainOpen {
    pub client: ClientId,
    pub ino: Ino,
}

/// The tree by lists alone, each ascending by its keys: records by inode, links by directory and name, opens by
/// client and inode, sessions by client. The root's record is fixed and is not in the list. The field `links` of a
/// record is 0 and is not part of its meaning.
#[derive(Drop)]
pub struct PlainTree {
    /// The inode that the next new file or directory gets.
    pub next: Ino,
    pub records: Items<InodeRecord>,
    pub links: Items<PlainLink>,
    pub opens: Items<PlainOpen>,
    pub sessions: Items<PlainSession>,
    pub ghost records_rise: { IsTrue (do_records_rise records) },
    pub ghost links_rise: { IsTrue (do_links_rise links) },
    pub ghost opens_rise: { IsTrue (do_opens_rise opens) },
    pub ghost sessions_rise: { IsTrue (do_sessions_rise sessions) },
}
