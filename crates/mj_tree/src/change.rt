//! What a request is decided to do to the tree.

use crate::request::Reply;
use mj_base::{ClientId, Ino, Kind, Name, Target};

/// What a record says of its inode, but for the inode's number and its links.
#[derive(Drop)]
pub struct Attributes {
    pub kind: Kind,
    pub mode: u16,
    pub uid: u32,
    pub gid: u32,
    /// In bytes.
    pub size: u64,
    pub mtime: u64,
    /// Empty but for a symlink.
    pub target: Target,
}

/// The attributes that a client may set.
#[derive(Clone, Copy)]
pub struct Settings {
    pub mode: u16,
    pub uid: u32,
    pub gid: u32,
    /// In bytes.
    pub size: u64,
    pub mtime: u64,
}

/// What an accepted request does to the tree, beside its kept reply. A place is a directory and a name in it.
#[derive(Drop)]
pub enum Change {
    /// Nothing: a name is renamed to another name of its inode.
    Nothing,
    /// The next inode begins with a link.
    Begin {
        place: (Ino, Name),
        attributes: Attributes,
    },
    /// An inode gets one more link.
    Link {
        place: (Ino, Name),
        ino: Ino,
    },
    /// A link goes.
    Unlink {
        place: (Ino, Name),
        ino: Ino,
    },
    /// A link moves to a free place.
    Move {
        from: (Ino, Name),
        to: (Ino, Name),
        ino: Ino,
    },
    /// A link moves to the place of the link of another inode, which goes.
    Replace {
        from: (Ino, Name),
        to: (Ino, Name),
        ino: Ino,
        other: Ino,
    },
    /// Attributes are set.
    Set {
        ino: Ino,
        settings: Settings,
    },
    /// A client has the file open.
    Hold {
        client: ClientId,
        ino: Ino,
    },
    /// A client lets the file go.
    Release {
        client: ClientId,
        ino: Ino,
    },
}

/// What a request comes to.
#[derive(Drop)]
pub enum Decision {
    /// It is answered, and nothing changes.
    Answered(Reply),
    /// The client's session begins.
    SessionBegins,
    /// The client's session ends, with its kept replies.
    SessionEnds,
    /// It is done on this inode: the tree changes, and the reply is kept.
    Accepted { ino: Ino, change: Change },
}
