//! Requests of clients and their replies.

use mj_base::{ClientId, Ino, InodeRecord, Items, Name, Path, Target, Tid};

/// What a client asks, under a number of its own.
#[derive(Drop)]
pub struct ClientRequest {
    pub client: ClientId,
    /// The number of the request, from which its client knows the reply again.
    pub tid: Tid,
    /// The least number whose reply the client may still ask for.
    pub oldest: Tid,
    /// The client's time, which new inodes get.
    pub now: u64,
    pub op: Op,
}

/// The operations. A mode is at most octal 7777, and the target of a symlink has 1 to 4,095 bytes, none of them 0.
#[derive(Drop)]
pub enum Op {
    SessionOpen,
    SessionClose,
    Mkdir {
        path: Path,
        mode: u16,
    },
    Create {
        path: Path,
        mode: u16,
    },
    Symlink {
        path: Path,
        target: Target,
    },
    Link {
        from: Path,
        to: Path,
    },
    Unlink {
        path: Path,
    },
    Rmdir {
        path: Path,
    },
    Rename {
        from: Path,
        to: Path,
    },
    SetAttr {
        path: Path,
        mode: u16,
        uid: u32,
        gid: u32,
        size: u64,
        mtime: u64,
    },
    OpenFile {
        path: Path,
    },
    Release {
        ino: Ino,
    },
    Lookup {
        path: Path,
    },
    Readdir {
        path: Path,
    },
    Readlink {
        path: Path,
    },
}

/// The names of a directory, ascending by bytes.
pub type NameList = Items<Name>;

/// What a request is answered. An error is a number of Linux's `errno`.
#[derive(Drop)]
pub enum Reply {
    Done { ino: Ino },
    Error(u16),
    Found(InodeRecord),
    Names(NameList),
    Link(Target),
}
