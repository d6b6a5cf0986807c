//! Cells: their keys, their values, and a write of one.

ghost use Rattle.std.specs.Prelude.{◌≡◌, IfOk};

use mj_base::{ClientId, Ino, InodeRecord, Kind, Name, Tid};
use std::alloc::{AllocError, Global};

/// The key of a cell. Keys go by the variants as listed here, and then by their fields, names by bytes.
#[derive(Debug, Drop, PartialEq, Eq, PartialOrd, Ord, Hash)]
pub enum CellKey {
    /// A name in a directory.
    Dentry(Ino, Name),
    /// The head of a directory.
    DirHead(Ino),
    /// The next inode that the rank gives.
    NextIno,
    /// A client's session.
    Session(ClientId),
    /// The kept reply of a client's request.
    Done(ClientId, Tid),
    /// A file that a client holds open.
    OpenOf(ClientId, Ino),
}

/// What a cell holds.
#[derive(Debug, Drop)]
pub enum CellValue {
    /// A dentry with its inode's record, by version.
    Full(u64, InodeRecord),
    /// A dentry that names an inode whose record is elsewhere, by version, with the inode's kind.
    Remote(u64, Ino, Kind),
    /// A dentry that is not there, by version.
    Null(u64),
    /// The version of a head, the next inode, a session's oldest tid, or the inode of a kept reply.
    Number(u64),
    /// An open file.
    Present,
    Gone,
}

/// A write of a cell.
#[derive(Debug, Drop)]
pub struct CellWrite {
    pub key: CellKey,
    pub value: CellValue,
}

impl CellKey {
    /// The same key again.
    pub fn copy(&self, alloc: Global) -> Result<CellKey, AllocError>
        ensures { IfOk result (λ same. same ≡ self.now) }
    {
        match self {
            CellKey::Dentry(dir, name) => Ok(CellKey::Dentry(*dir, name.copy(alloc)?)),
            CellKey::DirHead(dir) => Ok(CellKey::DirHead(*dir)),
            CellKey::NextIno => Ok(CellKey::NextIno),
            CellKey::Session(client) => Ok(CellKey::Session(*client)),
            CellKey::Done(client, tid) => Ok(CellKey::Done(*client, *tid)),
            CellKey::OpenOf(client, ino) => Ok(CellKey::OpenOf(*client, *ino)),
        }
    }
}

impl CellValue {
    /// The same value again.
    pub fn copy(&self, alloc: Global) -> Result<CellValue, AllocError>
        ensures { IfOk result (λ same. same ≡ self.now) }
    {
        match self {
            CellValue::Full(version, inode) => Ok(CellValue::Full(*version, inode.copy(alloc)?)),
            CellValue::Remote(version, ino, kind) => Ok(CellValue::Remote(*version, *ino, *kind)),
            CellValue::Null(version) => Ok(CellValue::Null(*version)),
            CellValue::Number(n) => Ok(CellValue::Number(*n)),
            CellValue::Present => Ok(CellValue::Present),
            CellValue::Gone => Ok(CellValue::Gone),
        }
    }
}
