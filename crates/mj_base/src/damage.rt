//! What is wrong with an image.

ghost use Rattle.std.specs.Prelude.{◌≡◌, IfOk};

use crate::list::Items;
use crate::numbers::{ClientId, Ino};
use crate::object::ObjectName;
use std::alloc::{AllocError, Global};

/// Why a journal and its directory objects cannot be mounted: the first fault that a mount finds.
/// Positions are of the journal's stream, and offsets of one header or event.
#[derive(Debug, Drop)]
pub enum Damage {
    /// What the image holds is not served yet.
    Unbuilt,
    /// The journal has no object 0.
    HeaderMissing,
    /// The first byte that no header can have at this offset, or the length where it is another than a header's.
    HeaderBad(u64),
    /// The header's positions are not period <= trimmed <= expire <= write < 2^62.
    HeaderOrder,
    /// The journal is in the older format.
    Legacy,
    /// The stream ends at this position, below the header's write position.
    Hole(u64),
    /// No entry begins at this position.
    BadSentinel(u64),
    /// The entry at this position has this length of payload, which none has.
    BadLength(u64, u32),
    /// The entry at this position names another as its start.
    BadStart(u64, u64),
    /// The entry at this position, below the header's write position, is cut.
    CutEntry(u64),
    /// The event at this position has a wrong field at this offset of its payload.
    BadEvent(u64, u64),
    /// The first live event, at this position, is neither a subtree map nor a reset.
    NoSubtreeMap(u64),
    /// The table is not one, or the inode table is missing.
    TableBad(ObjectName),
    /// The directory's object has a wrong value under this key, or a wrong head where the key is empty.
    DirfragBad(Ino, Items<u8>),
    /// The directory has no head.
    DirfragMissing(Ino),
    /// Two full dentries carry the inode, or one carries the root's.
    TwoPrimaries(Ino),
    /// A remote dentry has no full dentry of this inode and its kind.
    NoPrimary(Ino),
    /// The inode's stored link count is not the number of its links.
    BadLinks(Ino),
    /// The inode is outside the numbers that were given, or stands in stray under another name than its own;
    /// or it is the next number to give, and too low.
    BadNext(Ino),
    /// The open has no session or no file.
    BadOpen(ClientId, Ino),
    /// The client's kept replies have no session, are below its oldest, or are more than 64.
    BadSession(ClientId),
    /// There are this many entries, inodes, sessions or opens, more than are allowed.
    OverLimit(u64),
}

impl Damage {
    /// The same damage again.
    pub fn copy(&self, alloc: Global) -> Result<Damage, AllocError>
        ensures { IfOk result (λ damage. damage ≡ self.now) }
    {
        Ok(match self {
            Damage::Unbuilt => Damage::Unbuilt,
            Damage::HeaderMissing => Damage::HeaderMissing,
            Damage::HeaderBad(at) => Damage::HeaderBad(*at),
            Damage::HeaderOrder => Damage::HeaderOrder,
            Damage::Legacy => Damage::Legacy,
            Damage::Hole(at) => Damage::Hole(*at),
            Damage::BadSentinel(at) => Damage::BadSentinel(*at),
            Damage::BadLength(at, len) => Damage::BadLength(*at, *len),
            Damage::BadStart(at, found) => Damage::BadStart(*at, *found),
            Damage::CutEntry(at) => Damage::CutEntry(*at),
            Damage::BadEvent(at, offset) => Damage::BadEvent(*at, *offset),
            Damage::NoSubtreeMap(at) => Damage::NoSubtreeMap(*at),
            Damage::TableBad(name) => Damage::TableBad(*name),
            Damage::DirfragBad(ino, key) => Damage::DirfragBad(*ino, key.copy(alloc)?),
            Damage::DirfragMissing(ino) => Damage::DirfragMissing(*ino),
            Damage::TwoPrimaries(ino) => Damage::TwoPrimaries(*ino),
            Damage::NoPrimary(ino) => Damage::NoPrimary(*ino),
            Damage::BadLinks(ino) => Damage::BadLinks(*ino),
            Damage::BadNext(ino) => Damage::BadNext(*ino),
            Damage::BadOpen(client, ino) => Damage::BadOpen(*client, *ino),
            Damage::BadSession(client) => Damage::BadSession(*client),
            Damage::OverLimit(n) => Damage::OverLimit(*n),
        })
    }
}
