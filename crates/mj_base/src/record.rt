//! Inodes and their records.

ghost use Rattle.std.specs.Prelude.{◌≡◌, ◌==◌, ℕ, List, [], IfOk, IfErr, None, position};

use crate::limits::MAX_TARGET;
use crate::numbers::Ino;
use std::alloc::{AllocError, Global};
use std::marker::Model;

#[derive(Clone, Copy, Debug, PartialEq, Eq)]
pub enum Kind {
    Dir,
    File,
    Symlink,
}

impl Kind {
    ghost use Rattle.mj_base.specs.Record.{kind_code};

    /// The number that stands for the kind in bytes.
    pub fn code(self) -> u8
        ensures { result ≡ kind_code self }
    {
        match self {
            Kind::Dir => 1,
            Kind::File => 2,
            Kind::Symlink => 3,
        }
    }
}

/// What a symlink points to: any bytes. A symlink's own has 1 to 4,095 bytes, none of them 0, and
/// the record of a directory or a file has an empty one.
#[derive(Debug, Drop)]
pub struct Target {
    bytes: Vec<u8>,
}

impl Model for Target {
    ghost Value = { List ℕ };

    ghost view = { λ a. a.bytes.items };
}

/// Why bytes are no symlink's target.
#[derive(Clone, Copy, Debug, PartialEq, Eq)]
pub enum TargetRefusal {
    /// There is no byte.
    Empty,
    /// There are this many bytes, more than 4,095.
    TooLong(u64),
    /// The first byte that is 0 is here.
    BadByte(u64),
    /// There was no memory.
    Memory,
}

impl From<AllocError> for TargetRefusal {
    ghost use Rattle.std.specs.Prelude.{◌≡◌};
    ghost use Rattle.mj_base.specs.declared.record.TargetRefusal.TheVariants.{Memory};

    ghost from_gives = { λ _ e. e ≡ Memory };

    fn from(_e: AllocError) -> TargetRefusal {
        TargetRefusal::Memory
    }
}

impl Target {
    ghost use Rattle.mj_base.specs.Target.{target_refusal, IsTargetRefusal};

    /// The symlink's target of these bytes. The refusals come in their order.
    pub fn read(alloc: Global, bytes: &[u8]) -> Result<Target, TargetRefusal>
        ensures target { IfOk result (λ target. target ≡ bytes.now) }
        ensures accepted { IfOk result (λ _. target_refusal bytes.now ≡ None) }
        ensures refused { IfErr result (λ why. IsTargetRefusal why bytes.now) }
    {
        if bytes.is_empty() {
            return Err(TargetRefusal::Empty);
        }
        if bytes.len() > MAX_TARGET {
            return Err(TargetRefusal::TooLong(bytes.len() as u64));
        }
        if let Some(at) = Self::zero(bytes) {
            return Err(TargetRefusal::BadByte(at as u64));
        }
        Ok(Target::of(alloc, bytes)?)
    }

    fn zero(bytes: &[u8]) -> Option<usize>
        ensures { result ≡ position (λ b. b == 0) bytes.now }
    {
        bytes.iter().position(|b| *b == 0)
    }

    /// The target of these bytes, whichever they are.
    pub fn of(alloc: Global, bytes: &[u8]) -> Result<Target, AllocError>
        ensures { IfOk result (λ target. target ≡ bytes.now) }
    {
        Ok(Target {
            bytes: Vec::from_slice(alloc, bytes)?,
        })
    }

    /// The target of what is no symlink.
    pub fn empty(alloc: Global) -> Target
        ensures { result ≡ [] }
    {
        Target {
            bytes: Vec::new(alloc),
        }
    }

    /// The same target again.
    pub fn copy(&self, alloc: Global) -> Result<Target, AllocError>
        ensures { IfOk result (λ target. target ≡ self.now) }
    {
        Target::of(alloc, &self.bytes)
    }

    /// The bytes of the target.
    pub fn as_slice(&self) -> &[u8]
        ensures { result.now ≡ self.now }
    {
        &self.bytes
    }
}

/// An inode: its number, what it is, who owns it, and where a symlink points to. Sizes are in bytes,
/// the mode is at most octal 7777, and `mtime` is a plain number of the caller.
#[derive(Debug, Drop)]
pub struct InodeRecord {
    pub ino: Ino,
    pub kind: Kind,
    pub mode: u16,
    pub uid: u32,
    pub gid: u32,
    pub size: u64,
    pub mtime: u64,
    pub links: u32,
    pub target: Target,
}

impl InodeRecord {
    /// The same record again.
    pub fn copy(&self, alloc: Global) -> Result<InodeRecord, AllocError>
        ensures { IfOk result (λ same. same ≡ self.now) }
    {
        Ok(InodeRecord {
            ino: self.ino,
            kind: self.kind,
            mode: self.mode,
            uid: self.uid,
            gid: self.gid,
            size: self.size,
            mtime: self.mtime,
            links: self.links,
            target: self.target.copy(alloc)?,
        })
    }
}
