//! The root, and how much a tree may have.

use mj_base::Ino;

/// The inode of the root.
pub const ROOT: Ino = Ino(1);

/// In one directory.
pub const MOST_ENTRIES: u64 = 100_000;

/// In one tree, the root aside.
pub const MOST_INODES: u64 = 1_048_576;

/// To one inode.
pub const MOST_LINKS: u64 = 1_024;

/// In one tree.
pub const MOST_OPENS: u64 = 65_536;

/// In one tree.
pub const MOST_SESSIONS: u64 = 4_096;

/// Replies that are kept in one session.
pub const MOST_KEPT: u64 = 64;
