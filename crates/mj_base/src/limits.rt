//! The limits of the formats, and the numbers by which they are known.

// ---- names, records and files

/// The bytes of a name, at most.
pub const MAX_NAME: usize = 255;

/// The names of a path, at most.
pub const MAX_PATH: usize = 64;

/// The bytes of a symlink's target, at most. The least is 1.
pub const MAX_TARGET: usize = 4_095;

/// The greatest mode of an inode.
pub const MAX_MODE: u16 = 0o7777;

/// The greatest number of a rank.
pub const MAX_RANK: u8 = 15;

/// The bytes of a file that is read, an image among them, at most.
pub const MAX_FILE_BYTES: u64 = 1 << 30;

// ---- how a journal is striped, in bytes but for the count

/// The least object size.
pub const MIN_OBJECT_SIZE: u32 = 65_536;

/// The greatest object size.
pub const MAX_OBJECT_SIZE: u32 = 4_194_304;

/// The greatest stripe count.
pub const MAX_STRIPE_COUNT: u32 = 16;

/// The least stripe unit.
pub const MIN_STRIPE_UNIT: u32 = 4_096;

// ---- positions of a journal, in bytes

/// What all positions are below.
pub const POSITIONS_END: u64 = 1 << 62;

/// The last position.
pub const LAST_POSITION: u64 = (1 << 62) - 1;

/// How many periods above the safe position a write may reach.
pub const WINDOW: u64 = 4;

/// How far the end of a journal may be above its safe position.
pub const MOST_UNSAFE: u64 = 8_388_608;

// ---- the header

/// The bytes of a header.
pub const HEADER_BYTES: usize = 69;

/// How each header begins: the length of Ceph's magic text, and the text.
pub const HEADER_MAGIC: [u8; 23] = *b"\x13\0\0\0ceph fs volume v011";

// ---- entries

/// The bytes that an envelope adds to its payload.
pub const ENVELOPE: usize = 20;

/// The bytes of a payload, at most. The least is 1.
pub const MAX_PAYLOAD: u32 = 65_516;

/// The bytes of an entry, at most: a payload in its envelope.
pub const MAX_ENTRY: usize = 65_536;

/// How each entry begins: Ceph's `JournalStream::sentinel`, 0x3141592653589793, the lowest byte first.
pub const SENTINEL: [u8; 8] = [0x93, 0x97, 0x58, 0x53, 0x26, 0x59, 0x41, 0x31];

// ---- events

/// The types of events.
pub const SUBTREE_MAP: u32 = 2;

pub const RESET: u32 = 9;

pub const SESSION: u32 = 10;

pub const UPDATE: u32 = 20;

pub const REOPEN: u32 = 22;

pub const NO_OP: u32 = 51;

/// The number of an update's operation, from the first to the last.
pub const FIRST_OP: u8 = 3;

pub const LAST_OP: u8 = 12;

/// The directories of a subtree map, at most. The least is 1.
pub const MAX_DIRS: u32 = 64;

/// The replies that one event drops, at most.
pub const MAX_DROPPED: u32 = 64;

/// The files of a reopen, at most. The least is 1.
pub const MAX_REOPENED: u32 = 1_024;

// ---- images

/// How each image file begins.
pub const IMAGE_MAGIC: &[u8; 8] = b"MJIMG001";
