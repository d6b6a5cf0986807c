//! What was given, and what was sent.

use mj_layout::Header;

/// The operation that was given last, and is not yet sent.
#[derive(Clone, Copy)]
pub enum Offer {
    /// The write of the stream up to here.
    Flush(u64),
    Head(Header),
    /// The removal of the object with this index.
    Removal(u64),
}

/// An operation that is out, with what it is about: the positions that a write covers, the positions from the trimmed
/// one to expire that a header leaves behind, or the object that is removed.
#[derive(Clone, Copy)]
pub struct Sent {
    pub op: u64,
    pub from: u64,
    pub to: u64,
}

/// An operation that was sent, and whether it is acknowledged.
#[derive(Clone, Copy)]
pub struct Slot {
    pub sent: Sent,
    pub done: bool,
}
