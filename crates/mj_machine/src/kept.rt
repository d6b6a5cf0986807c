//! Requests that were kept.

use mj_tree::{ClientRequest, Reply};

/// A request that changed the tree, and the end of its entry in the journal.
#[derive(Drop)]
pub struct Kept {
    pub request: ClientRequest,
    pub ends: u64,
}

/// A request, its reply, and the end of its event, where it has one.
#[derive(Drop)]
pub struct ChronicleEntry {
    pub request: ClientRequest,
    pub reply: Reply,
    pub ends_at: Option<u64>,
}
