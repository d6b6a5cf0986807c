//! The steps of a world and what it says to them.

use mj_base::{Items, ObjectName, OpNo};
use mj_tree::{ClientRequest, Reply};

/// One step of a world.
#[derive(Drop)]
pub enum Step {
    Ask(ClientRequest),
    Flush,
    /// The store is to try the first pending operation of this object.
    Apply(ObjectName),
    Reap,
    /// A mount begins.
    Begin,
    /// The mount goes on.
    Carry,
    /// The store is stopped and started again.
    Restart,
    /// The tree of all requests that were accepted.
    Tree,
    /// The same with the next inode and the sessions.
    State,
}

/// What a world says to a step.
#[derive(Drop)]
pub enum Said {
    Asked(Early),
    Flushed(Span),
    Applied(Option<OpNo>),
    Reaped(Reaped),
    /// The journal's tail.
    Begun(u64),
    Carried(MountStep),
    Restarted,
    Tree(Items<u8>),
    State(Items<u8>),
}

/// The answer to a request, given before anything of it is written.
#[derive(Drop)]
pub struct Early {
    pub reply: Reply,
    /// Where the request's event ends in the journal: none where it has none, or where it is safe already.
    pub ends_at: Option<u64>,
    /// The request's number among those of this mount, from 0.
    pub place: u64,
}

/// The positions that one write covers, from the first to the one behind the last. An empty span is no write.
#[derive(Clone, Copy, Debug, PartialEq, Eq)]
pub struct Span {
    pub from: u64,
    pub to: u64,
}

/// What an acknowledgement moved.
#[derive(Clone, Copy, Debug, PartialEq, Eq)]
pub enum Reaped {
    /// The operation, and the safe position before and after.
    One {
        op: OpNo,
        safe_from: u64,
        safe_to: u64,
    },
    Nothing,
}

/// What one step of a mount did.
#[derive(Clone, Copy)]
pub enum MountStep {
    Sent(ObjectName),
    Reaped(OpNo),
    /// An acknowledgement is still to come.
    Waiting,
    Ready,
}
