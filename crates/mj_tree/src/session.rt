//! Sessions and their kept replies.

ghost use Rattle.std.specs.Prelude.{IsTrue};
ghost use Rattle.mj_tree.specs.Replies.{do_replies_rise};

use mj_base::{ClientId, Ino, Items, Tid};

/// The inode that was the reply to a request.
#[derive(Clone, Copy)]
pub struct KeptReply {
    pub tid: Tid,
    pub ino: Ino,
}

/// A client's session, with the replies that are kept for it, ascending by their numbers.
#[derive(Drop)]
pub struct PlainSession {
    pub client: ClientId,
    pub oldest: Tid,
    pub kept: Items<KeptReply>,
    pub ghost replies_rise: { IsTrue (do_replies_rise kept) },
}
