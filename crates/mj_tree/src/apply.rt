//! What a plain tree answers, and what requests make of it.
ghost use Rattle.std.specs.Prelude.{◌≡◌, [], ℕ, IfOk, OnOk, OnErr};
ghost use Rattle.mj_tree.specs.State.{new_state};
ghost use Rattle.mj_tree.specs.Change.{changed, with_reply, with_session, without_session};
ghost use Rattle.mj_tree.specs.Possible.{CanBe};
ghost use Rattle.mj_tree.specs.Answer.{answer, after, reply_of};
ghost use Rattle.mj_tree.specs.Meaning.{state_of};

use crate::change::{Change, Decision};
use crate::deciding::decide;
use crate::plain::PlainTree;
use crate::request::{ClientRequest, Reply};
use crate::sessions;
use mj_base::{Ino, Items, RankNo};
use std::alloc::{AllocError, Global};

impl Decision {
    /// The reply to the request.
    pub fn into_reply(self) -> Reply
        ensures { result ≡ reply_of self }
    {
        match self {
            Decision::Answered(reply) => reply,
            Decision::SessionBegins | Decision::SessionEnds => Reply::Done { ino: Ino(0) },
            Decision::Accepted { ino, .. } => Reply::Done { ino },
        }
    }
}

impl PlainTree {
    /// The tree of a new rank: the root alone.
    pub fn new(alloc: Global, rank: RankNo) -> PlainTree
        ensures { state_of result ≡ new_state rank }
    {
        PlainTree {
            next: Ino((u64::from(rank.number()) + 1) << 40),
            records: Items::from_vec(Vec::new(alloc)),
            links: Items::from_vec(Vec::new(alloc)),
            opens: Items::from_vec(Vec::new(alloc)),
            sessions: Items::from_vec(Vec::new(alloc)),
        }
    }

    /// What a request is answered. Nothing changes.
    #[tactic(auto, unfolding(crate::specs::Answer::answer))]
    pub fn answer(&self, alloc: Global, r: &ClientRequest) -> Result<Reply, AllocError>
        ensures { IfOk result (λ reply. reply ≡ answer (state_of self.now) r.entry.now) }
    {
        Ok(decide(alloc, self, r)?.into_reply())
    }

    fn begin_session(&mut self, alloc: Global, r: &ClientRequest) -> Result<(), AllocError>
        ensures ok { OnOk result (state_of self.new ≡ with_session (state_of self.old) r.entry.now) }
        ensures err { OnErr result (state_of self.new ≡ state_of self.old) }
    {
        let session = sessions::new_session(alloc, r)?;
        self.put_session(alloc, session)
    }

    // Makes the change and keeps the reply.
    fn accept(
        &mut self,
        alloc: Global,
        r: &ClientRequest,
        ino: Ino,
        change: Change,
    ) -> Result<(), AllocError>
        requires { CanBe (state_of self.old) change }
        ensures ok { OnOk result (state_of self.new ≡ with_reply (changed (state_of self.old) change) r.entry.now ino) }
        ensures err { OnErr result (state_of self.new ≡ state_of self.old) }
    {
        let session = self.session_keeping(alloc, r, ino)?;
        self.change(alloc, change)?;
        if let Some(session) = session {
            self.replace_session(alloc, session);
        }
        Ok(())
    }

    /// Answers a request and changes as it asks. An error is want of memory and leaves the tree as it was.
    #[tactic(auto, unfolding(crate::specs::Answer::answer, crate::specs::Answer::after))]
    pub fn apply(&mut self, alloc: Global, r: &ClientRequest) -> Result<Reply, AllocError>
        ensures reply { IfOk result (λ reply. reply ≡ answer (state_of self.old) r.entry.now) }
        ensures ok { OnOk result (state_of self.new ≡ after (state_of self.old) r.entry.now) }
        ensures err { OnErr result (state_of self.new ≡ state_of self.old) }
    {
        match decide(alloc, self, r)? {
            Decision::Answered(reply) => Ok(reply),
            Decision::SessionBegins => {
                self.begin_session(alloc, r)?;
                Ok(Reply::Done { ino: Ino(0) })
            }
            Decision::SessionEnds => {
                self.drop_session(alloc, r.client);
                Ok(Reply::Done { ino: Ino(0) })
            }
            Decision::Accepted { ino, change } => {
                self.accept(alloc, r, ino, change)?;
                Ok(Reply::Done { ino })
            }
        }
    }
}
