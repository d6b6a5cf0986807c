//! Sessions and their kept replies, as requests change them.
ghost use Rattle.std.specs.Prelude.{◌≡◌, true, is_some, nat_le, filter, max, IfOk, IfSome};
ghost use Rattle.std.specs.Option.{option_map};
ghost use Rattle.mj_maps.specs.Map.{get, insert, empty};
ghost use Rattle.mj_tree.specs.declared.session.KeptReply.{KeptReply};
ghost use Rattle.mj_tree.specs.Change.{keeping, new_session};
ghost use Rattle.mj_tree.specs.Lists.{session_of};
ghost use Rattle.mj_tree.specs.Meaning.{state_of};

use crate::keyed;
use crate::plain::PlainTree;
use crate::request::ClientRequest;
use crate::session::{KeptReply, PlainSession};
use mj_base::{Ino, Items, Tid};
use std::alloc::{AllocError, Global};

// The replies that are kept from a number on.
fn kept_from(
    alloc: Global,
    kept: &Items<KeptReply>,
    oldest: Tid,
) -> Result<Items<KeptReply>, AllocError>
    ensures { IfOk result (λ ks. ks ≡ filter (λ (k : KeptReply). nat_le oldest k.tid) kept.now) }
{
    let mut left = Vec::new(alloc);
    for reply in kept.as_slice() {
        if reply.tid >= oldest {
            left.push(*reply)?;
        }
    }
    Ok(Items::from_vec(left))
}

// The greater number.
fn later(a: Tid, b: Tid) -> Tid
    ensures { result ≡ max a b }
{
    if a < b { b } else { a }
}

/// A client's session that begins with a request.
pub fn new_session(alloc: Global, r: &ClientRequest) -> Result<PlainSession, AllocError>
    ensures client { IfOk result (λ c. c.client ≡ r.entry.now.client) }
    ensures session { IfOk result (λ c. session_of c ≡ new_session r.entry.now) }
{
    let mut kept = Vec::new(alloc);
    kept.push(KeptReply {
        tid: r.tid,
        ino: Ino(0),
    })?;
    Ok(PlainSession {
        client: r.client,
        oldest: r.oldest,
        kept: Items::from_vec(kept),
    })
}

// The session once a request's reply is kept in it.
fn keeping(
    alloc: Global,
    session: &PlainSession,
    r: &ClientRequest,
    ino: Ino,
) -> Result<PlainSession, AllocError>
    ensures client { IfOk result (λ c. c.client ≡ r.entry.now.client) }
    ensures session { IfOk result (λ c. session_of c ≡ keeping r.entry.now ino (session_of session.now)) }
{
    let oldest = later(session.oldest, r.oldest);
    let mut kept = kept_from(alloc, &session.kept, oldest)?;
    keyed::put(alloc, &mut kept, KeptReply { tid: r.tid, ino })?;
    Ok(PlainSession {
        client: r.client,
        oldest,
        kept,
    })
}

impl PlainTree {
    /// The client's session once a request's reply is kept in it, if it has one.
    pub(crate) fn session_keeping(
        &self,
        alloc: Global,
        r: &ClientRequest,
        ino: Ino,
    ) -> Result<Option<PlainSession>, AllocError>
        ensures client { IfOk result (λ o. IfSome o (λ c. c.client ≡ r.entry.now.client)) }
        ensures session { IfOk result (λ o. option_map session_of o ≡ option_map (keeping r.entry.now ino) (get (state_of self.now).sessions r.entry.now.client)) }
    {
        match self.session(r.client) {
            Some(session) => Ok(Some(keeping(alloc, session, r, ino)?)),
            None => Ok(None),
        }
    }

    /// Puts a session in the place of the client's own.
    pub(crate) fn replace_session(&mut self, alloc: Global, session: PlainSession)
        requires { is_some (get (state_of self.old).sessions session.client) ≡ true }
        ensures { state_of self.new ≡ record (state_of self.old) { sessions = insert (state_of self.old).sessions session.client (session_of session) } }
    {
        keyed::replace(alloc, &mut self.sessions, session);
    }
}
