//! What a request comes to, in the common order of its refusals.
ghost use Rattle.std.specs.Prelude.{◌≡◌, nat_le, nat_lt, if◌then◌else◌, IfOk};
ghost use Rattle.mj_maps.specs.Map.{get, len};
ghost use Rattle.mj_tree.specs.declared.change.Decision.TheVariants.{SessionBegins};
ghost use Rattle.mj_tree.specs.declared.request.Reply.{Reply};
ghost use Rattle.mj_tree.specs.Sessions.{session_at};
ghost use Rattle.mj_tree.specs.Walk.{Answer};
ghost use Rattle.mj_tree.specs.Row.{Effect, effect, new_attributes};
ghost use Rattle.mj_tree.specs.Answer.{decision, is_session_open, opening, closing, by_session, in_session, changing, by_effect, looked, refused, most_kept, most_sessions, still_kept};
ghost use Rattle.mj_tree.specs.Given.{Gives, IsStopAnswer};

use crate::change::{Attributes, Change, Decision, Settings};
use crate::errno::{EEXIST, EINVAL, ENOSPC, ESTALE, Errno, Stop};
use crate::limits::{MOST_KEPT, MOST_SESSIONS};
use crate::looks::{lookup, readdir, readlink};
use crate::request::{ClientRequest, Op, Reply};
use crate::rows::{link, make, open_file, release, rename, rmdir, set_attr, unlink};
use crate::view::TreeView;
use mj_base::{ClientId, Ino, Kind, Target, Tid};
use std::alloc::{AllocError, Global};

/// A request that is answered an error.
pub fn refused(code: Errno) -> Decision
    ensures { result ≡ refused code }
{
    Decision::Answered(Reply::Error(code.0))
}

/// A refusal is answered, and want of memory is not.
pub fn stopped(stop: Stop) -> Result<Decision, AllocError>
    ensures { IsStopAnswer stop result }
{
    match stop {
        Stop::Refused(code) => Ok(refused(code)),
        Stop::Memory => Err(AllocError),
    }
}

/// What is looked up is answered.
pub fn looked(found: Result<Reply, Stop>) -> Result<Decision, AllocError>
    ensures { (a : Answer Reply) → Gives found a → IfOk result (λ d. d ≡ looked a) }
{
    match found {
        Ok(reply) => Ok(Decision::Answered(reply)),
        Err(stop) => stopped(stop),
    }
}

/// An effect is accepted.
pub fn by_effect(effect: Result<(Ino, Change), Stop>) -> Result<Decision, AllocError>
    ensures { (e : Effect) → Gives effect e → IfOk result (λ d. d ≡ by_effect e) }
{
    match effect {
        Ok((ino, change)) => Ok(Decision::Accepted { ino, change }),
        Err(stop) => stopped(stop),
    }
}

/// The attributes of a new inode.
pub fn new_attributes(kind: Kind, mode: u16, now: u64, target: Target) -> Attributes
    ensures { result ≡ new_attributes kind mode now target }
{
    Attributes {
        kind,
        mode,
        uid: 0,
        gid: 0,
        size: 0,
        mtime: now,
        target,
    }
}

fn is_session_open(op: &Op) -> bool
    ensures { result ≡ is_session_open op.now }
{
    matches!(op, Op::SessionOpen)
}

// Whether the request leaves as many replies kept as may be.
fn keeps_most<V: TreeView>(view: &V, r: &ClientRequest) -> bool
    ensures { result ≡ nat_le most_kept (still_kept r.entry.now (session_at (V.tree view.now) r.entry.now.client)) }
{
    view.keeps_from(r.client, r.oldest, MOST_KEPT)
}

// What a changing operation does, if nothing forbids it.
#[tactic(auto, unfolding(crate::specs::Row::effect))]
fn effect<V: TreeView>(alloc: Global, view: &V, r: &ClientRequest) -> Result<(Ino, Change), Stop>
    ensures { Gives result (effect (V.tree view.now) r.entry.now r.entry.now.op) }
{
    match &r.op {
        Op::Mkdir { path, mode } => make(
            alloc,
            view,
            path,
            new_attributes(Kind::Dir, *mode, r.now, Target::empty(alloc)),
        ),
        Op::Create { path, mode } => make(
            alloc,
            view,
            path,
            new_attributes(Kind::File, *mode, r.now, Target::empty(alloc)),
        ),
        Op::Symlink { path, target } => make(
            alloc,
            view,
            path,
            new_attributes(Kind::Symlink, 0o777, r.now, target.copy(alloc)?),
        ),
        Op::Link { from, to } => link(alloc, view, from, to),
        Op::Unlink { path } => unlink(alloc, view, path),
        Op::Rmdir { path } => rmdir(alloc, view, path),
        Op::Rename { from, to } => rename(alloc, view, from, to),
        Op::SetAttr {
            path,
            mode,
            uid,
            gid,
            size,
            mtime,
        } => {
            let settings = Settings {
                mode: *mode,
                uid: *uid,
                gid: *gid,
                size: *size,
                mtime: *mtime,
            };
            set_attr(alloc, view, path, settings)
        }
        Op::OpenFile { path } => open_file(alloc, view, r.client, path),
        Op::Release { ino } => release(view, r.client, *ino),
        _ => Err(Stop::Refused(EINVAL)),
    }
}

#[tactic(auto, unfolding(crate::specs::Answer::changing))]
fn changing<V: TreeView>(alloc: Global, view: &V, r: &ClientRequest) -> Result<Decision, AllocError>
    ensures { IfOk result (λ d. d ≡ changing (V.tree view.now) r.entry.now (session_at (V.tree view.now) r.entry.now.client)) }
{
    if keeps_most(view, r) {
        return Ok(refused(ENOSPC));
    }
    by_effect(effect(alloc, view, r))
}

#[tactic(auto, unfolding(crate::specs::Answer::closing))]
fn closing<V: TreeView>(view: &V, client: ClientId) -> Decision
    ensures { result ≡ closing (V.tree view.now) client }
{
    if view.has_opens(client) {
        refused(EINVAL)
    } else {
        Decision::SessionEnds
    }
}

#[tactic(auto, unfolding(crate::specs::Answer::in_session))]
fn in_session<V: TreeView>(
    alloc: Global,
    view: &V,
    r: &ClientRequest,
) -> Result<Decision, AllocError>
    ensures { IfOk result (λ d. d ≡ in_session (V.tree view.now) r.entry.now (session_at (V.tree view.now) r.entry.now.client) r.entry.now.op) }
{
    match &r.op {
        Op::Lookup { path } => looked(lookup(alloc, view, path)),
        Op::Readdir { path } => looked(readdir(alloc, view, path)),
        Op::Readlink { path } => looked(readlink(alloc, view, path)),
        Op::SessionClose => Ok(closing(view, r.client)),
        _ => changing(alloc, view, r),
    }
}

// A session begins, where there is room for one more.
fn beginning<V: TreeView>(view: &V) -> Decision
    ensures { result ≡ (if nat_le most_sessions (len (V.tree view.now).sessions) then refused 28 else SessionBegins) }
{
    if view.session_count() >= MOST_SESSIONS {
        refused(ENOSPC)
    } else {
        Decision::SessionBegins
    }
}

fn opening<V: TreeView>(view: &V, client: ClientId) -> Decision
    ensures { result ≡ opening (V.tree view.now) (get (V.tree view.now).sessions client) }
{
    match view.session_oldest(client) {
        Some(_) => refused(EEXIST),
        None => beginning(view),
    }
}

// In a session whose oldest number is this.
fn by_oldest<V: TreeView>(
    alloc: Global,
    view: &V,
    r: &ClientRequest,
    oldest: Tid,
) -> Result<Decision, AllocError>
    ensures { IfOk result (λ d. d ≡ (if nat_lt r.entry.now.tid oldest then refused 116 else in_session (V.tree view.now) r.entry.now (session_at (V.tree view.now) r.entry.now.client) r.entry.now.op)) }
{
    if r.tid < oldest {
        return Ok(refused(ESTALE));
    }
    in_session(alloc, view, r)
}

fn by_session<V: TreeView>(
    alloc: Global,
    view: &V,
    r: &ClientRequest,
) -> Result<Decision, AllocError>
    ensures { IfOk result (λ d. d ≡ by_session (V.tree view.now) r.entry.now (get (V.tree view.now).sessions r.entry.now.client)) }
{
    match view.session_oldest(r.client) {
        Some(oldest) => by_oldest(alloc, view, r, oldest),
        None => Ok(refused(ESTALE)),
    }
}

/// What the request comes to: a reply alone, or what changes.
#[tactic(auto, unfolding(crate::specs::Answer::decision))]
pub fn decide<V: TreeView>(
    alloc: Global,
    view: &V,
    r: &ClientRequest,
) -> Result<Decision, AllocError>
    ensures { IfOk result (λ d. d ≡ decision (V.tree view.now) r.entry.now) }
{
    if r.tid < r.oldest {
        return Ok(refused(EINVAL));
    }
    if let Some(ino) = view.kept_reply(r.client, r.tid) {
        return Ok(Decision::Answered(Reply::Done { ino }));
    }
    if is_session_open(&r.op) {
        Ok(opening(view, r.client))
    } else {
        by_session(alloc, view, r)
    }
}
