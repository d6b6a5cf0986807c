//! The event of an accepted request, but for what it says of its change.

ghost use Rattle.std.specs.Prelude.{◌≡◌, max, nat_lt, IfOk, Some, None, if◌then◌else◌};
ghost use Rattle.mj_maps.specs.Map.{get};
ghost use Rattle.mj_tree.specs.State.{Session};
ghost use Rattle.mj_tree.specs.Sessions.{oldest_of};
ghost use Rattle.mj_cache.specs.Cached.{early_tree};
ghost use Rattle.mj_event.specs.declared.Event.TheVariants as event;
ghost use Rattle.mj_machine.specs.Delta.{op_number};
ghost use Rattle.mj_delta.specs.Events.{own_session, dropped_replies, update_of};
ghost use Rattle.mj_cache.specs.HasTree.{HasTree};

use mj_base::{Ino, Items, Tid};
use mj_cache::{Cache, kept_tids_below};
use mj_event::{Event, UpdateEvent};
use mj_meta::{DirLump, MetaBlob};
use mj_tree::{ClientRequest, Op, TreeView};
use std::alloc::{AllocError, Global};

/// What an event says of a change: the next inode where that rises, the file that is opened or released, and the lumps.
#[derive(Drop)]
pub struct Changed {
    pub next: Option<Ino>,
    pub opened: Option<Ino>,
    pub released: Option<Ino>,
    pub lumps: Vec<DirLump>,
}

impl Changed {
    /// A change of directories alone.
    pub fn of_lumps(lumps: Vec<DirLump>) -> Changed
        ensures { result ≡ record { next = None; opened = None; released = None; lumps = lumps } }
    {
        Changed {
            next: None,
            opened: None,
            released: None,
            lumps,
        }
    }
}

/// The number of an operation in an event.
fn op_number(op: &Op) -> u8
    ensures { result ≡ op_number op.now }
{
    match op {
        Op::Mkdir { .. } => 3,
        Op::Create { .. } => 4,
        Op::Symlink { .. } => 5,
        Op::Link { .. } => 6,
        Op::Unlink { .. } => 7,
        Op::Rmdir { .. } => 8,
        Op::Rename { .. } => 9,
        Op::SetAttr { .. } => 10,
        Op::OpenFile { .. } => 11,
        Op::Release { .. } => 12,
        _ => 0,
    }
}

// The oldest number that the request raises its session's own to, if it does.
fn raised_oldest(r: &ClientRequest, own: Tid) -> Option<Tid>
    ensures { result ≡ (if nat_lt own r.entry.now.oldest then Some r.entry.now.oldest else None) }
{
    if own < r.oldest { Some(r.oldest) } else { None }
}

// The greater number.
fn later(a: Tid, b: Tid) -> Tid
    ensures { result ≡ max a b }
{
    if a < b { b } else { a }
}

// The replies that are no more kept, where the client's session has this oldest number. Without one none is kept.
fn dropped_replies(
    alloc: Global,
    cache: &Cache,
    r: &ClientRequest,
    own: &Option<Tid>,
) -> Result<Items<Tid>, AllocError>
    requires tree { HasTree cache.now }
    requires own { own.now ≡ oldest_of (get (early_tree cache.now).sessions r.now.client) }
    ensures { IfOk result (λ dropped. dropped ≡ dropped_replies r.entry.now (own_session (early_tree cache.now) r.entry.now)) }
{
    match own {
        Some(oldest) => {
            let bound = later(*oldest, r.oldest);
            let dropped = kept_tids_below(alloc, cache, r.client, *oldest, bound)?;
            Ok(Items::from_vec(dropped))
        }
        None => Ok(Items::from_vec(Vec::new(alloc))),
    }
}

/// The event of a request that is accepted on an inode.
pub fn update_of(
    alloc: Global,
    cache: &Cache,
    r: &ClientRequest,
    ino: Ino,
    changed: Changed,
) -> Result<Event, AllocError>
    requires tree { HasTree cache.now }
    ensures { IfOk result (λ e. e ≡ event.Update (update_of (early_tree cache.now) r.entry.now ino changed.next changed.opened changed.released changed.lumps.items)) }
{
    let own = cache.session_oldest(r.client);
    let dropped = dropped_replies(alloc, cache, r, &own)?;
    let Changed {
        next,
        opened,
        released,
        lumps,
    } = changed;
    Ok(Event::Update(UpdateEvent {
        op: op_number(&r.op),
        client: r.client,
        tid: r.tid,
        ino,
        oldest: raised_oldest(r, own.unwrap_or(Tid(0))),
        dropped,
        next,
        opened,
        released,
        blob: MetaBlob {
            lumps: Items::from_vec(lumps),
        },
    }))
}
