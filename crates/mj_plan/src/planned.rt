//! What is planned for a request: its reply, and the event that journals it.

ghost use Rattle.std.specs.Prelude.{◌≡◌, Some, is_some, IfOk};
ghost use Rattle.mj_tree.specs.Request.{IsRequest};
ghost use Rattle.mj_tree.specs.Answer.{decision, answer, changes};
ghost use Rattle.mj_entry.specs.Entry.{IsPayload};
ghost use Rattle.mj_event.specs.declared.Event.{Event};
ghost use Rattle.mj_event.specs.Event.{event_bytes};
ghost use Rattle.mj_machine.specs.Delta.{IsExactDelta};
ghost use Rattle.mj_cache.specs.Cached.{early_table, early_tree};
ghost use Rattle.mj_delta.specs.EventFor.{event_for};
ghost use Rattle.mj_delta.specs.Steps.{GivesTree};

use crate::events::event_of;
use crate::sending::request_fits;
use mj_cache::{Cache, has_tree};
use mj_event::Event;
use mj_tree::{ClientRequest, Reply, decide};
use std::alloc::{AllocError, Global};

/// What a request is answered, and the event that journals it where it changes the tree.
#[derive(Drop)]
pub struct Planned {
    pub reply: Reply,
    pub event: Option<Event>,
}

/// Plans a request over the early tree of a cache. Nothing changes. The event gives the tree after the request, and writes just the
/// cells that change, and fits one entry of the journal.
pub fn plan(alloc: Global, cache: &Cache, r: &ClientRequest) -> Result<Planned, AllocError>
    requires request { IsRequest r.now }
    ensures reply { IfOk result (λ p. p.reply ≡ answer (early_tree cache.now) r.entry.now) }
    ensures there { IfOk result (λ p. is_some p.event ≡ changes (early_tree cache.now) r.entry.now) }
    ensures event { IfOk result (λ p. (e : Event) → p.event ≡ Some e → GivesTree cache.now.rank (early_table cache.now) (early_tree cache.now) r.entry.now e) }
    ensures exact { IfOk result (λ p. (e : Event) → p.event ≡ Some e → IsExactDelta cache.now.rank (early_table cache.now) r.entry.now e) }
    ensures fits { IfOk result (λ p. (e : Event) → p.event ≡ Some e → IsPayload (event_bytes e)) }
    ensures planned { IfOk result (λ p. p.event ≡ event_for cache.now.rank (early_table cache.now) (early_tree cache.now) r.entry.now (decision (early_tree cache.now) r.entry.now)) }
{
    has_tree(cache);
    request_fits(r);
    let decision = decide(alloc, cache, r)?;
    let event = event_of(alloc, cache, r, &decision)?;
    Ok(Planned {
        reply: decision.into_reply(),
        event,
    })
}
