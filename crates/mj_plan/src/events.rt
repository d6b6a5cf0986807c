//! The event of what a request comes to.

ghost use Rattle.std.specs.Prelude.{◌≡◌, ◌+◌, ◌<◌, ◌^◌, Some, None, IfOk, if◌then◌else◌};
ghost use Rattle.mj_maps.specs.Map.{get, remove};
ghost use Rattle.mj_tree.specs.State.{is_kept, link_count, open_count};
ghost use Rattle.mj_tree.specs.Row.{is_open, most_links};
ghost use Rattle.mj_tree.specs.Answer.{decision as decided_on};
ghost use Rattle.mj_tree.specs.declared.change.Decision.TheVariants.{Accepted};
ghost use Rattle.mj_cache.specs.Cached.{early_table, early_tree};
ghost use Rattle.mj_delta.specs.Events.{open_event, close_event, nothing_event, hold_event, begin_event, set_event, link_event, release_lumps, release_event};
ghost use Rattle.mj_delta.specs.Plan.{unlink_event, move_event, replace_event, plan_event};
ghost use Rattle.mj_delta.specs.EventFor.{change_event, event_for};
ghost use Rattle.mj_cache.specs.HasTree.{HasTree};
ghost use Rattle.mj_plan.specs.Planning.{plan_in};

use crate::dentry_plans::{DentryPlan, move_plan, replace_plan, stray_name, unlink_plan};
use crate::lumps::{begin_lumps, link_lumps, next_version, null_lump, one, set_lumps};
use crate::plan_lumps::lumps_of;
use crate::updates::{Changed, update_of};
use mj_base::{ClientId, Ino, Items, Name};
use mj_cache::{Cache, has_tree, kept_tids};
use mj_event::{Event, SessionEvent, SessionKind};
use mj_meta::DirLump;
use mj_recovery::stray_ino;
use mj_tree::{Attributes, Change, ClientRequest, Decision, Settings, TreeView};
use std::alloc::{AllocError, Global};

// ---- sessions

fn open_event(alloc: Global, r: &ClientRequest) -> Event
    ensures { result ≡ open_event r.entry.now }
{
    Event::Session(SessionEvent {
        client: r.client,
        kind: SessionKind::Open,
        oldest: r.oldest,
        tid: r.tid,
        dropped: Items::from_vec(Vec::new(alloc)),
    })
}

// It says which kept replies go with the session.
fn close_event(alloc: Global, cache: &Cache, r: &ClientRequest) -> Result<Event, AllocError>
    requires tree { HasTree cache.now }
    ensures { IfOk result (λ e. e ≡ close_event (early_tree cache.now) r.entry.now) }
{
    let dropped = kept_tids(alloc, cache, r.client)?;
    Ok(Event::Session(SessionEvent {
        client: r.client,
        kind: SessionKind::Close,
        oldest: r.oldest,
        tid: r.tid,
        dropped: Items::from_vec(dropped),
    }))
}

// ---- files that are opened and let go, and a name that stays

fn nothing_event(
    alloc: Global,
    cache: &Cache,
    r: &ClientRequest,
    ino: Ino,
) -> Result<Event, AllocError>
    requires tree { HasTree cache.now }
    ensures { IfOk result (λ e. e ≡ nothing_event (early_tree cache.now) r.entry.now ino) }
{
    update_of(alloc, cache, r, ino, Changed::of_lumps(Vec::new(alloc)))
}

// A file that is open already is not opened again.
fn newly_opened(cache: &Cache, client: ClientId, ino: Ino) -> Option<Ino>
    ensures { result ≡ (if is_open (early_tree cache.now) client ino then None else Some ino) }
{
    if cache.is_open(client, ino) {
        None
    } else {
        Some(ino)
    }
}

fn hold_event(
    alloc: Global,
    cache: &Cache,
    r: &ClientRequest,
    ino: Ino,
) -> Result<Event, AllocError>
    requires tree { HasTree cache.now }
    ensures { IfOk result (λ e. e ≡ hold_event (early_tree cache.now) r.entry.now ino) }
{
    let changed = Changed {
        next: None,
        opened: newly_opened(cache, r.client, ino),
        released: None,
        lumps: Vec::new(alloc),
    };
    update_of(alloc, cache, r, ino, changed)
}

// How many clients have the inode open but this one.
fn other_opens(cache: &Cache, client: ClientId, ino: Ino) -> u64
    ensures { result ≡ open_count (record (early_tree cache.now) { opens = remove (early_tree cache.now).opens (client, ino) }) ino }
{
    let opens = cache.opens_of(ino);
    if cache.is_open(client, ino) {
        opens.saturating_sub(1)
    } else {
        opens
    }
}

// Whether anything names the inode once the client lets it go.
fn is_kept_without(cache: &Cache, client: ClientId, ino: Ino) -> bool
    requires tree { HasTree cache.now }
    ensures { result ≡ is_kept (record (early_tree cache.now) { opens = remove (early_tree cache.now).opens (client, ino) }) ino }
{
    cache.link_count(ino) > 0 || other_opens(cache, client, ino) > 0
}

// A record that nothing keeps any more goes from stray.
fn release_lumps(
    alloc: Global,
    cache: &Cache,
    client: ClientId,
    ino: Ino,
) -> Result<Vec<DirLump>, AllocError>
    requires tree { HasTree cache.now }
    ensures { IfOk result (λ lumps. lumps.items ≡ release_lumps cache.now.rank (early_table cache.now) (early_tree cache.now) client ino) }
{
    if is_kept_without(cache, client, ino) {
        return Ok(Vec::new(alloc));
    }
    let stray = stray_ino(cache.rank());
    let version = next_version(cache, stray);
    let name = stray_name(alloc, ino)?;
    one(alloc, null_lump(alloc, stray, version, name)?)
}

fn release_event(
    alloc: Global,
    cache: &Cache,
    r: &ClientRequest,
    ino: Ino,
) -> Result<Event, AllocError>
    requires tree { HasTree cache.now }
    ensures { IfOk result (λ e. e ≡ release_event cache.now.rank (early_table cache.now) (early_tree cache.now) r.entry.now ino) }
{
    let changed = Changed {
        next: None,
        opened: None,
        released: Some(ino),
        lumps: release_lumps(alloc, cache, r.client, ino)?,
    };
    update_of(alloc, cache, r, ino, changed)
}

// ---- a new inode, attributes that are set, a second link

fn begin_event(
    alloc: Global,
    cache: &Cache,
    r: &ClientRequest,
    ino: Ino,
    place: &(Ino, Name),
    attributes: &Attributes,
) -> Result<Event, AllocError>
    requires tree { HasTree cache.now }
    requires next { ino ≡ (early_tree cache.now).next }
    requires more { ino + 1 < 2 ^ 64 }
    ensures { IfOk result (λ e. e ≡ begin_event (early_table cache.now) (early_tree cache.now) r.entry.now place.now attributes.now) }
{
    let changed = Changed {
        next: Some(Ino(ino.0 + 1)),
        opened: None,
        released: None,
        lumps: begin_lumps(alloc, cache, ino, place, attributes)?,
    };
    update_of(alloc, cache, r, ino, changed)
}

fn set_event(
    alloc: Global,
    cache: &Cache,
    r: &ClientRequest,
    ino: Ino,
    settings: &Settings,
) -> Result<Event, AllocError>
    requires tree { HasTree cache.now }
    ensures { IfOk result (λ e. e ≡ set_event cache.now.rank (early_table cache.now) (early_tree cache.now) r.entry.now ino settings.now) }
{
    let lumps = set_lumps(alloc, cache, ino, settings)?;
    update_of(alloc, cache, r, ino, Changed::of_lumps(lumps))
}

fn link_event(
    alloc: Global,
    cache: &Cache,
    r: &ClientRequest,
    place: &(Ino, Name),
    ino: Ino,
) -> Result<Event, AllocError>
    requires tree { HasTree cache.now }
    requires room { link_count (early_tree cache.now) ino < most_links }
    ensures { IfOk result (λ e. e ≡ link_event cache.now.rank (early_table cache.now) (early_tree cache.now) r.entry.now place.now ino) }
{
    let lumps = link_lumps(alloc, cache, ino, place)?;
    update_of(alloc, cache, r, ino, Changed::of_lumps(lumps))
}

// ---- links that end and names that move

fn plan_event(
    alloc: Global,
    cache: &Cache,
    r: &ClientRequest,
    ino: Ino,
    plan: &DentryPlan,
) -> Result<Event, AllocError>
    requires tree { HasTree cache.now }
    ensures { IfOk result (λ e. e ≡ plan_event (early_table cache.now) (early_tree cache.now) r.entry.now ino (plan_in plan.now)) }
{
    let lumps = lumps_of(alloc, cache, plan)?;
    update_of(alloc, cache, r, ino, Changed::of_lumps(lumps))
}

fn unlink_event(
    alloc: Global,
    cache: &Cache,
    r: &ClientRequest,
    place: &(Ino, Name),
    ino: Ino,
) -> Result<Event, AllocError>
    requires tree { HasTree cache.now }
    requires link { get (early_tree cache.now).links place.now ≡ Some ino }
    ensures { IfOk result (λ e. e ≡ unlink_event cache.now.rank (early_table cache.now) (early_tree cache.now) r.entry.now place.now ino) }
{
    let plan = unlink_plan(alloc, cache, place, ino)?;
    plan_event(alloc, cache, r, ino, &plan)
}

fn move_event(
    alloc: Global,
    cache: &Cache,
    r: &ClientRequest,
    from: &(Ino, Name),
    to: &(Ino, Name),
    ino: Ino,
) -> Result<Event, AllocError>
    requires tree { HasTree cache.now }
    ensures { IfOk result (λ e. e ≡ move_event (early_table cache.now) (early_tree cache.now) r.entry.now from.now to.now ino) }
{
    let plan = move_plan(alloc, cache, from, to)?;
    plan_event(alloc, cache, r, ino, &plan)
}

fn replace_event(
    alloc: Global,
    cache: &Cache,
    r: &ClientRequest,
    from: &(Ino, Name),
    to: &(Ino, Name),
    ino: Ino,
    other: Ino,
) -> Result<Event, AllocError>
    requires tree { HasTree cache.now }
    requires link { get (early_tree cache.now).links to.now ≡ Some other }
    ensures { IfOk result (λ e. e ≡ replace_event cache.now.rank (early_table cache.now) (early_tree cache.now) r.entry.now from.now to.now ino other) }
{
    let plan = replace_plan(alloc, cache, from, to, other)?;
    plan_event(alloc, cache, r, ino, &plan)
}

// ---- all of them

// The event of a request that is accepted on an inode.
fn change_event(
    alloc: Global,
    cache: &Cache,
    r: &ClientRequest,
    ino: Ino,
    change: &Change,
) -> Result<Event, AllocError>
    requires tree { HasTree cache.now }
    requires decided { decided_on (early_tree cache.now) r.now ≡ Accepted ino change.now }
    ensures { IfOk result (λ e. e ≡ change_event cache.now.rank (early_table cache.now) (early_tree cache.now) r.entry.now ino change.now) }
{
    match change {
        Change::Nothing => nothing_event(alloc, cache, r, ino),
        Change::Begin { place, attributes } => begin_event(alloc, cache, r, ino, place, attributes),
        Change::Link { place, .. } => link_event(alloc, cache, r, place, ino),
        Change::Unlink { place, .. } => unlink_event(alloc, cache, r, place, ino),
        Change::Move { from, to, .. } => move_event(alloc, cache, r, from, to, ino),
        Change::Replace {
            from,
            to,
            other,
            ..
        } => replace_event(alloc, cache, r, from, to, ino, *other),
        Change::Set { settings, .. } => set_event(alloc, cache, r, ino, settings),
        Change::Hold { .. } => hold_event(alloc, cache, r, ino),
        Change::Release { .. } => release_event(alloc, cache, r, ino),
    }
}

/// The event that journals what a request is decided to change. A request that is only answered has none.
pub fn event_of(
    alloc: Global,
    cache: &Cache,
    r: &ClientRequest,
    decision: &Decision,
) -> Result<Option<Event>, AllocError>
    requires decision { decision.now ≡ decided_on (early_tree cache.now) r.now }
    ensures { IfOk result (λ e. e ≡ event_for cache.now.rank (early_table cache.now) (early_tree cache.now) r.entry.now decision.now) }
{
    has_tree(cache);
    match decision {
        Decision::Answered(_) => Ok(None),
        Decision::SessionBegins => Ok(Some(open_event(alloc, r))),
        Decision::SessionEnds => Ok(Some(close_event(alloc, cache, r)?)),
        Decision::Accepted { ino, change } => {
            Ok(Some(change_event(alloc, cache, r, *ino, change)?))
        }
    }
}
