//! The journal's entries for one event.

ghost use Rattle.std.specs.Prelude.{◌≡◌, ◌+◌, ◌≤◌, None, IfOk};
ghost use Rattle.std.specs.Option.{ForSome};
ghost use Rattle.mj_entry.specs.Entry.{IsPayload, entry_length};
ghost use Rattle.mj_event.specs.Event.{IsEvent, event_bytes};
ghost use Rattle.mj_journaler.specs.Calls.{append_refusal, appended};
ghost use Rattle.mj_rank.specs.Log.{log_value};
ghost use Rattle.mj_rank.specs.Mount.{subtree_map};
ghost use Rattle.mj_rank.specs.Segment.{due_map, event_refusal, event_end, events_after, is_due, log_behind, map_length, most_events};
ghost use Rattle.mj_rank.specs.Entries.{map_of};

use mj_base::limits::ENVELOPE;
use mj_base::{Ino, Items, RankNo};
use mj_event::{Event, event_write};
use mj_journaler::{AppendRefusal, Journaler};
use mj_recovery::ROOT;
use std::alloc::{AllocError, Global};

/// The most events of a segment that still goes on, its map not counted.
pub const MOST_EVENTS: u64 = 1024;

/// The payload of an event, and that of the subtree map before it where a segment ends.
#[derive(Drop)]
pub struct Entries {
    map: Option<Vec<u8>>,
    event: Vec<u8>,
    ghost map_fits: { ForSome (map_of map) IsPayload },
    ghost event_fits: { IsPayload event.items },
}

// The rank's trees begin at the root and at its own directory.
fn subtree_map(alloc: Global, number: RankNo) -> Result<Event, AllocError>
    ensures is { IfOk result (λ e. e ≡ subtree_map number) }
    ensures event { IfOk result IsEvent }
{
    let mut dirs = Vec::with_capacity(alloc, 2)?;
    dirs.push(ROOT)?;
    dirs.push(Ino(0x100 + number.number() as u64))?;
    Ok(Event::SubtreeMap(Items::from_vec(dirs)))
}

/// The payload of a rank's subtree map.
pub fn map_payload(alloc: Global, number: RankNo) -> Result<Vec<u8>, AllocError>
    ensures { IfOk result (λ bytes. bytes.items ≡ event_bytes (subtree_map number)) }
{
    event_write(alloc, &subtree_map(alloc, number)?)
}

/// Whether a map comes before the next event, where the segment has so many.
fn is_due(segment: Option<u64>) -> bool
    ensures { result ≡ is_due segment }
{
    match segment {
        Some(events) => MOST_EVENTS <= events,
        None => true,
    }
}

/// How many events the segment of one more event has.
pub fn events_after(segment: Option<u64>) -> u64
    ensures { result ≡ events_after segment }
{
    match segment {
        Some(events) if events < MOST_EVENTS => events + 1,
        _ => 1,
    }
}

impl Entries {
    pub fn new(
        alloc: Global,
        number: RankNo,
        segment: Option<u64>,
        event: &Event,
    ) -> Result<Entries, AllocError>
        requires event { IsEvent event.now }
        requires fits { IsPayload (event_bytes event.now) }
        ensures map { IfOk result (λ entries. map_of entries.map ≡ due_map number segment) }
        ensures event { IfOk result (λ entries. entries.event.items ≡ event_bytes event.now) }
    {
        let map = due_map(alloc, number, segment)?;
        let event = event_write(alloc, event)?;
        Ok(Entries { map, event })
    }

    /// Why the journal does not take them.
    pub fn refusal(&self, log: &Journaler) -> Option<AppendRefusal>
        ensures { result ≡ event_refusal (map_of self.now.map) log.now self.now.event.items }
    {
        match &self.map {
            Some(map) => log.refusal_of_both(map, &self.event),
            None => log.refusal(&self.event),
        }
    }

    /// How many bytes they have in the journal.
    pub fn bytes(&self) -> usize
        ensures { result ≡ map_length (map_of self.now.map) + entry_length self.now.event.items }
    {
        let event = self.event.len() + ENVELOPE;
        match &self.map {
            Some(map) => map.len() + ENVELOPE + event,
            None => event,
        }
    }

    /// Where the event's entry will end.
    pub fn end_behind(&self, log: &Journaler) -> u64
        requires { event_refusal (map_of self.now.map) log.now self.now.event.items ≡ None }
        ensures { result ≡ event_end (map_of self.now.map) log.now self.now.event.items }
    {
        log.end() + self.bytes() as u64
    }

    /// Appends them, within room that was made.
    pub fn append(&self, alloc: Global, log: &mut Journaler)
        requires fits { event_refusal (map_of self.now.map) log.old self.now.event.items ≡ None }
        requires room { map_length (map_of self.now.map) + entry_length self.now.event.items ≤ log.old.room }
        ensures { log_value log.new ≡ log_behind (map_of self.now.map) log.old self.now.event.items }
    {
        let Some(map) = &self.map else {
            push(alloc, log, &self.event);
            return;
        };
        push(alloc, log, map);
        push(alloc, log, &self.event);
    }
}

fn due_map(
    alloc: Global,
    number: RankNo,
    segment: Option<u64>,
) -> Result<Option<Vec<u8>>, AllocError>
    ensures { IfOk result (λ map. map_of map ≡ due_map number segment) }
{
    if is_due(segment) {
        Ok(Some(map_payload(alloc, number)?))
    } else {
        Ok(None)
    }
}

// Appends the entry of a payload for which there is room.
fn push(alloc: Global, log: &mut Journaler, payload: &[u8])
    requires payload { IsPayload payload.now }
    requires fits { append_refusal log.old payload.now ≡ None }
    requires room { entry_length payload.now ≤ log.old.room }
    ensures { log.new ≡ appended payload.now log.old }
{
    log.append(alloc, payload).unwrap();
}
