//! Reading an event from its payload.

ghost use Rattle.std.specs.Prelude.{◌≡◌, Ok, IfOk, IfErr, length};
ghost use Rattle.mj_base.specs.Cursor.{Reads, Faults};
ghost use Rattle.mj_base.specs.Reading.{standing_for, u32_at};
ghost use Rattle.mj_event.specs.Event.{IsEvent, event_type};
ghost use Rattle.mj_event.specs.EventReading.{event_at, event_of, body_at};
ghost use Rattle.mj_event.specs.EventRefused.{IsEventRefusal};

use crate::Event;
use crate::fields::{dirs_field, pad_field, pairs_field, session_field, update_field};
use mj_base::limits::{NO_OP, REOPEN, RESET, SESSION, SUBTREE_MAP, UPDATE};
use mj_base::{Cursor, Fault};
use std::alloc::Global;

/// Why a payload is no event.
#[derive(Clone, Copy, Debug, PartialEq, Eq)]
pub enum EventRefusal {
    /// The offset of the first field that is outside the grammar, or at which the bytes end, or of the first
    /// byte too many.
    BadEvent(u64),
    /// There was no memory.
    Memory,
}

#[tactic(auto, unfolding(crate::specs::EventReading::event_at))]
fn event_field(alloc: Global, cursor: &mut Cursor<'_>) -> Result<Event, Fault>
    ensures { Reads (λ x. x) result cursor.new (event_at cursor.old) }
{
    let left = cursor.left();
    match cursor.read_u32()? {
        SUBTREE_MAP => Ok(Event::SubtreeMap(dirs_field(alloc, cursor)?)),
        RESET => Ok(Event::Reset),
        SESSION => Ok(Event::Session(session_field(alloc, cursor)?)),
        UPDATE => Ok(Event::Update(update_field(alloc, cursor)?)),
        REOPEN => Ok(Event::Reopen(pairs_field(alloc, cursor)?)),
        NO_OP => Ok(Event::NoOp(pad_field(cursor)?)),
        _ => Err(Fault::Left(left)),
    }
}

/// Reads the event that fills the payload.
pub fn event_read(alloc: Global, payload: &[u8]) -> Result<Event, EventRefusal>
    ensures read { IfOk result (λ e. event_of payload.now ≡ Ok e) }
    ensures refused { IfErr result (λ why. IsEventRefusal why (event_of payload.now)) }
    ensures fits { IfOk result (λ e. IsEvent e) }
{
    let mut cursor = Cursor::new(payload);
    match event_field(alloc, &mut cursor) {
        Ok(event) if cursor.is_empty() => Ok(event),
        Ok(_) => Err(EventRefusal::BadEvent((payload.len() - cursor.left()) as u64)),
        Err(Fault::Left(left)) => Err(EventRefusal::BadEvent((payload.len() - left) as u64)),
        Err(Fault::Memory) => Err(EventRefusal::Memory),
    }
}
