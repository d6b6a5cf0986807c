//! The entries of a piece of the stream.

ghost use Rattle.std.specs.Prelude.{◌≡◌, ◌+◌, ◌≤◌, ◌<◌, ◌^◌, ℕ, length, drop, IfOk, IfErr, OnOk, IfSome, IfNone};
ghost use Rattle.mj_entry.specs.Entry.{entry_at};
ghost use Rattle.mj_recovery.specs.Journal.{next_entry};
ghost use Rattle.mj_event.specs.Event.{IsEvent};
ghost use Rattle.mj_replay.specs.Pieces.{Reads, Refuses, EndsIn, InGrammar};
ghost use Rattle.mj_replay.specs.Replays.{Gives, RefusesJournal};
ghost use Rattle.mj_replay.specs.declared.refusal.JournalRefusal.TheVariants as refusal;

use crate::refusal::JournalRefusal;
use mj_base::Damage;
use mj_entry::{EntryRead, entry_read};
use mj_event::{EventRefusal, event_read};
use mj_recovery::LiveEvent;
use std::alloc::Global;

/// What the entries of a piece come to.
#[derive(Clone, Copy, Debug, PartialEq, Eq)]
pub enum Piece {
    /// The tail.
    Tail(u64),
    /// A place from which on there may be more than the piece has.
    More(u64),
}

pub fn refused(damage: Damage) -> JournalRefusal
    ensures { result ≡ refusal.Damage damage }
{
    JournalRefusal::Damage(damage)
}

// What the bytes from a position on begin with: an event and the position behind its entry, or nothing at the tail.
#[tactic(auto, using(crate::proofs::Envelope::whole_longer))]
fn read_next(
    alloc: Global,
    bytes: &[u8],
    at: u64,
    write: u64,
) -> Result<Option<(LiveEvent, u64)>, JournalRefusal>
    requires { at ≤ 2 ^ 62 }
    ensures is { Gives result (next_entry at write (entry_at bytes.now at)) }
    ensures cause { (before now : ℕ) → IfErr result (RefusesJournal before now) }
    ensures within { IfOk result (λ o. IfSome o (λ x. (at < x.1) × (x.1 ≤ at + length bytes.now))) }
    ensures written { IfOk result (λ o. IfNone o (write ≤ at)) }
    ensures grammar { IfOk result (λ o. IfSome o (λ x. IsEvent x.0.event)) }
{
    match entry_read(bytes, at) {
        EntryRead::Whole { payload, ends } => match event_read(alloc, payload) {
            Ok(event) => Ok(Some((LiveEvent { at, event }, ends))),
            Err(EventRefusal::BadEvent(wrong)) => Err(refused(Damage::BadEvent(at, wrong))),
            Err(EventRefusal::Memory) => Err(JournalRefusal::Memory),
        },
        EntryRead::Part if at < write => Err(refused(Damage::CutEntry(at))),
        EntryRead::Part => Ok(None),
        EntryRead::BadSentinel => Err(refused(Damage::BadSentinel(at))),
        EntryRead::BadLength(len) => Err(refused(Damage::BadLength(at, len))),
        EntryRead::BadStart(start) => Err(refused(Damage::BadStart(at, start))),
    }
}

// The bytes behind the first n.
fn behind(bytes: &[u8], n: usize) -> &[u8]
    requires { n ≤ length bytes.now }
    ensures { result.now ≡ drop n bytes.now }
{
    &bytes[n..]
}

/// Reads the entries of a piece up to the tail, and as long as so many bytes are left of it.
pub fn read_piece(
    alloc: Global,
    bytes: &[u8],
    at: u64,
    write: u64,
    keep: usize,
    events: &mut Vec<LiveEvent>,
) -> Result<Piece, JournalRefusal>
    requires below { at + length bytes.now ≤ 2 ^ 62 }
    requires grammar { InGrammar events.old.items }
    ensures told { IfOk result (Reads keep bytes.now at write events.old.items events.new.items) }
    ensures refused { IfErr result (Refuses keep bytes.now at write events.old.items) }
    ensures cause { (before now : ℕ) → IfErr result (RefusesJournal before now) }
    ensures ends { IfOk result (EndsIn keep bytes.now at write) }
    ensures grammar { OnOk result (InGrammar events.new.items) }
{
    let mut rest = bytes;
    let mut here = at;
    'entries: while keep <= rest.len() {
        let next = read_next(alloc, rest, here, write)?;
        match next {
            Some((event, ends)) => {
                events.push(event)?;
                rest = behind(rest, (ends - here) as usize);
                here = ends;
            }
            None => return Ok(Piece::Tail(here)),
        }
    }
    Ok(Piece::More(here))
}
