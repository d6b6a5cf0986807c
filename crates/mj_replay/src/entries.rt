//! The entries of a store's journal.

ghost use Rattle.std.specs.Prelude.{◌≡◌, ◌-◌, ◌≤◌, ◌<◌, ◌^◌, ℕ, Some, IfOk, IfErr, vec_len};
ghost use Rattle.mj_store.specs.State.{StoreState, contents};
ghost use Rattle.mj_store.specs.Moves.{Still};
ghost use Rattle.mj_probe.specs.Looks.{Looks};
ghost use Rattle.mj_recovery.specs.Journal.{beginning, is_beginning, live_entries};
ghost use Rattle.mj_recovery.specs.Stream.{stream, stream_of, probed_end};
ghost use Rattle.mj_replay.specs.Pieces.{entries_from, InGrammar};
ghost use Rattle.mj_replay.specs.Replays.{Gives, RefusesJournal, IsNoDamage};

use crate::piece::{Piece, read_piece, refused};
use crate::refusal::JournalRefusal;
use mj_base::{Damage, Items, RankNo};
use mj_event::Event;
use mj_layout::{Header, Layout};
use mj_probe::{RangeRefusal, probe_end, read_range};
use mj_recovery::Entries;
use mj_store::ObjectStore;
use std::alloc::Global;

/// The most bytes of a piece of the stream.
const PIECE: u64 = 4_194_304;

/// The most bytes of an entry.
const ENTRY: usize = 65_536;

// The bytes of a piece. Its end was probed, so that a hole below it is one that came since.
fn piece_bytes<S: ObjectStore>(
    alloc: Global,
    store: &mut S,
    rank: RankNo,
    layout: &Layout,
    from: u64,
    to: u64,
) -> Result<Vec<u8>, JournalRefusal>
    requires ordered { from ≤ to }
    requires below { to ≤ 2 ^ 62 }
    requires few { to - from ≤ 16777216 }
    ensures told { IfOk result (λ bytes. (s : StoreState) → S.state store.old ≡ Some s → Still s → bytes.items ≡ stream_of (contents s) rank layout.now (to - from) from) }
    ensures refused { IfErr result (λ why. (s : StoreState) → S.state store.old ≡ Some s → Still s → to ≤ probed_end (contents s) rank layout.now from → IsNoDamage why) }
    ensures whole { IfOk result (λ bytes. vec_len bytes ≡ to - from) }
    ensures looks { Looks (S.state store.old) (S.state store.new) (S.unreported store.old) (S.unreported store.new) (S.faults store.old) (S.faults store.new) }
    ensures cause { IfErr result (RefusesJournal (S.faults store.old) (S.faults store.new)) }
{
    match read_range(alloc, store, rank, layout, from, to) {
        Ok(bytes) => Ok(bytes),
        Err(RangeRefusal::Hole(at)) => Err(refused(Damage::Hole(at))),
        Err(RangeRefusal::Store(fault)) => Err(JournalRefusal::Store(fault)),
        Err(RangeRefusal::Memory) => Err(JournalRefusal::Memory),
    }
}

// How many bytes of a piece are left to the next: none of the last piece.
fn kept_back(to: u64, end: u64) -> usize
    ensures more { to < end → result ≡ 65536 }
    ensures last { end ≤ to → result ≡ 0 }
{
    if to < end { ENTRY } else { 0 }
}

// The entries from a position up to the end of the stream, piece by piece. The entry that a piece cuts is the first of the next.
fn read_entries<S: ObjectStore>(
    alloc: Global,
    store: &mut S,
    rank: RankNo,
    layout: &Layout,
    from: u64,
    end: u64,
    write: u64,
) -> Result<Entries, JournalRefusal>
    requires ordered { from ≤ end }
    requires below { end ≤ 2 ^ 62 }
    requires reached { write ≤ end }
    ensures told { (s : StoreState) → S.state store.old ≡ Some s → Still s → end ≡ probed_end (contents s) rank layout.now from → Gives result (entries_from (stream (contents s) rank layout.now from) from write) }
    ensures within { IfOk result (λ found. (write ≤ found.tail) × (found.tail ≤ end)) }
    ensures grammar { IfOk result (λ found. InGrammar found.events) }
    ensures looks { Looks (S.state store.old) (S.state store.new) (S.unreported store.old) (S.unreported store.new) (S.faults store.old) (S.faults store.new) }
    ensures cause { IfErr result (RefusesJournal (S.faults store.old) (S.faults store.new)) }
{
    let mut events = Vec::new(alloc);
    let mut here = from;
    'pieces: while here < end {
        let to = end.min(here + PIECE);
        let keep = kept_back(to, end);
        let bytes = piece_bytes(alloc, store, rank, layout, here, to)?;
        let piece = read_piece(alloc, &bytes, here, write, keep, &mut events)?;
        match piece {
            Piece::More(next) => here = next,
            Piece::Tail(tail) => {
                return Ok(Entries {
                    events: Items::from_vec(events),
                    tail,
                });
            }
        }
    }
    Ok(Entries {
        events: Items::from_vec(events),
        tail: here,
    })
}

// Whether a journal may begin with this event: a subtree map or a reset.
fn is_beginning(event: &Event) -> bool
    ensures { result ≡ is_beginning event.now }
{
    match event {
        Event::SubtreeMap(_) | Event::Reset => true,
        _ => false,
    }
}

/// The first event has to be a subtree map or a reset.
pub fn judge_first(found: Entries) -> Result<Entries, JournalRefusal>
    ensures told { Gives result (beginning found) }
    ensures same { IfOk result (λ entries. entries ≡ found) }
    ensures cause { (before now : ℕ) → IfErr result (RefusesJournal before now) }
{
    match found.events.as_slice() {
        [first, ..] if !is_beginning(&first.event) => {
            Err(refused(Damage::NoSubtreeMap(first.at)))
        }
        _ => Ok(found),
    }
}

/// Probes the end of the stream from the header's expire on, and reads the entries up to it.
pub fn read_live<S: ObjectStore>(
    alloc: Global,
    store: &mut S,
    rank: RankNo,
    header: &Header,
) -> Result<Entries, JournalRefusal>
    requires { header.now.expire < 2 ^ 62 }
    ensures told { (s : StoreState) → S.state store.old ≡ Some s → Still s → Gives result (live_entries (stream (contents s) rank header.now.layout header.now.expire) header.now.expire header.now.write) }
    ensures within { IfOk result (λ found. (header.now.write ≤ found.tail) × (found.tail ≤ 2 ^ 62)) }
    ensures grammar { IfOk result (λ found. InGrammar found.events) }
    ensures looks { Looks (S.state store.old) (S.state store.new) (S.unreported store.old) (S.unreported store.new) (S.faults store.old) (S.faults store.new) }
    ensures cause { IfErr result (RefusesJournal (S.faults store.old) (S.faults store.new)) }
{
    let end = match probe_end(alloc, store, rank, &header.layout, header.expire) {
        Ok(end) => end,
        Err(why) => return Err(JournalRefusal::from(why)),
    };
    if end < header.write {
        return Err(refused(Damage::Hole(end)));
    }
    let found = read_entries(
        alloc,
        store,
        rank,
        &header.layout,
        header.expire,
        end,
        header.write,
    )?;
    judge_first(found)
}
