//! The live journal of a list of objects.

ghost use Rattle.std.specs.Prelude.{◌≡◌, ◌+◌, ◌≤◌, ◌^◌, length, IfOk};
ghost use Rattle.mj_recovery.specs.Journal.{live_entries, live_header, live_journal};
ghost use Rattle.mj_recovery.specs.Listed.{image_of};
ghost use Rattle.mj_replay.specs.Pieces.{entries_from, InGrammar};
ghost use Rattle.mj_replay.specs.Replays.{Gives};
ghost use Rattle.mj_recovery_tests.specs.Places.{place_of};

use crate::stream::{find, stream};
use mj_base::{Damage, Items, RankNo};
use mj_layout::{Header, HeaderRefusal, journal_object};
use mj_recovery::{Entries, LiveJournal};
use mj_replay::{JournalRefusal, Piece, judge_first, read_piece};
use mj_store::HeldObject;
use std::alloc::Global;

fn place_of(piece: Piece) -> u64
    ensures { result ≡ place_of piece }
{
    match piece {
        Piece::Tail(at) | Piece::More(at) => at,
    }
}

// The entries that the bytes from a position on are, up to the tail. They are read as one piece.
fn read_entries(alloc: Global, bytes: &[u8], at: u64, write: u64) -> Result<Entries, JournalRefusal>
    requires { at + length bytes.now ≤ 2 ^ 62 }
    ensures told { Gives result (entries_from bytes.now at write) }
    ensures grammar { IfOk result (λ found. InGrammar found.events) }
{
    let mut events = Vec::new(alloc);
    match read_piece(alloc, bytes, at, write, 0, &mut events) {
        Ok(piece) => Ok(Entries {
            events: Items::from_vec(events),
            tail: place_of(piece),
        }),
        Err(why) => Err(why),
    }
}

fn read_live(
    alloc: Global,
    bytes: &[u8],
    expire: u64,
    write: u64,
) -> Result<Entries, JournalRefusal>
    requires { expire + length bytes.now ≤ 2 ^ 62 }
    ensures told { Gives result (live_entries bytes.now expire write) }
    ensures grammar { IfOk result (λ found. InGrammar found.events) }
{
    let end = expire + bytes.len() as u64;
    if end < write {
        return Err(JournalRefusal::Damage(Damage::Hole(end)));
    }
    match read_entries(alloc, bytes, expire, write) {
        Ok(found) => judge_first(found),
        Err(why) => Err(why),
    }
}

#[tactic(auto, using(crate::proofs::Parts::header_expire))]
fn read_header(objects: &[HeldObject], rank: RankNo) -> Result<Header, JournalRefusal>
    ensures is { Gives result (live_header (image_of objects.now) rank) }
    ensures expire { IfOk result (λ h. h.expire ≤ 2 ^ 62) }
{
    let Some(object) = find(objects, &journal_object(rank, 0)) else {
        return Err(JournalRefusal::Damage(Damage::HeaderMissing));
    };
    match Header::read(object.bytes.as_slice()) {
        Ok(header) if header.format == 0 => Err(JournalRefusal::Damage(Damage::Legacy)),
        Ok(header) => Ok(header),
        Err(HeaderRefusal::HeaderBad(at)) => Err(JournalRefusal::Damage(Damage::HeaderBad(at))),
        Err(HeaderRefusal::HeaderOrder) => Err(JournalRefusal::Damage(Damage::HeaderOrder)),
    }
}

/// The live journal of these objects, or the first damage of its header and events.
pub fn read_journal(
    alloc: Global,
    objects: &[HeldObject],
    rank: RankNo,
) -> Result<LiveJournal, JournalRefusal>
    ensures told { Gives result (live_journal (image_of objects.now) rank) }
    ensures grammar { IfOk result (λ journal. InGrammar journal.events) }
{
    let header = match read_header(objects, rank) {
        Ok(header) => header,
        Err(why) => return Err(why),
    };
    let bytes = stream(alloc, objects, rank, &header.layout, header.expire)?;
    match read_live(alloc, &bytes, header.expire, header.write) {
        Ok(found) => Ok(LiveJournal {
            header,
            events: found.events,
            tail: found.tail,
        }),
        Err(why) => Err(why),
    }
}
