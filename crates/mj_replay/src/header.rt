//! The header of a store's journal.

ghost use Rattle.std.specs.Prelude.{◌≡◌, ◌≤◌, ◌<◌, ◌^◌, ℕ, List, Some, IfOk, IfErr};
ghost use Rattle.mj_store.specs.State.{StoreState, contents};
ghost use Rattle.mj_store.specs.Moves.{Still};
ghost use Rattle.mj_probe.specs.Looks.{Looks};
ghost use Rattle.mj_recovery.specs.Journal.{live_header, of_format};
ghost use Rattle.mj_layout.specs.Header.{header_of, IsHeader};
ghost use Rattle.mj_replay.specs.Replays.{Gives, RefusesJournal};
ghost use Rattle.mj_replay.specs.Fronts.{IsFrontOf};

use crate::piece::refused;
use crate::refusal::JournalRefusal;
use mj_base::{Damage, RankNo};
use mj_layout::{Header, HeaderRefusal, journal_object};
use mj_store::ObjectStore;
use std::alloc::Global;

/// One byte more than a header has.
const HEADER_BYTES: u32 = 70;

// The header of an object with so many bytes, by the first of them.
fn judged(bytes: &[u8], size: u64) -> Result<Header, JournalRefusal>
    ensures told { (all : List ℕ) → IsFrontOf all bytes.now size → Gives result (of_format (header_of all)) }
    ensures cause { (before now : ℕ) → IfErr result (RefusesJournal before now) }
    ensures header { IfOk result IsHeader }
    ensures write { IfOk result (λ h. (h.expire ≤ h.write) × (h.write < 2 ^ 62)) }
{
    match Header::read(bytes) {
        Ok(header) if header.format == 0 => Err(refused(Damage::Legacy)),
        Ok(header) => Ok(header),
        Err(HeaderRefusal::HeaderBad(at)) if at == HEADER_BYTES as u64 => {
            Err(refused(Damage::HeaderBad(size)))
        }
        Err(HeaderRefusal::HeaderBad(at)) => Err(refused(Damage::HeaderBad(at))),
        Err(HeaderRefusal::HeaderOrder) => Err(refused(Damage::HeaderOrder)),
    }
}

/// Reads the header's object.
pub fn read_header<S: ObjectStore>(
    alloc: Global,
    store: &mut S,
    rank: RankNo,
) -> Result<Header, JournalRefusal>
    ensures told { (s : StoreState) → S.state store.old ≡ Some s → Still s → Gives result (live_header (contents s) rank) }
    ensures header { IfOk result IsHeader }
    ensures write { IfOk result (λ h. (h.expire ≤ h.write) × (h.write < 2 ^ 62)) }
    ensures looks { Looks (S.state store.old) (S.state store.new) (S.unreported store.old) (S.unreported store.new) (S.faults store.old) (S.faults store.new) }
    ensures cause { IfErr result (RefusesJournal (S.faults store.old) (S.faults store.new)) }
{
    let name = journal_object(rank, 0);
    let Some(size) = store.size(&name)? else {
        return Err(refused(Damage::HeaderMissing));
    };
    let bytes = store.read(alloc, &name, 0, HEADER_BYTES)?;
    judged(&bytes, size)
}
