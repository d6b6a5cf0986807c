//! The live journal of a store.

ghost use Rattle.std.specs.Prelude.{◌≡◌, ◌^◌, ◌≤◌, ℕ, Some, Ok, IfOk, IfErr};
ghost use Rattle.mj_store.specs.State.{StoreState, contents};
ghost use Rattle.mj_store.specs.Moves.{Stays, Still};
ghost use Rattle.mj_recovery.specs.Journal.{live_journal};
ghost use Rattle.mj_layout.specs.Header.{IsHeader};
ghost use Rattle.mj_replay.specs.Pieces.{InGrammar};
ghost use Rattle.mj_replay.specs.Replays.{Gives, RefusesJournal};

use crate::entries::read_live;
use crate::header::read_header;
use crate::refusal::JournalRefusal;
use mj_base::RankNo;
use mj_recovery::LiveJournal;
use mj_store::ObjectStore;
use std::alloc::Global;

/// The header of a rank's journal, the events from its expire on and the tail behind them, or the first damage in them. It
/// reads the stream in pieces of bounded size, and submits nothing.
pub fn read_journal<S: ObjectStore>(
    alloc: Global,
    store: &mut S,
    rank: RankNo,
) -> Result<LiveJournal, JournalRefusal>
    ensures told { (s : StoreState) → S.state store.old ≡ Some s → Still s → Gives result (live_journal (contents s) rank) }
    ensures stays { Stays (S.state store.old) (S.state store.new) }

    // over every store
    ensures header { IfOk result (λ journal. IsHeader journal.header) }
    ensures grammar { IfOk result (λ journal. InGrammar journal.events) }
    ensures within { IfOk result (λ journal. (journal.header.expire ≤ journal.header.write) × (journal.header.write ≤ journal.tail) × (journal.tail ≤ 2 ^ 62)) }
    ensures same_list { S.unreported store.new ≡ S.unreported store.old }
    ensures cause { IfErr result (RefusesJournal (S.faults store.old) (S.faults store.new)) }
    ensures later { S.faults store.old ≤ S.faults store.new }
{
    let header = read_header(alloc, store, rank)?;
    let found = read_live(alloc, store, rank, &header)?;
    Ok(LiveJournal {
        header,
        events: found.events,
        tail: found.tail,
    })
}
