//! What a rank's journal comes to, as a cache.

ghost use Rattle.std.specs.Prelude.{◌≡◌, ◌≤◌, ◌^◌, ℕ, [], Some, IfOk, IfErr};
ghost use Rattle.mj_store.specs.State.{StoreState, contents};
ghost use Rattle.mj_store.specs.Moves.{Stays, Still};
ghost use Rattle.mj_layout.specs.Header.{IsHeader};
ghost use Rattle.mj_replay.specs.Pieces.{InGrammar};
ghost use Rattle.mj_replay.specs.Replays.{RefusesJournal};
ghost use Rattle.mj_replay.specs.Replayed.{Replays, replayed_of, replayed_in, is_served};

use crate::journal::read_journal;
use crate::overlaid::lay_events;
use crate::piece::refused;
use crate::refusal::JournalRefusal;
use mj_base::{Damage, RankNo};
use mj_cache::{Cache, CacheRefusal};
use mj_layout::Header;
use mj_recovery::LiveJournal;
use mj_store::ObjectStore;
use std::alloc::Global;

/// What a rank's journal comes to over the cells of a formatted store: the header, where the journal ends, and the cells as a cache.
#[derive(Drop)]
pub struct Replayed {
    pub header: Header,
    pub tail: u64,
    pub cache: Cache,
}

/// Reads a rank's journal, and lays what its events write over the cells of a formatted store. It submits nothing. What was
/// expired, and a table without a tree, is told as not built. The time is that of the journal's bytes and of a look-up for each write.
pub fn replay<S: ObjectStore>(
    alloc: Global,
    store: &mut S,
    rank: RankNo,
) -> Result<Replayed, JournalRefusal>
    ensures told { (s : StoreState) → S.state store.old ≡ Some s → Still s → Replays rank result (replayed_in rank (contents s)) }
    ensures stays { Stays (S.state store.old) (S.state store.new) }

    // over every store
    ensures header { IfOk result (λ x. IsHeader x.header) }
    ensures within { IfOk result (λ x. (x.header.expire ≤ x.header.write) × (x.header.write ≤ x.tail) × (x.tail ≤ 2 ^ 62)) }
    ensures begun { IfOk result (λ x. (x.cache.rank ≡ rank) × (x.cache.groups ≡ [])) }
    ensures same_list { S.unreported store.new ≡ S.unreported store.old }
    ensures cause { IfErr result (RefusesJournal (S.faults store.old) (S.faults store.new)) }
    ensures later { S.faults store.old ≤ S.faults store.new }
{
    let journal = read_journal(alloc, store, rank)?;
    replay_journal(alloc, rank, journal)
}

// What a journal comes to over the cells of a formatted store.
fn replay_journal(
    alloc: Global,
    rank: RankNo,
    journal: LiveJournal,
) -> Result<Replayed, JournalRefusal>
    requires header { IsHeader journal.header }
    requires within { (journal.header.expire ≤ journal.header.write) × (journal.header.write ≤ journal.tail) × (journal.tail ≤ 2 ^ 62) }
    requires grammar { InGrammar journal.events }
    ensures told { Replays rank result (replayed_of rank journal) }
    ensures header { IfOk result (λ x. IsHeader x.header) }
    ensures within { IfOk result (λ x. (x.header.expire ≤ x.header.write) × (x.header.write ≤ x.tail) × (x.tail ≤ 2 ^ 62)) }
    ensures begun { IfOk result (λ x. (x.cache.rank ≡ rank) × (x.cache.groups ≡ [])) }
    ensures cause { (before now : ℕ) → IfErr result (RefusesJournal before now) }
{
    // a rank is at most 15
    let _number = rank.number();
    if !is_served(&journal) {
        return Err(refused(Damage::Unbuilt));
    }
    let LiveJournal {
        header,
        events,
        tail,
    } = journal;
    let found = lay_events(alloc, rank, events.into_vec())?;
    if !found.lumps.are_known(found.next_ino()) {
        return Err(refused(Damage::Unbuilt));
    }
    match Cache::new(alloc, found.cells, rank) {
        Ok(cache) => Ok(Replayed {
            header,
            tail,
            cache,
        }),
        Err(CacheRefusal::NotTree(_)) => Err(refused(Damage::Unbuilt)),
        Err(CacheRefusal::Memory) => Err(JournalRefusal::Memory),
    }
}

// Whether nothing was expired.
fn is_served(journal: &LiveJournal) -> bool
    ensures { result ≡ is_served journal.now }
{
    journal.header.expire == journal.header.layout.period()
}
