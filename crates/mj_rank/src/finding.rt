//! What a mount finds in a store: its live journal, and the cells that the journal's events give over those of a formatted store.

ghost use Rattle.std.specs.Prelude.{◌≡◌, ◌≤◌, [], Some, IfOk, IfErr};
ghost use Rattle.mj_base.specs.Counts.{Rose};
ghost use Rattle.mj_store.specs.State.{StoreState, contents};
ghost use Rattle.mj_store.specs.Moves.{Stays, Still};
ghost use Rattle.mj_rank.specs.Refusals.{IsStoreFault};
ghost use Rattle.mj_rank.specs.Finding.{Finds, found_in};

use crate::found::Found;
use crate::refusal::MountRefusal;
use mj_base::limits::POSITIONS_END;
use mj_base::{Damage, RankNo};
use mj_replay::{Replayed, replay};
use mj_store::ObjectStore;
use std::alloc::Global;

/// Reads a rank's journal, and makes the cells of its events. Nothing is submitted.
pub fn read_found<S: ObjectStore>(
    alloc: Global,
    store: &mut S,
    number: RankNo,
) -> Result<Found, MountRefusal>
    ensures same_list { S.unreported store.new ≡ S.unreported store.old }
    ensures later { S.faults store.old ≤ S.faults store.new }
    ensures cause { IfErr result (λ e. IsStoreFault e → Rose (S.faults store.old) (S.faults store.new)) }
    ensures told { (s : StoreState) → S.state store.old ≡ Some s → Still s → Finds result (found_in number (contents s)) }
    ensures stays { Stays (S.state store.old) (S.state store.new) }
    ensures cells { IfOk result (λ found. found.cache.rank ≡ number) }
    ensures safe { IfOk result (λ found. found.cache.groups ≡ []) }
{
    let Replayed {
        header,
        tail,
        cache,
    } = replay(alloc, store, number)?;
    if tail < POSITIONS_END {
        Ok(Found {
            header,
            tail,
            cache,
        })
    } else {
        Err(MountRefusal::Damage(Damage::Unbuilt))
    }
}
