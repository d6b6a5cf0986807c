//! The bytes of a range of a journal's stream.

ghost use Rattle.std.specs.Prelude.{◌≡◌, ℕ, ◌-◌, ◌^◌, ◌<◌, ◌≤◌, Some, IfOk, IfErr, vec_len};
ghost use Rattle.mj_store.specs.State.{StoreState, contents};
ghost use Rattle.mj_store.specs.Moves.{Still, Stays};
ghost use Rattle.mj_recovery.specs.Stream.{stream_of};
ghost use Rattle.mj_probe.specs.Ranges.{RefusesRange, EndsAtHole};

use crate::refusal::RangeRefusal;
use mj_base::RankNo;
use mj_layout::{Layout, journal_object};
use mj_store::ObjectStore;
use std::alloc::Global;

/// The bytes of `[from, to)`, or the least position there that has none. It reads each stripe unit once.
pub fn read_range<S: ObjectStore>(
    alloc: Global,
    store: &mut S,
    rank: RankNo,
    layout: &Layout,
    from: u64,
    to: u64,
) -> Result<Vec<u8>, RangeRefusal>
    requires ordered { from ≤ to }
    requires below { to ≤ 2 ^ 62 }
    requires few { to - from ≤ 16777216 }
    ensures told { IfOk result (λ bytes. (s : StoreState) → S.state store.old ≡ Some s → Still s → bytes.items ≡ stream_of (contents s) rank layout.now (to - from) from) }
    ensures hole { IfErr result (λ why. (s : StoreState) → S.state store.old ≡ Some s → Still s → EndsAtHole (contents s) rank layout.now from why) }
    ensures stays { Stays (S.state store.old) (S.state store.new) }

    // over every store
    ensures whole { IfOk result (λ bytes. vec_len bytes ≡ to - from) }
    ensures same_list { S.unreported store.new ≡ S.unreported store.old }
    ensures cause { IfErr result (RefusesRange (S.faults store.old) (S.faults store.new) from to) }
    ensures later { S.faults store.old ≤ S.faults store.new }
{
    let mut bytes = Vec::with_capacity(alloc, (to - from) as usize)?;
    let mut at = from;
    'units: while at < to {
        let extent = layout.extent(at, to);
        let piece = store.read(
            alloc,
            &journal_object(rank, extent.index),
            extent.offset as u64,
            extent.len,
        )?;
        bytes.extend_from_slice(&piece)?;
        at += piece.len() as u64;
        if piece.len() < extent.len as usize {
            return Err(RangeRefusal::Hole(at));
        }
    }
    Ok(bytes)
}
