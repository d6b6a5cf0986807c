//! The least position of a journal that has no byte on the store.

ghost use Rattle.std.specs.Prelude.{◌≡◌, ℕ, ◌+◌, ◌*◌, ◌^◌, ◌<◌, ◌≤◌, Some, IfOk, IfErr};
ghost use Rattle.mj_store.specs.State.{StoreState, contents};
ghost use Rattle.mj_store.specs.Moves.{Still, Stays};
ghost use Rattle.mj_store.specs.Causes.{IsCounted, RefusesRead};
ghost use Rattle.mj_recovery.specs.Stream.{probed_end};
ghost use Rattle.mj_probe.specs.Looks.{Looks};
ghost use Rattle.mj_probe.specs.Missing.{IsLeastBehind, IsLeastMissing};

use crate::look::size_of;
use mj_base::RankNo;
use mj_base::limits::POSITIONS_END;
use mj_layout::{Layout, Spot};
use mj_store::{ObjectStore, ReadRefusal, StoreFault};
use std::alloc::Global;

/// Where the stream from a position on ends: at the least position at or above it whose offset is not below its object's
/// size, and at 2^62 where there is none below that. It asks for the sizes of the objects from the position's set to
/// the end's set, each once, and takes no memory.
pub fn probe_end<S: ObjectStore>(
    _alloc: Global,
    store: &mut S,
    rank: RankNo,
    layout: &Layout,
    from: u64,
) -> Result<u64, ReadRefusal>
    requires { from < 2 ^ 62 }
    ensures told { IfOk result (λ end. (s : StoreState) → S.state store.old ≡ Some s → Still s → end ≡ probed_end (contents s) rank layout.now from) }
    ensures stays { Stays (S.state store.old) (S.state store.new) }

    // over every store
    ensures within { IfOk result (λ end. (from ≤ end) × (end ≤ 2 ^ 62)) }
    ensures same_list { S.unreported store.new ≡ S.unreported store.old }
    ensures cause { IfErr result (RefusesRead (S.faults store.old) (S.faults store.new)) }
    ensures later { S.faults store.old ≤ S.faults store.new }
{
    match least_missing(store, rank, layout, from) {
        Ok(end) => Ok(end),
        Err(fault) => Err(ReadRefusal::Failed(fault)),
    }
}

// The same, set by set.
fn least_missing<S: ObjectStore>(
    store: &mut S,
    rank: RankNo,
    layout: &Layout,
    from: u64,
) -> Result<u64, StoreFault>
    requires { from < 2 ^ 62 }
    ensures told { IfOk result (λ end. (s : StoreState) → S.state store.old ≡ Some s → Still s → end ≡ probed_end (contents s) rank layout.now from) }
    ensures within { IfOk result (λ end. (from ≤ end) × (end ≤ 2 ^ 62)) }
    ensures looks { Looks (S.state store.old) (S.state store.new) (S.unreported store.old) (S.unreported store.new) (S.faults store.old) (S.faults store.new) }
    ensures cause { IfErr result (IsCounted (S.faults store.old) (S.faults store.new)) }
{
    layout.is_sound();
    let period = layout.period();
    for set in from / period..(POSITIONS_END - 1) / period + 1 {
        let at = least_in_set(store, rank, layout, set, from)?;
        if at < POSITIONS_END {
            return Ok(at);
        }
    }
    Ok(POSITIONS_END)
}

// The least position of a set that has no byte, from one on.
fn least_in_set<S: ObjectStore>(
    store: &mut S,
    rank: RankNo,
    layout: &Layout,
    set: u64,
    from: u64,
) -> Result<u64, StoreFault>
    requires low { set * layout.now.sc ≤ 2 ^ 62 }
    requires below { from ≤ 2 ^ 62 }
    ensures told { IfOk result (λ at. (s : StoreState) → S.state store.old ≡ Some s → Still s → IsLeastMissing (contents s) rank layout.now from (set * layout.now.sc) (set * layout.now.sc + layout.now.sc) at) }
    ensures within { IfOk result (λ at. (from ≤ at) × (at ≤ 2 ^ 62)) }
    ensures looks { Looks (S.state store.old) (S.state store.new) (S.unreported store.old) (S.unreported store.new) (S.faults store.old) (S.faults store.new) }
    ensures cause { IfErr result (IsCounted (S.faults store.old) (S.faults store.new)) }
{
    let sc = layout.sc() as u64;
    let first = set * sc;
    let mut least = POSITIONS_END;
    for index in first..first + sc {
        least = least.min(least_in_object(store, rank, layout, index, from)?);
    }
    Ok(least)
}

// The least position of an object that has no byte, from one on.
fn least_in_object<S: ObjectStore>(
    store: &mut S,
    rank: RankNo,
    layout: &Layout,
    index: u64,
    from: u64,
) -> Result<u64, StoreFault>
    requires { from ≤ 2 ^ 62 }
    ensures told { IfOk result (λ at. (s : StoreState) → S.state store.old ≡ Some s → Still s → IsLeastMissing (contents s) rank layout.now from index (index + 1) at) }
    ensures within { IfOk result (λ at. (from ≤ at) × (at ≤ 2 ^ 62)) }
    ensures looks { Looks (S.state store.old) (S.state store.new) (S.unreported store.old) (S.unreported store.new) (S.faults store.old) (S.faults store.new) }
    ensures cause { IfErr result (IsCounted (S.faults store.old) (S.faults store.new)) }
{
    let size = size_of(store, rank, index)?;
    Ok(least_behind(layout, index, size, from))
}

// The least position that stands in an object behind so many bytes, from one on.
fn least_behind(layout: &Layout, index: u64, size: u64, from: u64) -> u64
    requires { from ≤ 2 ^ 62 }
    ensures { IsLeastBehind layout.now index size from result }
{
    layout.is_sound();
    let os = layout.os();
    let held = size.min(os as u64) as u32;
    let offset = layout.front_below(index, from).max(held);
    let last = layout.front_below(index, POSITIONS_END).min(os);
    if last <= offset {
        return POSITIONS_END;
    }
    layout.position_of(Spot { index, offset })
}
