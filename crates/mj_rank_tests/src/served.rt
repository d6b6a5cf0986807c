//! A rank's cache that is asked request by request.

ghost use Rattle.std.specs.Prelude.{◌≡◌, [], Some, IfOk, OnOk};
ghost use Rattle.std.specs.Option.{option_copied};
ghost use Rattle.mj_tree.specs.Request.{IsRequest};
ghost use Rattle.mj_event.specs.declared.Event.{Event};
ghost use Rattle.mj_cache.specs.Cached.{early_table, early_tree};
ghost use Rattle.mj_delta.specs.Steps.{GivesTree};

use mj_base::RankNo;
use mj_cache::Cache;
use mj_event::{Event, writes};
use mj_plan::{new_cells, plan};
use mj_tables::SafeCells;
use mj_tree::{ClientRequest, Reply};
use std::alloc::Global;
use std::test::Fail;

/// The cache of a new rank.
pub fn begin(alloc: Global) -> Result<Cache, Fail>
    ensures { IfOk result (λ cache. cache.groups ≡ []) }
{
    let rank = RankNo::new(0).ok_or("a rank")?;
    let cells = new_cells(alloc, rank)?;
    let cells = SafeCells::of_table(alloc, cells)?;
    let cache = Cache::new(alloc, cells, rank)?;
    Ok(cache)
}

// Lays the writes of an event over the cache, as a group that is safe at once.
fn carry_out(alloc: Global, cache: &mut Cache, r: &ClientRequest, event: &Event) -> Result<(), Fail>
    requires gives { GivesTree cache.old.rank (early_table cache.old) (early_tree cache.old) r.now event.now }
    requires idle { cache.old.groups ≡ [] }
    ensures { OnOk result (cache.new.groups ≡ []) }
{
    let ws = writes(alloc, event)?;
    cache.project(alloc, ws, 1)?;
    cache.make_safe(1);
    Ok(())
}

fn carry_if(
    alloc: Global,
    cache: &mut Cache,
    r: &ClientRequest,
    event: Option<&Event>,
) -> Result<(), Fail>
    requires gives { (e : Event) → option_copied event ≡ Some e → GivesTree cache.old.rank (early_table cache.old) (early_tree cache.old) r.now e }
    requires idle { cache.old.groups ≡ [] }
    ensures { OnOk result (cache.new.groups ≡ []) }
{
    match event {
        Some(event) => carry_out(alloc, cache, r, event),
        None => Ok(()),
    }
}

/// Asks the cache for a reply, and lays the event over it.
pub fn ask(alloc: Global, cache: &mut Cache, r: &ClientRequest) -> Result<Reply, Fail>
    requires fits { IsRequest r.now }
    requires idle { cache.old.groups ≡ [] }
    ensures { OnOk result (cache.new.groups ≡ []) }
{
    let planned = plan(alloc, cache, r)?;
    carry_if(alloc, cache, r, planned.event.as_ref())?;
    Ok(planned.reply)
}
