//! The cells that objects store and events write, one over the other.

ghost use Rattle.std.specs.Prelude.{◌≡◌, filter_map, IfOk, OnOk};
ghost use Rattle.std.specs.List.{flat_map};
ghost use Rattle.mj_cells.specs.Cell.{WriteFits};
ghost use Rattle.mj_cells.specs.Table.{table_of, put, overlay};
ghost use Rattle.mj_recovery.specs.Journal.{journal_writes};
ghost use Rattle.mj_recovery.specs.Stored.{head_cells};
ghost use Rattle.mj_recovery.specs.Recovered.{is_of_rank};
ghost use Rattle.mj_recovery.specs.Listed.{listed_cells, listed_pairs, all_listed};
ghost use Rattle.mj_event.specs.Event.{IsEvent};
ghost use Rattle.mj_event.specs.Writes.{writes_of};
ghost use Rattle.mj_replay.specs.Pieces.{InGrammar};

use crate::stored::{head_cell, pair_cell};
use mj_base::{Items, ObjectName, RankNo};
use mj_cells::CellWrite;
use mj_event::writes;
use mj_recovery::LiveEvent;
use mj_store::{HeldObject, Pair};
use mj_tables::SafeCells;
use std::alloc::{AllocError, Global};

// Whether an object is not a table of another rank.
fn is_of_rank(rank: RankNo, name: &ObjectName) -> bool
    ensures { result ≡ is_of_rank rank name.now }
{
    match name {
        ObjectName::File { .. } => true,
        ObjectName::InoTable(r) | ObjectName::SessionMap(r) => *r == rank,
    }
}

// Writes a cell over what was written before.
fn put_cell(cells: &mut SafeCells, w: CellWrite) -> Result<(), AllocError>
    requires { WriteFits w }
    ensures { OnOk result (table_of cells.new ≡ put (table_of cells.old) w) }
{
    cells.put(w)?;
    Ok(())
}

fn put_head(
    cells: &mut SafeCells,
    name: &ObjectName,
    head: &Option<Items<u8>>,
) -> Result<(), AllocError>
    ensures { OnOk result (table_of cells.new ≡ overlay (table_of cells.old) (head_cells name.now head.now)) }
{
    if let Some(head) = head {
        if let Some(w) = head_cell(name, head.as_slice()) {
            put_cell(cells, w)?;
        }
    }
    Ok(())
}

fn put_pairs(
    alloc: Global,
    cells: &mut SafeCells,
    name: &ObjectName,
    pairs: &[Pair],
) -> Result<(), AllocError>
    ensures { OnOk result (table_of cells.new ≡ overlay (table_of cells.old) (listed_pairs name.now pairs.now)) }
{
    for pair in pairs {
        if let Some(w) = pair_cell(alloc, name, pair)? {
            put_cell(cells, w)?;
        }
    }
    Ok(())
}

#[tactic(auto, using(mj_recovery::proofs::Gathered::overlay_both, crate::proofs::Gathered::overlay_after))]
fn put_object(
    alloc: Global,
    cells: &mut SafeCells,
    rank: RankNo,
    object: &HeldObject,
) -> Result<(), AllocError>
    ensures { OnOk result (table_of cells.new ≡ overlay (table_of cells.old) (listed_cells rank object.now)) }
{
    if is_of_rank(rank, &object.name) {
        put_head(cells, &object.name, &object.head)?;
        put_pairs(alloc, cells, &object.name, object.pairs.as_slice())?;
    }
    Ok(())
}

/// Writes the cells that the objects store.
#[tactic(auto, using(mj_recovery::proofs::Gathered::overlay_both, crate::proofs::Gathered::overlay_after))]
pub fn put_objects(
    alloc: Global,
    cells: &mut SafeCells,
    rank: RankNo,
    objects: &[HeldObject],
) -> Result<(), AllocError>
    ensures { OnOk result (table_of cells.new ≡ overlay (table_of cells.old) (all_listed rank objects.now)) }
{
    for object in objects {
        put_object(alloc, cells, rank, object)?;
    }
    Ok(())
}

fn put_event(alloc: Global, cells: &mut SafeCells, e: &LiveEvent) -> Result<(), AllocError>
    requires { IsEvent e.now.event }
    ensures { OnOk result (table_of cells.new ≡ overlay (table_of cells.old) (writes_of e.now.event)) }
{
    let ws = writes(alloc, &e.event)?;
    cells.put_all(ws)?;
    Ok(())
}

/// Writes the cells that the events write.
#[tactic(auto, using(mj_recovery::proofs::Gathered::overlay_both, crate::proofs::Gathered::overlay_after))]
pub fn put_events(
    alloc: Global,
    cells: &mut SafeCells,
    events: &[LiveEvent],
) -> Result<(), AllocError>
    requires { InGrammar events.now }
    ensures { OnOk result (table_of cells.new ≡ overlay (table_of cells.old) (journal_writes events.now)) }
{
    for e in events {
        put_event(alloc, cells, e)?;
    }
    Ok(())
}
