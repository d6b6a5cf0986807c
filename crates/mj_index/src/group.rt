//! A group of writes over the layers, and the index that follows it.

ghost use Rattle.std.specs.Prelude.{◌≡◌, None, true, if◌then◌else◌, map, length, IfOk, OnOk, OnErr};
ghost use Rattle.mj_cells.specs.Table.{table_of, put_all};
ghost use Rattle.mj_tables.specs.Layered.{early_cells, EndBelow};
ghost use Rattle.mj_judge.specs.Own.{own_damage};
ghost use Rattle.mj_index.specs.Indexed.{IsIndexed};
ghost use Rattle.mj_index.specs.Grouped.{Gains, Stays, HasSpare};
ghost use Rattle.mj_index.specs.Following.{SameIndex};
ghost use Rattle.mj_index.specs.Changes.{change_of, changed_key};
ghost use Rattle.mj_index.specs.Turning.{turned};

use crate::change::{ChangeView, early_changes};
use crate::following::{drop_rooms, follow, reserve_rooms};
use crate::index::Index;
use crate::turn::{Turn, gentle_turn};
use crate::whole::next_index;
use mj_base::RankNo;
use mj_cells::{CellKey, CellWrite};
use mj_tables::Layers;
use std::alloc::{AllocError, Global};
use std::collections::VecDeque;

// Follows the changes, and then which directories they leave and lead to.
fn follow_turn(
    index: &mut Index,
    rank: RankNo,
    changes: &[ChangeView<'_>],
    keys: VecDeque<CellKey>,
    turn: &Turn,
)
    requires { keys.items ≡ map changed_key (map change_of changes.now) }
    ensures { SameIndex (turned rank (map change_of changes.now) turn.now.left.items turn.now.led.items index.old) index.new }
{
    follow(index, rank, changes, keys);
    index.set_dirs(&turn.left, false);
    index.set_dirs(&turn.led, true);
    drop_rooms(index, changes);
}

// Whether as many more can be counted.
fn has_spare(index: &Index, more: usize) -> bool
    ensures { result ≡ true → HasSpare index.now more }
{
    let most = u64::MAX - more as u64;
    index.dentries <= most && index.opens <= most && index.sessions <= most
}

// Follows the writes one by one where they are a gentle group. Where they are not, the index stays, and the answer is no.
fn follow_gently(
    alloc: Global,
    rank: RankNo,
    layers: &Layers,
    index: &mut Index,
    ws: &[CellWrite],
) -> Result<bool, AllocError>
    requires sound { own_damage rank (table_of (early_cells layers.now)) ≡ None }
    requires tree { own_damage rank (table_of (put_all (early_cells layers.now) ws.now)) ≡ None }
    requires known { IsIndexed rank (early_cells layers.now) index.old }
    ensures ok { IfOk result (λ followed. IsIndexed rank (if followed then put_all (early_cells layers.now) ws.now else early_cells layers.now) index.new) }
    ensures err { OnErr result (IsIndexed rank (early_cells layers.now) index.new) }
{
    let changes = early_changes(alloc, layers, ws)?;
    match gentle_turn(alloc, &index.known, layers, ws, &changes)? {
        Some(turn) if has_spare(index, ws.len()) => {
            let keys = reserve_rooms(alloc, index, ws)?;
            follow_turn(index, rank, &changes, keys, &turn);
            Ok(true)
        }
        _ => Ok(false),
    }
}

// Makes the index stand for the cells with the writes, which it follows where it can, and is built anew where it cannot.
fn bring_along(
    alloc: Global,
    rank: RankNo,
    layers: &Layers,
    index: &mut Index,
    ws: &[CellWrite],
) -> Result<(), AllocError>
    requires sound { own_damage rank (table_of (early_cells layers.now)) ≡ None }
    requires tree { own_damage rank (table_of (put_all (early_cells layers.now) ws.now)) ≡ None }
    requires known { IsIndexed rank (early_cells layers.now) index.old }
    ensures ok { OnOk result (IsIndexed rank (put_all (early_cells layers.now) ws.now) index.new) }
    ensures err { OnErr result (IsIndexed rank (early_cells layers.now) index.new) }
{
    if !follow_gently(alloc, rank, layers, index, ws)? {
        *index = next_index(alloc, rank, layers, ws)?;
    }
    Ok(())
}

/// Adds a group. The index follows it write by write where no directory that has dentries begins or ceases to be reachable with it,
/// and is built anew where one does, and where a key is written twice. After an error all is as before.
pub fn project(
    alloc: Global,
    rank: RankNo,
    layers: &mut Layers,
    index: &mut Index,
    ws: Vec<CellWrite>,
    ends: u64,
) -> Result<(), AllocError>
    requires sound { own_damage rank (table_of (early_cells layers.old)) ≡ None }
    requires tree { own_damage rank (table_of (put_all (early_cells layers.old) ws.items)) ≡ None }
    requires known { IsIndexed rank (early_cells layers.old) index.old }
    requires above { EndBelow ends layers.old.groups }
    ensures ok { OnOk result (Gains ws.items ends layers.old layers.new) }
    ensures err { OnErr result (Stays layers.old layers.new) }
    ensures known { IsIndexed rank (early_cells layers.new) index.new }
{
    let writes = ws.as_slice();
    let values = layers.reserve(alloc, writes)?;
    bring_along(alloc, rank, layers, index, writes)?;
    layers.project(ws, values, ends);
    Ok(())
}
