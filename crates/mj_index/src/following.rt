//! How an index follows writes.

ghost use Rattle.std.specs.Prelude.{◌≡◌, map, IfOk, OnOk};
ghost use Rattle.mj_cells.specs.declared.cell.CellWrite.{CellWrite};
ghost use Rattle.mj_index.specs.Following.{taken, SameIndex, HasRoom};
ghost use Rattle.mj_index.specs.Changes.{change_of, changed_key, cell_out, all_changed};

use crate::change::ChangeView;
use crate::index::Index;
use mj_base::RankNo;
use mj_cells::{CellKey, CellWrite};
use std::alloc::{AllocError, Global};
use std::collections::VecDeque;

// The keys of the writes again.
fn copy_keys(alloc: Global, ws: &[CellWrite]) -> Result<VecDeque<CellKey>, AllocError>
    ensures { IfOk result (λ keys. keys.items ≡ map (λ (w : CellWrite). w.key) ws.now) }
{
    let mut keys = VecDeque::new(alloc);
    for w in ws {
        let key = w.key.copy(alloc)?;
        keys.push_back(key)?;
    }
    Ok(keys)
}

fn make_room(index: &mut Index, ws: &[CellWrite]) -> Result<(), AllocError>
    ensures same { SameIndex index.old index.new }
    ensures room { OnOk result (HasRoom index.new.known ws.now) }
{
    for w in ws {
        index.make_room_for(&w.key, &w.value)?;
    }
    Ok(())
}

/// Makes all room that following these writes takes, and gives their keys again. What is known stays.
pub fn reserve_rooms(
    alloc: Global,
    index: &mut Index,
    ws: &[CellWrite],
) -> Result<VecDeque<CellKey>, AllocError>
    ensures same { SameIndex index.old index.new }
    ensures room { OnOk result (HasRoom index.new.known ws.now) }
    ensures keys { IfOk result (λ keys. keys.items ≡ map (λ (w : CellWrite). w.key) ws.now) }
{
    make_room(index, ws)?;
    copy_keys(alloc, ws)
}

// Takes out what the key of a change said before.
fn take_before(index: &mut Index, rank: RankNo, change: &ChangeView<'_>)
    ensures { index.new ≡ taken rank (cell_out (change_of change.now)) index.old }
{
    match change.before {
        Some(value) => index.take_cell(rank, &change.write.key, value),
        None => {}
    }
}

/// Takes out what the keys said before, and puts in what the writes say. `keys` are those of the writes, and have room.
pub fn follow(index: &mut Index, rank: RankNo, changes: &[ChangeView<'_>], keys: VecDeque<CellKey>)
    requires { keys.items ≡ map changed_key (map change_of changes.now) }
    ensures { index.new ≡ all_changed rank (map change_of changes.now) index.old }
{
    let mut left = keys;
    for change in changes {
        take_before(index, rank, change);
        if let Some(key) = left.pop_front() {
            index.put_cell(rank, key, &change.write.value);
        }
    }
}

/// Gives up the room of inodes that the writes touch and of which nothing is known.
pub fn drop_rooms(index: &mut Index, changes: &[ChangeView<'_>])
    ensures { SameIndex index.old index.new }
{
    for change in changes {
        let write = change.write;
        index.drop_room_for(&write.key, &write.value);
        if let Some(before) = change.before {
            index.drop_room_for(&write.key, before);
        }
    }
}
