//! The writes of a group, all at once.

ghost use Rattle.std.specs.Prelude.{◌≡◌, ◌≤◌, ◌∷◌, map, MatchOption};
ghost use Rattle.mj_cells.specs.declared.cell.CellWrite.{CellWrite};
ghost use Rattle.mj_cells.specs.Table.{put_all};
ghost use Rattle.mj_tables.specs.Layered.{all_writes, HasRoom, ended, unended, NoneEnded};
ghost use Rattle.mj_tables.specs.Slots.{slots_of, safe_cells, rooms, all_projected, all_settled, AreLaid};
ghost use Rattle.mj_tables.specs.Listed.{KeepsThere};

use crate::group::Group;
use crate::listing::drop_absent;
use crate::slot::{Slot, project, settle};
use crate::there::There;
use mj_cells::{CellKey, CellValue, CellWrite};
use std::collections::{HashMap, VecDeque};

// Puts the values of a group over what its keys hold.
fn project_all(
    slots: &mut HashMap<CellKey, Slot>,
    ws: &[CellWrite],
    values: Vec<CellValue>,
    ends: u64,
)
    requires { values.items ≡ map (λ (w : CellWrite). w.value) ws.now }
    ensures { slots_of slots.new ≡ all_projected ends (slots_of slots.old) ws.now }
{
    let mut left = VecDeque::from(values);
    for w in ws {
        if let Some(value) = left.pop_front() {
            project(slots, &w.key, value, ends);
        }
    }
}

/// Puts a group over what its keys hold, whose set then has those of them that are there. `values` are those of its writes again.
pub fn project_group(
    slots: &mut HashMap<CellKey, Slot>,
    there: &mut There,
    ws: &[CellWrite],
    values: Vec<CellValue>,
    ends: u64,
)
    requires room { HasRoom (rooms (slots_of slots.old)) ws.now }
    requires values { values.items ≡ map (λ (w : CellWrite). w.value) ws.now }
    ensures slots { slots_of slots.new ≡ all_projected ends (slots_of slots.old) ws.now }
    ensures there { KeepsThere (slots_of slots.new) there.old ws.now there.new }
{
    project_all(slots, ws, values, ends);
    drop_absent(slots, there, ws);
}

/// Makes the values of a group the safe ones.
pub fn settle_all(slots: &mut HashMap<CellKey, Slot>, ws: Vec<CellWrite>, ends: u64)
    ensures { slots_of slots.new ≡ all_settled ends (slots_of slots.old) ws.items }
{
    for w in ws {
        let CellWrite { key, value } = w;
        settle(slots, &key, value, ends);
    }
}

// The first group, where it ends at or below the position.
fn pop_ended(groups: &mut VecDeque<Group>, upto: u64) -> Option<Group>
    ensures { MatchOption result ((groups.new.items ≡ groups.old.items) × NoneEnded upto groups.old.items) (λ g. (groups.old.items ≡ g ∷ groups.new.items) × (g.ends ≤ upto)) }
{
    let is_ended = match groups.front() {
        Some(group) => group.ends <= upto,
        None => false,
    };
    if is_ended { groups.pop_front() } else { None }
}

/// Makes the groups that end at or below the position safe.
pub fn settle_ended(slots: &mut HashMap<CellKey, Slot>, groups: &mut VecDeque<Group>, upto: u64)
    requires { AreLaid (slots_of slots.old) groups.old.items }
    ensures groups { groups.new.items ≡ unended upto groups.old.items }
    ensures safe { safe_cells (slots_of slots.new) ≡ put_all (safe_cells (slots_of slots.old)) (all_writes (ended upto groups.old.items)) }
    ensures rooms { rooms (slots_of slots.new) ≡ rooms (slots_of slots.old) }
    ensures laid { AreLaid (slots_of slots.new) groups.new.items }
{
    while let Some(group) = pop_ended(groups, upto) {
        let ends = group.ends;
        settle_all(slots, group.writes.into_vec(), ends);
    }
}
