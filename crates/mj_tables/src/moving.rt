//! The cells of a table as slots.

ghost use Rattle.std.specs.Prelude.{◌≡◌, IfOk};
ghost use Rattle.mj_tables.specs.Slots.{slots_of, safe_slots, Moves};

use crate::slot::Slot;
use mj_cells::{CellKey, CellTable};
use std::alloc::{AllocError, Global};
use std::collections::HashMap;

// Moves the least cell, where there is one.
fn move_cell(
    alloc: Global,
    table: &mut CellTable,
    slots: &mut HashMap<CellKey, Slot>,
) -> Result<bool, AllocError>
    ensures { IfOk result (Moves table.old (slots_of slots.old) table.new (slots_of slots.new)) }
{
    let Some(cell) = table.next_after(None) else {
        return Ok(false);
    };
    let key = cell.key.copy(alloc)?;
    let value = cell.value.copy(alloc)?;
    table.drop_key(&key);
    let slot = Slot {
        safe: Some(value),
        ahead: None,
    };
    slots.insert(key, slot)?;
    Ok(true)
}

/// All cells of a table, cell by cell, so that no more than one of them is held twice.
pub fn slots_from(alloc: Global, mut table: CellTable) -> Result<HashMap<CellKey, Slot>, AllocError>
    ensures { IfOk result (λ m. slots_of m ≡ safe_slots table) }
{
    let mut slots = HashMap::new(alloc);
    while move_cell(alloc, &mut table, &mut slots)? {}
    Ok(slots)
}
