//! Keys whose early values are there, and their cells.

ghost use Rattle.std.specs.Prelude.{◌≡◌, OnOk};
ghost use Rattle.std.specs.Option.{option_copied, option_map};
ghost use Rattle.mj_cells.specs.Next.{cell_of, first_of};
ghost use Rattle.mj_tables.specs.Slots.{slots_of};
ghost use Rattle.mj_tables.specs.Listed.{there_at, there_along, Adds, AreLast, Keeps, KeepsThere, AllStay};

use crate::slot::{Slot, is_there};
use crate::there::There;
use mj_cells::{CellKey, CellValue, CellView, CellWrite};
use std::alloc::{AllocError, Global};
use std::collections::HashMap;
use std::collections::btree_set::Range;

/// The early value of a key, where it is neither gone nor null.
pub fn there_at<'a>(slots: &'a HashMap<CellKey, Slot>, key: &CellKey) -> Option<&'a CellValue>
    ensures { option_copied result ≡ there_at (slots_of slots.now) key.now }
{
    match slots.get(key) {
        Some(slot) => slot.there(),
        None => None,
    }
}

/// The first of these keys that is there, with its value.
pub fn first_there<'a>(
    slots: &'a HashMap<CellKey, Slot>,
    keys: Range<'a, CellKey>,
) -> Option<CellView<'a>>
    ensures { option_map cell_of result ≡ first_of (there_along (slots_of slots.now) keys.entry) }
{
    for key in keys {
        if let Some(value) = there_at(slots, key) {
            return Some(CellView { key, value });
        }
    }
    None
}

/// Adds a key, which needs no memory where it stands in the set already.
pub fn add_key(alloc: Global, there: &mut There, key: &CellKey) -> Result<(), AllocError>
    ensures ok { OnOk result (Adds there.old key.now there.new) }
    ensures stay { AllStay there.old there.new }
{
    if !there.contains(key) {
        let copy = key.copy(alloc)?;
        there.insert(copy)?;
    }
    Ok(())
}

// Takes the key out, unless it is there.
fn drop_absent_key(slots: &HashMap<CellKey, Slot>, there: &mut There, key: &CellKey)
    ensures { Keeps (slots_of slots.now) there.old key.now there.new }
{
    if there_at(slots, key).is_none() {
        there.remove(key);
    }
}

/// Takes the keys of these writes out that are not there. A key whose last write is there stays, so a write that is there needs no look-up.
pub fn drop_absent(slots: &HashMap<CellKey, Slot>, there: &mut There, ws: &[CellWrite])
    requires { AreLast (slots_of slots.now) ws.now }
    ensures { KeepsThere (slots_of slots.now) there.old ws.now there.new }
{
    for w in ws {
        if !is_there(&w.value) {
            drop_absent_key(slots, there, &w.key);
        }
    }
}
