//! Room for the keys of writes: a slot, and a place in the set of the keys that are there.

ghost use Rattle.std.specs.Prelude.{◌≡◌, OnOk, OnErr};
ghost use Rattle.mj_maps.specs.Map.{insert};
ghost use Rattle.mj_tables.specs.Slots.{slots_of, safe_cells, empty_slot, with_room, all_room, SameAhead};
ghost use Rattle.mj_tables.specs.Listed.{Adds, AddsAll, AllStay, ListsThere};

use crate::listing::add_key;
use crate::slot::Slot;
use crate::there::There;
use mj_cells::{CellKey, CellWrite};
use std::alloc::{AllocError, Global};
use std::collections::HashMap;

// Gives a key that has no slot an empty one. The set comes first, so that on an error the slots stay.
fn add_room(
    alloc: Global,
    slots: &mut HashMap<CellKey, Slot>,
    there: &mut There,
    key: &CellKey,
) -> Result<(), AllocError>
    ensures ok { OnOk result (slots_of slots.new ≡ insert (slots_of slots.old) key.now empty_slot) }
    ensures err { OnErr result (slots_of slots.new ≡ slots_of slots.old) }
    ensures added { OnOk result (Adds there.old key.now there.new) }
    ensures stay { AllStay there.old there.new }
{
    let listed = key.copy(alloc)?;
    let own = key.copy(alloc)?;
    there.insert(listed)?;
    let empty = Slot {
        safe: None,
        ahead: None,
    };
    slots.insert(own, empty)?;
    Ok(())
}

// Makes room for a key, with one look-up where its value is there. No key is copied where nothing is made.
fn make_room(
    alloc: Global,
    slots: &mut HashMap<CellKey, Slot>,
    there: &mut There,
    key: &CellKey,
) -> Result<(), AllocError>
    requires { ListsThere (slots_of slots.old) there.old }
    ensures ok { OnOk result (slots_of slots.new ≡ with_room (slots_of slots.old) key.now) }
    ensures err { OnErr result (slots_of slots.new ≡ slots_of slots.old) }
    ensures added { OnOk result (Adds there.old key.now there.new) }
    ensures stay { AllStay there.old there.new }
{
    match slots.get(key) {
        Some(slot) => {
            if slot.there().is_none() {
                add_key(alloc, there, key)?;
            }
            Ok(())
        }
        None => add_room(alloc, slots, there, key),
    }
}

/// Makes room for the keys of these writes. Nothing that is held changes.
pub fn make_all_room(
    alloc: Global,
    slots: &mut HashMap<CellKey, Slot>,
    there: &mut There,
    ws: &[CellWrite],
) -> Result<(), AllocError>
    requires { ListsThere (slots_of slots.old) there.old }
    ensures ok { OnOk result (slots_of slots.new ≡ all_room (slots_of slots.old) ws.now) }
    ensures added { OnOk result (AddsAll there.old ws.now there.new) }
    ensures safe { safe_cells (slots_of slots.new) ≡ safe_cells (slots_of slots.old) }
    ensures ahead { SameAhead (slots_of slots.old) (slots_of slots.new) }
    ensures stay { AllStay there.old there.new }
{
    for w in ws {
        make_room(alloc, slots, there, &w.key)?;
    }
    Ok(())
}
