//! What a key holds.

ghost use Rattle.std.specs.Prelude.{◌≡◌};
ghost use Rattle.std.specs.Option.{option_copied};
ghost use Rattle.mj_tables.specs.Layered.{is_there};
ghost use Rattle.mj_tables.specs.Slots.{early_in, there_in, slots_of, altered, projecting, settling, is_last};

use mj_cells::{CellKey, CellValue};
use std::collections::HashMap;

/// The last value that is not safe yet, and where the last group that writes the key ends.
#[derive(Drop)]
pub struct Ahead {
    pub value: CellValue,
    pub last: u64,
}

/// The safe value of a key, and what stands over it. A slot with neither is room.
#[derive(Drop)]
pub struct Slot {
    pub safe: Option<CellValue>,
    pub ahead: Option<Ahead>,
}

impl Slot {
    /// The value with all groups' writes.
    pub fn early(&self) -> Option<&CellValue>
        ensures { option_copied result ≡ early_in self.now }
    {
        match &self.ahead {
            Some(ahead) => Some(&ahead.value),
            None => self.safe.as_ref(),
        }
    }

    /// The same, where it is neither gone nor null.
    pub fn there(&self) -> Option<&CellValue>
        ensures { option_copied result ≡ there_in self.now }
    {
        match self.early() {
            Some(value) if is_there(value) => Some(value),
            _ => None,
        }
    }
}

/// Whether a value is neither gone nor null.
pub fn is_there(value: &CellValue) -> bool
    ensures { result ≡ is_there value.now }
{
    match value {
        CellValue::Null(_) => false,
        CellValue::Gone => false,
        _ => true,
    }
}

/// Puts a value over what a key with room holds.
pub fn project(slots: &mut HashMap<CellKey, Slot>, key: &CellKey, value: CellValue, ends: u64)
    ensures { slots_of slots.new ≡ altered (slots_of slots.old) key.now (projecting value ends) }
{
    if let Some(slot) = slots.get_mut(key) {
        slot.ahead = Some(Ahead { value, last: ends });
    }
}

/// Makes a value of a group that ends here the safe one, where the key has room.
pub fn settle(slots: &mut HashMap<CellKey, Slot>, key: &CellKey, value: CellValue, ends: u64)
    ensures { slots_of slots.new ≡ altered (slots_of slots.old) key.now (settling value ends) }
{
    if let Some(slot) = slots.get_mut(key) {
        slot.safe = Some(value);
        let is_last = is_last(&slot.ahead, ends);
        if is_last {
            slot.ahead = None;
        }
    }
}

// Whether no later group writes the key.
fn is_last(ahead: &Option<Ahead>, ends: u64) -> bool
    ensures { result ≡ is_last ends ahead.now }
{
    match ahead {
        Some(ahead) => ahead.last <= ends,
        None => true,
    }
}
