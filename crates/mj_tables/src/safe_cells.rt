//! Cells that are all safe, before layers begin over them.

ghost use Rattle.std.specs.Prelude.{◌≡◌, [], IfOk, OnOk, OnErr};
ghost use Rattle.std.specs.List.{AllByRecursion};
ghost use Rattle.std.specs.Option.{option_copied};
ghost use Rattle.mj_maps.specs.Map.{get, insert};
ghost use Rattle.mj_cells.specs.Cell.{WriteFits, AllFit};
ghost use Rattle.mj_cells.specs.Table.{put_all};
ghost use Rattle.mj_tables.specs.Slots.{slots_of, safe_cells, AreLaid};

use crate::moving::slots_from;
use crate::slot::Slot;
use mj_cells::{CellKey, CellTable, CellValue, CellWrite};
use std::alloc::{AllocError, Global};
use std::collections::HashMap;
use std::marker::Model;

/// Cells by key, held as layers hold them. Each key has the value that was last written to it.
#[derive(Drop)]
pub struct SafeCells {
    slots: HashMap<CellKey, Slot>,
}

impl Model for SafeCells {
    ghost use Rattle.mj_maps.specs.Map.{Map, code};
    ghost use Rattle.mj_cells.specs.declared.cell.CellValue.{CellValue};
    ghost use Rattle.mj_cells.specs.Cell.{key_cmp};
    ghost use Rattle.mj_cells.specs.contracts.cell.CellKey as cell_key;
    ghost use Rattle.mj_cells.specs.contracts.cell.CellValue as cell_value;

    ghost Value = { Map key_cmp CellValue };

    ghost coded = { code (cell_key.the_row).coded (cell_value.the_row).coded };

    ghost use Rattle.mj_tables.specs.Inside.{cells_in, AreSafe};

    ghost view = { cells_in };

    ghost invariant = { AreSafe };
}

impl SafeCells {
    /// The cells of a table.
    pub fn of_table(alloc: Global, table: CellTable) -> Result<SafeCells, AllocError>
        ensures { IfOk result (λ cells. cells ≡ table) }
    {
        table.all_fit();
        let slots = slots_from(alloc, table)?;
        Ok(SafeCells { slots })
    }

    /// Each value fits its key.
    pub fn all_fit(&self)
        ensures { AllFit self.now }
    {
        let _ = &self.slots;
    }

    /// The value last written to the key.
    pub fn get(&self, key: &CellKey) -> Option<&CellValue>
        ensures { option_copied result ≡ get self.now key.now }
    {
        match self.slots.get(key) {
            Some(slot) => slot.safe.as_ref(),
            None => None,
        }
    }

    /// Makes room for so many more cells at once, so that the map does not grow again and again.
    pub fn reserve(&mut self, more: usize) -> Result<(), AllocError>
        ensures same { self.new ≡ self.old }
    {
        self.slots.reserve(more)
    }

    /// Writes a cell.
    pub fn put(&mut self, w: CellWrite) -> Result<(), AllocError>
        requires { WriteFits w }
        ensures ok { OnOk result (self.new ≡ insert self.old w.key w.value) }
        ensures err { OnErr result (self.new ≡ self.old) }
    {
        let slot = Slot {
            safe: Some(w.value),
            ahead: None,
        };
        self.slots.insert(w.key, slot)?;
        Ok(())
    }

    /// Writes cells in order. After an error those before it are written.
    pub fn put_all(&mut self, ws: Vec<CellWrite>) -> Result<(), AllocError>
        requires { AllByRecursion WriteFits ws.items }
        ensures { OnOk result (self.new ≡ put_all self.old ws.items) }
    {
        for w in ws {
            self.put(w)?;
        }
        Ok(())
    }

    pub(crate) fn into_slots(self) -> HashMap<CellKey, Slot>
        ensures safe { safe_cells (slots_of result) ≡ self }
        ensures laid { AreLaid (slots_of result) [] }
    {
        self.slots
    }
}
