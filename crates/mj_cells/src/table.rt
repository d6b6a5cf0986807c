//! Tables of cells.

ghost use Rattle.std.specs.Prelude.{◌≡◌, IfOk, OnOk, OnErr};
ghost use Rattle.std.specs.Option.{option_copied, option_map};
ghost use Rattle.std.specs.Bound.{bound_map};
ghost use Rattle.mj_maps.specs.Map.{get, insert, remove, empty};
ghost use Rattle.mj_cells.specs.Cell.{Fits, WriteFits, AllFit};
ghost use Rattle.mj_cells.specs.Next.{bound_above, next_cell, cell_of};

use crate::cell::{CellKey, CellValue, CellWrite};
use crate::copying::copy_cells;
use std::alloc::{AllocError, Global};
use std::collections::BTreeMap;
use std::marker::Model;
use std::ops::Bound;

/// Cells by key. Each key has the value that was last written to it.
#[derive(Drop)]
pub struct CellTable {
    kept: BTreeMap<CellKey, CellValue>,
}

impl Model for CellTable {
    ghost use Rattle.mj_maps.specs.Map.{Map, code, from_entries};
    ghost use Rattle.mj_cells.specs.declared.cell.CellValue.{CellValue};
    ghost use Rattle.mj_cells.specs.Cell.{key_cmp, AllFit};
    ghost use Rattle.mj_cells.specs.contracts.cell.CellKey as cell_key;
    ghost use Rattle.mj_cells.specs.contracts.cell.CellValue as cell_value;

    ghost Value = { Map key_cmp CellValue };

    ghost coded = { code (cell_key.the_row).coded (cell_value.the_row).coded };

    ghost view = { λ a. from_entries a.kept.entries };

    ghost invariant = { λ a. AllFit (from_entries a.kept.entries) };
}

/// A cell of a table.
#[derive(Clone, Copy, Debug)]
pub struct CellView<'a> {
    pub key: &'a CellKey,
    pub value: &'a CellValue,
}

impl CellTable {
    /// A table without cells.
    pub fn new(alloc: Global) -> CellTable
        ensures { result ≡ empty }
    {
        CellTable {
            kept: BTreeMap::new(alloc),
        }
    }

    /// The same cells again.
    pub fn copy(&self, alloc: Global) -> Result<CellTable, AllocError>
        ensures { IfOk result (λ same. same ≡ self.now) }
    {
        let mut kept = BTreeMap::new(alloc);
        copy_cells(alloc, &self.kept, &mut kept)?;
        Ok(CellTable { kept })
    }

    /// Each value fits its key.
    pub fn all_fit(&self)
        ensures { AllFit self.now }
    {
        let _ = &self.kept;
    }

    /// The value last written to the key.
    pub fn get(&self, key: &CellKey) -> Option<&CellValue>
        ensures { option_copied result ≡ get self.now key.now }
    {
        self.kept.get(key)
    }

    /// Writes a cell.
    pub fn put(&mut self, _alloc: Global, w: CellWrite) -> Result<(), AllocError>
        requires { WriteFits w }
        ensures ok { OnOk result (self.new ≡ insert self.old w.key w.value) }
        ensures err { OnErr result (self.new ≡ self.old) }
    {
        self.kept.insert(w.key, w.value)?;
        Ok(())
    }

    /// Takes the cell of the key out, where there is one.
    pub fn drop_key(&mut self, key: &CellKey)
        ensures { self.new ≡ remove self.old key.now }
    {
        let _ = self.kept.remove(key);
    }

    /// The cell with the least key above `after`, or the least of all.
    pub fn next_after(&self, after: Option<&CellKey>) -> Option<CellView<'_>>
        ensures { option_map cell_of result ≡ next_cell self.now (option_copied after.entry) }
    {
        let mut above = self.kept.range((start_above(after), Bound::Unbounded));
        let (key, value) = above.next()?;
        Some(CellView { key, value })
    }
}

fn start_above(after: Option<&CellKey>) -> Bound<&CellKey>
    ensures { bound_map (λ x. x.now) result ≡ bound_above (option_copied after.entry) }
{
    match after {
        Some(key) => Bound::Excluded(key),
        None => Bound::Unbounded,
    }
}
