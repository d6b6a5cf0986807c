//! Copying the cells of a tree.

ghost use Rattle.std.specs.Prelude.{◌≡◌, OnOk, T, map};
ghost use Rattle.std.specs.FinMap.Entries.{is_sorted};
ghost use Rattle.mj_maps.specs.Map.{insert};
ghost use Rattle.mj_cells.specs.Cell.{key_cmp};
ghost use Rattle.mj_cells.specs.Table.{as_write, put_all};
ghost use Rattle.mj_cells.specs.Table.{cells};

use crate::cell::{CellKey, CellValue};
use std::alloc::{AllocError, Global};
use std::collections::BTreeMap;

/// Writes copies of the cells of one tree to another.
pub fn copy_cells(
    alloc: Global,
    from: &BTreeMap<CellKey, CellValue>,
    to: &mut BTreeMap<CellKey, CellValue>,
) -> Result<(), AllocError>
    ensures ok { OnOk result (cells to.new ≡ put_all (cells to.old) (map as_write from.now.entries)) }
    ensures in_order { OnOk result (T (is_sorted key_cmp from.now.entries)) }
{
    for (key, value) in from.iter() {
        copy_cell(alloc, key, value, to)?;
    }
    Ok(())
}

fn copy_cell(
    alloc: Global,
    key: &CellKey,
    value: &CellValue,
    to: &mut BTreeMap<CellKey, CellValue>,
) -> Result<(), AllocError>
    ensures { OnOk result (cells to.new ≡ insert (cells to.old) key.now value.now) }
{
    let key = key.copy(alloc)?;
    let value = value.copy(alloc)?;
    to.insert(key, value)?;
    Ok(())
}
