//! Cells in order, with one more.

ghost use Rattle.std.specs.Prelude.{◌≡◌, ◌++◌, map, IfOk, OnOk};
ghost use Rattle.std.specs.FinMap.Entries.{put};
ghost use Rattle.mj_cells.specs.Cell.{key_cmp};
ghost use Rattle.mj_cells.specs.Next.{cell_of};
ghost use Rattle.mj_index.specs.Placed.{around, not_after, standing, placed_by};

use mj_cells::{CellKey, CellValue, CellView, compare};
use std::alloc::{AllocError, Global};
use std::cmp::Ordering;

// Adds a cell, and before it or in its place the new one. Whether that is placed is the answer.
fn push_around<'a>(
    found: &mut Vec<CellView<'a>>,
    cell: &CellView<'a>,
    key: &'a CellKey,
    value: &'a CellValue,
) -> Result<bool, AllocError>
    ensures placed { IfOk result (λ b. b ≡ not_after (key_cmp key.now (cell_of cell.now).0)) }
    ensures found { OnOk result (map cell_of found.new.items ≡ map cell_of found.old.items ++ around (key_cmp key.now (cell_of cell.now).0) key.now value.now (cell_of cell.now)) }
{
    match compare(key, cell.key) {
        Ordering::Less => {
            found.push(CellView { key, value })?;
            found.push(*cell)?;
            Ok(true)
        }
        Ordering::Equal => {
            found.push(CellView {
                key: cell.key,
                value,
            })?;
            Ok(true)
        }
        Ordering::Greater => {
            found.push(*cell)?;
            Ok(false)
        }
    }
}

// Adds a cell, and the new one where it is not placed yet and this is its place.
fn push_cell<'a>(
    found: &mut Vec<CellView<'a>>,
    placed: bool,
    cell: &CellView<'a>,
    key: &'a CellKey,
    value: &'a CellValue,
) -> Result<bool, AllocError>
    ensures placed { IfOk result (λ b. b ≡ placed_by placed key.now (cell_of cell.now)) }
    ensures found { OnOk result (map cell_of found.new.items ≡ map cell_of found.old.items ++ standing placed key.now value.now (cell_of cell.now)) }
{
    if placed {
        found.push(*cell)?;
        return Ok(true);
    }
    push_around(found, cell, key, value)
}

/// The cells with this one at its place, where it replaces one of its key.
pub fn put_view<'a>(
    alloc: Global,
    cells: &[CellView<'a>],
    key: &'a CellKey,
    value: &'a CellValue,
) -> Result<Vec<CellView<'a>>, AllocError>
    ensures { IfOk result (λ v. map cell_of v.items ≡ put key_cmp key.now value.now (map cell_of cells.now)) }
{
    let mut found = Vec::new(alloc);
    let mut placed = false;
    for cell in cells {
        placed = push_cell(&mut found, placed, cell, key, value)?;
    }
    if !placed {
        found.push(CellView { key, value })?;
    }
    Ok(found)
}
