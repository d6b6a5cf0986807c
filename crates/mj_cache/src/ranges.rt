//! What the types of keys and values say of cells.

ghost use Rattle.std.specs.Prelude.{◌<◌, ◌^◌, map};
ghost use Rattle.std.specs.List.{AllByRecursion};
ghost use Rattle.mj_cells.specs.declared.cell.CellKey.TheVariants.{NextIno};
ghost use Rattle.mj_cells.specs.Next.{cell_of};
ghost use Rattle.mj_cache.specs.Ranges.{InRange, WriteInRange, CellInRange};

use mj_cells::{CellKey, CellValue, CellView, CellWrite};

// A number that is read is one of its type.
fn is_number(n: u64)
    ensures { n < 2 ^ 64 }
{
    let _ = n;
}

fn number_in_range(value: &CellValue)
    ensures { InRange NextIno value.now }
{
    if let CellValue::Number(n) = value {
        is_number(*n);
    }
}

// A look at the name or the number is enough.
fn in_range(key: &CellKey, value: &CellValue)
    ensures { InRange key.now value.now }
{
    match key {
        CellKey::Dentry(_, name) => {
            let _ = name.as_slice();
        }
        CellKey::Done(_, tid) => is_number(tid.0),
        CellKey::NextIno => number_in_range(value),
        _ => {}
    }
}

/// Each write has a name that is one, and numbers of their types.
pub fn writes_in_range(ws: &[CellWrite])
    ensures { AllByRecursion WriteInRange ws.now }
{
    for w in ws {
        in_range(&w.key, &w.value);
    }
}

/// Each cell has a name that is one, and numbers of their types.
pub fn cells_in_range(cells: &[CellView<'_>])
    ensures { AllByRecursion CellInRange (map cell_of cells.now) }
{
    for cell in cells {
        in_range(cell.key, cell.value);
    }
}
