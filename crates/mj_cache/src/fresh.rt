//! The cells of a new rank.

ghost use Rattle.std.specs.Prelude.{◌≡◌, IfOk};
ghost use Rattle.mj_cells.specs.declared.cell.CellKey.TheVariants.{DirHead};
ghost use Rattle.mj_cells.specs.declared.cell.CellValue.TheVariants.{Number};
ghost use Rattle.mj_cells.specs.Table.{table_of};
ghost use Rattle.mj_event.specs.Writes.{write};
ghost use Rattle.mj_delta.specs.Fresh.{fresh_table};

use mj_base::{Ino, RankNo};
use mj_cells::{CellKey, CellTable, CellValue, CellWrite};
use mj_recovery::{ROOT, first_ino, stray_ino};
use std::alloc::{AllocError, Global};

// The head of a directory without names.
fn head(dir: Ino) -> CellWrite
    ensures { result ≡ write (DirHead dir) (Number 1) }
{
    CellWrite {
        key: CellKey::DirHead(dir),
        value: CellValue::Number(1),
    }
}

/// The cells that a formatted store holds for a rank: the root and stray have heads, and the first inode of the rank is next.
pub fn new_cells(alloc: Global, rank: RankNo) -> Result<CellTable, AllocError>
    ensures { IfOk result (λ cells. table_of cells ≡ fresh_table rank) }
{
    let mut cells = CellTable::new(alloc);
    cells.put(alloc, head(ROOT))?;
    cells.put(alloc, head(stray_ino(rank)))?;
    cells.put(
        alloc,
        CellWrite {
            key: CellKey::NextIno,
            value: CellValue::Number(first_ino(rank).0),
        },
    )?;
    Ok(cells)
}
