//! The dentries of stray that have not the names of their inodes.

ghost use Rattle.std.specs.Prelude.{◌≡◌, ◌++◌, map, filter_map, IfOk, OnOk};
ghost use Rattle.mj_base.specs.InOrder.{same_bytes};
ghost use Rattle.mj_base.specs.ObjectName.{hex};
ghost use Rattle.mj_cells.specs.Next.{cell_of};
ghost use Rattle.mj_judge.specs.Rows.{misnamed_ino};

use crate::parts::ino_in;
use mj_base::{Ino, Name, RankNo};
use mj_cells::{CellKey, CellView};
use mj_recovery::stray_ino;
use std::alloc::{AllocError, Global};

// Whether a name is an inode in hexadecimal digits.
fn is_named(alloc: Global, name: &Name, ino: Ino) -> Result<bool, AllocError>
    ensures { IfOk result (λ b. b ≡ same_bytes name.now (hex ino)) }
{
    let number = ino.0;
    let text = format!(in alloc; "{number:x}")?;
    Ok(name.as_slice() == text.as_bytes())
}

fn misnamed(alloc: Global, rank: RankNo, cell: &CellView<'_>) -> Result<Option<Ino>, AllocError>
    ensures { IfOk result (λ o. o ≡ misnamed_ino rank (cell_of cell.now)) }
{
    let (CellKey::Dentry(dir, name), Some(ino)) = (cell.key, ino_in(cell.value)) else {
        return Ok(None);
    };
    if *dir != stray_ino(rank) {
        return Ok(None);
    }
    if is_named(alloc, name, ino)? {
        return Ok(None);
    }
    Ok(Some(ino))
}

/// The inodes of the dentries of stray that have not their names.
pub fn push_misnamed(
    alloc: Global,
    found: &mut Vec<Ino>,
    rank: RankNo,
    cells: &[CellView<'_>],
) -> Result<(), AllocError>
    ensures { OnOk result (found.new.items ≡ found.old.items ++ filter_map (misnamed_ino rank) (map cell_of cells.now)) }
{
    for cell in cells {
        if let Some(ino) = misnamed(alloc, rank, cell)? {
            found.push(ino)?;
        }
    }
    Ok(())
}
