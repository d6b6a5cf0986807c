//! What is wrong with a table.

ghost use Rattle.std.specs.Prelude.{◌≡◌, map, IfOk};
ghost use Rattle.mj_maps.specs.Map.{entries};
ghost use Rattle.mj_cells.specs.Next.{cell_of};
ghost use Rattle.mj_cells.specs.Table.{table_of};
ghost use Rattle.mj_tables.specs.Layered.{early_cells};
ghost use Rattle.mj_recovery.specs.Damage.{tree_damage};
ghost use Rattle.mj_judge.specs.Judged.{all_dirs};
ghost use Rattle.mj_judge.specs.Own.{own_damage};
ghost use Rattle.mj_judge.specs.Reached.{AreDirs};

use crate::dentries::dentry_dirs;
use crate::judge::found_damage;
use crate::parts::head_dirs;
use mj_base::{Damage, Ino, RankNo};
use mj_cells::CellView;
use mj_tables::Layers;
use std::alloc::{AllocError, Global};
use std::collections::BTreeSet;

// The directories that have a cell.
fn cell_dirs(alloc: Global, cells: &[CellView<'_>]) -> Result<Vec<Ino>, AllocError>
    ensures { IfOk result (λ v. v.items ≡ all_dirs (map cell_of cells.now)) }
{
    let mut all = dentry_dirs(alloc, cells)?;
    let heads = head_dirs(alloc, cells)?;
    all.extend_from_slice(&heads)?;
    Ok(all)
}

/// The first damage of the early table, whose cells and reachable directories these are, where the last directories are those
/// of live lumps. Time grows with the table as a search tree's does.
pub fn tree_damage(
    alloc: Global,
    rank: RankNo,
    layers: &Layers,
    dirs: &BTreeSet<Ino>,
    cells: &[CellView<'_>],
    lump_dirs: &[Ino],
) -> Result<Option<Damage>, AllocError>
    requires cells { map cell_of cells.now ≡ entries (early_cells layers.now) }
    requires dirs { AreDirs (table_of (early_cells layers.now)) dirs.now.keys }
    ensures { IfOk result (λ o. o ≡ tree_damage rank (table_of (early_cells layers.now)) lump_dirs.now) }
{
    found_damage(alloc, rank, layers, dirs, lump_dirs, cells)
}

/// The same, where each directory that has a cell counts as one of a live lump.
pub fn own_damage(
    alloc: Global,
    rank: RankNo,
    layers: &Layers,
    dirs: &BTreeSet<Ino>,
    cells: &[CellView<'_>],
) -> Result<Option<Damage>, AllocError>
    requires cells { map cell_of cells.now ≡ entries (early_cells layers.now) }
    requires dirs { AreDirs (table_of (early_cells layers.now)) dirs.now.keys }
    ensures { IfOk result (λ o. o ≡ own_damage rank (table_of (early_cells layers.now))) }
{
    let all = cell_dirs(alloc, cells)?;
    tree_damage(alloc, rank, layers, dirs, cells, &all)
}
