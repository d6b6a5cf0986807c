//! The index of a whole table.

ghost use Rattle.std.specs.Prelude.{◌≡◌, ◌<◌, ◌^◌, length, map, None, IfOk, OnOk};
ghost use Rattle.mj_maps.specs.Map.{Map, entries};
ghost use Rattle.mj_cells.specs.declared.cell.CellValue.{CellValue};
ghost use Rattle.mj_cells.specs.Cell.{key_cmp};
ghost use Rattle.mj_cells.specs.Next.{cell_of};
ghost use Rattle.mj_cells.specs.Table.{table_of, put_all};
ghost use Rattle.mj_tables.specs.Layered.{early_cells};
ghost use Rattle.mj_judge.specs.Own.{own_damage};
ghost use Rattle.mj_judge.specs.Reached.{AreDirs};
ghost use Rattle.mj_index.specs.Indexed.{IsIndexed};
ghost use Rattle.mj_index.specs.Following.{no_index, with_dirs, PutsNew};

use crate::index::Index;
use crate::views::put_view;
use mj_base::{Ino, RankNo};
use mj_cells::{CellView, CellWrite};
use mj_judge::reachable;
use mj_tables::Layers;
use std::alloc::{AllocError, Global};
use std::collections::BTreeSet;

// Of these directories it is known that they are reachable, and nothing else of any.
fn index_of_dirs(alloc: Global, dirs: &BTreeSet<Ino>) -> Result<Index, AllocError>
    ensures { IfOk result (λ x. x ≡ with_dirs dirs.now.keys no_index) }
{
    let mut index = Index::new(alloc);
    for dir in dirs.iter() {
        index.add_dir(*dir)?;
    }
    Ok(index)
}

// Puts a cell in, with the room that it takes.
fn put_new(
    alloc: Global,
    index: &mut Index,
    rank: RankNo,
    cell: &CellView<'_>,
) -> Result<(), AllocError>
    ensures { OnOk result (PutsNew rank (cell_of cell.now) index.old index.new) }
{
    index.make_room_for(cell.key, cell.value)?;
    let key = cell.key.copy(alloc)?;
    index.put_cell(rank, key, cell.value);
    Ok(())
}

// There are no more of them than a number counts.
fn are_countable(cells: &[CellView<'_>])
    ensures { length cells.now < 2 ^ 64 }
{
    let _ = cells.len();
}

/// The index of the table whose cells and reachable directories these are, where it has no damage.
pub fn index_of(
    alloc: Global,
    rank: RankNo,
    dirs: &BTreeSet<Ino>,
    cells: &[CellView<'_>],
) -> Result<Index, AllocError>
    ensures { IfOk result (λ x. (m : Map key_cmp CellValue) → map cell_of cells.now ≡ entries m → AreDirs (table_of m) dirs.now.keys → own_damage rank (table_of m) ≡ None → IsIndexed rank m x) }
{
    are_countable(cells);
    let mut index = index_of_dirs(alloc, dirs)?;
    for cell in cells {
        put_new(alloc, &mut index, rank, cell)?;
    }
    Ok(index)
}

/// The index once these writes are over the early cells. Time grows with the table, and with it once more for each write.
pub fn next_index(
    alloc: Global,
    rank: RankNo,
    layers: &Layers,
    ws: &[CellWrite],
) -> Result<Index, AllocError>
    requires { own_damage rank (table_of (put_all (early_cells layers.now) ws.now)) ≡ None }
    ensures { IfOk result (IsIndexed rank (put_all (early_cells layers.now) ws.now)) }
{
    let mut cells = layers.cells(alloc)?;
    for w in ws {
        cells = put_view(alloc, &cells, &w.key, &w.value)?;
    }
    let dirs = reachable(alloc, &cells)?;
    index_of(alloc, rank, &dirs, &cells)
}
