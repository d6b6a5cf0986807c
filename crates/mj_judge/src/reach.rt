//! The directories that can be reached.

ghost use Rattle.std.specs.Prelude.{◌≡◌, ◌++◌, map, filter_map, IfOk, OnOk};
ghost use Rattle.mj_maps.specs.Map.{Map, entries};
ghost use Rattle.mj_cells.specs.declared.cell.CellValue.{CellValue};
ghost use Rattle.mj_cells.specs.Cell.{key_cmp};
ghost use Rattle.mj_cells.specs.Next.{cell_of};
ghost use Rattle.mj_cells.specs.Table.{table_of};
ghost use Rattle.mj_judge.specs.Reached.{edge_of, with_edge, unled, pass_dirs, pass_left, AreReached, AreDirs};

use crate::parts::{dir_of, subdir_in};
use mj_base::Ino;
use mj_cells::CellView;
use mj_recovery::ROOT;
use std::alloc::{AllocError, Global};
use std::collections::BTreeSet;

fn edge_of(cell: &CellView<'_>) -> Option<(Ino, Ino)>
    ensures { result ≡ edge_of (cell_of cell.now) }
{
    match (dir_of(cell.key), subdir_in(cell.value)) {
        (Some(dir), Some(below)) => Some((dir, below)),
        _ => None,
    }
}

// From each directory to those that full dentries in it name.
fn edges(alloc: Global, cells: &[CellView<'_>]) -> Result<Vec<(Ino, Ino)>, AllocError>
    ensures { IfOk result (λ v. v.items ≡ filter_map edge_of (map cell_of cells.now)) }
{
    let mut found = Vec::new(alloc);
    for cell in cells {
        if let Some(edge) = edge_of(cell) {
            found.push(edge)?;
        }
    }
    Ok(found)
}

// Adds where an edge from a known directory leads; another edge is left.
fn follow(
    dirs: &mut BTreeSet<Ino>,
    left: &mut Vec<(Ino, Ino)>,
    edge: (Ino, Ino),
) -> Result<(), AllocError>
    ensures dirs { OnOk result (dirs.new.keys ≡ with_edge dirs.old.keys edge) }
    ensures left { OnOk result (left.new.items ≡ left.old.items ++ unled dirs.old.keys edge) }
{
    if dirs.contains(&edge.0) {
        dirs.insert(edge.1)?;
    } else {
        left.push(edge)?;
    }
    Ok(())
}

// Adds where edges from known directories lead, and gives the other edges.
fn pass(
    alloc: Global,
    dirs: &mut BTreeSet<Ino>,
    edges: &[(Ino, Ino)],
) -> Result<Vec<(Ino, Ino)>, AllocError>
    ensures dirs { OnOk result (dirs.new.keys ≡ pass_dirs dirs.old.keys edges.now) }
    ensures left { IfOk result (λ v. v.items ≡ pass_left dirs.old.keys edges.now) }
{
    let mut left = Vec::new(alloc);
    for edge in edges {
        follow(dirs, &mut left, (edge.0, edge.1))?;
    }
    Ok(left)
}

// Where edges lead from the root. One pass takes all edges of directories that are younger than those above them.
fn reach(alloc: Global, edges: Vec<(Ino, Ino)>) -> Result<BTreeSet<Ino>, AllocError>
    ensures { IfOk result (λ dirs. AreReached edges.items dirs.keys) }
{
    let mut dirs = BTreeSet::new(alloc);
    dirs.insert(ROOT)?;
    let mut left = edges;
    'passes: loop {
        let rest = pass(alloc, &mut dirs, &left)?;
        if rest.len() == left.len() {
            break;
        }
        left = rest;
    }
    Ok(dirs)
}

/// The reachable directories of the table of these cells, in time that grows with them as a search tree's does, where inodes are
/// above those of their directories.
pub fn reachable(alloc: Global, cells: &[CellView<'_>]) -> Result<BTreeSet<Ino>, AllocError>
    ensures { IfOk result (λ dirs. (m : Map key_cmp CellValue) → map cell_of cells.now ≡ entries m → AreDirs (table_of m) dirs.keys) }
{
    let edges = edges(alloc, cells)?;
    reach(alloc, edges)
}
