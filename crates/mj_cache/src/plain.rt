//! The early tree by lists alone.

ghost use Rattle.std.specs.Prelude.{◌≡◌, ◌∷◌, map, filter_map, IfOk};
ghost use Rattle.std.specs.Option.{option_map};
ghost use Rattle.std.specs.BTreeMap.{IsOrdered};
ghost use Rattle.mj_base.specs.ObjectName.{stray_ino};
ghost use Rattle.mj_maps.specs.Map.{Map, entries, from_entries, picked};
ghost use Rattle.mj_maps.specs.Orders.{nat_cmp};
ghost use Rattle.mj_tree.specs.Lists.{record_entries, link_entries};
ghost use Rattle.mj_tree.specs.Meaning.{state_of};
ghost use Rattle.mj_cells.specs.declared.cell.CellValue.{CellValue};
ghost use Rattle.mj_cells.specs.Cell.{key_cmp};
ghost use Rattle.mj_cells.specs.Next.{cell_of};
ghost use Rattle.mj_cells.specs.Table.{table_of};
ghost use Rattle.mj_tables.specs.Layered.{early_cells};
ghost use Rattle.mj_recovery.specs.Tree.{by_inode, tree_of};
ghost use Rattle.mj_judge.specs.Reached.{AreDirs};
ghost use Rattle.mj_judge.specs.Rows.{count_in, full_in};
ghost use Rattle.mj_cache.specs.PlainLists.{link_entry, link_of, record_kept};

use crate::plain_parts::{plain_opens, plain_sessions, put_record};
use mj_base::{Ino, InodeRecord, Items, RankNo};
use mj_cells::{CellKey, CellView};
use mj_judge::{
    Counts, full_in, ino_in, is_dir, kept_replies, link_counts, next_ino, open_counts, opens,
    reachable, sessions,
};
use mj_tables::Layers;
use mj_tree::{PlainLink, PlainTree};
use std::alloc::{AllocError, Global};
use std::collections::{BTreeMap, BTreeSet};

// The link that a dentry of these directories is.
fn link_of(
    alloc: Global,
    dirs: &BTreeSet<Ino>,
    cell: &CellView<'_>,
) -> Result<Option<PlainLink>, AllocError>
    ensures { IfOk result (λ o. option_map link_entry o ≡ link_of dirs.now.keys (cell_of cell.now)) }
{
    let (CellKey::Dentry(dir, name), Some(ino)) = (cell.key, ino_in(cell.value)) else {
        return Ok(None);
    };
    if !is_dir(dirs, *dir) {
        return Ok(None);
    }
    let name = name.copy(alloc)?;
    Ok(Some(PlainLink {
        parent: *dir,
        name,
        ino,
    }))
}

// The links that the dentries of these directories are.
fn plain_links(
    alloc: Global,
    dirs: &BTreeSet<Ino>,
    cells: &[CellView<'_>],
) -> Result<Vec<PlainLink>, AllocError>
    ensures { IfOk result (λ v. link_entries v.items ≡ filter_map (link_of dirs.now.keys) (map cell_of cells.now)) }
{
    let mut found = Vec::new(alloc);
    for cell in cells {
        if let Some(link) = link_of(alloc, dirs, cell)? {
            found.push(link)?;
        }
    }
    Ok(found)
}

// The records of the full dentries by inode. The first of two is put last and stays.
fn by_inode(
    alloc: Global,
    rank: RankNo,
    dirs: &BTreeSet<Ino>,
    cells: &[CellView<'_>],
) -> Result<BTreeMap<Ino, InodeRecord>, AllocError>
    ensures { IfOk result (λ m. from_entries {R = nat_cmp} m.entries ≡ by_inode (filter_map (full_in (stray_ino rank ∷ dirs.now.keys)) (map cell_of cells.now))) }
{
    let mut found = BTreeMap::new(alloc);
    for i in (0..cells.len()).rev() {
        if let Some(inode) = full_in(rank, dirs, &cells[i]) {
            put_record(alloc, &mut found, inode)?;
        }
    }
    Ok(found)
}

// The records that a link or an open keeps.
fn kept_records(
    alloc: Global,
    inodes: BTreeMap<Ino, InodeRecord>,
    links: &Counts,
    opens: &Counts,
) -> Result<Vec<InodeRecord>, AllocError>
    ensures entries { IfOk result (λ v. record_entries v.items ≡ picked (record_kept (count_in links.now) (count_in opens.now)) inodes.entries) }
    ensures ordered { IsOrdered nat_cmp inodes }
{
    let mut found = Vec::new(alloc);
    for (ino, inode) in inodes {
        if links.has(ino.0) || opens.has(ino.0) {
            found.push(InodeRecord {
                ino,
                links: 0,
                ..inode
            })?;
        }
    }
    Ok(found)
}

// The records of the tree, where these directories are the reachable ones.
fn plain_records(
    alloc: Global,
    rank: RankNo,
    dirs: &BTreeSet<Ino>,
    cells: &[CellView<'_>],
) -> Result<Vec<InodeRecord>, AllocError>
    ensures { IfOk result (λ v. (m : Map key_cmp CellValue) → map cell_of cells.now ≡ entries m → AreDirs (table_of m) dirs.now.keys → record_entries v.items ≡ entries (tree_of rank (table_of m)).records) }
{
    let links = link_counts(alloc, dirs, cells)?;
    let opens = open_counts(alloc, cells)?;
    let inodes = by_inode(alloc, rank, dirs, cells)?;
    kept_records(alloc, inodes, &links, &opens)
}

// The tree of these cells.
fn tree_in(
    alloc: Global,
    rank: RankNo,
    layers: &Layers,
    cells: &[CellView<'_>],
) -> Result<PlainTree, AllocError>
    requires { map cell_of cells.now ≡ entries (early_cells layers.now) }
    ensures { IfOk result (λ tree. state_of tree ≡ tree_of rank (table_of (early_cells layers.now))) }
{
    let dirs = reachable(alloc, cells)?;
    let places = opens(alloc, cells)?;
    let oldest = sessions(alloc, cells)?;
    let replies = kept_replies(alloc, cells)?;
    let records = plain_records(alloc, rank, &dirs, cells)?;
    let links = plain_links(alloc, &dirs, cells)?;
    let opens = plain_opens(alloc, &places)?;
    let sessions = plain_sessions(alloc, &oldest, &replies)?;
    Ok(PlainTree {
        next: next_ino(layers).unwrap_or(Ino(0)),
        records: Items::from_vec(records),
        links: Items::from_vec(links),
        opens: Items::from_vec(opens),
        sessions: Items::from_vec(sessions),
    })
}

/// The tree of the early cells, in time that grows with them as a search tree's does.
pub fn plain_tree(alloc: Global, rank: RankNo, layers: &Layers) -> Result<PlainTree, AllocError>
    ensures { IfOk result (λ tree. state_of tree ≡ tree_of rank (table_of (early_cells layers.now))) }
{
    let cells = layers.cells(alloc)?;
    let tree = tree_in(alloc, rank, layers, &cells)?;
    Ok(tree)
}
