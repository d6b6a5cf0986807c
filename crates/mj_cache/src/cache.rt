//! The cache of a rank's cells.

ghost use Rattle.std.specs.Prelude.{◌≡◌, None, Some, IfOk, IfErr, OnOk, OnErr};
ghost use Rattle.std.specs.List.{AllByRecursion};
ghost use Rattle.std.specs.Option.{option_copied, option_map};
ghost use Rattle.mj_maps.specs.Map.{get};
ghost use Rattle.mj_tree.specs.Listing.{listing};
ghost use Rattle.mj_tree.specs.Meaning.{state_of};
ghost use Rattle.mj_tree.specs.State.{entry_count, open_count};
ghost use Rattle.mj_cells.specs.Cell.{WriteFits, AllFit};
ghost use Rattle.mj_cells.specs.Next.{cell_of};
ghost use Rattle.mj_cells.specs.Table.{table_of, overlay};
ghost use Rattle.mj_tables.specs.Layered.{all_writes, writes_key, next_there, EndBelow};
ghost use Rattle.mj_cache.specs.Cached.{begun, projected, made_safe, early_cells, early_table, early_tree, primary_of};
ghost use Rattle.mj_index.specs.Places.{inodes_of, sessions_of, opens_of};
ghost use Rattle.mj_judge.specs.Own.{own_damage};
ghost use Rattle.mj_cache.specs.Refused.{IsRefusal};
ghost use Rattle.mj_cache.specs.Ranges.{AllInRange};
ghost use Rattle.mj_index.specs.Indexed.{IsIndexed};
ghost use Rattle.mj_tables.specs.Layered.{early_cells as layered_cells};

use crate::plain::plain_tree;
use crate::ranges::{cells_in_range, writes_in_range};
use crate::refusal::CacheRefusal;
use mj_base::{Ino, RankNo};
use mj_cells::{CellKey, CellValue, CellView, CellWrite};
use mj_index::{Index, Sums, index_of, project};
use mj_judge::{own_damage, reachable};
use mj_tables::{Layers, SafeCells};
use mj_tree::PlainTree;
use std::alloc::{AllocError, Global};
use std::marker::Model;

/// The safe cells of a rank, and over them the groups of writes that are not safe yet. What all of them make, the early table,
/// has no damage.
#[derive(Drop)]
pub struct Cache {
    rank: RankNo,
    layers: Layers,
    index: Index,
}

impl Model for Cache {
    ghost use Rattle.mj_cache.specs.Cached.{CacheValue, cache_code};

    ghost Value = { CacheValue };

    ghost coded = { cache_code };

    ghost use Rattle.mj_cache.specs.Inside.{cache_in, IsSound};

    ghost view = { cache_in };

    ghost invariant = { IsSound };
}

// The index of the early cells, or their first damage. The cells are put in order once.
fn examine(alloc: Global, rank: RankNo, layers: &Layers) -> Result<Index, CacheRefusal>
    ensures sound { OnOk result (own_damage rank (table_of (layered_cells layers.now)) ≡ None) }
    ensures index { IfOk result (IsIndexed rank (layered_cells layers.now)) }
    ensures range { OnOk result (AllInRange (layered_cells layers.now)) }
    ensures refused { IfErr result (IsRefusal (own_damage rank (table_of (layered_cells layers.now)))) }
{
    let cells = layers.cells(alloc)?;
    let dirs = reachable(alloc, &cells)?;
    if let Some(damage) = own_damage(alloc, rank, layers, &dirs, &cells)? {
        return Err(CacheRefusal::NotTree(damage));
    }
    cells_in_range(&cells);
    let index = index_of(alloc, rank, &dirs, &cells)?;
    Ok(index)
}

impl Cache {
    /// The cache of cells whose table has no damage, or the table's first damage.
    pub fn new(alloc: Global, cells: SafeCells, rank: RankNo) -> Result<Cache, CacheRefusal>
        ensures cache { OnOk result (own_damage rank (table_of cells) ≡ None) }
        ensures holds { IfOk result (λ c. c ≡ begun rank cells) }
        ensures refused { IfErr result (IsRefusal (own_damage rank (table_of cells))) }
    {
        cells.all_fit();
        let layers = Layers::of_cells(alloc, cells)?;
        let index = examine(alloc, rank, &layers)?;
        Ok(Cache {
            rank,
            layers,
            index,
        })
    }

    /// Whose cells these are.
    pub fn rank(&self) -> RankNo
        ensures { result ≡ self.now.rank }
    {
        self.rank
    }

    /// Each value fits its key.
    pub fn all_fit(&self)
        ensures safe { AllFit self.now.safe }
        ensures early { AllFit (early_cells self.now) }
    {
        let _ = &self.layers;
    }

    /// Each early cell has a name that is one, and numbers of their types.
    pub fn all_in_range(&self)
        ensures { AllInRange (early_cells self.now) }
    {
        let _ = &self.layers;
    }

    /// The early table has a tree.
    pub fn has_tree(&self)
        ensures { own_damage self.now.rank (early_table self.now) ≡ None }
    {
        let _ = &self.layers;
    }

    /// Adds a group of writes that are not safe yet. It takes all memory first, that of `make_safe` too: after an error the
    /// cache is as before. Each write takes logarithmic time, and a directory that moves as much for each directory above it. Only
    /// where a directory that has dentries begins or ceases to be reachable, or a key is written twice, does time grow with the table.
    pub fn project(
        &mut self,
        alloc: Global,
        ws: Vec<CellWrite>,
        ends: u64,
    ) -> Result<(), AllocError>
        requires fit { AllByRecursion WriteFits ws.items }
        requires tree { own_damage self.old.rank (overlay (early_table self.old) ws.items) ≡ None }
        requires above { EndBelow ends self.old.groups }
        ensures ok { OnOk result (self.new ≡ projected ws.items ends self.old) }
        ensures err { OnErr result (self.new ≡ self.old) }
    {
        writes_in_range(&ws);
        project(
            alloc,
            self.rank,
            &mut self.layers,
            &mut self.index,
            ws,
            ends,
        )
    }

    /// Takes the groups that end at or below `upto` into the safe cells, without memory. The early cells stay.
    pub fn make_safe(&mut self, upto: u64)
        ensures safe { self.new ≡ made_safe upto self.old }
        ensures early { early_table self.new ≡ early_table self.old }
    {
        self.layers.make_safe(upto);
    }

    /// The safe value of a key.
    pub fn safe(&self, key: &CellKey) -> Option<&CellValue>
        ensures { option_copied result ≡ get self.now.safe key.now }
    {
        self.layers.safe(key)
    }

    /// The early value of a key.
    pub fn early(&self, key: &CellKey) -> Option<&CellValue>
        ensures { option_copied result ≡ get (early_cells self.now) key.now }
    {
        self.layers.early(key)
    }

    /// Whether a group that is not safe yet writes the key.
    pub fn projects(&self, key: &CellKey) -> bool
        ensures { result ≡ writes_key key.now (all_writes self.now.groups) }
    {
        self.layers.projects(key)
    }

    /// The key of an inode's full dentry, in a reachable directory or in stray.
    pub fn primary_of(&self, ino: Ino) -> Option<&CellKey>
        ensures { option_copied result ≡ primary_of self.now ino }
    {
        self.index.primary_of(ino)
    }

    /// The early cell with the least key above `after` whose value is neither gone nor null.
    pub fn next_early(&self, after: Option<&CellKey>) -> Option<CellView<'_>>
        ensures { option_map cell_of result ≡ next_there (early_cells self.now) (option_copied after.entry) }
    {
        self.layers.next_there(after)
    }

    /// How many entries a directory of the early tree has.
    pub fn entries_of(&self, dir: Ino) -> u64
        ensures { result ≡ entry_count (early_tree self.now) dir }
    {
        self.index.entries_of(dir)
    }

    /// How many clients have an inode of the early tree open.
    pub fn opens_of(&self, ino: Ino) -> u64
        ensures { result ≡ open_count (early_tree self.now) ino }
    {
        self.index.opens_of(ino)
    }

    /// How much the early tree has.
    pub fn sums(&self) -> Sums
        ensures inodes { result.inodes ≡ inodes_of (early_tree self.now) }
        ensures sessions { result.sessions ≡ sessions_of (early_tree self.now) }
        ensures opens { result.opens ≡ opens_of (early_tree self.now) }
    {
        self.index.sums()
    }

    /// The early tree by lists alone.
    pub fn plain(&self, alloc: Global) -> Result<PlainTree, AllocError>
        ensures { IfOk result (λ tree. state_of tree ≡ early_tree self.now) }
    {
        plain_tree(alloc, self.rank, &self.layers)
    }

    /// What the early tree has, line by line, as a plain tree tells it.
    pub fn listing(&self, alloc: Global, full: bool) -> Result<Vec<u8>, AllocError>
        ensures { IfOk result (λ text. text.items ≡ listing (early_tree self.now) full) }
    {
        let tree = self.plain(alloc)?;
        let text = tree.listing(alloc, full)?;
        Ok(text)
    }
}
