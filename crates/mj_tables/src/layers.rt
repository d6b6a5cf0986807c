//! A safe table, and over it the groups of writes that are not safe yet.

ghost use Rattle.std.specs.Prelude.{◌≡◌, ◌<◌, [], ◌∷◌, ◌++◌, map, filter, IfOk, OnOk, OnErr, option_map};
ghost use Rattle.std.specs.Option.{option_copied};
ghost use Rattle.std.specs.List.Sorted.{IsPermutation};
ghost use Rattle.mj_maps.specs.Map.{get, entries, picked};
ghost use Rattle.mj_cells.specs.declared.cell.CellKey.{CellKey};
ghost use Rattle.mj_cells.specs.declared.cell.CellValue.{CellValue};
ghost use Rattle.mj_cells.specs.declared.cell.CellWrite.{CellWrite};
ghost use Rattle.mj_cells.specs.Next.{cell_of};
ghost use Rattle.mj_cells.specs.Table.{put_all};
ghost use Rattle.mj_tables.specs.Layered.{all_writes, writes_key, early_cells, next_there, EndBelow, HasRoom, ended, unended};
ghost use Rattle.mj_tables.specs.Slots.{slots_of, early_slots, early_entry, is_of};

use crate::group::Group;
use crate::room::make_all_room;
use crate::safe_cells::SafeCells;
use crate::settling::{project_group, settle_ended};
use crate::slot::Slot;
use crate::there::{There, is_of_dir};
use mj_base::Items;
use mj_cells::{CellKey, CellValue, CellView, CellWrite, compare};
use std::alloc::{AllocError, Global};
use std::collections::{HashMap, VecDeque};
use std::marker::Model;

/// Cells by key: the safe values, and over them the writes of groups that are not safe yet.
#[derive(Drop)]
pub struct Layers {
    // A hash map, since a look-up in it does not compare names along a tree.
    slots: HashMap<CellKey, Slot>,
    // The keys whose early values are there, in order, so that `next_there` does not step over what was removed.
    // It steps only over room that a `reserve` made and no `project` took.
    there: There,
    groups: VecDeque<Group>,
}

impl Model for Layers {
    ghost use Rattle.mj_tables.specs.Layered.{Layered, layered_code};

    ghost Value = { Layered };

    ghost coded = { layered_code };

    ghost use Rattle.mj_tables.specs.Inside.{layers_in, IsSound};

    ghost view = { layers_in };

    ghost invariant = { IsSound };
}

impl Layers {
    /// These cells, all of them safe.
    pub fn of_cells(alloc: Global, cells: SafeCells) -> Result<Layers, AllocError>
        ensures safe { IfOk result (λ l. l.safe ≡ cells) }
        ensures groups { IfOk result (λ l. l.groups ≡ []) }
    {
        let slots = cells.into_slots();
        let there = There::of_slots(alloc, &slots)?;
        Ok(Layers {
            slots,
            there,
            groups: VecDeque::new(alloc),
        })
    }

    /// The safe value of a key.
    pub fn safe(&self, key: &CellKey) -> Option<&CellValue>
        ensures { option_copied result ≡ get self.now.safe key.now }
    {
        match self.slots.get(key) {
            Some(slot) => slot.safe.as_ref(),
            None => None,
        }
    }

    /// The value of a key with all groups' writes.
    pub fn early(&self, key: &CellKey) -> Option<&CellValue>
        ensures { option_copied result ≡ get (early_cells self.now) key.now }
    {
        match self.slots.get(key) {
            Some(slot) => slot.early(),
            None => None,
        }
    }

    /// Whether a group writes the key.
    pub fn projects(&self, key: &CellKey) -> bool
        ensures { result ≡ writes_key key.now (all_writes self.now.groups) }
    {
        match self.slots.get(key) {
            Some(slot) => slot.ahead.is_some(),
            None => false,
        }
    }

    /// The early cell with the least key above `after` that is neither gone nor null.
    pub fn next_there(&self, after: Option<&CellKey>) -> Option<CellView<'_>>
        ensures { option_map cell_of result ≡ next_there (early_cells self.now) (option_copied after.entry) }
    {
        self.there.next_cell(&self.slots, after)
    }

    /// All early cells, in the order of their keys.
    pub fn cells(&self, alloc: Global) -> Result<Vec<CellView<'_>>, AllocError>
        ensures { IfOk result (λ v. map cell_of v.items ≡ entries (early_cells self.now)) }
    {
        let mut found = early_views(alloc, &self.slots)?;
        found.sort_by(|a, b| compare(a.key, b.key))?;
        Ok(found)
    }

    /// Makes the room of a group of these writes, and copies their values. Nothing that is held changes.
    pub fn reserve(&mut self, alloc: Global, ws: &[CellWrite]) -> Result<Vec<CellValue>, AllocError>
        ensures safe { self.new.safe ≡ self.old.safe }
        ensures groups { self.new.groups ≡ self.old.groups }
        ensures room { OnOk result (HasRoom self.new.room ws.now) }
        ensures spare { OnOk result (0 < self.new.spare) }
        ensures values { IfOk result (λ values. values.items ≡ map (λ (w : CellWrite). w.value) ws.now) }
    {
        let values = copy_values(alloc, ws)?;
        self.groups.reserve(1)?;
        make_all_room(alloc, &mut self.slots, &mut self.there, ws)?;
        Ok(values)
    }

    /// Adds a group, which needs no memory where there is room. `values` are those of the writes again.
    pub fn project(&mut self, ws: Vec<CellWrite>, values: Vec<CellValue>, ends: u64)
        requires room { HasRoom self.old.room ws.items }
        requires spare { 0 < self.old.spare }
        requires values { values.items ≡ map (λ (w : CellWrite). w.value) ws.items }
        requires above { EndBelow ends self.old.groups }
        ensures safe { self.new.safe ≡ self.old.safe }
        ensures groups { self.new.groups ≡ self.old.groups ++ record { ends = ends; writes = ws.items } ∷ [] }
    {
        project_group(&mut self.slots, &mut self.there, &ws, values, ends);
        self.groups.push_back_reserved(Group {
            ends,
            writes: Items::from_vec(ws),
        });
    }

    /// Takes the groups that end at or below `upto` into the safe cells, without memory.
    pub fn make_safe(&mut self, upto: u64)
        ensures safe { self.new.safe ≡ put_all self.old.safe (all_writes (ended upto self.old.groups)) }
        ensures groups { self.new.groups ≡ unended upto self.old.groups }
        ensures early { early_cells self.new ≡ early_cells self.old }
    {
        settle_ended(&mut self.slots, &mut self.groups, upto);
    }
}

// Whether a key is of a directory, or is not.
fn is_of(dirs: bool, key: &CellKey) -> bool
    ensures { result ≡ is_of dirs key.now }
{
    if is_of_dir(key) { dirs } else { !dirs }
}

// Adds the early cells of one kind, those of directories or the others.
fn push_views<'a>(
    slots: &'a HashMap<CellKey, Slot>,
    dirs: bool,
    found: &mut Vec<CellView<'a>>,
) -> Result<(), AllocError>
    ensures { OnOk result (map cell_of found.new.items ≡ map cell_of found.old.items ++ filter (λ (e : CellKey × CellValue). is_of dirs e.0) (picked early_entry slots.now.entries)) }
{
    for (key, slot) in slots.iter() {
        if !is_of(dirs, key) {
            continue;
        }
        if let Some(value) = slot.early() {
            found.push(CellView { key, value })?;
        }
    }
    Ok(())
}

// The early cells, those of directories before the others: each of the two mostly came in the order of its keys, and a sort takes what is in order as
// it is.
fn early_views(
    alloc: Global,
    slots: &HashMap<CellKey, Slot>,
) -> Result<Vec<CellView<'_>>, AllocError>
    ensures { IfOk result (λ v. IsPermutation (entries (early_slots (slots_of slots.now))) (map cell_of v.items)) }
{
    let mut found = Vec::with_capacity(alloc, slots.len())?;
    push_views(slots, true, &mut found)?;
    push_views(slots, false, &mut found)?;
    Ok(found)
}

// The values of the writes again.
fn copy_values(alloc: Global, ws: &[CellWrite]) -> Result<Vec<CellValue>, AllocError>
    ensures { IfOk result (λ values. values.items ≡ map (λ (w : CellWrite). w.value) ws.now) }
{
    let mut values = Vec::with_capacity(alloc, ws.len())?;
    for w in ws {
        let value = w.value.copy(alloc)?;
        values.push(value)?;
    }
    Ok(values)
}
