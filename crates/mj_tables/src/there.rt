//! The keys whose early values are there.

ghost use Rattle.std.specs.Prelude.{◌≡◌, IfOk, OnOk, filter};
ghost use Rattle.std.specs.Option.{option_copied, option_map};
ghost use Rattle.std.specs.Bound.{bound_map};
ghost use Rattle.mj_cells.specs.Next.{is_above, bound_above, cell_of, first_of};
ghost use Rattle.mj_tables.specs.Slots.{slots_of, is_of_dir};
ghost use Rattle.mj_tables.specs.Listed.{has_key, there_along, AreThere, Adds, Drops, AllStay};
ghost use Rattle.mj_tables.specs.There.{dirs_above, Rises};

use crate::listing::first_there;
use crate::slot::Slot;
use mj_cells::{CellKey, CellView};
use std::alloc::{AllocError, Global};
use std::collections::{BTreeSet, HashMap};
use std::marker::Model;
use std::ops::Bound;

/// Keys in order. Those of no directory, which are of clients, are few and asked for often, so they stand in a set of their own, and
/// no look-up of them goes down the tree of all dentries and heads.
#[derive(Drop)]
pub struct There {
    dirs: BTreeSet<CellKey>,
    others: BTreeSet<CellKey>,
}

impl Model for There {
    ghost use Rattle.std.specs.BTreeSet.{BTreeSet as Keys};
    ghost use Rattle.mj_cells.specs.declared.cell.CellKey.{CellKey as Key};

    ghost Value = { Keys Key };

    ghost use Rattle.mj_tables.specs.There.{keys_code, keys_in, KeysApart};

    ghost coded = { keys_code };

    ghost view = { keys_in };

    ghost invariant = { KeysApart };
}

impl There {
    /// The keys of these slots that are there. They come in no order, and each set that is made of them at once puts them in order.
    pub fn of_slots(alloc: Global, slots: &HashMap<CellKey, Slot>) -> Result<There, AllocError>
        ensures { IfOk result (λ there. AreThere (slots_of slots.now) there) }
    {
        let mut dirs = Vec::new(alloc);
        let mut others = Vec::new(alloc);
        for (key, slot) in slots.iter() {
            if slot.there().is_some() {
                let copy = key.copy(alloc)?;
                if is_of_dir(key) {
                    dirs.push(copy)?;
                } else {
                    others.push(copy)?;
                }
            }
        }
        let dirs = dirs.into_iter().collect(alloc)?;
        let others = others.into_iter().collect(alloc)?;
        Ok(There { dirs, others })
    }

    pub fn contains(&self, key: &CellKey) -> bool
        ensures { result ≡ has_key self.now key.now }
    {
        if is_of_dir(key) {
            self.dirs.contains(key)
        } else {
            self.others.contains(key)
        }
    }

    pub fn insert(&mut self, key: CellKey) -> Result<(), AllocError>
        ensures ok { OnOk result (Adds self.old key self.new) }
        ensures stay { AllStay self.old self.new }
    {
        if is_of_dir(&key) {
            self.dirs.insert(key)?;
        } else {
            self.others.insert(key)?;
        }
        Ok(())
    }

    pub fn remove(&mut self, key: &CellKey)
        ensures { Drops self.old key.now self.new }
    {
        if is_of_dir(key) {
            self.dirs.remove(key);
        } else {
            self.others.remove(key);
        }
    }

    /// The first key above `after` that is there, with its value.
    pub fn next_cell<'a>(
        &'a self,
        slots: &'a HashMap<CellKey, Slot>,
        after: Option<&CellKey>,
    ) -> Option<CellView<'a>>
        ensures cell { option_map cell_of result ≡ first_of (there_along (slots_of slots.now) (filter (is_above (option_copied after.entry)) self.now.keys)) }
        ensures rises { Rises self.now }
    {
        if begins_at_dirs(after) {
            let dirs = self.dirs.range((start_above(after), Bound::Unbounded));
            if let Some(cell) = first_there(slots, dirs) {
                return Some(cell);
            }
        }
        let others = self.others.range((start_above(after), Bound::Unbounded));
        first_there(slots, others)
    }
}

/// Whether a key is a dentry's or a head's.
pub fn is_of_dir(key: &CellKey) -> bool
    ensures { result ≡ is_of_dir key.now }
{
    matches!(key, CellKey::Dentry(..) | CellKey::DirHead(_))
}

// Whether a directory's key can be above.
fn begins_at_dirs(after: Option<&CellKey>) -> bool
    ensures { result ≡ dirs_above (option_copied after.entry) }
{
    match after {
        Some(key) => is_of_dir(key),
        None => true,
    }
}

fn start_above(after: Option<&CellKey>) -> Bound<&CellKey>
    ensures { bound_map (λ x. x.now) result ≡ bound_above (option_copied after.entry) }
{
    match after {
        Some(key) => Bound::Excluded(key),
        None => Bound::Unbounded,
    }
}
