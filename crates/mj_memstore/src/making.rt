// Stores in memory as they begin, and their objects in order.

ghost use Rattle.std.specs.Prelude.{◌≡◌, [], map, option_copied, slice_get, IfOk};
ghost use Rattle.mj_store.specs.State.{contents};
ghost use Rattle.mj_memstore.specs.Holding.{AreInOrder, AreAll};
ghost use Rattle.mj_memstore.specs.Store.{memory_state, memory_objects, IsNew};

use crate::memory::MemStore;
use crate::objects::{hold_all, nth_object, objects_there};
use mj_base::FaultPlan;
use mj_store::HeldObject;
use std::alloc::{AllocError, Global};
use std::collections::{BTreeMap, VecDeque};

impl MemStore {
    /// An empty store. No call fails but a submission that finds no number left.
    pub fn new(alloc: Global) -> MemStore
        ensures { IsNew [] [] result }
    {
        MemStore {
            objects: BTreeMap::new(alloc),
            completed: VecDeque::new(alloc),
            listed: BTreeMap::new(alloc),
            last: 0,
            plan: FaultPlan::none(alloc),
        }
    }

    /// An empty store that fails the calls with these numbers, counted from 1, and each submission that finds no
    /// number left. Calls of `reap` and `faults` are not counted.
    pub fn failing(alloc: Global, calls: &[u64]) -> Result<MemStore, AllocError>
        ensures { IfOk result (IsNew [] calls.now) }
    {
        Self::holding(alloc, Vec::new(alloc), calls)
    }

    /// A store that holds these objects and fails the calls with these numbers, as `failing` does.
    pub fn holding(
        alloc: Global,
        objects: Vec<HeldObject>,
        calls: &[u64],
    ) -> Result<MemStore, AllocError>
        requires { AreInOrder objects.items }
        ensures { IfOk result (IsNew objects.items calls.now) }
    {
        Ok(MemStore {
            objects: hold_all(alloc, objects)?,
            completed: VecDeque::new(alloc),
            listed: BTreeMap::new(alloc),
            last: 0,
            plan: FaultPlan::new(alloc, calls)?,
        })
    }

    /// The object at this place among those that are there, in the order of their names.
    pub fn object_at(&self, n: usize) -> Option<&HeldObject>
        ensures nth { option_copied result ≡ slice_get (memory_objects self.now) n }
        ensures all { AreAll (memory_objects self.now) (contents (memory_state self.now)) }
    {
        nth_object(&self.objects, n)
    }

    /// All objects that are there, in the order of their names.
    pub fn all_objects(&self, alloc: Global) -> Result<Vec<&HeldObject>, AllocError>
        ensures objects { IfOk result (λ v. map (λ h. h.now) v.items ≡ memory_objects self.now) }
        ensures all { AreAll (memory_objects self.now) (contents (memory_state self.now)) }
    {
        objects_there(alloc, &self.objects)
    }
}
