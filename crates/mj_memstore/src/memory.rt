//! A store in memory.

ghost use Rattle.std.specs.VecDeque.{deque_capacity};
ghost use Rattle.std.proofs.Props.{props};
ghost use Rattle.mj_memstore.specs.Facts.{named_prop};
ghost use Rattle.mj_memstore.specs.Memory.{IsMemory, list_of};

use crate::objects::Objects;
use mj_base::FaultPlan;
use mj_store::Ack;
use std::collections::{BTreeMap, VecDeque};

/// An object store in memory. It tells everything, and applies operations in `step` alone.
#[derive(Drop)]
pub struct MemStore {
    pub(crate) objects: Objects,
    pub(crate) completed: VecDeque<Ack>,
    // the operations that are not reported, each with the count of faults at its submission
    pub(crate) listed: BTreeMap<u64, u64>,
    // the number of the last operation
    pub(crate) last: u64,
    pub(crate) plan: FaultPlan,
    ghost sound: { IsMemory objects.entries completed.items (list_of listed.entries) last plan.faults (deque_capacity completed) } by { Prim.hlevel (props, named_prop) },
}
