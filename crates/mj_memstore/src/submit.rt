// An operation put into a store in memory.
ghost use Rattle.std.specs.Prelude.{◌≡◌, ℕ, [], ◌∷◌, ◌++◌, length, IsSome, ◌+◌, ◌≤◌, ◌<◌, ◌^◌, OnOk, OnErr, IfErr, IfOk};
ghost use Rattle.std.specs.VecDeque.{deque_capacity};
ghost use Rattle.mj_store.specs.Object.{HasShortKeys};
ghost use Rattle.mj_store.specs.State.{submitted};
ghost use Rattle.mj_store.specs.Causes.{with_listed};
ghost use Rattle.mj_memstore.specs.Memory.{IsMemory, found, object_in, list_of, state_of};

use crate::objects::{Objects, add_op, make_place};
use mj_base::OpNo;
use mj_store::{Ack, ObjectName, ObjectOp};
use std::alloc::{AllocError, Global};
use std::collections::{BTreeMap, VecDeque};

// A place for an object, and room for one more report. Whatever it answers, nothing that shows has changed.
fn make_room(
    alloc: Global,
    objects: &mut Objects,
    completed: &mut VecDeque<Ack>,
    listed: &BTreeMap<u64, u64>,
    name: ObjectName,
) -> Result<(), AllocError>
    ensures there { OnOk result (IsSome (found name objects.new.entries)) }
    ensures room { OnOk result (length (list_of listed.now.entries) + 1 ≤ deque_capacity completed.new) }
    ensures memory { (last faults : ℕ) → IsMemory objects.old.entries completed.old.items (list_of listed.now.entries) last faults (deque_capacity completed.old) → IsMemory objects.new.entries completed.new.items (list_of listed.now.entries) last faults (deque_capacity completed.new) }
    ensures objects { object_in objects.new.entries ≡ object_in objects.old.entries }
    ensures completed { completed.new.items ≡ completed.old.items }
{
    make_place(alloc, objects, name)?;
    completed.reserve(listed.len() + 1)
}

// Puts an operation with the number after the last one among those of its object and those that are listed, with the
// count of faults, and makes room for its report; or hands it back.
pub fn put_op(
    alloc: Global,
    objects: &mut Objects,
    completed: &mut VecDeque<Ack>,
    listed: &mut BTreeMap<u64, u64>,
    last: u64,
    faults: u64,
    op: ObjectOp,
) -> Result<OpNo, ObjectOp>
    requires keys { HasShortKeys op.act }
    requires number { last + 1 < 2 ^ 64 }
    requires memory { IsMemory objects.old.entries completed.old.items (list_of listed.old.entries) last faults (deque_capacity completed.old) }
    ensures number { IfOk result (λ number. number ≡ last + 1) }
    ensures memory { OnOk result (IsMemory objects.new.entries completed.new.items (list_of listed.new.entries) (last + 1) faults (deque_capacity completed.new)) }
    ensures state { OnOk result (state_of objects.new.entries completed.new.items (last + 1) ≡ submitted op (last + 1) (state_of objects.old.entries completed.old.items last)) }
    ensures listed { OnOk result (list_of listed.new.entries ≡ with_listed (last + 1) faults (list_of listed.old.entries)) }
    ensures err_memory { OnErr result (IsMemory objects.new.entries completed.new.items (list_of listed.new.entries) last faults (deque_capacity completed.new)) }
    ensures err_state { OnErr result (state_of objects.new.entries completed.new.items last ≡ state_of objects.old.entries completed.old.items last) }
    ensures err_listed { OnErr result (list_of listed.new.entries ≡ list_of listed.old.entries) }
    ensures returned { IfErr result (λ back. back ≡ op) }
{
    let ObjectOp { name, act } = op;
    if make_room(alloc, objects, completed, listed, name).is_err() {
        return Err(ObjectOp { name, act });
    }
    let number = last + 1;
    if listed.insert(number, faults).is_err() {
        return Err(ObjectOp { name, act });
    }
    match add_op(alloc, objects, &name, OpNo(number), act) {
        Ok(()) => Ok(OpNo(number)),
        Err(act) => {
            let _ = listed.remove(&number);
            Err(ObjectOp { name, act })
        }
    }
}

// Puts a report last. There is room for it.
pub fn push_report(completed: &mut VecDeque<Ack>, ack: Ack)
    requires { length completed.old.items < deque_capacity completed.old }
    ensures items { completed.new.items ≡ completed.old.items ++ ack ∷ [] }
    ensures capacity { deque_capacity completed.new ≡ deque_capacity completed.old }
{
    completed.push_back(ack).unwrap();
}
