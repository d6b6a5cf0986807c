//! Operations that are performed one after another.

ghost use Rattle.std.specs.Prelude.{◌≡◌, ℕ, ◌≤◌, Some, [], OnOk, IfErr, IsErrOf};
ghost use Rattle.mj_store.specs.State.{StoreState, Quiet};
ghost use Rattle.mj_store.specs.Events.{Tells};
ghost use Rattle.mj_store.specs.Causes.{Counted};
ghost use Rattle.mj_store.specs.Calls.{RefusesPerform};
ghost use Rattle.mj_store.specs.declared.answer.PerformRefusal.TheVariants.{Waiting};
ghost use Rattle.mj_format.specs.Sending.{PerformedAll, HaveShortKeys, GoesByFront};

use mj_store::{ObjectOp, ObjectStore, PerformRefusal, perform};
use std::alloc::Global;

/// Performs each of these, one after another, up to the first that is refused. It may be called over any store, and what it
/// says of a store that tells its state it says where that is quiet.
pub fn perform_all<S: ObjectStore>(
    alloc: Global,
    store: &mut S,
    ops: Vec<ObjectOp>,
) -> Result<(), PerformRefusal>
    requires keys { HaveShortKeys ops.items }
    ensures ok { OnOk result ((s : StoreState) → S.state store.old ≡ Some s → Quiet s → Tells (S.state store.new) (PerformedAll ops.items s)) }
    ensures none_listed { OnOk result ((s : StoreState) → S.state store.old ≡ Some s → Quiet s → S.unreported store.old ≡ [] → S.unreported store.new ≡ []) }
    ensures goes { GoesByFront ops.items (S.state store.old) (S.state store.new) }
    ensures waiting { (number : ℕ) (s : StoreState) → IsErrOf result (Waiting number) → S.state store.old ≡ Some s → Quiet s → ⊥ }

    // over every store
    ensures cause { IfErr result (RefusesPerform (S.faults store.old) (S.faults store.new) (S.unreported store.new)) }
    ensures counted { (base : ℕ) → Counted base (S.faults store.old) (S.unreported store.old) → Counted base (S.faults store.new) (S.unreported store.new) }
    ensures later { S.faults store.old ≤ S.faults store.new }
{
    for op in ops {
        perform(alloc, store, op)?;
    }
    Ok(())
}
