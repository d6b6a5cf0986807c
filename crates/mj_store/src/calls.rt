//! One read, and one operation from its submission to its report, over any store.

ghost use Rattle.std.specs.Prelude.{◌≡◌, ℕ, ◌≤◌, Option, Some, List, [], ◌∷◌, false, IfOk, OnOk, OnErr, IfErr, IsErrOf, IfSome, IfNone};
ghost use Rattle.mj_store.specs.Object.{HasShortKeys};
ghost use Rattle.mj_store.specs.State.{StoreState, Quiet, reported};
ghost use Rattle.mj_store.specs.Events.{Goes, Tells};
ghost use Rattle.mj_store.specs.Moves.{Stays, Still};
ghost use Rattle.mj_store.specs.Causes.{Listed, In, Counted, RefusesRead, unlisted};
ghost use Rattle.mj_store.specs.Calls.{IsWant, Fetches, IsAnswer, Performed, RefusesPerform, GoesBy};
ghost use Rattle.mj_base.specs.Counts.{Rose};
ghost use Rattle.mj_store.specs.declared.answer.Ack.{Ack};
ghost use Rattle.mj_store.specs.declared.answer.PerformRefusal.TheVariants.{Memory, Waiting};

use crate::act::ObjectOp;
use crate::answer::{PerformRefusal, ReadRefusal, StoreFault};
use crate::store::ObjectStore;
use crate::want::{Got, Want};
use mj_base::{Items, OpNo};
use std::alloc::Global;

/// Answers a want, by one read.
pub fn fetch<S: ObjectStore>(alloc: Global, store: &mut S, want: &Want) -> Result<Got, ReadRefusal>
    requires { IsWant want.now }
    ensures ok { IfOk result (λ got. Fetches want.now got (S.state store.old) (S.state store.new)) }
    ensures err { OnErr result (Stays (S.state store.old) (S.state store.new)) }

    // what is answered over every store
    ensures answer { IfOk result (IsAnswer want.now) }
    ensures same_list { S.unreported store.new ≡ S.unreported store.old }
    ensures cause { IfErr result (RefusesRead (S.faults store.old) (S.faults store.new)) }
    ensures later { S.faults store.old ≤ S.faults store.new }
{
    match want {
        Want::Read { name, from, len } => {
            let bytes = store.read(alloc, name, *from, *len)?;
            Ok(Got::Bytes(Items::from_vec(bytes)))
        }
        Want::Page { name, after, most } => Ok(Got::Keys(store.keys(alloc, name, *after, *most)?)),
    }
}

// Takes reports until that of this operation, and answers whether it is done; none where the store had no more.
fn reported_done<S: ObjectStore>(store: &mut S, number: OpNo) -> Option<bool>
    ensures told { (s : StoreState) → S.state store.old ≡ Some s → Still s → (ack : Ack) → s.completed ≡ ack ∷ [] → ack.op ≡ number → (result ≡ Some ack.done) × (S.state store.new ≡ Some (reported s)) × (S.unreported store.new ≡ unlisted number (S.unreported store.old)) }
    ensures goes { Goes (S.state store.old) [] (S.state store.new) }
    ensures counted { (base : ℕ) → Counted base (S.faults store.old) (S.unreported store.old) → Counted base (S.faults store.new) (S.unreported store.new) }
    ensures cause { (base : ℕ) → ((count : ℕ) → In (record { op = number; count = count }) (S.unreported store.old) → base ≤ count) → result ≡ Some false → Rose base (S.faults store.new) }
    ensures waits { IfNone result ((count : ℕ) → In (record { op = number; count = count }) (S.unreported store.old) → In (record { op = number; count = count }) (S.unreported store.new)) }
    ensures later { S.faults store.old ≤ S.faults store.new }
{
    while let Some(ack) = store.reap() {
        if ack.op == number {
            return Some(ack.done);
        }
    }
    None
}

/// Submits an operation, tries its object's first one, and waits for its report. `Ok` says that it is applied.
/// After a refusal other than `Memory` the store holds the operation as the store says, and goes on to hold it.
/// It may be called over any store; what comes of it is said of one that tells its state and is quiet.
pub fn perform<S: ObjectStore>(
    alloc: Global,
    store: &mut S,
    op: ObjectOp,
) -> Result<(), PerformRefusal>
    requires { HasShortKeys op.act }
    ensures ok { OnOk result ((s : StoreState) → S.state store.old ≡ Some s → Quiet s → Tells (S.state store.new) (Performed op s)) }
    ensures none_listed { OnOk result ((s : StoreState) → S.state store.old ≡ Some s → Quiet s → S.unreported store.old ≡ [] → S.unreported store.new ≡ []) }
    ensures ok_by { OnOk result (Goes (S.state store.old) (op ∷ []) (S.state store.new)) }
    ensures goes { GoesBy op (S.state store.old) (S.state store.new) }
    ensures waiting { (number : ℕ) (s : StoreState) → IsErrOf result (Waiting number) → S.state store.old ≡ Some s → Quiet s → ⊥ }
    ensures nothing { IsErrOf result Memory → Stays (S.state store.old) (S.state store.new) }

    // over every store
    ensures same_list { IsErrOf result Memory → S.unreported store.new ≡ S.unreported store.old }
    ensures cause { IfErr result (RefusesPerform (S.faults store.old) (S.faults store.new) (S.unreported store.new)) }
    ensures counted { (base : ℕ) → Counted base (S.faults store.old) (S.unreported store.old) → Counted base (S.faults store.new) (S.unreported store.new) }
    ensures later { S.faults store.old ≤ S.faults store.new }
{
    let name = op.name;
    let number = store.submit(alloc, op)?;
    store.step(&name)?;
    match reported_done(store, number) {
        Some(true) => Ok(()),
        Some(false) => Err(PerformRefusal::Failed(StoreFault {
            faults: store.faults(),
        })),
        None => Err(PerformRefusal::Waiting(number)),
    }
}
