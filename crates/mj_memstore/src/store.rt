// What each call of a store does to one in memory.

ghost use Rattle.std.specs.Prelude.{◌≡◌, ◌⊎◌, ℕ, ◌+◌, ◌≤◌, ◌||◌, ◌↔◌, List, [], ◌∷◌, Option, Some, None, true, false, option_copied, vec_len, IsTrue, IsErr, IsSome, IfOk, OnOk, OnErr, IfErr, IfSome, IfNone};
ghost use Rattle.mj_base.specs.FaultPlan.{is_next_failing, after_call};
ghost use Rattle.mj_store.specs.Object.{HasShortKeys};
ghost use Rattle.mj_store.specs.State.{submitted, tried, failed, reported, at_rest, contents};
ghost use Rattle.mj_store.specs.Moves.{Moves, Stays, Submits, Reaps, Steps, Restarts, IsIdle, HasSize, HasBytes, HasPage};
ghost use Rattle.mj_store.specs.Pages.{IsPage};
ghost use Rattle.mj_store.specs.Causes.{Reports, IsCounted, RefusesSubmit, RefusesRead, AllBelow, with_listed};
ghost use Rattle.mj_memstore.specs.Store.{memory_state, memory_list, memory_plan, is_spent, plan_after_submit, IsSubmitFault, IsReadFault};

use crate::memory::MemStore;
use crate::objects::{settle_all, try_first};
use crate::read::{bytes_from, object_named, page_from};
use crate::submit::{push_report, put_op};
use mj_base::{FaultPlan, OpNo};
use mj_store::{
    Ack, ObjectName, ObjectOp, ObjectStore, Page, ReadRefusal, StoreFault, SubmitRefusal,
};
use std::alloc::Global;

// The fault that was counted last.
fn fault_of(plan: &FaultPlan) -> StoreFault
    ensures { result.faults ≡ plan.now.faults }
{
    StoreFault {
        faults: plan.faults(),
    }
}

impl ObjectStore for MemStore {
    ghost state = { λ m. Some (memory_state m) };

    ghost faults = { λ m. (memory_plan m).faults };

    ghost unreported = { memory_list };

    fn submit(&mut self, alloc: Global, op: ObjectOp) -> Result<OpNo, SubmitRefusal>
        // as the trait says
        requires { HasShortKeys op.act }
        ensures ok { IfOk result (λ number. Submits op number (Some (memory_state self.old)) (Some (memory_state self.new))) }
        ensures err { OnErr result (Stays (Some (memory_state self.old)) (Some (memory_state self.new))) }
        ensures listed { IfOk result (λ number. memory_list self.new ≡ with_listed number (memory_plan self.new).faults (memory_list self.old)) }
        ensures newest { IfOk result (λ number. AllBelow number (memory_list self.old)) }
        ensures same_list { OnErr result (memory_list self.new ≡ memory_list self.old) }
        ensures cause { IfErr result (RefusesSubmit (memory_plan self.old).faults (memory_plan self.new).faults op) }
        ensures later { (memory_plan self.old).faults ≤ (memory_plan self.new).faults }

        // nothing else is applied, numbers follow one another, and exactly the listed calls fail and those that find no number
        ensures exact { IfOk result (λ number. memory_state self.new ≡ submitted op number (memory_state self.old)) }
        ensures number { IfOk result (λ number. number ≡ (memory_state self.old).next) }
        ensures unchanged { OnErr result (memory_state self.new ≡ memory_state self.old) }
        ensures planned { IsSubmitFault result ↔ IsTrue (is_next_failing (memory_plan self.old) || is_spent self.old) }
        ensures counted { memory_plan self.new ≡ plan_after_submit self.old }
    {
        if self.plan.next_fails() {
            return Err(SubmitRefusal::Failed(fault_of(&self.plan)));
        }
        if self.last == u64::MAX {
            self.plan.count_fault();
            return Err(SubmitRefusal::Failed(fault_of(&self.plan)));
        }
        let faults = self.plan.faults();
        match put_op(
            alloc,
            &mut self.objects,
            &mut self.completed,
            &mut self.listed,
            self.last,
            faults,
            op,
        ) {
            Ok(number) => {
                self.last += 1;
                Ok(number)
            }
            Err(op) => Err(SubmitRefusal::Memory(op)),
        }
    }

    fn reap(&mut self) -> Option<Ack>
        // as the trait says
        ensures told { Reaps result (Some (memory_state self.old)) (Some (memory_state self.new)) }
        ensures reported { IfSome result (λ ack. Reports ack (memory_plan self.new).faults (memory_list self.old) (memory_list self.new)) }
        ensures same_list { IfNone result (memory_list self.new ≡ memory_list self.old) }
        ensures later { (memory_plan self.old).faults ≤ (memory_plan self.new).faults }

        // nothing is applied, and no call is counted
        ensures exact { memory_state self.new ≡ reported (memory_state self.old) }
        ensures counted { memory_plan self.new ≡ memory_plan self.old }
    {
        let ack = self.completed.pop_front()?;
        let _ = self.listed.remove(&ack.op.0);
        Some(ack)
    }

    fn size(&mut self, name: &ObjectName) -> Result<Option<u64>, StoreFault>
        // as the trait says
        ensures ok { IfOk result (λ size. Moves (HasSize name.now size) [] (Some (memory_state self.old)) (Some (memory_state self.new))) }
        ensures err { OnErr result (Stays (Some (memory_state self.old)) (Some (memory_state self.new))) }
        ensures same_list { memory_list self.new ≡ memory_list self.old }
        ensures cause { IfErr result (IsCounted (memory_plan self.old).faults (memory_plan self.new).faults) }
        ensures later { (memory_plan self.old).faults ≤ (memory_plan self.new).faults }

        // nothing is applied, and exactly the listed calls fail
        ensures exact { memory_state self.new ≡ memory_state self.old }
        ensures planned { IsErr result ↔ IsTrue (is_next_failing (memory_plan self.old)) }
        ensures counted { memory_plan self.new ≡ after_call (memory_plan self.old) }
    {
        if self.plan.next_fails() {
            return Err(fault_of(&self.plan));
        }
        match object_named(&self.objects, name) {
            Some(object) => Ok(Some(object.bytes.len() as u64)),
            None => Ok(None),
        }
    }

    fn read(
        &mut self,
        alloc: Global,
        name: &ObjectName,
        from: u64,
        len: u32,
    ) -> Result<Vec<u8>, ReadRefusal>
        // as the trait says
        ensures ok { IfOk result (λ bytes. Moves (HasBytes name.now from len bytes.items) [] (Some (memory_state self.old)) (Some (memory_state self.new))) }
        ensures err { OnErr result (Stays (Some (memory_state self.old)) (Some (memory_state self.new))) }
        ensures within { IfOk result (λ bytes. vec_len bytes ≤ len) }
        ensures same_list { memory_list self.new ≡ memory_list self.old }
        ensures cause { IfErr result (RefusesRead (memory_plan self.old).faults (memory_plan self.new).faults) }
        ensures later { (memory_plan self.old).faults ≤ (memory_plan self.new).faults }

        // nothing is applied, and exactly the listed calls fail
        ensures exact { memory_state self.new ≡ memory_state self.old }
        ensures planned { IsReadFault result ↔ IsTrue (is_next_failing (memory_plan self.old)) }
        ensures counted { memory_plan self.new ≡ after_call (memory_plan self.old) }
    {
        if self.plan.next_fails() {
            return Err(ReadRefusal::Failed(fault_of(&self.plan)));
        }
        match object_named(&self.objects, name) {
            Some(object) => Ok(bytes_from(alloc, object.bytes.as_slice(), from, len)?),
            None => Ok(Vec::new(alloc)),
        }
    }

    fn keys(
        &mut self,
        alloc: Global,
        name: &ObjectName,
        after: Option<&[u8]>,
        most: u32,
    ) -> Result<Page, ReadRefusal>
        // as the trait says
        requires { 1 ≤ most }
        ensures ok { IfOk result (λ page. Moves (HasPage name.now (option_copied after.entry) most page) [] (Some (memory_state self.old)) (Some (memory_state self.new))) }
        ensures err { OnErr result (Stays (Some (memory_state self.old)) (Some (memory_state self.new))) }
        ensures page { IfOk result (IsPage (option_copied after.entry) most) }
        ensures same_list { memory_list self.new ≡ memory_list self.old }
        ensures cause { IfErr result (RefusesRead (memory_plan self.old).faults (memory_plan self.new).faults) }
        ensures later { (memory_plan self.old).faults ≤ (memory_plan self.new).faults }

        // nothing is applied, and exactly the listed calls fail
        ensures exact { memory_state self.new ≡ memory_state self.old }
        ensures planned { IsReadFault result ↔ IsTrue (is_next_failing (memory_plan self.old)) }
        ensures counted { memory_plan self.new ≡ after_call (memory_plan self.old) }
    {
        if self.plan.next_fails() {
            return Err(ReadRefusal::Failed(fault_of(&self.plan)));
        }
        Ok(page_from(alloc, object_named(&self.objects, name), after, most)?)
    }

    fn step(&mut self, name: &ObjectName) -> Result<Option<OpNo>, StoreFault>
        // as the trait says
        ensures ok { IfOk result (λ number. Steps name.now number (Some (memory_state self.old)) (Some (memory_state self.new))) }
        ensures err { OnErr result (Stays (Some (memory_state self.old)) (Some (memory_state self.new))) }
        ensures same_list { memory_list self.new ≡ memory_list self.old }
        ensures cause { IfErr result (IsCounted (memory_plan self.old).faults (memory_plan self.new).faults) }
        ensures later { (memory_plan self.old).faults ≤ (memory_plan self.new).faults }

        // A listed call fails the first operation, or answers a fault where there is none. Any other applies it.
        ensures fails { is_next_failing (memory_plan self.old) ≡ true → memory_state self.new ≡ failed name.now (memory_state self.old) }
        ensures tries { is_next_failing (memory_plan self.old) ≡ false → memory_state self.new ≡ tried name.now (memory_state self.old) }
        ensures planned { IsErr result → is_next_failing (memory_plan self.old) ≡ true }
        ensures nothing { OnErr result (IsIdle name.now (memory_state self.old)) }
        ensures told { is_next_failing (memory_plan self.old) ≡ true → IfOk result (λ number. IsSome number) }
        ensures counted { memory_plan self.new ≡ after_call (memory_plan self.old) }
    {
        let fails = self.plan.next_fails();
        let Some(ack) = try_first(&mut self.objects, name, fails) else {
            return if fails {
                Err(fault_of(&self.plan))
            } else {
                Ok(None)
            };
        };
        let op = ack.op;
        push_report(&mut self.completed, ack);
        Ok(Some(op))
    }

    fn restart(&mut self) -> Result<(), StoreFault>
        // as the trait says
        ensures ok { OnOk result (Restarts (Some (memory_state self.old)) (Some (memory_state self.new))) }
        ensures err { OnErr result (Stays (Some (memory_state self.old)) (Some (memory_state self.new))) }
        ensures none_listed { OnOk result (memory_list self.new ≡ []) }
        ensures same_list { OnErr result (memory_list self.new ≡ memory_list self.old) }
        ensures cause { IfErr result (IsCounted (memory_plan self.old).faults (memory_plan self.new).faults) }
        ensures later { (memory_plan self.old).faults ≤ (memory_plan self.new).faults }

        // nothing is applied, and exactly the listed calls fail
        ensures exact { OnOk result (memory_state self.new ≡ at_rest (contents (memory_state self.old)) (memory_state self.old)) }
        ensures unchanged { OnErr result (memory_state self.new ≡ memory_state self.old) }
        ensures planned { IsErr result ↔ IsTrue (is_next_failing (memory_plan self.old)) }
        ensures counted { memory_plan self.new ≡ after_call (memory_plan self.old) }
    {
        if self.plan.next_fails() {
            return Err(fault_of(&self.plan));
        }
        settle_all(&mut self.objects);
        self.completed.clear();
        self.listed.clear();
        Ok(())
    }

    fn faults(&self) -> u64 {
        self.plan.faults()
    }
}
