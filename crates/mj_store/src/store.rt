//! An object store as the layers above see it.

ghost use Rattle.std.specs.Prelude.{◌≡◌, ℕ, ◌≤◌, List, [], ◌∷◌, Option, Some, None, option_map, option_copied, take, length, vec_len, IfOk, OnOk, OnErr, IfErr, IfSome, IfNone};
ghost use Rattle.mj_store.specs.Object.{Contents, HasShortKeys};
ghost use Rattle.mj_store.specs.State.{StoreState, IsImage, MayHold};
ghost use Rattle.mj_store.specs.Events.{Event, NoRestart, after_events, ops_of};
ghost use Rattle.mj_store.specs.Moves.{Moves, Stays, Submits, Reaps, Steps, Restarts, HasSize, HasBytes, HasPage};
ghost use Rattle.mj_store.specs.Pages.{IsPage};
ghost use Rattle.mj_store.specs.Causes.{Listed, Reports, IsCounted, RefusesSubmit, RefusesRead, AllBelow, with_listed};

use crate::act::ObjectOp;
use crate::answer::{Ack, Page, ReadRefusal, StoreFault, SubmitRefusal};
use mj_base::{ObjectName, OpNo};
use std::alloc::Global;

/// Objects by name, each with bytes, a head and pairs of keys and values, and with operations that wait to be applied.
///
/// Operations on one object are whole and are applied in order. In any call the store may first apply some of them.
/// An operation that fails stays pending, applied or not, and blocks its object until `restart`.
pub trait ObjectStore {
    /// What it holds; none where it does not tell.
    ghost state: { Self → Option StoreState };

    /// How often it has failed. It never falls.
    ghost faults: { Self → ℕ };

    /// The operations that were submitted and are not reported, each with the count of faults at its submission.
    ghost unreported: { Self → List Listed };

    /// Puts the operation last among its object's, and answers a number above all earlier ones. Then there is room
    /// for whatever `step`, `reap` and `restart` need for it.
    fn submit(&mut self, alloc: Global, op: ObjectOp) -> Result<OpNo, SubmitRefusal>
        requires { HasShortKeys op.act }
        ensures ok { IfOk result (λ number. Submits op number (state self.old) (state self.new)) }
        ensures err { OnErr result (Stays (state self.old) (state self.new)) }

        // what every store tells
        ensures listed { IfOk result (λ number. unreported self.new ≡ with_listed number (faults self.new) (unreported self.old)) }
        ensures newest { IfOk result (λ number. AllBelow number (unreported self.old)) }
        ensures same_list { OnErr result (unreported self.new ≡ unreported self.old) }
        ensures cause { IfErr result (RefusesSubmit (faults self.old) (faults self.new) op) }
        ensures later { faults self.old ≤ faults self.new };

    /// One operation that was completed and is not reported, in the order of completion.
    fn reap(&mut self) -> Option<Ack>
        ensures told { Reaps result (state self.old) (state self.new) }

        // what every store tells
        ensures reported { IfSome result (λ ack. Reports ack (faults self.new) (unreported self.old) (unreported self.new)) }
        ensures same_list { IfNone result (unreported self.new ≡ unreported self.old) }
        ensures later { faults self.old ≤ faults self.new };

    /// The length of the applied bytes, none where there is no such object.
    fn size(&mut self, name: &ObjectName) -> Result<Option<u64>, StoreFault>
        ensures ok { IfOk result (λ size. Moves (HasSize name.now size) [] (state self.old) (state self.new)) }
        ensures err { OnErr result (Stays (state self.old) (state self.new)) }

        // what every store tells
        ensures same_list { unreported self.new ≡ unreported self.old }
        ensures cause { IfErr result (IsCounted (faults self.old) (faults self.new)) }
        ensures later { faults self.old ≤ faults self.new };

    /// The applied bytes from this offset on, at most `len`, fewer only at the object's end. An absent object has none.
    fn read(
        &mut self,
        alloc: Global,
        name: &ObjectName,
        from: u64,
        len: u32,
    ) -> Result<Vec<u8>, ReadRefusal>
        ensures ok { IfOk result (λ bytes. Moves (HasBytes name.now from len bytes.items) [] (state self.old) (state self.new)) }
        ensures err { OnErr result (Stays (state self.old) (state self.new)) }

        // what every store tells
        ensures within { IfOk result (λ bytes. vec_len bytes ≤ len) }
        ensures same_list { unreported self.new ≡ unreported self.old }
        ensures cause { IfErr result (RefusesRead (faults self.old) (faults self.new)) }
        ensures later { faults self.old ≤ faults self.new };

    /// The first `most` pairs whose keys are above `after`, in the order of their keys' bytes.
    fn keys(
        &mut self,
        alloc: Global,
        name: &ObjectName,
        after: Option<&[u8]>,
        most: u32,
    ) -> Result<Page, ReadRefusal>
        requires { 1 ≤ most }
        ensures ok { IfOk result (λ page. Moves (HasPage name.now (option_copied after.entry) most page) [] (state self.old) (state self.new)) }
        ensures err { OnErr result (Stays (state self.old) (state self.new)) }

        // what every store tells
        ensures page { IfOk result (IsPage (option_copied after.entry) most) }
        ensures same_list { unreported self.new ≡ unreported self.old }
        ensures cause { IfErr result (RefusesRead (faults self.old) (faults self.new)) }
        ensures later { faults self.old ≤ faults self.new };

    /// Tries the object's first pending operation, and answers its number; none where nothing is pending or the
    /// object is blocked. That it failed is told by its `Ack`. A fault is answered where nothing was tried.
    fn step(&mut self, name: &ObjectName) -> Result<Option<OpNo>, StoreFault>
        ensures ok { IfOk result (λ number. Steps name.now number (state self.old) (state self.new)) }
        ensures err { OnErr result (Stays (state self.old) (state self.new)) }

        // what every store tells
        ensures same_list { unreported self.new ≡ unreported self.old }
        ensures cause { IfErr result (IsCounted (faults self.old) (faults self.new)) }
        ensures later { faults self.old ≤ faults self.new };

    /// Makes the contents one of the images. Then nothing is pending, completed or blocked.
    fn restart(&mut self) -> Result<(), StoreFault>
        ensures ok { OnOk result (Restarts (state self.old) (state self.new)) }
        ensures err { OnErr result (Stays (state self.old) (state self.new)) }

        // what every store tells
        ensures none_listed { OnOk result (unreported self.new ≡ []) }
        ensures same_list { OnErr result (unreported self.new ≡ unreported self.old) }
        ensures cause { IfErr result (IsCounted (faults self.old) (faults self.new)) }
        ensures later { faults self.old ≤ faults self.new };

    /// How often it has failed.
    fn faults(&self) -> u64
        ensures { result ≡ faults self.now };
}

/// What a stop may leave at any moment within a call, it may leave of the state before with the call's operations
/// added: a submission only widens it, and what is applied only narrows it.
pub fn each_moment()
    ensures { (k : ℕ) (events : List Event) (s : StoreState) (image : Contents) → NoRestart events →
        IsImage (after_events (take k events) s) image → MayHold s (ops_of events) image }
{}
