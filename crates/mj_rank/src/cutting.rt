//! The objects of a journal near its tail, and what a mount cuts off of them.

ghost use Rattle.std.specs.Prelude.{◌≡◌, ◌<◌, ◌≤◌, ◌+◌, ◌∷◌, ◌++◌, ◌^◌, [], IfOk, OnOk, IfErr, OnErr, vec_len};
ghost use Rattle.std.specs.Vec.{vec_capacity};
ghost use Rattle.mj_store.specs.Causes.{IsCounted};
ghost use Rattle.mj_store.specs.Moves.{Stays};
ghost use Rattle.mj_store.specs.Object.{HasShortKeys};
ghost use Rattle.mj_layout.specs.Placing.{set_of};
ghost use Rattle.mj_recovery.specs.Orderly.{window_end};

use mj_base::limits::{LAST_POSITION, WINDOW};
use mj_base::{ObjectName, OpNo, RankNo};
use mj_journaler::tail_cut;
use mj_layout::{Layout, journal_object};
use mj_store::{ObjectOp, ObjectStore, StoreFault};
use std::alloc::{AllocError, Global};

/// A truncation that was sent and is not acknowledged, of one object of the journal.
#[derive(Clone, Copy)]
pub struct Cut {
    pub op: OpNo,
    pub index: u64,
}

/// The objects near the tail that are still to be looked at, and the truncations that are on their way.
#[derive(Drop)]
pub struct Cuts {
    /// The object that is looked at next.
    pub next: u64,
    /// The first object behind those that a write may have reached.
    pub end: u64,
    pub out: Vec<Cut>,
    ghost in_order: { next ≤ end },
}

impl Cuts {
    ghost use Rattle.mj_rank.specs.Cutting.{near_from, near_end, sent_cuts, without_cut};
    ghost use Rattle.mj_rank.specs.Mounts.{first_of};

    /// All objects from the tail's set to the one that ends four periods on. At most 80.
    pub fn new(alloc: Global, layout: &Layout, tail: u64) -> Cuts
        requires { tail < 2 ^ 62 }
        ensures next { result.next ≡ near_from layout.now tail }
        ensures end { result.end ≡ near_end layout.now tail }
        ensures out { result.out.items ≡ [] }
    {
        layout.is_sound();
        let sc = layout.sc() as u64;
        let last = (tail + (WINDOW * layout.period() - 1)).min(LAST_POSITION);
        Cuts {
            next: set_of(layout, tail) * sc,
            end: (set_of(layout, last) + 1) * sc,
            out: Vec::new(alloc),
        }
    }

    /// Makes the room for `sent`.
    pub fn reserve(&mut self) -> Result<(), AllocError>
        ensures room { OnOk result (vec_len self.new.out < vec_capacity self.new.out) }
        ensures next { self.new.next ≡ self.old.next }
        ensures end { self.new.end ≡ self.old.end }
        ensures out { self.new.out.items ≡ self.old.out.items }
    {
        self.out.reserve(1)
    }

    /// The truncation of an object was sent under this number, and all before it were looked at.
    pub fn sent(&mut self, op: OpNo, index: u64)
        requires room { vec_len self.old.out < vec_capacity self.old.out }
        requires within { index < self.old.end }
        ensures next { self.new.next ≡ index + 1 }
        ensures end { self.new.end ≡ self.old.end }
        ensures out { self.new.out.items ≡ self.old.out.items ++ record { op = op; index = index } ∷ [] }
    {
        self.out.push(Cut { op, index }).unwrap();
        self.next = index + 1;
    }

    /// A truncation is acknowledged.
    pub fn acked(&mut self, op: OpNo)
        ensures next { self.new.next ≡ self.old.next }
        ensures end { self.new.end ≡ self.old.end }
        ensures out { self.new.out.items ≡ without_cut op self.old.out.items }
    {
        self.out.retain(|cut| cut.op != op);
    }

    /// The first truncation that is not acknowledged, and its object.
    pub fn oldest_sent(&self, number: RankNo) -> Option<(OpNo, ObjectName)>
        ensures { result ≡ first_of (sent_cuts number self.now.out.items) }
    {
        self.out
            .first()
            .map(|cut| (cut.op, journal_object(number, cut.index)))
    }
}

// The set of objects that a position is in.
fn set_of(layout: &Layout, position: u64) -> u64
    requires { position < 2 ^ 62 }
    ensures is { result ≡ set_of layout.now position }
    ensures low { result < 2 ^ 46 }
{
    layout.is_sound();
    position / layout.period()
}

ghost use Rattle.mj_rank.specs.Cutting.{Looks};

/// Asks the objects of a journal for their sizes, from one number up to another, as far as the first that has a byte at or above
/// the tail: that one, and the operation that cuts it.
pub fn look<S: ObjectStore>(
    store: &mut S,
    number: RankNo,
    layout: &Layout,
    tail: u64,
    from: u64,
    end: u64,
) -> Result<Option<(u64, ObjectOp)>, StoreFault>
    requires { from ≤ end }
    ensures same_list { S.unreported store.new ≡ S.unreported store.old }
    ensures later { S.faults store.old ≤ S.faults store.new }
    ensures cause { IfErr result (IsCounted (S.faults store.old) (S.faults store.new)) }
    ensures looks { IfOk result (λ found. Looks number layout.now tail from end found (S.state store.old) (S.state store.new)) }
    ensures stays { Stays (S.state store.old) (S.state store.new) }
{
    for index in from..end {
        let size = store.size(&journal_object(number, index))?;
        if let Some(op) = tail_cut(number, layout, tail, index, size.unwrap_or(0)) {
            return Ok(Some((index, op)));
        }
    }
    Ok(None)
}
