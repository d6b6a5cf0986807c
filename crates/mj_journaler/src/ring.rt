//! Operations that were sent and are not acknowledged.

ghost use Rattle.std.specs.Prelude.{◌≡◌, ◌≢◌, ℕ, ◌+◌, ◌≤◌, ◌<◌, false, [], ◌∷◌, ◌++◌, slice_index, MatchOption, OnOk, OnErr, IfOk, IsTrue};
ghost use Rattle.std.specs.VecDeque.{deque_len};
ghost use Rattle.mj_store.specs.Causes.{In};
ghost use Rattle.mj_journaler.specs.Outstanding.{lowest, without, found, oldest, Follow};
ghost use Rattle.mj_journaler.specs.Ring.{numbers, out_of, spare, Ascends, BeginsOut, EndsOut};
ghost use Rattle.mj_journaler.specs.declared.sent.Sent.{Sent};

use crate::copying::copied;
use crate::sent::{Sent, Slot};
use std::alloc::{AllocError, Global};
use std::collections::VecDeque;
use std::marker::Model;

/// Operations that are out, in the order in which they were sent. One is found by its number in as many steps as the
/// logarithm of how many there are.
#[derive(Drop)]
pub struct Ring {
    slots: VecDeque<Slot>,
}

impl Model for Ring {
    ghost use Rattle.mj_journaler.specs.Ring.{Ringed, numbers, out_of, spare, Ascends, BeginsOut, EndsOut};

    ghost Value = { Ringed };

    ghost view = { λ a. record { sent = out_of a.slots.items; room = spare a.slots } };

    ghost invariant = { λ a. Ascends (numbers a.slots.items) × BeginsOut a.slots.items × EndsOut a.slots.items };
}

impl Ring {
    pub fn new(alloc: Global) -> Ring
        ensures { result.sent ≡ [] }
    {
        Ring {
            slots: VecDeque::new(alloc),
        }
    }

    /// A copy, with as much room.
    pub fn copy(&self, alloc: Global) -> Result<Ring, AllocError>
        ensures sent { IfOk result (λ r. r.sent ≡ self.now.sent) }
        ensures room { IfOk result (λ r. self.now.room ≤ r.room) }
    {
        let slots = copied(alloc, &self.slots)?;
        Ok(Ring { slots })
    }

    /// Makes room for one more.
    pub fn reserve(&mut self) -> Result<(), AllocError>
        ensures sent { self.new.sent ≡ self.old.sent }
        ensures room { OnOk result (0 < self.new.room) }
        ensures kept { self.old.room ≤ self.new.room }
    {
        self.slots.reserve(1)
    }

    /// Adds one with a number above all that are out.
    pub fn push(&mut self, sent: Sent)
        requires room { 0 < self.old.room }
        requires newest { (w : Sent) → In w self.old.sent → w.op < sent.op }
        ensures { self.new.sent ≡ self.old.sent ++ sent ∷ [] }
    {
        self.slots.push_back_reserved(Slot { sent, done: false });
    }

    /// Takes out the one with this number, where there is one.
    pub fn settle(&mut self, op: u64) -> Option<Sent>
        ensures was { result ≡ found op self.old.sent }
        ensures rest { self.new.sent ≡ without op self.old.sent }
        ensures room { self.old.room ≤ self.new.room }
    {
        let settled = mark_done(&mut self.slots, op);
        drop_done_ahead(&mut self.slots);
        drop_done_behind(&mut self.slots);
        settled
    }

    /// Whether each of them has a lesser number.
    pub fn is_below(&self, op: u64) -> bool
        ensures yes { IsTrue result → (w : Sent) → In w self.now.sent → w.op < op }
        ensures no { result ≡ false → ((w : Sent) → In w self.now.sent → w.op < op) → ⊥ }
    {
        match self.slots.back() {
            Some(slot) => slot.sent.op < op,
            None => true,
        }
    }

    /// The one with the least number.
    pub fn first(&self) -> Option<Sent>
        ensures { result ≡ oldest self.now.sent }
    {
        match self.slots.front() {
            Some(slot) => Some(slot.sent),
            None => None,
        }
    }

    /// Where the first of them begins, or else the end.
    pub fn lowest(&self, end: u64) -> u64
        requires { Follow 0 self.now.sent end }
        ensures { result ≡ lowest self.now.sent end }
    {
        match self.slots.front() {
            Some(slot) => slot.sent.from,
            None => end,
        }
    }
}

/// Where the one with this number is.
fn place_of(slots: &VecDeque<Slot>, op: u64) -> Option<usize>
    requires { Ascends (numbers slots.now.items) }
    ensures { MatchOption result ((k : ℕ) → k < deque_len slots.now → slice_index (numbers slots.now.items) k ≢ op) (λ i. (i < deque_len slots.now) × (slice_index (numbers slots.now.items) i ≡ op)) }
{
    let mut low = 0;
    let mut high = slots.len();
    'halves: while low < high {
        let middle = low + (high - low) / 2;
        let number = slots[middle].sent.op;
        if number == op {
            return Some(middle);
        }
        if number < op {
            low = middle + 1;
        } else {
            high = middle;
        }
    }
    None
}

/// Marks the one with this number as done.
fn mark_done(slots: &mut VecDeque<Slot>, op: u64) -> Option<Sent>
    requires { Ascends (numbers slots.old.items) }
    ensures was { result ≡ found op (out_of slots.old.items) }
    ensures rest { out_of slots.new.items ≡ without op (out_of slots.old.items) }
    ensures ascends { Ascends (numbers slots.new.items) }
    ensures room { spare slots.old ≤ spare slots.new }
{
    match place_of(slots, op) {
        Some(i) => {
            let slot = &mut slots[i];
            if slot.done {
                return None;
            }
            slot.done = true;
            Some(slot.sent)
        }
        None => None,
    }
}

/// Lets go what is done in front of all that is out.
fn drop_done_ahead(slots: &mut VecDeque<Slot>)
    requires { Ascends (numbers slots.old.items) }
    ensures out { out_of slots.new.items ≡ out_of slots.old.items }
    ensures ascends { Ascends (numbers slots.new.items) }
    ensures begins { BeginsOut slots.new.items }
    ensures room { spare slots.old ≤ spare slots.new }
{
    'done: while let Some(slot) = slots.front() {
        if !slot.done {
            break;
        }
        let _ = slots.pop_front();
    }
}

/// Lets go what is done behind all that is out, so the last number is that of one that is out.
fn drop_done_behind(slots: &mut VecDeque<Slot>)
    requires ascends { Ascends (numbers slots.old.items) }
    requires begins { BeginsOut slots.old.items }
    ensures out { out_of slots.new.items ≡ out_of slots.old.items }
    ensures ascends { Ascends (numbers slots.new.items) }
    ensures begins { BeginsOut slots.new.items }
    ensures ends { EndsOut slots.new.items }
    ensures room { spare slots.old ≤ spare slots.new }
{
    'done: while let Some(slot) = slots.pop_back() {
        if !slot.done {
            slots.push_back_reserved(slot);
            break;
        }
    }
}
