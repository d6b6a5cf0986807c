// An object of the store, with the operations that wait for it.
ghost use Rattle.std.specs.Prelude.{not, ◌≡◌, ◌⊎◌, ℕ, ◌+◌, ◌^◌, ◌<◌, ◌≤◌, List, [], ◌∷◌, ◌++◌, drop, Option, Some, None, IsSome, option_copied, vec_capacity, IfOk, OnOk, OnErr, IfErr, IfSome, IfNone};
ghost use Rattle.mj_store.specs.Object.{HasShortKeys, applied};
ghost use Rattle.mj_store.specs.State.{Pending};
ghost use Rattle.mj_memstore.specs.Content.{held_content, IsSound, HasRoom, pair_count, set_count};
ghost use Rattle.mj_memstore.specs.HeldView.{HeldView, AppliesFirst, FailsFirst, IsFirst, all_set_count};
ghost use Rattle.mj_memstore.specs.Room.{IsEmpty};
ghost use Rattle.mj_memstore.specs.Memory.{TriesFirst, HasNoFirst, nothing};
ghost use Rattle.mj_memstore.specs.Holding.{HasKeysInOrder, resting};

use crate::apply::apply;
use crate::queued::Queued;
use crate::room::Room;
use mj_base::OpNo;
use mj_store::{Ack, HeldObject, ObjectAct, ObjectName};
use std::alloc::{AllocError, AllocFailed, Global};
use std::collections::VecDeque;
use std::marker::Model;

/// An object, applied as far as it is, and its operations in order. One that failed blocks the others.
#[derive(Drop)]
pub struct Held {
    name: ObjectName,
    object: Option<HeldObject>,
    failed: Option<Queued>,
    waiting: VecDeque<Queued>,
    // a bound on its pairs once all that waits is applied
    most: usize,
}

impl Model for Held {
    ghost use Rattle.mj_memstore.specs.HeldView.{HeldView};

    ghost Value = { HeldView };

    ghost use Rattle.mj_memstore.specs.Held.{view_of, IsHeld};

    ghost view = { view_of };

    ghost invariant = { IsHeld };
}

// A capacity of at least `n`, and twice that, so that an object that grows is seldom moved.
fn doubled(n: usize) -> usize
    ensures { n ≤ result }
{
    n.saturating_mul(2)
}

// The room that an act needs, where its object has at most `most` pairs before it.
fn room_for(alloc: Global, act: &ObjectAct, most: usize) -> Result<Room, AllocError>
    ensures empty { IfOk result IsEmpty }
    ensures room { IfOk result (λ room. HasRoom act.now most (vec_capacity room.bytes) (vec_capacity room.pairs)) }
    ensures fits { OnOk result (most + set_count act.now < 2 ^ 64) }
{
    match act {
        ObjectAct::Write { at, bytes } => {
            let end = (*at as usize).checked_add(bytes.len()).ok_or(AllocError)?;
            Ok(Room {
                bytes: Vec::with_capacity(alloc, doubled(end))?,
                pairs: Vec::new(alloc),
            })
        }
        ObjectAct::Keys { set, .. } => {
            let pairs = most.checked_add(set.len()).ok_or(AllocError)?;
            Ok(Room {
                bytes: Vec::new(alloc),
                pairs: Vec::with_capacity(alloc, doubled(pairs))?,
            })
        }
        ObjectAct::Truncate { .. } | ObjectAct::Remove => Ok(Room {
            bytes: Vec::new(alloc),
            pairs: Vec::new(alloc),
        }),
    }
}

/// Its name.
pub fn name_of(object: &HeldObject) -> ObjectName
    ensures { result ≡ object.now.name }
{
    object.name
}

// How many pairs it has.
fn count_of(object: &Option<HeldObject>) -> usize
    ensures { result ≡ pair_count object.now }
{
    match object {
        Some(object) => object.pairs.len(),
        None => 0,
    }
}

// How many pairs it sets.
fn pairs_set(act: &ObjectAct) -> usize
    ensures { result ≡ set_count act.now }
{
    match act {
        ObjectAct::Keys { set, .. } => set.len(),
        _ => 0,
    }
}

// A bound on the object's pairs once all that waits is applied.
fn bound_of(object: &Option<HeldObject>, waiting: &VecDeque<Queued>, most: usize) -> usize
    requires { pair_count object.now + all_set_count waiting.now.items ≤ most }
    ensures { pair_count object.now + all_set_count waiting.now.items ≤ result }
{
    if waiting.is_empty() {
        count_of(object)
    } else {
        most
    }
}

impl Held {
    /// No object of this name, and nothing that waits.
    pub fn absent(alloc: Global, name: ObjectName) -> Held
        ensures { result ≡ nothing name }
    {
        Held {
            name,
            object: None,
            failed: None,
            waiting: VecDeque::new(alloc),
            most: 0,
        }
    }

    /// An object with nothing that waits.
    pub fn resting(alloc: Global, object: HeldObject) -> Held
        requires { HasKeysInOrder object }
        ensures { result ≡ resting object }
    {
        let name = name_of(&object);
        let most = object.pairs.len();
        Held {
            name,
            object: Some(object),
            failed: None,
            waiting: VecDeque::new(alloc),
            most,
        }
    }

    /// What is applied.
    pub fn object(&self) -> Option<&HeldObject>
        ensures object { option_copied result ≡ self.now.object }
        ensures sound { IsSound self.now.name self.now.object }
    {
        self.object.as_ref()
    }

    /// The number of the operation that may be tried next.
    pub fn first(&self) -> Option<OpNo>
        ensures some { IfSome result (λ op. IsFirst self.now op) }
        ensures none { IfNone result ((self.now.waiting ≡ []) ⊎ IsSome self.now.failed) }
    {
        if self.failed.is_some() {
            return None;
        }
        match self.waiting.front() {
            Some(first) => Some(first.op),
            None => None,
        }
    }

    /// Puts an operation last, with the memory that it may need, or hands its act back.
    pub fn add(&mut self, alloc: Global, op: OpNo, act: ObjectAct) -> Result<(), ObjectAct>
        requires { HasShortKeys act }
        ensures ok { OnOk result (self.new ≡ record self.old { waiting = self.old.waiting ++ record { op = op; act = act } ∷ [] }) }
        ensures err { OnErr result (self.new ≡ self.old) }
        ensures returned { IfErr result (λ back. back ≡ act) }
    {
        let most = bound_of(&self.object, &self.waiting, self.most);
        let Ok(room) = room_for(alloc, &act, most) else {
            return Err(act);
        };
        let most = most + pairs_set(&act);
        match self.waiting.push_back(Queued { op, act, room }) {
            Ok(()) => {
                self.most = most;
                Ok(())
            }
            Err(AllocFailed { value }) => Err(value.act),
        }
    }

    /// Applies the first operation. It takes no memory.
    pub fn apply_first(&mut self)
        requires { (op : ℕ) × IsFirst self.old op }
        ensures first { AppliesFirst self.old self.new }
        ensures sound { IsSound self.new.name self.new.object }
    {
        if let Some(Queued { act, room, .. }) = self.waiting.pop_front() {
            self.object = apply(self.name, self.object.take(), act, room);
        }
    }

    /// Leaves the first operation undone, and the object blocked.
    pub fn fail_first(&mut self)
        requires { (op : ℕ) × IsFirst self.old op }
        ensures first { FailsFirst self.old self.new }
        ensures sound { IsSound self.new.name self.new.object }
    {
        self.failed = self.waiting.pop_front();
    }

    /// Tries the first operation, or fails it. Answers none where none may be tried.
    pub fn try_first(&mut self, fails: bool) -> Option<Ack>
        ensures some { IfSome result (TriesFirst self.old self.new) }
        ensures answer { IfSome result (λ ack. ack.done ≡ not fails) }
        ensures none { IfNone result (HasNoFirst self.old) }
        ensures same { IfNone result (self.new ≡ self.old) }
    {
        let op = self.first()?;
        if fails {
            self.fail_first();
        } else {
            self.apply_first();
        }
        Some(Ack { op, done: !fails })
    }

    /// Drops what is pending.
    pub fn settle(&mut self)
        ensures { self.new ≡ record self.old { failed = None; waiting = [] } }
    {
        self.failed = None;
        self.waiting.clear();
    }
}
