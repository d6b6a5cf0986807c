//! A rank that serves.

ghost use Rattle.std.specs.Prelude.{◌≡◌, ◌≤◌, ◌+◌, ℕ, [], Some, None, IfOk, IfErr, IfSome, OnOk, OnErr, IsTrue};
ghost use Rattle.std.proofs.Props.{props};
ghost use Rattle.mj_base.specs.Counts.{Rose};
ghost use Rattle.mj_tables.specs.Layered.{EndBelow};
ghost use Rattle.mj_journaler.specs.Journal.{end_of};

use crate::entries::{Entries, events_after};
use crate::refusal::{Fault, RankRefusal, Sealed};
use mj_base::{ObjectName, OpNo, RankNo};
use mj_cache::Cache;
use mj_chronicle::Chronicle;
use mj_event::{Event, writes};
use mj_journaler::{Acked, Journaler};
use mj_machine::ChronicleEntry;
use mj_plan::{Planned, a_plan_is_projected, plan};
use mj_store::{Ack, ObjectStore, StoreFault, SubmitRefusal};
use mj_texts::{Early, Reaped, Span};
use mj_tree::{ClientRequest, Reply};
use std::alloc::{AllocError, Global};

/// The log of one rank over a store, and the cells of all requests that it accepted.
pub struct Rank<S> {
    store: S,
    number: RankNo,
    epoch: u64,
    log: Journaler,
    cache: Cache,
    /// What this mount answered.
    chronicle: Chronicle,
    /// How many events the current segment has, its map not counted. None has begun where its map did not fit.
    segment: Option<u64>,
    fault: Option<Fault>,
    ghost cells: { cache.rank ≡ number },
    ghost ended: { EndBelow (end_of log + 1) cache.groups } by { Prim.hlevel props },
}

impl<S: ObjectStore> Rank<S> {
    ghost use Rattle.mj_rank.specs.Since.{RankSince};
    ghost use Rattle.mj_rank.specs.Refusals.{IsDown, IsDownFor, IsDownWith, SaysOfAppend};
    ghost use Rattle.mj_rank.specs.Request.{value_of, early_of, after_request, cause_of, Says, kept_end, map_in, with_event, event_end, answered, JournalsEvent};
    ghost use Rattle.mj_rank.specs.Segment.{event_refusal};
    ghost use Rattle.mj_rank.specs.Sending.{Flushes, Acknowledges, ack_of, with_log};
    ghost use Rattle.mj_store.specs.Moves.{Reaps, Stays, Steps, Restarts};
    ghost use Rattle.mj_journaler.specs.Journal.{IsNew, unsafe_of};
    ghost use Rattle.mj_journaler.specs.Calls.{oldest_sent, sent_on};
    ghost use Rattle.mj_journaler.specs.Keeps.{MaySend};
    ghost use Rattle.mj_rank.specs.Log.{log_value};
    ghost use Rattle.mj_tree.specs.Request.{IsRequest};
    ghost use Rattle.mj_tree.specs.Answer.{changes};
    ghost use Rattle.mj_tree.specs.Listing.{listing};
    ghost use Rattle.mj_event.specs.Event.{event_bytes};
    ghost use Rattle.mj_event.specs.Writes.{writes_of};
    ghost use Rattle.mj_entry.specs.Entry.{IsPayload};
    ghost use Rattle.mj_cache.specs.Cached.{CacheValue, early_table, early_tree};
    ghost use Rattle.mj_chronicle.specs.Room.{has_room};
    ghost use Rattle.mj_machine.specs.declared.kept.ChronicleEntry.{ChronicleEntry};
    ghost use Rattle.mj_delta.specs.Steps.{GivesTree};
    ghost use Rattle.std.specs.Prelude.{IsSome, true, unwrap_or, length};
    ghost use Rattle.mj_rank.specs.declared.refusal.RankRefusal.{RankRefusal};
    ghost use Rattle.std.specs.Option.{option_copied};
    ghost use Rattle.mj_machine.specs.Machine.{LogMachine, early_state, reply_to};
    ghost use Rattle.mj_rank.specs.Live.{RankLives, StopLives, StopsSafely, after_early, after_reap};

    pub(crate) fn serving(
        alloc: Global,
        store: S,
        number: RankNo,
        epoch: u64,
        log: Journaler,
        cache: Cache,
        segment: Option<u64>,
    ) -> Rank<S>
        requires cells { cache.rank ≡ number }
        requires safe { cache.groups ≡ [] }
        ensures store { result.store ≡ store }
        ensures fault { result.fault ≡ None }
        ensures value { value_of result ≡ record { number = number; epoch = epoch; log = log_value log; cache = cache; chronicle = []; segment = segment; fault = None } }
    {
        Rank {
            store,
            number,
            epoch,
            log,
            cache,
            chronicle: Chronicle::new(alloc),
            segment,
            fault: None,
        }
    }

    /// Answers a request by the tree of all that were accepted, and journals the event of one that changes it, behind a subtree map
    /// where the segment is full. The store is not called. A refusal leaves the rank as it was.
    pub fn request(&mut self, alloc: Global, r: &ClientRequest) -> Result<Early, RankRefusal>
        requires { IsRequest r.now }
        ensures early { IfOk result (λ early. early ≡ early_of (value_of self.old) r.entry.now) }
        ensures after { OnOk result (value_of self.new ≡ after_request (value_of self.old) r.entry.now) }
        ensures admitted { OnOk result (cause_of (value_of self.old) r.entry.now ≡ None) }
        ensures refused { IfErr result (λ e. Says e (cause_of (value_of self.old) r.entry.now)) }
        ensures kept { OnErr result (value_of self.new ≡ value_of self.old) }
        ensures store { self.new.store ≡ self.old.store }
        ensures since { (base : ℕ) → RankSince S.faults S.unreported base self.old → RankSince S.faults S.unreported base self.new }
        ensures live { IfOk result (λ early. (m : LogMachine) → RankLives S.state self.old m → RankLives S.state self.new (after_early m r.entry.now early)) }
        ensures live_refused { OnErr result ((m : LogMachine) → RankLives S.state self.old m → RankLives S.state self.new m) }
        ensures reply { IfOk result (λ early. (m : LogMachine) → RankLives S.state self.old m → early.reply ≡ reply_to m r.entry.now) }
        ensures ends { IfOk result (λ early. (m : LogMachine) → RankLives S.state self.old m → IsTrue (changes (early_state m) r.entry.now) → IsSome early.ends_at) }
    {
        self.up()?;
        let Planned { reply, event } = plan(alloc, &self.cache, r)?;
        if !self.chronicle.has_room(r, &reply) {
            let answered = self.chronicle.len();
            return Err(RankRefusal::MountSpent(answered, Sealed::new()));
        }
        match event {
            None => self.answered(alloc, r, reply),
            Some(event) => self.accepted(alloc, r, reply, &event),
        }
    }

    // A rank that keeps a fault is down.
    fn up(&self) -> Result<(), RankRefusal>
        ensures up { OnOk result (self.now.fault ≡ None) }
        ensures down { IfErr result (IsDownFor self.now.fault) }
    {
        match &self.fault {
            Some(fault) => Err(RankRefusal::down(fault)),
            None => Ok(()),
        }
    }

    // A request that changes nothing.
    fn answered(
        &mut self,
        alloc: Global,
        r: &ClientRequest,
        reply: Reply,
    ) -> Result<Early, RankRefusal>
        requires room { has_room self.old.chronicle r.now reply ≡ true }
        ensures early { IfOk result (λ early. early ≡ record { reply = reply; ends_at = kept_end (value_of self.old) r.entry.now reply; place = length self.old.chronicle }) }
        ensures after { OnOk result (value_of self.new ≡ answered (value_of self.old) r.entry.now reply (kept_end (value_of self.old) r.entry.now reply)) }
        ensures memory { IfErr result (λ e. e ≡ RankRefusal.Memory) }
        ensures kept { OnErr result (value_of self.new ≡ value_of self.old) }
        ensures store { self.new.store ≡ self.old.store }
        ensures log { self.new.log ≡ self.old.log }
    {
        let ends_at = self.kept_end(r, &reply);
        let place = self.chronicle.len();
        self.record(alloc, r, &reply, ends_at)?;
        Ok(Early {
            reply,
            ends_at,
            place,
        })
    }

    // Where the event of a kept reply ends, if it is not safe.
    fn kept_end(&self, r: &ClientRequest, reply: &Reply) -> Option<u64>
        ensures { result ≡ kept_end (value_of self.now) r.entry.now reply.now }
    {
        let Reply::Done { .. } = reply else {
            return None;
        };
        let ends = self.chronicle.end_of(r.client, r.tid)?;
        if self.log.safe_pos() < ends {
            Some(ends)
        } else {
            None
        }
    }

    // The chronicle gets a request with its reply.
    fn record(
        &mut self,
        alloc: Global,
        r: &ClientRequest,
        reply: &Reply,
        ends_at: Option<u64>,
    ) -> Result<(), AllocError>
        requires room { has_room self.old.chronicle r.now reply.now ≡ true }
        ensures after { OnOk result (value_of self.new ≡ answered (value_of self.old) r.entry.now reply.now ends_at) }
        ensures kept { OnErr result (value_of self.new ≡ value_of self.old) }
        ensures store { self.new.store ≡ self.old.store }
        ensures log { self.new.log ≡ self.old.log }
    {
        let entry = ChronicleEntry {
            request: r.copy(alloc)?,
            reply: reply.copy(alloc)?,
            ends_at,
        };
        self.chronicle.add(alloc, entry)
    }

    // A request that changes the tree.
    fn accepted(
        &mut self,
        alloc: Global,
        r: &ClientRequest,
        reply: Reply,
        event: &Event,
    ) -> Result<Early, RankRefusal>
        requires room { has_room self.old.chronicle r.now reply ≡ true }
        requires gives { GivesTree self.old.cache.rank (early_table self.old.cache) (early_tree self.old.cache) r.now event.now }
        requires fits { IsPayload (event_bytes event.now) }
        ensures early { IfOk result (λ early. early ≡ record { reply = reply; ends_at = Some (event_end (value_of self.old) event.now); place = length self.old.chronicle }) }
        ensures after { OnOk result (value_of self.new ≡ answered (with_event (value_of self.old) event.now) r.entry.now reply (Some (event_end (value_of self.old) event.now))) }
        ensures admitted { OnOk result (event_refusal (map_in (value_of self.old)) (log_value self.old.log) (event_bytes event.now) ≡ None) }
        ensures refused { IfErr result (λ e. SaysOfAppend e (event_refusal (map_in (value_of self.old)) (log_value self.old.log) (event_bytes event.now))) }
        ensures kept { OnErr result (value_of self.new ≡ value_of self.old) }
        ensures store { self.new.store ≡ self.old.store }
    {
        let entries = Entries::new(alloc, self.number, self.segment, event)?;
        if let Some(refusal) = entries.refusal(&self.log) {
            return Err(RankRefusal::of_append(refusal));
        }
        let ends = entries.end_behind(&self.log);
        let place = self.chronicle.len();
        a_plan_is_projected();
        self.log.reserve(alloc, entries.bytes())?;
        self.record(alloc, r, &reply, Some(ends))?;
        match self.journal(alloc, event, &entries, ends) {
            Ok(()) => Ok(Early {
                reply,
                ends_at: Some(ends),
                place,
            }),
            Err(_) => {
                self.chronicle.drop_last();
                Err(RankRefusal::Memory)
            }
        }
    }

    // The journal gets these entries of an event, for which there is room, and the cells its writes.
    fn journal(
        &mut self,
        alloc: Global,
        event: &Event,
        entries: &Entries,
        ends: u64,
    ) -> Result<(), AllocError>
        requires { JournalsEvent self.old entries.now event.now ends }
        ensures after { OnOk result (value_of self.new ≡ with_event (value_of self.old) event.now) }
        ensures kept { OnErr result (value_of self.new ≡ value_of self.old) }
        ensures store { self.new.store ≡ self.old.store }
    {
        let writes = writes(alloc, event)?;
        self.cache.project(alloc, writes, ends)?;
        entries.append(alloc, &mut self.log);
        self.segment = Some(events_after(self.segment));
        Ok(())
    }

    /// The tree of all accepted requests as text.
    pub fn listing(&self, alloc: Global, full: bool) -> Result<Vec<u8>, AllocError>
        ensures is { IfOk result (λ text. text.items ≡ listing (early_tree self.now.cache) full) }
        ensures live { IfOk result (λ text. (m : LogMachine) → RankLives S.state self.now m → text.items ≡ listing (early_state m) full) }
    {
        self.cache.listing(alloc, full)
    }

    /// What this mount answered, in order.
    pub fn chronicle(&self) -> &[ChronicleEntry]
        ensures { result.now ≡ self.now.chronicle }
    {
        self.chronicle.entries()
    }

    /// How many events the current segment has, its map not counted.
    pub fn segment_events(&self) -> u64
        ensures { result ≡ unwrap_or self.now.segment 0 }
    {
        self.segment.unwrap_or(0)
    }

    /// Sends what is appended and not sent yet, as far as one write goes.
    pub fn flush(&mut self, alloc: Global) -> Result<Span, RankRefusal>
        ensures since { (base : ℕ) → RankSince S.faults S.unreported base self.old → RankSince S.faults S.unreported base self.new }
        ensures down { IfErr result (IsDownWith self.new.fault) }
        ensures up { IfOk result (λ _. self.new.fault ≡ None) }
        ensures flushes { IfOk result (λ span. Flushes S.state span self.old self.new) }
        ensures kept { OnErr result (value_of self.new ≡ record (value_of self.old) { fault = self.new.fault }) }
        ensures live { (m : LogMachine) → RankLives S.state self.old m → RankLives S.state self.new m }
        ensures stops { (m : LogMachine) → RankLives S.state self.old m → StopsSafely self.old.number m (S.state self.old.store) (S.state self.new.store) }
    {
        self.up()?;
        let from = self.log.flushed();
        let Some(op) = self.log.next_flush(alloc)? else {
            return Ok(Span { from, to: from });
        };
        match self.store.submit(alloc, op) {
            Ok(number) => {
                self.is_sent(number)?;
                let to = self.log.flushed();
                Ok(Span { from, to })
            }
            Err(SubmitRefusal::Failed(fault)) => Err(self.goes_down(None, fault)),
            Err(SubmitRefusal::Memory(_)) => Err(RankRefusal::Memory),
        }
    }

    // The write that was given is sent. A store that gives a number which is not new is not used any more.
    fn is_sent(&mut self, number: OpNo) -> Result<(), RankRefusal>
        requires given { IsSome self.old.log.offer }
        requires may { MaySend self.old.log self.old.log.offer }
        requires up { self.old.fault ≡ None }
        ensures store { self.new.store ≡ self.old.store }
        ensures sent { OnOk result (value_of self.new ≡ with_log (value_of self.old) (log_value (sent_on number self.old.log.offer self.old.log))) }
        ensures flushed { OnOk result (self.new.log.flushed ≡ (sent_on number self.old.log.offer self.old.log).flushed) }
        ensures refused { OnErr result (IsNew number self.old.log → ⊥) }
        ensures down { IfErr result (IsDownFor self.new.fault) }
        ensures kept { OnErr result (value_of self.new ≡ record (value_of self.old) { fault = self.new.fault }) }
    {
        if !self.log.is_new(number) {
            let faults = self.store.faults();
            return Err(self.goes_down(Some(number), StoreFault { faults }));
        }
        self.log.sent(number);
        Ok(())
    }

    /// Takes one acknowledgement.
    pub fn reap(&mut self) -> Result<Reaped, RankRefusal>
        ensures since { (base : ℕ) → RankSince S.faults S.unreported base self.old → RankSince S.faults S.unreported base self.new }
        ensures down { IfErr result (IsDownFor self.new.fault) }
        ensures up { IfOk result (λ _. self.new.fault ≡ None) }
        ensures acknowledges { IfOk result (λ reaped. Acknowledges reaped self.old self.new) }
        ensures told { IfOk result (λ reaped. Reaps (ack_of reaped) (S.state self.old.store) (S.state self.new.store)) }
        ensures kept { OnErr result (value_of self.new ≡ record (value_of self.old) { fault = self.new.fault }) }
        ensures live { IfOk result (λ reaped. (m : LogMachine) → RankLives S.state self.old m → RankLives S.state self.new (after_reap m reaped)) }
        ensures live_refused { OnErr result ((m : LogMachine) → RankLives S.state self.old m → RankLives S.state self.new m) }
        ensures stops { (m : LogMachine) → RankLives S.state self.old m → StopsSafely self.old.number m (S.state self.old.store) (S.state self.new.store) }
    {
        self.up()?;
        match self.store.reap() {
            None => Ok(Reaped::Nothing),
            Some(Ack { op, done }) => {
                if !done {
                    let faults = self.store.faults();
                    return Err(self.goes_down(Some(op), StoreFault { faults }));
                }
                let Acked { from, to } = self.log.acked(op);
                self.cache.make_safe(to);
                Ok(Reaped::One {
                    op,
                    safe_from: from,
                    safe_to: to,
                })
            }
        }
    }

    /// Asks the store to try the first pending operation of an object.
    pub fn apply(&mut self, name: &ObjectName) -> Result<Option<OpNo>, RankRefusal>
        ensures told { IfOk result (λ op. Steps name.now op (S.state self.old.store) (S.state self.new.store)) }
        ensures value { value_of self.new ≡ record (value_of self.old) { fault = self.new.fault } }
        ensures since { (base : ℕ) → RankSince S.faults S.unreported base self.old → RankSince S.faults S.unreported base self.new }
        ensures down { IfErr result (IsDownFor self.new.fault) }
        ensures up { IfOk result (λ _. self.new.fault ≡ None) }
        ensures live { (m : LogMachine) → RankLives S.state self.old m → RankLives S.state self.new m }
        ensures stops { (m : LogMachine) → RankLives S.state self.old m → StopsSafely self.old.number m (S.state self.old.store) (S.state self.new.store) }
    {
        self.up()?;
        match self.store.step(name) {
            Ok(op) => Ok(op),
            Err(fault) => Err(self.goes_down(None, fault)),
        }
    }

    // From a fault of the store on the rank is down.
    fn goes_down(&mut self, op: Option<OpNo>, fault: StoreFault) -> RankRefusal
        ensures fault { self.new.fault ≡ Some (record { op = op; faults = fault.faults }) }
        ensures store { self.new.store ≡ self.old.store }
        ensures value { value_of self.new ≡ record (value_of self.old) { fault = Some (record { op = op; faults = fault.faults }) } }
        ensures refusal { IsDown (record { op = op; faults = fault.faults }) result }
    {
        let kept = Fault {
            op,
            faults: fault.faults,
        };
        let refusal = RankRefusal::down(&kept);
        self.fault = Some(kept);
        refusal
    }

    pub fn number(&self) -> RankNo
        ensures { result ≡ self.now.number }
    {
        self.number
    }

    pub fn epoch(&self) -> u64
        ensures { result ≡ self.now.epoch }
    {
        self.epoch
    }

    pub fn safe_pos(&self) -> u64
        ensures { result ≡ self.now.log.safe }
    {
        self.log.safe_pos()
    }

    pub fn unsafe_bytes(&self) -> u64
        ensures { result ≡ unsafe_of self.now.log }
    {
        self.log.unsafe_bytes()
    }

    /// The fault for which the rank is down.
    pub fn fault(&self) -> Option<&Fault>
        ensures { option_copied result ≡ self.now.fault }
    {
        self.fault.as_ref()
    }

    /// The operation that is sent and not acknowledged with the least number, and its object.
    pub fn oldest_sent(&self) -> Option<(OpNo, ObjectName)>
        ensures { result ≡ oldest_sent self.now.log }
    {
        self.log.oldest_sent()
    }

    /// Gives the store back as it is.
    pub fn into_store(self) -> S
        ensures { result ≡ self.store }
    {
        let Rank {
            store,
            number: _,
            epoch: _,
            log: _,
            cache: _,
            chronicle: _,
            segment: _,
            fault: _,
        } = self;
        store
    }

    /// Stops and starts the store again. A fault hands the rank back.
    pub fn restart(mut self) -> Result<S, (Rank<S>, StoreFault)>
        ensures none_listed { IfOk result (λ store. S.unreported store ≡ []) }
        ensures later { IfOk result (λ store. S.faults self.store ≤ S.faults store) }
        ensures cause { IfErr result (λ e. Rose (S.faults self.store) (S.faults e.0.store)) }
        ensures since { IfErr result (λ e. (base : ℕ) → RankSince S.faults S.unreported base self → RankSince S.faults S.unreported base e.0) }
        ensures told { IfOk result (λ store. Restarts (S.state self.store) (S.state store)) }
        ensures told_refused { IfErr result (λ e. Stays (S.state self.store) (S.state e.0.store)) }
        ensures kept { IfErr result (λ e. value_of e.0 ≡ value_of self) }
        ensures live { IfOk result (λ store. (m : LogMachine) → RankLives S.state self m → StopLives S.state store self.number m) }
        ensures live_refused { IfErr result (λ e. (m : LogMachine) → RankLives S.state self m → RankLives S.state e.0 m) }
        ensures stops { IfOk result (λ store. (m : LogMachine) → RankLives S.state self m → StopsSafely self.number m (S.state self.store) (S.state store)) }
        ensures stops_refused { IfErr result (λ e. (m : LogMachine) → RankLives S.state self m → StopsSafely self.number m (S.state self.store) (S.state e.0.store)) }
    {
        match self.store.restart() {
            Ok(()) => Ok(self.into_store()),
            Err(fault) => Err((self, fault)),
        }
    }
}
