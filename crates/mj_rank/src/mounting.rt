//! A mount on its way.

ghost use Rattle.std.specs.Prelude.{◌≡◌, ◌≤◌, ◌<◌, ℕ, [], None, Some, IfOk, IfErr, OnOk, OnErr, IsSome};
ghost use Rattle.std.specs.Option.{option_copied};
ghost use Rattle.mj_base.specs.Counts.{Rose};
ghost use Rattle.mj_store.specs.Causes.{Counted};
ghost use Rattle.mj_rank.specs.Refusals.{IsStoreFault};

use crate::cutting::{Cuts, look};
use crate::finding::read_found;
use crate::found::{FirstLog, Found};
use crate::rank::Rank;
use crate::refusal::MountRefusal;
use mj_base::{Items, ObjectName, OpNo, RankNo};
use mj_layout::{Header, Phase, journal_object};
use mj_store::{Ack, ObjectAct, ObjectOp, ObjectStore, StoreFault};
use mj_texts::MountStep;
use std::alloc::Global;

/// How far a mount has come.
#[derive(Clone, Copy)]
enum Stage {
    /// The header with the new epoch, in the phase of mounting, is to be sent.
    Announcing,
    /// It is sent.
    Announced,
    /// Objects are cut at the tail. Then the header in the phase of serving is to be sent.
    Cutting,
    /// It is sent.
    Opened,
    Ready,
}

/// A mount that has read what the store holds. It sends a header, cuts what lies above the tail, and sends the header by which it
/// serves.
pub struct Mounting<S> {
    store: S,
    number: RankNo,
    header: Header,
    found: Found,
    log: FirstLog,
    stage: Stage,
    /// The header that was sent last.
    sent: OpNo,
    cuts: Cuts,
    fault: Option<StoreFault>,
    ghost cells: { found.cache.rank ≡ number },
}

impl<S: ObjectStore> Mounting<S> {
    ghost use Rattle.mj_store.specs.State.{StoreState, contents};
    ghost use Rattle.mj_store.specs.Moves.{Still, Steps, Stays, Restarts};
    ghost use Rattle.mj_rank.specs.Finding.{found_in};
    ghost use Rattle.mj_rank.specs.Cutting.{IsTruncation};
    ghost use Rattle.mj_rank.specs.Mounts.{Begins, BeginsAs, KeepsFound, MountSteps, SendsAt, SendsTruncation, IsUnmoved, HasLooked, AwaitsAt, AwaitsSent, mount_value, first_value, oldest_of, phase_at, next_stage, acked_stage, acked_out};
    ghost use Rattle.mj_rank.specs.Flight.{HasCompleted};
    ghost use Rattle.mj_store.specs.Events.{Tells};
    ghost use Rattle.mj_rank.specs.Request.{value_of};
    ghost use Rattle.mj_machine.specs.Machine.{LogMachine, stopped};
    ghost use Rattle.mj_rank.specs.Live.{MountLives, RankLives, StopLives, StopsSafely};
    ghost use Rattle.mj_rank.specs.Since.{MountSince, RankSince, IsSent, IsWaiting, IsReapedOf, steps_left, numbers_of, Makes};
    ghost use Rattle.mj_rank.specs.declared.mounting.Stage.TheVariants.{Ready, Cutting};

    /// Reads the header and the journal. Nothing is submitted.
    pub fn begin(
        alloc: Global,
        mut store: S,
        number: RankNo,
    ) -> Result<Mounting<S>, (S, MountRefusal)>
        ensures since { IfOk result (λ m. (base : ℕ) → S.unreported store ≡ [] → Counted base (S.faults store) (S.unreported store) → MountSince S.faults S.unreported base m) }
        ensures same_list { IfErr result (λ e. S.unreported e.0 ≡ S.unreported store) }
        ensures later { IfErr result (λ e. S.faults store ≤ S.faults e.0) }
        ensures cause { IfErr result (λ e. IsStoreFault e.1 → Rose (S.faults store) (S.faults e.0)) }
        ensures told { (s : StoreState) → S.state store ≡ Some s → Still s → BeginsAs result (found_in number (contents s)) }
        ensures begins { IfOk result (Begins number) }
        ensures stays { IfOk result (λ k. Stays (S.state store) (S.state k.store)) }
        ensures told_refused { IfErr result (λ e. Stays (S.state store) (S.state e.0)) }
        ensures live { IfOk result (λ k. (m : LogMachine) → StopLives S.state store number m → MountLives S.state k (stopped m k.found.tail)) }
        ensures live_refused { IfErr result (λ e. (m : LogMachine) → StopLives S.state store number m → StopLives S.state e.0 number m) }
        ensures stops { IfOk result (λ k. (m : LogMachine) → StopLives S.state store number m → StopsSafely number m (S.state store) (S.state k.store)) }
        ensures stops_refused { IfErr result (λ e. (m : LogMachine) → StopLives S.state store number m → StopsSafely number m (S.state store) (S.state e.0)) }
    {
        let found = match read_found(alloc, &mut store, number) {
            Ok(found) => found,
            Err(e) => return Err((store, e)),
        };
        let log = match found.log(alloc, number) {
            Ok(log) => log,
            Err(_) => return Err((store, MountRefusal::Memory)),
        };
        let header = found.next_header();
        let cuts = Cuts::new(alloc, &found.header.layout, found.tail);
        Ok(Mounting {
            store,
            number,
            header,
            found,
            log,
            stage: Stage::Announcing,
            sent: OpNo(0),
            cuts,
            fault: None,
        })
    }

    /// Where the journal ends.
    pub fn tail(&self) -> u64
        ensures { result ≡ self.now.found.tail }
    {
        self.found.tail
    }

    /// The fault for which this mount can't go on.
    pub fn fault(&self) -> Option<&StoreFault>
        ensures { option_copied result ≡ self.now.fault }
    {
        self.fault.as_ref()
    }

    /// Sends the next header or the next truncation, or takes an acknowledgement. All truncations are sent, in the order of their
    /// objects, before the first of them is awaited.
    pub fn step(&mut self, alloc: Global) -> Result<MountStep, MountRefusal>
        ensures since { (base : ℕ) → MountSince S.faults S.unreported base self.old → MountSince S.faults S.unreported base self.new }
        ensures cause { (base : ℕ) → MountSince S.faults S.unreported base self.old → IfErr result (λ e. IsStoreFault e → Rose base (S.faults self.new.store)) }
        ensures moves { (base : ℕ) → MountSince S.faults S.unreported base self.old → IfOk result (λ step. Makes step (steps_left self.old) (steps_left self.new)) }
        ensures reaped { (base : ℕ) → MountSince S.faults S.unreported base self.old → IfOk result (IsReapedOf (numbers_of self.old)) }
        ensures waits { IfOk result (λ step. IsWaiting step → AwaitsSent self.new) }
        ensures up { OnOk result (self.new.fault ≡ None) }
        ensures kept { KeepsFound self.old self.new }
        ensures steps { MountSteps S.state result self.old self.new }
        ensures never_waits { Tells (S.state self.old.store) HasCompleted → IfOk result (λ step. IsWaiting step → ⊥) }
        ensures live { (m : LogMachine) → MountLives S.state self.old m → MountLives S.state self.new m }
        ensures stops { (m : LogMachine) → MountLives S.state self.old m → StopsSafely self.old.number m (S.state self.old.store) (S.state self.new.store) }
    {
        if let Some(fault) = self.fault {
            return Err(MountRefusal::Store(fault));
        }
        self.go_on(alloc)
    }

    /// Of the operations that are sent and not acknowledged the one with the least number, and its object.
    pub fn oldest_sent(&self) -> Option<(OpNo, ObjectName)>
        ensures { result ≡ oldest_of self.now }
    {
        match self.stage {
            Stage::Announced | Stage::Opened => Some((self.sent, journal_object(self.number, 0))),
            Stage::Cutting => self.cuts.oldest_sent(self.number),
            Stage::Announcing | Stage::Ready => None,
        }
    }

    /// The rank. Its log begins with a subtree map at the tail.
    pub fn finish(self, alloc: Global) -> Rank<S>
        requires { self.stage ≡ Ready }
        ensures since { (base : ℕ) → MountSince S.faults S.unreported base self → RankSince S.faults S.unreported base result }
        ensures store { result.store ≡ self.store }
        ensures value { value_of result ≡ first_value self }
        ensures live { (m : LogMachine) → MountLives S.state self m → RankLives S.state result m }
    {
        let Mounting {
            store,
            number,
            header,
            found,
            log,
            stage: _,
            sent: _,
            cuts: _,
            fault: _,
        } = self;
        let FirstLog { journal, segment } = log;
        let Found {
            header: _,
            tail: _,
            cache,
        } = found;
        Rank::serving(alloc, store, number, header.epoch, journal, cache, segment)
    }

    /// Gives the store back as it is.
    pub fn into_store(self) -> S
        ensures { result ≡ self.store }
    {
        let Mounting {
            store,
            number: _,
            header: _,
            found: _,
            log: _,
            stage: _,
            sent: _,
            cuts: _,
            fault: _,
        } = self;
        store
    }

    /// Stops and starts the store again. A fault hands the mount back.
    pub fn restart(mut self) -> Result<S, (Mounting<S>, StoreFault)>
        ensures none_listed { IfOk result (λ store. S.unreported store ≡ []) }
        ensures later { IfOk result (λ store. S.faults self.store ≤ S.faults store) }
        ensures cause { IfErr result (λ e. Rose (S.faults self.store) (S.faults e.0.store)) }
        ensures since { IfErr result (λ e. (base : ℕ) → MountSince S.faults S.unreported base self → MountSince S.faults S.unreported base e.0) }
        ensures told { IfOk result (λ store. Restarts (S.state self.store) (S.state store)) }
        ensures told_refused { IfErr result (λ e. Stays (S.state self.store) (S.state e.0.store)) }
        ensures kept { IfErr result (λ e. e.0 ≡ record self { store = e.0.store }) }
        ensures live { IfOk result (λ store. (m : LogMachine) → MountLives S.state self m → StopLives S.state store self.number m) }
        ensures live_refused { IfErr result (λ e. (m : LogMachine) → MountLives S.state self m → MountLives S.state e.0 m) }
        ensures stops { IfOk result (λ store. (m : LogMachine) → MountLives S.state self m → StopsSafely self.number m (S.state self.store) (S.state store)) }
        ensures stops_refused { IfErr result (λ e. (m : LogMachine) → MountLives S.state self m → StopsSafely self.number m (S.state self.store) (S.state e.0.store)) }
    {
        match self.store.restart() {
            Ok(()) => Ok(self.into_store()),
            Err(fault) => Err((self, fault)),
        }
    }

    /// Asks the store to try the first pending operation of an object.
    pub fn apply(&mut self, name: &ObjectName) -> Result<Option<OpNo>, StoreFault>
        ensures since { (base : ℕ) → MountSince S.faults S.unreported base self.old → MountSince S.faults S.unreported base self.new }
        ensures cause { OnErr result (Rose (S.faults self.old.store) (S.faults self.new.store)) }
        ensures told { IfOk result (λ op. Steps name.now op (S.state self.old.store) (S.state self.new.store)) }
        ensures told_refused { OnErr result (Stays (S.state self.old.store) (S.state self.new.store)) }
        ensures kept { self.new ≡ record self.old { store = self.new.store } }
        ensures live { (m : LogMachine) → MountLives S.state self.old m → MountLives S.state self.new m }
        ensures stops { (m : LogMachine) → MountLives S.state self.old m → StopsSafely self.old.number m (S.state self.old.store) (S.state self.new.store) }
        ensures completes { (m : LogMachine) (op : ℕ) → MountLives S.state self.old m → self.old.fault ≡ None → oldest_of self.old ≡ Some (op, name.now)
            → OnOk result (Tells (S.state self.new.store) HasCompleted) }
    {
        self.store.step(name)
    }

    // Does what the stage asks for.
    fn go_on(&mut self, alloc: Global) -> Result<MountStep, MountRefusal>
        requires up { self.old.fault ≡ None }
        ensures since { (base : ℕ) → MountSince S.faults S.unreported base self.old → MountSince S.faults S.unreported base self.new }
        ensures cause { (base : ℕ) → MountSince S.faults S.unreported base self.old → IfErr result (λ e. IsStoreFault e → Rose base (S.faults self.new.store)) }
        ensures reaped { (base : ℕ) → MountSince S.faults S.unreported base self.old → IfOk result (IsReapedOf (numbers_of self.old)) }
        ensures steps { MountSteps S.state result self.old self.new }
    {
        match self.stage {
            Stage::Announcing => self.send(alloc, Phase::Mounting, Stage::Announced),
            Stage::Announced | Stage::Opened => self.await_done(),
            Stage::Cutting => self.cut(alloc),
            Stage::Ready => Ok(MountStep::Ready),
        }
    }

    // Sends the header in a phase.
    fn send(&mut self, alloc: Global, phase: Phase, next: Stage) -> Result<MountStep, MountRefusal>
        requires up { self.old.fault ≡ None }
        requires may { SendsAt self.old.stage (mount_value self.old) }
        requires looked { HasLooked self.old.stage (mount_value self.old) self.old.cuts.next }
        requires phase { phase ≡ phase_at self.old.stage self.old.header.phase }
        requires next { next ≡ next_stage self.old.stage }
        ensures since { (base : ℕ) → MountSince S.faults S.unreported base self.old → MountSince S.faults S.unreported base self.new }
        ensures cause { (base : ℕ) → MountSince S.faults S.unreported base self.old → IfErr result (λ e. IsStoreFault e → Rose base (S.faults self.new.store)) }
        ensures reaped { (base : ℕ) → MountSince S.faults S.unreported base self.old → IfOk result (IsReapedOf (numbers_of self.old)) }
        ensures steps { MountSteps S.state result self.old self.new }
    {
        self.header.phase = phase;
        let bytes = self.header.write(alloc)?;
        let act = ObjectAct::Write {
            at: 0,
            bytes: Items::from_vec(bytes),
        };
        let name = journal_object(self.number, 0);
        match self.store.submit(alloc, ObjectOp { name, act }) {
            Ok(op) => {
                self.sent = op;
                self.stage = next;
                Ok(MountStep::Sent(journal_object(self.number, 0)))
            }
            Err(refusal) => Err(MountRefusal::from(refusal)),
        }
    }

    // Sends the truncation of the next object that is to be cut. Where there is none, it awaits those that are sent, and then sends
    // the header by which it serves.
    fn cut(&mut self, alloc: Global) -> Result<MountStep, MountRefusal>
        requires up { self.old.fault ≡ None }
        requires cutting { self.old.stage ≡ Cutting }
        ensures since { (base : ℕ) → MountSince S.faults S.unreported base self.old → MountSince S.faults S.unreported base self.new }
        ensures cause { (base : ℕ) → MountSince S.faults S.unreported base self.old → IfErr result (λ e. IsStoreFault e → Rose base (S.faults self.new.store)) }
        ensures reaped { (base : ℕ) → MountSince S.faults S.unreported base self.old → IfOk result (IsReapedOf (numbers_of self.old)) }
        ensures steps { MountSteps S.state result self.old self.new }
    {
        let layout = self.found.header.layout;
        let found = look(
            &mut self.store,
            self.number,
            &layout,
            self.found.tail,
            self.cuts.next,
            self.cuts.end,
        )?;
        if let Some((index, op)) = found {
            return self.send_cut(alloc, index, op);
        }
        self.cuts.next = self.cuts.end;
        if self.cuts.out.is_empty() {
            self.send(alloc, Phase::Serving, Stage::Opened)
        } else {
            self.await_done()
        }
    }

    // Sends the truncation of an object.
    fn send_cut(
        &mut self,
        alloc: Global,
        index: u64,
        op: ObjectOp,
    ) -> Result<MountStep, MountRefusal>
        requires up { self.old.fault ≡ None }
        requires cutting { self.old.stage ≡ Cutting }
        requires within { index < self.old.cuts.end }
        requires op { IsTruncation self.old.number index op }
        ensures since { (base : ℕ) → MountSince S.faults S.unreported base self.old → MountSince S.faults S.unreported base self.new }
        ensures cause { (base : ℕ) → MountSince S.faults S.unreported base self.old → IfErr result (λ e. IsStoreFault e → Rose base (S.faults self.new.store)) }
        ensures sent { IfOk result (λ step. SendsTruncation S.state index op step self.old self.new) }
        ensures refused { OnErr result (IsUnmoved S.state self.old self.new) }
    {
        self.cuts.reserve()?;
        match self.store.submit(alloc, op) {
            Ok(number) => {
                self.cuts.sent(number, index);
                Ok(MountStep::Sent(journal_object(self.number, index)))
            }
            Err(refusal) => Err(MountRefusal::from(refusal)),
        }
    }

    // Takes the acknowledgement of something that was sent.
    fn await_done(&mut self) -> Result<MountStep, MountRefusal>
        requires up { self.old.fault ≡ None }
        requires sent { AwaitsAt self.old.stage (mount_value self.old) }
        requires looked { HasLooked self.old.stage (mount_value self.old) self.old.cuts.next }
        ensures since { (base : ℕ) → MountSince S.faults S.unreported base self.old → MountSince S.faults S.unreported base self.new }
        ensures cause { (base : ℕ) → MountSince S.faults S.unreported base self.old → IfErr result (λ e. IsStoreFault e → Rose base (S.faults self.new.store)) }
        ensures reaped { (base : ℕ) → MountSince S.faults S.unreported base self.old → IfOk result (IsReapedOf (numbers_of self.old)) }
        ensures steps { MountSteps S.state result self.old self.new }
    {
        match self.store.reap() {
            None => Ok(MountStep::Waiting),
            Some(Ack { op, done }) => {
                if !done {
                    let fault = StoreFault {
                        faults: self.store.faults(),
                    };
                    self.fault = Some(fault);
                    return Err(MountRefusal::Store(fault));
                }
                self.acked(op);
                Ok(MountStep::Reaped(op))
            }
        }
    }

    // A header is acknowledged, or one of the truncations.
    fn acked(&mut self, op: OpNo)
        ensures store { self.new.store ≡ self.old.store }
        ensures value { mount_value self.new ≡ record (mount_value self.old) { stage = acked_stage self.old.stage; out = acked_out self.old.stage op self.old.cuts.out.items } }
        ensures next { self.new.cuts.next ≡ self.old.cuts.next }
    {
        match self.stage {
            Stage::Announced => self.stage = Stage::Cutting,
            Stage::Cutting => self.cuts.acked(op),
            Stage::Opened | Stage::Ready => self.stage = Stage::Ready,
            Stage::Announcing => self.stage = Stage::Announced,
        }
    }
}
