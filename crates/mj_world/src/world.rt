//! A world.

ghost use Rattle.std.specs.Prelude.{◌≡◌, ◌≤◌, ℕ, [], IfOk, IfErr, IfSome, IsNone, IsSome};
ghost use Rattle.mj_base.specs.Counts.{Rose};
ghost use Rattle.mj_store.specs.Causes.{Counted};
ghost use Rattle.mj_rank.specs.Refusals.{IsStoreFault};
ghost use Rattle.mj_world.specs.Refusals.{IsFault, IsDownRank, of_rank, of_mount};

use crate::refusal::WorldRefusal;
use mj_base::{Items, ObjectName, OpNo, RankNo};
use mj_rank::{MountRefusal, Mounting, Rank, RankRefusal};
use mj_store::ObjectStore;
use mj_texts::{MountStep, Said, Step};
use mj_tree::ClientRequest;
use std::alloc::Global;
use std::mem;

enum Phase<S: ObjectStore> {
    Stopped(S),
    Mounting(Mounting<S>),
    Serving(Rank<S>),
    Gone,
}

/// A store, and the rank that mounts or serves over it, if one does.
pub struct World<S: ObjectStore> {
    phase: Phase<S>,
    number: RankNo,
}

impl<S: ObjectStore> World<S> {
    ghost use Rattle.mj_world.specs.World.{WorldSince, PhaseSince, HasFailed, StoreHas, IsServing};
    ghost use Rattle.mj_world.specs.Steps.{IsAnswerTo, Leaves};
    ghost use Rattle.mj_world.specs.Oldest.{oldest_sent};
    ghost use Rattle.mj_world.specs.Phases.{phase_refusal, of_serving, of_stopped, of_mounting, of_any, ByPhase};
    ghost use Rattle.mj_world.specs.Asked.{Answers, Lists, listing_step};
    ghost use Rattle.mj_world.specs.Sent.{IsFlushed, IsReaped};
    ghost use Rattle.mj_world.specs.Stored.{IsTried, IsRestarted};
    ghost use Rattle.mj_world.specs.Tells.{CanStep, WhileServing, WhileStopped, WhileMounting};
    ghost use Rattle.mj_world.specs.Live.{WorldLives, told, machine_after, Replies};
    ghost use Rattle.mj_world.specs.Made.{Made};
    ghost use Rattle.mj_machine.specs.Machine.{LogMachine};
    ghost use Rattle.mj_tree.specs.Request.{IsRequest};
    ghost use Rattle.mj_rank.specs.Live.{StopLives, StopsSafely};

    /// A stopped world over a store that was restarted.
    pub fn new(store: S, number: RankNo) -> World<S>
        requires { S.unreported store ≡ [] }
        ensures since { (base : ℕ) → Counted base (S.faults store) (S.unreported store) → WorldSince S.faults S.unreported base result }
        ensures phase { result.phase ≡ Phase.Stopped store }
        ensures number { result.number ≡ number }
        ensures live { (m : LogMachine) → StopLives S.state store number m → WorldLives S.state result m }
    {
        World {
            phase: Phase::Stopped(store),
            number,
        }
    }

    /// Makes one step.
    pub fn step(&mut self, alloc: Global, step: &Step) -> Result<Said, WorldRefusal>
        requires { CanStep step.now }
        ensures made { Made S.state S.faults S.unreported step.now self.old result self.new }
    {
        match step {
            Step::Ask(r) => self.ask(alloc, r),
            Step::Flush => self.flush(alloc),
            Step::Apply(name) => self.apply(name),
            Step::Reap => self.reap(),
            Step::Begin => self.begin(alloc),
            Step::Carry => self.carry(alloc),
            Step::Restart => self.restart(),
            Step::Tree => self.list(alloc, false),
            Step::State => self.list(alloc, true),
        }
    }

    /// Gives the store back as it is.
    pub fn into_store(self) -> S
        requires { WorldSince S.faults S.unreported 0 self }
        ensures holds { StoreHas (λ store. store ≡ result) self.phase }
        ensures told { told S.state self ≡ S.state result }
        ensures counted { (base : ℕ) → WorldSince S.faults S.unreported base self → Counted base (S.faults result) (S.unreported result) }
        ensures failed { (base : ℕ) → HasFailed S.faults base self → Rose base (S.faults result) }
    {
        let World { phase, number: _ } = self;
        match phase {
            Phase::Stopped(store) => store,
            Phase::Mounting(mounting) => mounting.into_store(),
            Phase::Serving(rank) => rank.into_store(),
            Phase::Gone => unreachable!(),
        }
    }

    /// The rank that serves, if one does.
    pub fn rank(&self) -> Option<&Rank<S>>
        ensures some { IfSome result (λ rank. self.now.phase ≡ Phase.Serving rank.now) }
        ensures none { IsNone result → IsServing self.now → ⊥ }
    {
        match &self.phase {
            Phase::Serving(rank) => Some(rank),
            _ => None,
        }
    }

    /// The operation with the least number that is sent and not acknowledged, and its object.
    pub fn oldest_sent(&self) -> Option<(OpNo, ObjectName)>
        ensures { result ≡ oldest_sent self.now.phase }
    {
        match &self.phase {
            Phase::Mounting(mounting) => mounting.oldest_sent(),
            Phase::Serving(rank) => rank.oldest_sent(),
            _ => None,
        }
    }

    fn put(&mut self, phase: Phase<S>)
        requires { self.old.phase ≡ Phase.Gone }
        ensures phase { self.new.phase ≡ phase }
        ensures number { self.new.number ≡ self.old.number }
    {
        match mem::replace(&mut self.phase, phase) {
            Phase::Gone => {}
            _ => unreachable!(),
        }
    }

    fn ask(&mut self, alloc: Global, r: &ClientRequest) -> Result<Said, WorldRefusal>
        requires { IsRequest r.now }
        ensures number { self.new.number ≡ self.old.number }
        ensures since { (base : ℕ) → WorldSince S.faults S.unreported base self.old → WorldSince S.faults S.unreported base self.new }
        ensures cause { (base : ℕ) → WorldSince S.faults S.unreported base self.old → IfErr result (λ e. IsFault e → HasFailed S.faults base self.new) }
        ensures answer { IfOk result (IsAnswerTo (Step.Ask r.entry.now)) }
        ensures leaves { IfOk result (λ said. Leaves said self.old self.new) }
        ensures phase { ByPhase (of_serving self.old.phase) result }
        ensures tells { WhileServing (Answers r.entry.now) self.old.phase result self.new.phase }
        ensures live { (m : LogMachine) → WorldLives S.state self.old m → WorldLives S.state self.new (machine_after m (Step.Ask r.entry.now) result) }
        ensures stops { (m : LogMachine) → WorldLives S.state self.old m → StopsSafely self.old.number m (told S.state self.old) (told S.state self.new) }
        ensures replies { (m : LogMachine) → WorldLives S.state self.old m → Replies m (Step.Ask r.entry.now) result }
    {
        match &mut self.phase {
            Phase::Serving(rank) => match rank.request(alloc, r) {
                Ok(early) => Ok(Said::Asked(early)),
                Err(e) => Err(of_rank(e)),
            },
            _ => Err(WorldRefusal::Stopped),
        }
    }

    // The tree, or with `full` the state.
    fn list(&self, alloc: Global, full: bool) -> Result<Said, WorldRefusal>
        ensures answer { IfOk result (IsAnswerTo (listing_step full)) }
        ensures cause { (base : ℕ) → IfErr result (λ e. IsFault e → HasFailed S.faults base self.now) }
        ensures leaves { IfOk result (λ said. Leaves said self.now self.now) }
        ensures phase { ByPhase (of_serving self.now.phase) result }
        ensures tells { WhileServing (Lists full) self.now.phase result self.now.phase }
        ensures replies { (m : LogMachine) → WorldLives S.state self.now m → Replies m (listing_step full) result }
    {
        let Phase::Serving(rank) = &self.phase else {
            return Err(WorldRefusal::Stopped);
        };
        match rank.listing(alloc, full) {
            Ok(text) if full => Ok(Said::State(Items::from_vec(text))),
            Ok(text) => Ok(Said::Tree(Items::from_vec(text))),
            Err(_) => Err(WorldRefusal::Memory),
        }
    }

    fn flush(&mut self, alloc: Global) -> Result<Said, WorldRefusal>
        ensures number { self.new.number ≡ self.old.number }
        ensures since { (base : ℕ) → WorldSince S.faults S.unreported base self.old → WorldSince S.faults S.unreported base self.new }
        ensures cause { (base : ℕ) → WorldSince S.faults S.unreported base self.old → IfErr result (λ e. IsFault e → HasFailed S.faults base self.new) }
        ensures answer { IfOk result (IsAnswerTo Step.Flush) }
        ensures leaves { (base : ℕ) → WorldSince S.faults S.unreported base self.old → IfOk result (λ said. Leaves said self.old self.new) }
        ensures phase { ByPhase (of_serving self.old.phase) result }
        ensures tells { WhileServing (IsFlushed S.state) self.old.phase result self.new.phase }
        ensures live { (m : LogMachine) → WorldLives S.state self.old m → WorldLives S.state self.new m }
        ensures stops { (m : LogMachine) → WorldLives S.state self.old m → StopsSafely self.old.number m (told S.state self.old) (told S.state self.new) }
    {
        match &mut self.phase {
            Phase::Serving(rank) => match rank.flush(alloc) {
                Ok(span) => Ok(Said::Flushed(span)),
                Err(e) => Err(of_rank(e)),
            },
            _ => Err(WorldRefusal::Stopped),
        }
    }

    fn reap(&mut self) -> Result<Said, WorldRefusal>
        ensures number { self.new.number ≡ self.old.number }
        ensures since { (base : ℕ) → WorldSince S.faults S.unreported base self.old → WorldSince S.faults S.unreported base self.new }
        ensures cause { (base : ℕ) → WorldSince S.faults S.unreported base self.old → IfErr result (λ e. IsFault e → HasFailed S.faults base self.new) }
        ensures answer { IfOk result (IsAnswerTo Step.Reap) }
        ensures leaves { (base : ℕ) → WorldSince S.faults S.unreported base self.old → IfOk result (λ said. Leaves said self.old self.new) }
        ensures phase { ByPhase (of_serving self.old.phase) result }
        ensures tells { WhileServing (IsReaped S.state) self.old.phase result self.new.phase }
        ensures live { (m : LogMachine) → WorldLives S.state self.old m → WorldLives S.state self.new (machine_after m Step.Reap result) }
        ensures stops { (m : LogMachine) → WorldLives S.state self.old m → StopsSafely self.old.number m (told S.state self.old) (told S.state self.new) }
    {
        match &mut self.phase {
            Phase::Serving(rank) => match rank.reap() {
                Ok(reaped) => Ok(Said::Reaped(reaped)),
                Err(e) => Err(of_rank(e)),
            },
            _ => Err(WorldRefusal::Stopped),
        }
    }

    fn apply(&mut self, name: &ObjectName) -> Result<Said, WorldRefusal>
        ensures number { self.new.number ≡ self.old.number }
        ensures since { (base : ℕ) → WorldSince S.faults S.unreported base self.old → WorldSince S.faults S.unreported base self.new }
        ensures cause { (base : ℕ) → WorldSince S.faults S.unreported base self.old → IfErr result (λ e. IsFault e → HasFailed S.faults base self.new) }
        ensures answer { IfOk result (IsAnswerTo (Step.Apply name.now)) }
        ensures leaves { (base : ℕ) → WorldSince S.faults S.unreported base self.old → IfOk result (λ said. Leaves said self.old self.new) }
        ensures phase { ByPhase (of_any self.old.phase) result }
        ensures tells { IsTried S.state name.now self.old.phase result self.new.phase }
        ensures live { (m : LogMachine) → WorldLives S.state self.old m → WorldLives S.state self.new m }
        ensures stops { (m : LogMachine) → WorldLives S.state self.old m → StopsSafely self.old.number m (told S.state self.old) (told S.state self.new) }
    {
        match &mut self.phase {
            Phase::Stopped(store) => match store.step(name) {
                Ok(op) => Ok(Said::Applied(op)),
                Err(fault) => Err(WorldRefusal::Store(fault)),
            },
            Phase::Mounting(mounting) => match mounting.apply(name) {
                Ok(op) => Ok(Said::Applied(op)),
                Err(fault) => Err(WorldRefusal::Store(fault)),
            },
            Phase::Serving(rank) => match rank.apply(name) {
                Ok(op) => Ok(Said::Applied(op)),
                Err(e) => Err(of_rank(e)),
            },
            Phase::Gone => Err(WorldRefusal::Stopped),
        }
    }

    fn begin(&mut self, alloc: Global) -> Result<Said, WorldRefusal>
        ensures number { self.new.number ≡ self.old.number }
        ensures since { (base : ℕ) → WorldSince S.faults S.unreported base self.old → WorldSince S.faults S.unreported base self.new }
        ensures cause { (base : ℕ) → WorldSince S.faults S.unreported base self.old → IfErr result (λ e. IsFault e → HasFailed S.faults base self.new) }
        ensures answer { IfOk result (IsAnswerTo Step.Begin) }
        ensures leaves { (base : ℕ) → WorldSince S.faults S.unreported base self.old → IfOk result (λ said. Leaves said self.old self.new) }
        ensures phase { ByPhase (of_stopped self.old.phase) result }
        ensures tells { WhileStopped S.state self.old.number self.old.phase result self.new.phase }
        ensures live { (m : LogMachine) → WorldLives S.state self.old m → WorldLives S.state self.new (machine_after m Step.Begin result) }
        ensures stops { (m : LogMachine) → WorldLives S.state self.old m → StopsSafely self.old.number m (told S.state self.old) (told S.state self.new) }
    {
        match mem::replace(&mut self.phase, Phase::Gone) {
            Phase::Stopped(store) => match Mounting::begin(alloc, store, self.number) {
                Ok(mounting) => {
                    let tail = mounting.tail();
                    self.put(Phase::Mounting(mounting));
                    Ok(Said::Begun(tail))
                }
                Err((store, e)) => {
                    self.put(Phase::Stopped(store));
                    Err(of_mount(e))
                }
            },
            other => {
                self.put(other);
                Err(WorldRefusal::Mounted)
            }
        }
    }

    fn carry(&mut self, alloc: Global) -> Result<Said, WorldRefusal>
        ensures number { self.new.number ≡ self.old.number }
        ensures since { (base : ℕ) → WorldSince S.faults S.unreported base self.old → WorldSince S.faults S.unreported base self.new }
        ensures cause { (base : ℕ) → WorldSince S.faults S.unreported base self.old → IfErr result (λ e. IsFault e → HasFailed S.faults base self.new) }
        ensures answer { IfOk result (IsAnswerTo Step.Carry) }
        ensures leaves { (base : ℕ) → WorldSince S.faults S.unreported base self.old → IfOk result (λ said. Leaves said self.old self.new) }
        ensures phase { ByPhase (of_mounting self.old.phase) result }
        ensures tells { WhileMounting S.state self.old.phase result self.new.phase }
        ensures live { (m : LogMachine) → WorldLives S.state self.old m → WorldLives S.state self.new m }
        ensures stops { (m : LogMachine) → WorldLives S.state self.old m → StopsSafely self.old.number m (told S.state self.old) (told S.state self.new) }
    {
        match mem::replace(&mut self.phase, Phase::Gone) {
            Phase::Mounting(mut mounting) => match mounting.step(alloc) {
                Ok(MountStep::Ready) => {
                    self.put(Phase::Serving(mounting.finish(alloc)));
                    Ok(Said::Carried(MountStep::Ready))
                }
                Ok(step) => {
                    self.put(Phase::Mounting(mounting));
                    Ok(Said::Carried(step))
                }
                Err(e) => {
                    self.put(Phase::Mounting(mounting));
                    Err(of_mount(e))
                }
            },
            Phase::Serving(rank) => {
                self.put(Phase::Serving(rank));
                Err(WorldRefusal::Mounted)
            }
            other => {
                self.put(other);
                Err(WorldRefusal::Stopped)
            }
        }
    }

    fn restart(&mut self) -> Result<Said, WorldRefusal>
        ensures number { self.new.number ≡ self.old.number }
        ensures since { (base : ℕ) → WorldSince S.faults S.unreported base self.old → WorldSince S.faults S.unreported base self.new }
        ensures cause { (base : ℕ) → WorldSince S.faults S.unreported base self.old → IfErr result (λ e. IsFault e → HasFailed S.faults base self.new) }
        ensures answer { IfOk result (IsAnswerTo Step.Restart) }
        ensures leaves { (base : ℕ) → WorldSince S.faults S.unreported base self.old → IfOk result (λ said. Leaves said self.old self.new) }
        ensures phase { ByPhase (of_any self.old.phase) result }
        ensures tells { IsRestarted S.state self.old.phase result self.new.phase }
        ensures live { (m : LogMachine) → WorldLives S.state self.old m → WorldLives S.state self.new m }
        ensures stops { (m : LogMachine) → WorldLives S.state self.old m → StopsSafely self.old.number m (told S.state self.old) (told S.state self.new) }
    {
        match mem::replace(&mut self.phase, Phase::Gone) {
            Phase::Stopped(mut store) => {
                let restarted = store.restart();
                self.put(Phase::Stopped(store));
                match restarted {
                    Ok(()) => Ok(Said::Restarted),
                    Err(fault) => Err(WorldRefusal::Store(fault)),
                }
            }
            Phase::Mounting(mounting) => match mounting.restart() {
                Ok(store) => {
                    self.put(Phase::Stopped(store));
                    Ok(Said::Restarted)
                }
                Err((mounting, fault)) => {
                    self.put(Phase::Mounting(mounting));
                    Err(WorldRefusal::Store(fault))
                }
            },
            Phase::Serving(rank) => match rank.restart() {
                Ok(store) => {
                    self.put(Phase::Stopped(store));
                    Ok(Said::Restarted)
                }
                Err((rank, fault)) => {
                    self.put(Phase::Serving(rank));
                    Err(WorldRefusal::Store(fault))
                }
            },
            Phase::Gone => Err(WorldRefusal::Stopped),
        }
    }
}

// Want of memory is told as such, whatever call behind wanted it.
fn of_rank(e: RankRefusal) -> WorldRefusal
    ensures fault { IsFault result → IsDownRank e }
    ensures is { result ≡ of_rank e }
{
    match e {
        RankRefusal::Memory => WorldRefusal::Memory,
        other => WorldRefusal::Rank(other),
    }
}

fn of_mount(e: MountRefusal) -> WorldRefusal
    ensures fault { IsFault result → IsStoreFault e }
    ensures is { result ≡ of_mount e }
{
    match e {
        MountRefusal::Memory => WorldRefusal::Memory,
        other => WorldRefusal::Mount(other),
    }
}
