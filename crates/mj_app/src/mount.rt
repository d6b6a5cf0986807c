//! All steps of a mount.

ghost use Rattle.std.specs.Prelude.{◌≡◌, ℕ, Option, Some, Ok, Err, IfOk, IfErr};
ghost use Rattle.mj_world.specs.Made.{Made};
ghost use Rattle.mj_world.specs.World.{WorldSince, IsServing};
ghost use Rattle.mj_world.specs.Steps.{Awaits};
ghost use Rattle.mj_texts.specs.declared.steps.Said.TheVariants.{Applied, Begun, Carried};
ghost use Rattle.mj_texts.specs.declared.line.Line.TheVariants as line;
ghost use Rattle.mj_app.specs.LineActs.{Stage, StepsOldest, ready, told_if};
ghost use Rattle.mj_app.specs.Run.{WorksTo, answer_in};

use crate::answer::answer_to;
use mj_base::OpNo;
use mj_rank::MountStep;
use mj_store::ObjectStore;
use mj_texts::Answer;
use mj_world::{Said, Step, World, WorldRefusal};
use std::alloc::{AllocError, Global};

/// Begins a mount and carries it on until it is ready. Where it waits, the store is to try the oldest operation that
/// was sent. Where it waits right after that, the mount is left so.
pub fn mount<S: ObjectStore>(alloc: Global, world: &mut World<S>) -> Result<Answer, AllocError>
    requires { WorldSince S.faults S.unreported 0 world.old }
    ensures { WorksTo S.state S.faults S.unreported line.Mount world.old (answer_in result) world.new }
{
    match carry_on(alloc, world) {
        Ok(answer) => Ok(answer),
        Err(refusal) => answer_to(refusal),
    }
}

fn carry_on<S: ObjectStore>(alloc: Global, world: &mut World<S>) -> Result<Answer, WorldRefusal>
    requires { WorldSince S.faults S.unreported 0 world.old }
    ensures { WorksTo S.state S.faults S.unreported line.Mount world.old (told_if result) world.new }
{
    let tail = match begin(alloc, world) {
        Ok(tail) => tail,
        Err(refusal) => return Err(refusal),
    };
    let mut tried: Option<OpNo> = None;
    'carries: loop {
        match carry(alloc, world) {
            Ok(MountStep::Ready) => return Ok(mounted(world, tail)),
            Ok(MountStep::Sent(_)) => tried = None,
            Ok(MountStep::Reaped(_)) => tried = None,
            Ok(MountStep::Waiting) => match tried {
                Some(op) => return Ok(Answer::WaitingFor(op)),
                None => match try_oldest(alloc, world) {
                    Ok(op) => tried = Some(op),
                    Err(refusal) => return Err(refusal),
                },
            },
            Err(refusal) => return Err(refusal),
        }
    }
}

fn begin<S: ObjectStore>(alloc: Global, world: &mut World<S>) -> Result<u64, WorldRefusal>
    ensures begun { IfOk result (λ tail. Made S.state S.faults S.unreported Step.Begin world.old (Ok (Begun tail)) world.new) }
    ensures refused { IfErr result (λ e. Made S.state S.faults S.unreported Step.Begin world.old (Err e) world.new) }
{
    match world.step(alloc, &Step::Begin) {
        Ok(said) => match said {
            Said::Begun(tail) => Ok(tail),
            _ => unreachable!(),
        },
        Err(refusal) => Err(refusal),
    }
}

fn carry<S: ObjectStore>(alloc: Global, world: &mut World<S>) -> Result<MountStep, WorldRefusal>
    ensures carried { IfOk result (λ made. Made S.state S.faults S.unreported Step.Carry world.old (Ok (Carried made)) world.new) }
    ensures refused { IfErr result (λ e. Made S.state S.faults S.unreported Step.Carry world.old (Err e) world.new) }
{
    match world.step(alloc, &Step::Carry) {
        Ok(said) => match said {
            Said::Carried(step) => Ok(step),
            _ => unreachable!(),
        },
        Err(refusal) => Err(refusal),
    }
}

/// The store tries the oldest operation that is sent and not acknowledged.
fn try_oldest<S: ObjectStore>(alloc: Global, world: &mut World<S>) -> Result<OpNo, WorldRefusal>
    requires { Awaits world.old }
    ensures tried { IfOk result (λ op. (applied : Option ℕ) × StepsOldest S.state S.faults S.unreported op world.old (Ok (Applied applied)) world.new) }
    ensures refused { IfErr result (λ e. (op : ℕ) × StepsOldest S.state S.faults S.unreported op world.old (Err e) world.new) }
{
    let Some((op, name)) = world.oldest_sent() else {
        unreachable!()
    };
    match world.step(alloc, &Step::Apply(name)) {
        Ok(said) => match said {
            Said::Applied(_) => Ok(op),
            _ => unreachable!(),
        },
        Err(refusal) => Err(refusal),
    }
}

fn mounted<S: ObjectStore>(world: &World<S>, tail: u64) -> Answer
    requires { IsServing world.now }
    ensures { ready tail world.now.phase ≡ Stage.Ended (Some result) }
{
    match world.rank() {
        Some(rank) => Answer::Mounted {
            epoch: rank.epoch(),
            tail,
        },
        None => unreachable!(),
    }
}
