//! One line of a script.

ghost use Rattle.std.specs.Prelude.{◌≡◌, ◌≤◌, IfOk};
ghost use Rattle.mj_world.specs.World.{WorldSince};
ghost use Rattle.mj_texts.specs.Line.{IsServed};
ghost use Rattle.mj_app.specs.Answers.{IsTold, last_status};
ghost use Rattle.mj_model.specs.Took.{sink_state};
ghost use Rattle.mj_app.specs.Run.{TurnSays, WorksTo, LineRuns, answer_in, told_in};

use crate::answer::{answer_of, answer_to};
use crate::mount::mount;
use crate::say::{Unsaid, say_turn};
use crate::status::Status;
use mj_base::Sink;
use mj_store::ObjectStore;
use mj_texts::{Answer, Line};
use mj_world::{Step, World};
use std::alloc::{AllocError, Global};

/// Runs a line and prints what it was answered. An error ends the script.
pub fn run_line<S: ObjectStore, K: Sink>(
    alloc: Global,
    world: &mut World<S>,
    number: u64,
    line: &Line,
    out: &mut K,
) -> Result<(), Status>
    requires since { WorldSince S.faults S.unreported 0 world.old }
    requires served { IsServed line.now }
    ensures runs { LineRuns S.state S.faults S.unreported number line.now world.old world.new (sink_state K.taken K.faults out.old) (sink_state K.taken K.faults out.new) result }
    ensures later { K.faults out.old ≤ K.faults out.new }
{
    match answer_to_line(alloc, world, line) {
        Ok(Some(answer)) => say_answer(alloc, number, &answer, out),
        Ok(None) => Ok(()),
        Err(_) => Err(Status::Memory),
    }
}

/// Prints an answer. Damage and a fault of the store end the script, also where the sink fails.
pub fn say_answer<K: Sink>(
    alloc: Global,
    number: u64,
    answer: &Answer,
    out: &mut K,
) -> Result<(), Status>
    ensures says { TurnSays number answer.now (sink_state K.taken K.faults out.old) (sink_state K.taken K.faults out.new) result }
    ensures later { K.faults out.old ≤ K.faults out.new }
{
    match say_turn(alloc, number, answer, out) {
        Ok(()) => match last_status(answer) {
            Some(status) => Err(status),
            None => Ok(()),
        },
        Err(Unsaid::Sink) => match last_status(answer) {
            Some(status) => Err(status),
            None => Err(Status::Sink),
        },
        Err(Unsaid::Memory) => Err(Status::Memory),
    }
}

/// With which status an answer ends the script, if it does.
fn last_status(answer: &Answer) -> Option<Status>
    ensures { result ≡ last_status answer.now }
{
    match answer {
        Answer::Damaged(_) => Some(Status::Damage),
        Answer::StoreFault(_) => Some(Status::Store),
        _ => None,
    }
}

/// What a line is answered: nothing where it is empty.
fn answer_to_line<S: ObjectStore>(
    alloc: Global,
    world: &mut World<S>,
    line: &Line,
) -> Result<Option<Answer>, AllocError>
    requires since { WorldSince S.faults S.unreported 0 world.old }
    requires served { IsServed line.now }
    ensures works { WorksTo S.state S.faults S.unreported line.now world.old (told_in result) world.new }
    ensures told { IfOk result (IsTold line.now) }
{
    match line {
        Line::Blank => Ok(None),
        Line::One(step) => Ok(Some(one_step(alloc, world, step)?)),
        Line::Mount => Ok(Some(mount(alloc, world)?)),
    }
}

fn one_step<S: ObjectStore>(
    alloc: Global,
    world: &mut World<S>,
    step: &Step,
) -> Result<Answer, AllocError>
    requires { IsServed (Line.One step.now) }
    ensures { WorksTo S.state S.faults S.unreported (Line.One step.now) world.old (answer_in result) world.new }
{
    match world.step(alloc, step) {
        Ok(said) => Ok(answer_of(step, said)),
        Err(refusal) => answer_to(refusal),
    }
}
