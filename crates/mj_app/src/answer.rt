//! The answer to a line, from what the world says.

ghost use Rattle.std.specs.Prelude.{◌≡◌, Some, None, IfOk, OnErr};
ghost use Rattle.mj_world.specs.Steps.{IsAnswerTo};
ghost use Rattle.mj_texts.specs.Line.{IsServed};
ghost use Rattle.mj_app.specs.Told.{said_told, refusal_told, rank_told, mount_told};

use mj_rank::{MountRefusal, RankRefusal};
use mj_texts::{Answer, Line};
use mj_world::{Said, Step, WorldRefusal};
use std::alloc::AllocError;

/// The answer to a step that is a line of its own.
pub fn answer_of(step: &Step, said: Said) -> Answer
    requires answer { IsAnswerTo step.now said }
    requires line { IsServed (Line.One step.now) }
    ensures { said_told step.now said ≡ Some result }
{
    match said {
        Said::Asked(early) => Answer::Asked(early),
        Said::Flushed(span) => Answer::Flushed(span),
        Said::Applied(op) => match step {
            Step::Apply(name) => Answer::Applied(*name, op),
            _ => unreachable!(),
        },
        Said::Reaped(reaped) => Answer::Reaped(reaped),
        Said::Restarted => Answer::Restarted,
        Said::Tree(text) => Answer::Tree(text),
        Said::State(text) => Answer::State(text),
        Said::Begun(_) => unreachable!(),
        Said::Carried(_) => unreachable!(),
    }
}

/// The answer to a step that was refused.
pub fn answer_to(refusal: WorldRefusal) -> Result<Answer, AllocError>
    ensures told { IfOk result (λ a. refusal_told refusal ≡ Some a) }
    ensures memory { OnErr result (refusal_told refusal ≡ None) }
{
    match refusal {
        WorldRefusal::Stopped => Ok(Answer::Stopped),
        WorldRefusal::Mounted => Ok(Answer::AlreadyMounted),
        WorldRefusal::Rank(refusal) => answer_to_rank(refusal),
        WorldRefusal::Mount(refusal) => answer_to_mount(refusal),
        WorldRefusal::Store(fault) => Ok(Answer::StoreFault(fault.faults)),
        WorldRefusal::Memory => Err(AllocError),
    }
}

fn answer_to_rank(refusal: RankRefusal) -> Result<Answer, AllocError>
    ensures told { IfOk result (λ a. rank_told refusal ≡ Some a) }
    ensures memory { OnErr result (rank_told refusal ≡ None) }
{
    match refusal {
        RankRefusal::Down(fault, _) => Ok(Answer::StoreFault(fault.faults)),
        RankRefusal::MountSpent(n, _) => Ok(Answer::MountSpent(n)),
        RankRefusal::LogFull(bytes, _) => Ok(Answer::LogFull(bytes)),
        RankRefusal::PositionSpent(at, _) => Ok(Answer::PositionSpent(at)),
        RankRefusal::Memory => Err(AllocError),
    }
}

fn answer_to_mount(refusal: MountRefusal) -> Result<Answer, AllocError>
    ensures told { IfOk result (λ a. mount_told refusal ≡ Some a) }
    ensures memory { OnErr result (mount_told refusal ≡ None) }
{
    match refusal {
        MountRefusal::Damage(damage) => Ok(Answer::Damaged(damage)),
        MountRefusal::Store(fault) => Ok(Answer::StoreFault(fault.faults)),
        MountRefusal::Memory => Err(AllocError),
    }
}
