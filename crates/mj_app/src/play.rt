//! The run of a script.

ghost use Rattle.std.specs.Prelude.{◌≡◌, ◌≤◌, [], All};
ghost use Rattle.mj_texts.specs.Line.{IsServed};
ghost use Rattle.mj_model.specs.Took.{sink_state};
ghost use Rattle.mj_app.specs.Run.{StartEnds, RunSays, PlaySays};
ghost use Rattle.mj_app.specs.Worlds.{Over};

use crate::line::{run_line, say_answer};
use crate::status::Status;
use mj_base::{RankNo, Sink};
use mj_store::ObjectStore;
use mj_texts::{Answer, Line};
use mj_world::World;
use std::alloc::Global;

/// Runs the lines of a script as a rank over a store that is first restarted.
pub fn play<S: ObjectStore, K: Sink>(
    alloc: Global,
    rank: RankNo,
    lines: &[Line],
    mut store: S,
    out: &mut K,
) -> (Status, S)
    requires { All IsServed lines.now }
    ensures { PlaySays S.state S.faults S.unreported rank result.0 lines.now store result.1 (sink_state K.taken K.faults out.old) (sink_state K.taken K.faults out.new) }
{
    match store.restart() {
        Ok(()) => play_restarted(alloc, rank, lines, store, out),
        Err(fault) => {
            let status = fail_to_start(alloc, fault.faults, out);
            (status, store)
        }
    }
}

fn play_restarted<S: ObjectStore, K: Sink>(
    alloc: Global,
    rank: RankNo,
    lines: &[Line],
    store: S,
    out: &mut K,
) -> (Status, S)
    requires served { All IsServed lines.now }
    requires restarted { S.unreported store ≡ [] }
    ensures { Over rank store result.1 (RunSays S.state S.faults S.unreported result.0 lines.now (sink_state K.taken K.faults out.old) (sink_state K.taken K.faults out.new)) }
{
    let mut world = World::new(store, rank);
    for (i, line) in lines.iter().enumerate() {
        match run_line(alloc, &mut world, i as u64 + 1, line, out) {
            Ok(()) => {}
            Err(status) => return (status, world.into_store()),
        }
    }
    (Status::Done, world.into_store())
}

/// Tells that the restart before the first line failed. It has the number 0.
pub fn fail_to_start<K: Sink>(alloc: Global, faults: u64, out: &mut K) -> Status
    ensures { StartEnds result faults (sink_state K.taken K.faults out.old) (sink_state K.taken K.faults out.new) }
{
    match say_answer(alloc, 0, &Answer::StoreFault(faults), out) {
        Ok(()) => Status::Store,
        Err(status) => status,
    }
}
