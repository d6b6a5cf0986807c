//! A chronicle is answered by the plain tree.

ghost use Rattle.std.specs.Prelude.{◌≡◌, ◌≤◌};
ghost use Rattle.mj_model.specs.Chronicle.{chronicle_of};
ghost use Rattle.mj_model.specs.Took.{sink_state};
ghost use Rattle.mj_app.specs.Call.{files_state, model_status, ModelWork, ModelEnds, TellsExactly};

use crate::call::refuse;
use crate::play::fail_to_start;
use crate::read::read_chronicle_lines;
use crate::status::Status;
use mj_base::{Files, RankNo, Sink};
use mj_model::{ChronicleLine, ModelEnd, model};
use mj_store::ObjectStore;
use std::alloc::Global;

/// Answers the requests of the chronicle in the file of this name by the plain tree of a new rank, and prints the replies, up to the
/// first that differs from the one that was given. The store is only restarted.
pub fn answer_chronicle<S: ObjectStore, F: Files, K: Sink>(
    alloc: Global,
    rank: RankNo,
    name: &str,
    files: &mut F,
    store: S,
    out: &mut K,
) -> (Status, S)
    ensures says { ModelEnds S.state S.faults S.unreported rank name.now (files_state F.told F.faults files.old) (files_state F.told F.faults files.new) store result.1 (sink_state K.taken K.faults out.old) (sink_state K.taken K.faults out.new) result.0 }
    ensures exact { TellsExactly chronicle_of name.now (files_state F.told F.faults files.old) (files_state F.told F.faults files.new) result.0 }
    ensures unwritten { F.told files.new ≡ F.told files.old }
    ensures later { F.faults files.old ≤ F.faults files.new }
{
    match read_chronicle_lines(alloc, name, files) {
        Ok(lines) => answer_lines(alloc, rank, &lines, store, out),
        Err(refusal) => {
            let status = refuse(alloc, refusal, out);
            (status, store)
        }
    }
}

fn answer_lines<S: ObjectStore, K: Sink>(
    alloc: Global,
    rank: RankNo,
    lines: &[ChronicleLine],
    mut store: S,
    out: &mut K,
) -> (Status, S)
    ensures { ModelWork S.state S.faults S.unreported rank result.0 lines.now store result.1 (sink_state K.taken K.faults out.old) (sink_state K.taken K.faults out.new) }
{
    match store.restart() {
        Ok(()) => {
            let end = model(alloc, rank, lines, out);
            (status_of(end), store)
        }
        Err(fault) => {
            let status = fail_to_start(alloc, fault.faults, out);
            (status, store)
        }
    }
}

// With which status the plain tree's answers end the call.
fn status_of(end: Result<(), ModelEnd>) -> Status
    ensures { result ≡ model_status end }
{
    match end {
        Ok(()) => Status::Done,
        Err(ModelEnd::Differs) => Status::Refused,
        Err(ModelEnd::Memory) => Status::Memory,
        Err(ModelEnd::Sink) => Status::Sink,
    }
}
