//! A store is formatted.

ghost use Rattle.std.specs.Prelude.{◌≡◌, Some};
ghost use Rattle.mj_model.specs.Took.{sink_state};
ghost use Rattle.mj_app.specs.Formats.{FormatWork, FormatEnds, FormatCall, cut_status, format_status, why_not};
ghost use Rattle.mj_app.specs.Status.{code_of};

use crate::say::{Unsaid, say_formatted, say_unformatted};
use crate::status::Status;
use mj_base::{RankNo, Sink};
use mj_format::{FormatRefusal, format};
use mj_layout::Layout;
use mj_store::ObjectStore;
use std::alloc::Global;

/// Formats a store that is first restarted, and prints what came of it.
pub fn format_store<S: ObjectStore, K: Sink>(
    alloc: Global,
    rank: RankNo,
    layout: Layout,
    mut store: S,
    out: &mut K,
) -> (Status, S)
    ensures { FormatCall S.state S.faults S.unreported rank layout store result.1 (sink_state K.taken K.faults out.old) (sink_state K.taken K.faults out.new) (code_of result.0) }
{
    let outcome = restart_and_format(alloc, rank, layout, &mut store);
    let status = tell(alloc, rank, layout, outcome, out);
    (status, store)
}

fn restart_and_format<S: ObjectStore>(
    alloc: Global,
    rank: RankNo,
    layout: Layout,
    store: &mut S,
) -> Result<(), FormatRefusal>
    ensures { FormatWork S.state S.faults S.unreported rank layout store.old store.new (why_not result) }
{
    match store.restart() {
        Ok(()) => format(alloc, store, rank, layout),
        Err(fault) => Err(FormatRefusal::Store(fault)),
    }
}

fn tell<K: Sink>(
    alloc: Global,
    rank: RankNo,
    layout: Layout,
    outcome: Result<(), FormatRefusal>,
    out: &mut K,
) -> Status
    ensures { FormatEnds rank layout (why_not outcome) (sink_state K.taken K.faults out.old) (sink_state K.taken K.faults out.new) result }
{
    match outcome {
        Ok(()) => match say_formatted(alloc, rank, layout, out) {
            Ok(()) => Status::Done,
            Err(Unsaid::Sink) => Status::Sink,
            Err(Unsaid::Memory) => Status::Memory,
        },
        Err(refusal) => match say_unformatted(alloc, &refusal, out) {
            Ok(()) => status_of(&refusal),
            Err(Unsaid::Sink) => status_of(&refusal),
            Err(Unsaid::Memory) => Status::Memory,
        },
    }
}

// With which status a store that was not formatted ends the call, whether that is printed or not.
fn status_of(refusal: &FormatRefusal) -> Status
    ensures is { result ≡ format_status (Some refusal.now) }
    ensures stays { cut_status result ≡ result }
{
    match refusal {
        FormatRefusal::Formatted => Status::Refused,
        FormatRefusal::Store(_) => Status::Store,
        FormatRefusal::Waiting(_) => Status::Store,
        FormatRefusal::Memory => Status::Memory,
    }
}
