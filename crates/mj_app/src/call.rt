//! The top call over a store.

ghost use Rattle.std.specs.Prelude.{◌≡◌, ◌≤◌, ◌↔◌, None, Some};
ghost use Rattle.mj_model.specs.Took.{sink_state};
ghost use Rattle.mj_app.specs.Say.{HasFixedText};
ghost use Rattle.mj_app.specs.Call.{files_state, status_of, CallSays, EndSays, IsExact, RefusalEnds};
ghost use Rattle.mj_app.specs.Headline.{HasHeadline, HasFirstHeadline};
ghost use Rattle.mj_app.specs.Status.{code_of};
ghost use Rattle.mj_app.specs.Words.{command_of};
ghost use Rattle.mj_app.specs.WordsRead.{command_value};

use crate::chronicle::answer_chronicle;
use crate::formatting::format_store;
use crate::play::play;
use crate::read::{ReadRefusal, read_lines};
use crate::say::{Unsaid, say_refusal};
use crate::status::Status;
use crate::words::{Command, read_words};
use mj_base::{Files, RankNo, Sink};
use mj_store::ObjectStore;
use std::alloc::Global;

/// Does what the words say over a store that is first restarted, and hands the store back on every path: formats it, plays a script
/// as a rank, or answers a chronicle by the plain tree. The number is that of the `Status` with which the call ends. No file is written.
pub fn mdjournal_call<S: ObjectStore, F: Files, K: Sink>(
    alloc: Global,
    words: &[String],
    files: &mut F,
    store: S,
    out: &mut K,
) -> (u8, S)
    ensures words { (result.0 ≡ 2) ↔ (command_of words.now ≡ None) }
    ensures says { CallSays S.state S.faults S.unreported (command_of words.now) (files_state F.told F.faults files.old) (files_state F.told F.faults files.new) store result.1 (sink_state K.taken K.faults out.old) (sink_state K.taken K.faults out.new) result.0 }
    ensures headline { HasHeadline S.state S.faults S.unreported (command_of words.now) (files_state F.told F.faults files.old) store result.1 (sink_state K.taken K.faults out.old) (sink_state K.taken K.faults out.new) result.0 }
    ensures first { HasFirstHeadline S.state S.faults S.unreported (command_of words.now) (files_state F.told F.faults files.old) store result.1 (sink_state K.taken K.faults out.old) (sink_state K.taken K.faults out.new) result.0 }
    ensures unwritten { F.told files.new ≡ F.told files.old }
    ensures later { F.faults files.old ≤ F.faults files.new }
{
    match read_words(words) {
        Some(command) => {
            let (status, store) = carry_out(alloc, command, files, store, out);
            (status.code(), store)
        }
        None => {
            let status = refuse(alloc, ReadRefusal::Words, out);
            (status.code(), store)
        }
    }
}

fn carry_out<S: ObjectStore, F: Files, K: Sink>(
    alloc: Global,
    command: Command<'_>,
    files: &mut F,
    store: S,
    out: &mut K,
) -> (Status, S)
    ensures served { code_of result.0 ≡ 2 → ⊥ }
    ensures says { CallSays S.state S.faults S.unreported (Some (command_value command.entry)) (files_state F.told F.faults files.old) (files_state F.told F.faults files.new) store result.1 (sink_state K.taken K.faults out.old) (sink_state K.taken K.faults out.new) (code_of result.0) }
    ensures headline { HasHeadline S.state S.faults S.unreported (Some (command_value command.entry)) (files_state F.told F.faults files.old) store result.1 (sink_state K.taken K.faults out.old) (sink_state K.taken K.faults out.new) (code_of result.0) }
    ensures first { HasFirstHeadline S.state S.faults S.unreported (Some (command_value command.entry)) (files_state F.told F.faults files.old) store result.1 (sink_state K.taken K.faults out.old) (sink_state K.taken K.faults out.new) (code_of result.0) }
    ensures unwritten { F.told files.new ≡ F.told files.old }
    ensures later { F.faults files.old ≤ F.faults files.new }
{
    match command {
        Command::Format { rank, layout } => format_store(alloc, rank, layout, store, out),
        Command::Play { rank, script } => play_script(alloc, rank, script, files, store, out),
        Command::Model { rank, chronicle } => {
            answer_chronicle(alloc, rank, chronicle, files, store, out)
        }
    }
}

fn play_script<S: ObjectStore, F: Files, K: Sink>(
    alloc: Global,
    rank: RankNo,
    script: &str,
    files: &mut F,
    store: S,
    out: &mut K,
) -> (Status, S)
    ensures says { EndSays S.state S.faults S.unreported rank script.now (files_state F.told F.faults files.old) (files_state F.told F.faults files.new) store result.1 (sink_state K.taken K.faults out.old) (sink_state K.taken K.faults out.new) result.0 }
    ensures exact { IsExact script.now (files_state F.told F.faults files.old) (files_state F.told F.faults files.new) result.0 }
    ensures small { rank ≤ 15 }
    ensures unwritten { F.told files.new ≡ F.told files.old }
    ensures later { F.faults files.old ≤ F.faults files.new }
{
    // a rank is at most 15
    let _number = rank.number();
    match read_lines(alloc, script, files) {
        Ok(lines) => play(alloc, rank, &lines, store, out),
        Err(refusal) => {
            let status = refuse(alloc, refusal, out);
            (status, store)
        }
    }
}

/// Prints why a call does nothing. Where memory is wanted for the text, that is the status.
pub fn refuse<K: Sink>(alloc: Global, refusal: ReadRefusal, out: &mut K) -> Status
    ensures says { RefusalEnds refusal (sink_state K.taken K.faults out.old) (sink_state K.taken K.faults out.new) result }
    ensures fixed { HasFixedText refusal → result ≡ status_of refusal }
{
    match say_refusal(alloc, refusal, out) {
        Ok(()) => status_of(refusal),
        Err(Unsaid::Sink) => status_of(refusal),
        Err(Unsaid::Memory) => Status::Memory,
    }
}

fn status_of(refusal: ReadRefusal) -> Status
    ensures { result ≡ status_of refusal }
{
    match refusal {
        ReadRefusal::Words => Status::Words,
        ReadRefusal::FileMissing => Status::Files,
        ReadRefusal::FileTooLong(_) => Status::Files,
        ReadRefusal::FileFault => Status::Files,
        ReadRefusal::BadLine(_) => Status::Grammar,
        ReadRefusal::Memory => Status::Memory,
    }
}
