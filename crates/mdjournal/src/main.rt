//! The program: formats the store of the image file that its first word names, or plays a script over it.
#![tactic(auto)]

ghost use Rattle.std.specs.Prelude.{◌≡◌, IfOk, IfErr, OnErr};
ghost use Rattle.mj_model.specs.Took.{sink_state};
ghost use Rattle.mj_app.specs.Call.{files_state};
ghost use Rattle.mdjournal.specs.Status.{StatusSays};

use mj_app::{Buffered, mdjournal_image_call};
use mj_base::{Files, HostFiles, HostSink, Sink};
use std::alloc::{AllocError, Global};
use std::env;
use std::io::ErrorKind;
use std::process::ExitCode;

/// The status where the words do not fit into memory.
const MEMORY: u8 = 4;

/// The status where the sink failed in the last of the text, and only there.
const SINK: u8 = 8;

fn main(rt: HostRuntime) -> ExitCode {
    let words = given_words(&rt);
    let mut files = HostFiles::new(&rt);
    let (status, _) = status_of(rt.alloc(), &words, &mut files, HostSink::new(&rt));
    ExitCode::from(status)
}

/// The status of the call with these words, and the sink again. Where there was no memory for the words, nothing is called.
fn status_of<F: Files, K: Sink>(
    alloc: Global,
    words: &Result<Vec<String>, AllocError>,
    files: &mut F,
    out: K,
) -> (u8, K)
    ensures says { IfOk words.now (λ w. StatusSays w.items (files_state F.told F.faults files.old) (files_state F.told F.faults files.new) (sink_state K.taken K.faults out) (sink_state K.taken K.faults result.1) result.0) }
    ensures memory { IfErr words.now (λ _. result.0 ≡ 4) }
    ensures files { OnErr words.now (files.new ≡ files.old) }
    ensures out { OnErr words.now (result.1 ≡ out) }
{
    match words {
        Ok(words) => call_buffered(alloc, words, files, out),
        Err(_) => (MEMORY, out),
    }
}

// The call puts its text line by line, and the buffer hands on many lines at a time.
fn call_buffered<F: Files, K: Sink>(
    alloc: Global,
    words: &[String],
    files: &mut F,
    out: K,
) -> (u8, K)
    ensures { StatusSays words.now (files_state F.told F.faults files.old) (files_state F.told F.faults files.new) (sink_state K.taken K.faults out) (sink_state K.taken K.faults result.1) result.0 }
{
    let mut out = Buffered::new(alloc, out);
    let code = mdjournal_image_call(alloc, words, files, &mut out);
    let flushed = out.flush();
    let status = if code == 0 && flushed.is_err() {
        SINK
    } else {
        code
    };
    (status, out.into_inner())
}

/// The words behind the program's name. Where one is not UTF-8, there are none, and those are refused.
fn given_words(rt: &HostRuntime) -> Result<Vec<String>, AllocError> {
    match env::args(rt) {
        Ok(words) => words.skip(1).collect(rt.alloc()),
        Err(e) if e.kind() == ErrorKind::OutOfMemory => Err(AllocError),
        Err(_) => Ok(Vec::new(rt.alloc())),
    }
}
