//! Plays each example over a new store in memory, and says whether what is printed is the text that is stored beside it.
#![tactic(auto)]

ghost use Rattle.std.specs.Prelude.{◌≡◌, ◌↔◌, IsNone};

use mj_app::mdjournal_image_call;
use mj_base::{FileRefusal, Files, HostFiles, MemFiles, MemSink};
use std::alloc::{AllocError, Global};
use std::io;

/// An example's name, and the options with which its store is formatted.
type Example = (&'static str, &'static [&'static str]);

static EXAMPLES: [Example; 6] = [
    ("01_one_directory", &[]),
    ("02_a_rename_over_a_link", &[]),
    ("03_a_stop_before_the_flush", &[]),
    ("04_a_repeated_request", &[]),
    (
        "05_writes_out_of_order",
        &["--su=4096", "--sc=2", "--os=65536"],
    ),
    ("06_what_is_refused", &[]),
];

fn main(rt: HostRuntime) -> io::Result<()> {
    let mut files = HostFiles::new(&rt);
    for (name, options) in &EXAMPLES {
        match difference(rt.alloc(), &mut files, name, options) {
            Ok(None) => println!(rt; "{name} as stored")?,
            Ok(Some(line)) => println!(rt; "{name} differs at line {line}")?,
            Err(why) => println!(rt; "{name} {why:?}")?,
        }
    }
    Ok(())
}

// The first line of an example's text that is not as it is stored.
fn difference<F: Files>(
    alloc: Global,
    files: &mut F,
    name: &str,
    options: &[&str],
) -> Result<Option<u64>, FileRefusal> {
    let script = read(alloc, files, name, "txt")?;
    let stored = read(alloc, files, name, "out")?;
    let told = played(alloc, &script, options)?;
    Ok(first_difference(told.taken(), &stored))
}

fn read<F: Files>(
    alloc: Global,
    files: &mut F,
    name: &str,
    kind: &str,
) -> Result<Vec<u8>, FileRefusal> {
    let name = format!(in alloc; "{name}.{kind}")?;
    files.read(alloc, &name)
}

// What is printed where a script is played over a new store.
fn played(alloc: Global, script: &[u8], options: &[&str]) -> Result<MemSink, FileRefusal> {
    let mut files = MemFiles::new(alloc, &[])?;
    files.write(alloc, "script", script)?;
    let _ = called(alloc, &mut files, &["image", "format"], options)?;
    called(alloc, &mut files, &["image", "play", "script"], &[])
}

fn called(
    alloc: Global,
    files: &mut MemFiles,
    words: &[&str],
    options: &[&str],
) -> Result<MemSink, FileRefusal> {
    let words = strings(alloc, words, options)?;
    let mut out = MemSink::new(alloc, &[])?;
    let _ = mdjournal_image_call(alloc, &words, files, &mut out);
    Ok(out)
}

fn strings(alloc: Global, words: &[&str], options: &[&str]) -> Result<Vec<String>, AllocError> {
    let mut all = Vec::new(alloc);
    for word in words {
        all.push(String::from_str(alloc, word)?)?;
    }
    for word in options {
        all.push(String::from_str(alloc, word)?)?;
    }
    Ok(all)
}

/// The number of the first line in which two texts differ, and none where they are the same.
fn first_difference(told: &[u8], stored: &[u8]) -> Option<u64>
    ensures { IsNone result ↔ (told.now ≡ stored.now) }
{
    if told == stored {
        return None;
    }
    Some(lines_alike(told, stored).saturating_add(1))
}

// How many lines two texts have alike.
fn lines_alike(told: &[u8], stored: &[u8]) -> u64 {
    let mut lines = 0u64;
    for (a, b) in told.iter().zip(stored) {
        if a != b {
            return lines;
        }
        if *a == b'\n' {
            lines = lines.saturating_add(1);
        }
    }
    lines
}
