//! The top call over an image file.

ghost use Rattle.std.specs.Prelude.{◌≡◌, ◌≤◌, option_map};
ghost use Rattle.mj_model.specs.Took.{sink_state};
ghost use Rattle.mj_app.specs.Call.{files_state};
ghost use Rattle.mj_app.specs.Image.{ImageSays, OverImage, EndsWithImage, UnreadEnds, UnwrittenEnds, image_status, image_words};

use crate::call::{mdjournal_call, refuse};
use crate::image_file::{Unread, read_store, write_store};
use crate::read::ReadRefusal;
use crate::say::{Unsaid, say_image_refusal};
use crate::status::Status;
use mj_base::{Files, Sink};
use mj_image::ImageRefusal;
use mj_memstore::MemStore;
use std::alloc::Global;

/// Calls `mdjournal_call` with the words behind the first over the store of the image file that the first one names: an empty
/// store where there is no such file. What the call leaves is written back, whatever it answered.
pub fn mdjournal_image_call<F: Files, K: Sink>(
    alloc: Global,
    words: &[String],
    files: &mut F,
    out: &mut K,
) -> u8
    ensures { ImageSays words.now (files_state F.told F.faults files.old) (files_state F.told F.faults files.new) (sink_state K.taken K.faults out.old) (sink_state K.taken K.faults out.new) result }
{
    match image_words(words) {
        Some((name, inner)) => over_image(alloc, name, inner, files, out),
        None => refuse(alloc, ReadRefusal::Words, out).code(),
    }
}

// The name of the image, and the words behind it.
fn image_words(words: &[String]) -> Option<(&str, &[String])>
    ensures { option_map (λ x. (x.0.now, x.1.now)) result ≡ image_words words.now }
{
    match words {
        [name, inner @ ..] => Some((name.as_str(), inner)),
        [] => None,
    }
}

fn over_image<F: Files, K: Sink>(
    alloc: Global,
    name: &str,
    inner: &[String],
    files: &mut F,
    out: &mut K,
) -> u8
    ensures { OverImage name.now inner.now (files_state F.told F.faults files.old) (files_state F.told F.faults files.new) (sink_state K.taken K.faults out.old) (sink_state K.taken K.faults out.new) result }
{
    match read_store(alloc, name, files) {
        Ok(store) => {
            let (code, store) = mdjournal_call(alloc, inner, files, store, out);
            write_back(alloc, name, &store, code, files, out)
        }
        Err(unread) => tell_unread(alloc, unread, out).code(),
    }
}

// Writes the store that a call left to the image file. The code is that of all.
fn write_back<F: Files, K: Sink>(
    alloc: Global,
    name: &str,
    store: &MemStore,
    code: u8,
    files: &mut F,
    out: &mut K,
) -> u8
    ensures ends { EndsWithImage name.now (files_state F.told F.faults files.old) (files_state F.told F.faults files.new) store.now code (sink_state K.taken K.faults out.old) (sink_state K.taken K.faults out.new) result }
    ensures later { F.faults files.old ≤ F.faults files.new }
{
    match write_store(alloc, name, store, files) {
        Ok(()) => code,
        Err(refusal) => tell_unwritten(alloc, refusal, code, out),
    }
}

// Prints why there is no store.
fn tell_unread<K: Sink>(alloc: Global, unread: Unread, out: &mut K) -> Status
    ensures { UnreadEnds unread (sink_state K.taken K.faults out.old) (sink_state K.taken K.faults out.new) result }
{
    match unread {
        Unread::File(refusal) => refuse(alloc, refusal, out),
        Unread::Image(refusal) => match say_image_refusal(alloc, refusal, out) {
            Ok(()) => image_status(refusal),
            Err(Unsaid::Sink) => image_status(refusal),
            Err(Unsaid::Memory) => Status::Memory,
        },
    }
}

fn image_status(refusal: ImageRefusal) -> Status
    ensures { result ≡ image_status refusal }
{
    match refusal {
        ImageRefusal::Memory => Status::Memory,
        _ => Status::Damage,
    }
}

// Where the call answered 0, prints why the image was not written. Another code stays.
fn tell_unwritten<K: Sink>(alloc: Global, refusal: ReadRefusal, code: u8, out: &mut K) -> u8
    ensures { UnwrittenEnds refusal code (sink_state K.taken K.faults out.old) (sink_state K.taken K.faults out.new) result }
{
    if code == 0 {
        refuse(alloc, refusal, out).code()
    } else {
        code
    }
}
