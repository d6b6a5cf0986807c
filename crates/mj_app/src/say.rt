//! What a call prints.

ghost use Rattle.std.specs.Prelude.{◌≡◌, ◌++◌, ◌∷◌, [], ◌≤◌, IsErrOf, OnOk};
ghost use Rattle.mj_texts.specs.AnswerText.{turn_text};
ghost use Rattle.mj_texts.specs.Text.{numbered};
ghost use Rattle.mj_model.specs.Took.{sink_state};
ghost use Rattle.mj_app.specs.Say.{refusal_text, image_text, formatted_text, unformatted_text, Prints, HasFixedText};

use crate::read::ReadRefusal;
use mj_base::{RankNo, Sink, put_all};
use mj_format::FormatRefusal;
use mj_image::ImageRefusal;
use mj_layout::Layout;
use mj_texts::{Answer, append_numbers, append_turn};
use std::alloc::Global;

/// Room for the line of a request that is answered, which needs no more but where names are listed.
const LINE: usize = 64;

/// Why a text was not printed whole.
#[derive(Clone, Copy, Debug, PartialEq, Eq)]
pub enum Unsaid {
    Memory,
    /// The sink failed.
    Sink,
}

/// Prints the answer to the line with this number.
pub fn say_turn<K: Sink>(
    alloc: Global,
    number: u64,
    answer: &Answer,
    out: &mut K,
) -> Result<(), Unsaid>
    ensures said { Prints (turn_text number answer.now) (sink_state K.taken K.faults out.old) (sink_state K.taken K.faults out.new) result }
    ensures later { K.faults out.old ≤ K.faults out.new }
{
    let Ok(mut text) = Vec::with_capacity(alloc, LINE) else {
        return Err(Unsaid::Memory);
    };
    match append_turn(number, answer, &mut text) {
        Ok(()) => put_text(&text, out),
        Err(_) => Err(Unsaid::Memory),
    }
}

/// Prints why a call does nothing.
pub fn say_refusal<K: Sink>(alloc: Global, refusal: ReadRefusal, out: &mut K) -> Result<(), Unsaid>
    ensures said { Prints (refusal_text refusal) (sink_state K.taken K.faults out.old) (sink_state K.taken K.faults out.new) result }
    ensures fixed { HasFixedText refusal → IsErrOf result Unsaid.Memory → ⊥ }
    ensures later { K.faults out.old ≤ K.faults out.new }
{
    match refusal {
        ReadRefusal::Words => put_text(b"words refused\n", out),
        ReadRefusal::FileMissing => put_text(b"file missing\n", out),
        ReadRefusal::FileTooLong(n) => say_number(alloc, "file toolong", n, out),
        ReadRefusal::FileFault => put_text(b"file fault\n", out),
        ReadRefusal::BadLine(n) => say_number(alloc, "line", n, out),
        ReadRefusal::Memory => put_text(b"", out),
    }
}

/// Prints why an image is none.
pub fn say_image_refusal<K: Sink>(
    alloc: Global,
    refusal: ImageRefusal,
    out: &mut K,
) -> Result<(), Unsaid>
    ensures { Prints (image_text refusal) (sink_state K.taken K.faults out.old) (sink_state K.taken K.faults out.new) result }
{
    match refusal {
        ImageRefusal::BadMagic => say_number(alloc, "image BadMagic", 0, out),
        ImageRefusal::TooLarge(n) => say_number(alloc, "image TooLarge", n, out),
        ImageRefusal::Truncated(at) => say_number(alloc, "image Truncated", at, out),
        ImageRefusal::BadName(at) => say_number(alloc, "image BadName", at, out),
        ImageRefusal::BadOrder(at) => say_number(alloc, "image BadOrder", at, out),
        ImageRefusal::BadFlag(at) => say_number(alloc, "image BadFlag", at, out),
        ImageRefusal::Trailing(at) => say_number(alloc, "image Trailing", at, out),
        ImageRefusal::Memory => put_text(b"", out),
    }
}

/// Prints that a store was formatted: the rank and the first position of its stream.
pub fn say_formatted<K: Sink>(
    alloc: Global,
    rank: RankNo,
    layout: Layout,
    out: &mut K,
) -> Result<(), Unsaid>
    ensures { Prints (formatted_text rank layout) (sink_state K.taken K.faults out.old) (sink_state K.taken K.faults out.new) result }
{
    let numbers = [u64::from(rank.number()), layout.period()];
    let mut text = Vec::new(alloc);
    match append_numbers("formatted", &numbers, &mut text) {
        Ok(()) => put_text(&text, out),
        Err(_) => Err(Unsaid::Memory),
    }
}

/// Prints why a store was not formatted.
pub fn say_unformatted<K: Sink>(
    alloc: Global,
    refusal: &FormatRefusal,
    out: &mut K,
) -> Result<(), Unsaid>
    ensures { Prints (unformatted_text refusal.now) (sink_state K.taken K.faults out.old) (sink_state K.taken K.faults out.new) result }
{
    match refusal {
        FormatRefusal::Formatted => put_text(b"refused formatted\n", out),
        FormatRefusal::Store(fault) => say_number(alloc, "store", fault.faults, out),
        FormatRefusal::Waiting(op) => say_number(alloc, "waiting", op.0, out),
        FormatRefusal::Memory => put_text(b"", out),
    }
}

fn say_number<K: Sink>(alloc: Global, word: &str, number: u64, out: &mut K) -> Result<(), Unsaid>
    ensures said { Prints (numbered word.now (number ∷ [])) (sink_state K.taken K.faults out.old) (sink_state K.taken K.faults out.new) result }
    ensures later { K.faults out.old ≤ K.faults out.new }
{
    let mut text = Vec::new(alloc);
    match append_numbers(word, &[number], &mut text) {
        Ok(()) => put_text(&text, out),
        Err(_) => Err(Unsaid::Memory),
    }
}

fn put_text<K: Sink>(text: &[u8], out: &mut K) -> Result<(), Unsaid>
    ensures said { Prints text.now (sink_state K.taken K.faults out.old) (sink_state K.taken K.faults out.new) result }
    ensures no_memory { IsErrOf result Unsaid.Memory → ⊥ }
    ensures later { K.faults out.old ≤ K.faults out.new }
{
    match put_all(out, text) {
        Ok(()) => Ok(()),
        Err(_) => Err(Unsaid::Sink),
    }
}
