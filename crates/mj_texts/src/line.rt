//! The lines of a script.

ghost use Rattle.std.specs.Prelude.{◌≡◌, IfOk, IfSome};
ghost use Rattle.mj_texts.specs.Line.{line_of};
ghost use Rattle.mj_texts.specs.Line.{of_words, is_blank, ask_of, step_of, IsServed};

use crate::request::read_request;
use crate::steps::Step;
use crate::words::{Words, is_all_ascii, is_word, last};
use std::alloc::{AllocError, Global};

/// A line of a script.
#[derive(Drop)]
pub enum Line {
    /// An empty line or a comment, which does nothing.
    Blank,
    /// One step of the world.
    One(Step),
    /// All steps of a mount.
    Mount,
}

/// The line that a text spells: none where it is outside the grammar.
pub fn read_line(alloc: Global, text: &[u8]) -> Result<Option<Line>, AllocError>
    ensures line { IfOk result (λ line. line ≡ line_of text.now) }
    ensures served { IfOk result (λ line. IfSome line IsServed) }
{
    if !is_all_ascii(text) {
        return Ok(None);
    }
    if is_blank(text) {
        return Ok(Some(Line::Blank));
    }
    read_words(alloc, Words::of(text))
}

fn is_blank(text: &[u8]) -> bool
    ensures { result ≡ is_blank text.now }
{
    match text {
        [] => true,
        [first, ..] => *first == b'#',
    }
}

fn read_words(alloc: Global, mut words: Words) -> Result<Option<Line>, AllocError>
    ensures line { IfOk result (λ line. line ≡ of_words words.entry) }
    ensures served { IfOk result (λ line. IfSome line IsServed) }
{
    let Some(word) = words.next() else {
        return Ok(None);
    };
    if is_word(word, "req") {
        return read_ask(alloc, &mut words);
    }
    if is_word(word, "mount") {
        return Ok(last(Line::Mount, &words));
    }
    if is_word(word, "restart") {
        return Ok(last(Line::One(Step::Restart), &words));
    }
    if is_word(word, "flush") {
        return Ok(last(Line::One(Step::Flush), &words));
    }
    if is_word(word, "step") {
        return Ok(read_step(&mut words));
    }
    if is_word(word, "reap") {
        return Ok(last(Line::One(Step::Reap), &words));
    }
    if is_word(word, "tree") {
        return Ok(last(Line::One(Step::Tree), &words));
    }
    if is_word(word, "state") {
        return Ok(last(Line::One(Step::State), &words));
    }
    Ok(None)
}

fn read_ask(alloc: Global, words: &mut Words) -> Result<Option<Line>, AllocError>
    ensures line { IfOk result (λ line. line ≡ ask_of words.old) }
    ensures served { IfOk result (λ line. IfSome line IsServed) }
{
    match read_request(alloc, words)? {
        Some(request) => Ok(last(Line::One(Step::Ask(request)), words)),
        None => Ok(None),
    }
}

fn read_step(words: &mut Words) -> Option<Line>
    ensures line { result ≡ step_of words.old }
    ensures served { IfSome result IsServed }
{
    let name = words.object()?;
    last(Line::One(Step::Apply(name)), words)
}
