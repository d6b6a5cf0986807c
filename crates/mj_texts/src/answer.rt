//! What the lines of a script are answered with.

ghost use Rattle.std.specs.Prelude.{◌≡◌, ◌++◌, ◌∷◌, [], OnOk};
ghost use Rattle.mj_tree.specs.Listing.{line};
ghost use Rattle.mj_texts.specs.AnswerText.{answer_text, turn_text, flushed_words, reaped_words, applied_words};

use crate::damage::append_damage;
use crate::reply::append_early;
use crate::steps::{Early, Reaped, Span};
use crate::text::{Word, append_line, append_number, append_numbers};
use mj_base::{Damage, Items, ObjectName, OpNo};
use std::alloc::AllocError;

/// What a line of a script is answered with.
#[derive(Drop)]
pub enum Answer {
    Asked(Early),
    Flushed(Span),
    /// The operation that the store tried on this object, if it tried one.
    Applied(ObjectName, Option<OpNo>),
    Reaped(Reaped),
    /// A rank serves, with this epoch, and with the tail that the journal had.
    Mounted { epoch: u64, tail: u64 },
    /// The acknowledgement of this operation did not come.
    WaitingFor(OpNo),
    Restarted,
    /// The tree of all requests that were accepted.
    Tree(Items<u8>),
    /// The same with the next inode and the sessions.
    State(Items<u8>),
    /// No rank serves.
    Stopped,
    /// A rank serves or mounts already.
    AlreadyMounted,
    LogFull(u64),
    MountSpent(u64),
    PositionSpent(u64),
    Damaged(Damage),
    /// The store failed, and has now failed this often.
    StoreFault(u64),
}

/// Appends the text of the answer to the line with this number.
pub fn append_turn(number: u64, answer: &Answer, out: &mut Vec<u8>) -> Result<(), AllocError>
    ensures { OnOk result (out.new.items ≡ out.old.items ++ turn_text number answer.now) }
{
    append_number(number, out)?;
    out.extend_from_slice(b": ")?;
    append_answer(answer, out)?;
    Ok(())
}

fn append_answer(answer: &Answer, out: &mut Vec<u8>) -> Result<(), AllocError>
    ensures { OnOk result (out.new.items ≡ out.old.items ++ answer_text answer.now) }
{
    match answer {
        Answer::Asked(early) => append_early(early, out),
        Answer::Flushed(span) => append_flushed(*span, out),
        Answer::Applied(name, op) => append_applied(name, *op, out),
        Answer::Reaped(reaped) => append_reaped(*reaped, out),
        Answer::Mounted { epoch, tail } => { append_numbers("mounted", &[*epoch, *tail], out) }
        Answer::WaitingFor(op) => append_numbers("waiting", &[op.0], out),
        Answer::Restarted => append_numbers("restarted", &[], out),
        Answer::Tree(text) => append_listing("tree", text, out),
        Answer::State(text) => append_listing("state", text, out),
        Answer::Stopped => append_numbers("stopped", &[], out),
        Answer::AlreadyMounted => append_numbers("mounted", &[], out),
        Answer::LogFull(bytes) => append_numbers("logfull", &[*bytes], out),
        Answer::MountSpent(n) => append_numbers("mountspent", &[*n], out),
        Answer::PositionSpent(p) => append_numbers("positionspent", &[*p], out),
        Answer::Damaged(damage) => append_damage(damage, out),
        Answer::StoreFault(n) => append_numbers("store", &[*n], out),
    }
}

fn append_flushed(span: Span, out: &mut Vec<u8>) -> Result<(), AllocError>
    ensures { OnOk result (out.new.items ≡ out.old.items ++ line (flushed_words span)) }
{
    if span.from == span.to {
        append_line(&[Word::Text("wrote"), Word::Text("nothing")], out)
    } else {
        append_numbers("wrote", &[span.from, span.to], out)
    }
}

fn append_applied(name: &ObjectName, op: Option<OpNo>, out: &mut Vec<u8>) -> Result<(), AllocError>
    ensures { OnOk result (out.new.items ≡ out.old.items ++ line (applied_words name.now op)) }
{
    match op {
        Some(op) => append_line(
            &[
                Word::Text("applied"),
                Word::Object(*name),
                Word::Number(op.0),
            ],
            out,
        ),
        None => append_line(&[Word::Text("idle"), Word::Object(*name)], out),
    }
}

fn append_reaped(reaped: Reaped, out: &mut Vec<u8>) -> Result<(), AllocError>
    ensures { OnOk result (out.new.items ≡ out.old.items ++ line (reaped_words reaped)) }
{
    match reaped {
        Reaped::One {
            op,
            safe_from,
            safe_to,
        } => append_line(
            &[
                Word::Text("reaped"),
                Word::Number(op.0),
                Word::Text("safe"),
                Word::Number(safe_from),
                Word::Number(safe_to),
            ],
            out,
        ),
        Reaped::Nothing => append_line(&[Word::Text("reaped"), Word::Text("nothing")], out),
    }
}

fn append_listing(word: &str, text: &Items<u8>, out: &mut Vec<u8>) -> Result<(), AllocError>
    ensures { OnOk result (out.new.items ≡ out.old.items ++ (line (word.now ∷ []) ++ text.now)) }
{
    append_line(&[Word::Text(word)], out)?;
    out.extend_from_slice(text.as_slice())?;
    Ok(())
}
