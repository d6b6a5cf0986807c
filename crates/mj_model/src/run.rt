//! What the plain tree says to the lines of a chronicle.

ghost use Rattle.std.specs.Prelude.{◌≡◌, ◌++◌, ◌∷◌, [], ◌≤◌, IfOk, codes};
ghost use Rattle.std.specs.Fmt.{decimal};
ghost use Rattle.mj_tree.specs.State.{new_state};
ghost use Rattle.mj_tree.specs.Meaning.{state_of};
ghost use Rattle.mj_texts.specs.Text.{reply_text};
ghost use Rattle.mj_model.specs.Took.{sink_state};
ghost use Rattle.mj_model.specs.Model.{is_other, difference, LineSays, ModelSays};

use crate::chronicle::ChronicleLine;
use mj_base::{Items, RankNo, Sink, put_all};
use mj_texts::{append_number, append_reply};
use mj_tree::{ClientRequest, PlainTree, Reply};
use std::alloc::{AllocError, Global};

/// Why the lines were not all answered.
#[derive(Clone, Copy, Debug, PartialEq, Eq)]
pub enum ModelEnd {
    /// A reply that was given is another than the plain tree's.
    Differs,
    Memory,
    Sink,
}

/// Answers the requests of a chronicle one after another by the plain tree of a new rank, and prints the replies, up to the first
/// that differs from the one that was given.
pub fn model<K: Sink>(
    alloc: Global,
    rank: RankNo,
    lines: &[ChronicleLine],
    out: &mut K,
) -> Result<(), ModelEnd>
    ensures says { ModelSays (new_state rank) lines.now (sink_state K.taken K.faults out.old) (sink_state K.taken K.faults out.new) result }
    ensures later { K.faults out.old ≤ K.faults out.new }
{
    let mut tree = PlainTree::new(alloc, rank);
    for (i, line) in lines.iter().enumerate() {
        match answer_line(alloc, &mut tree, i as u64 + 1, line, out) {
            Ok(()) => {}
            Err(end) => return Err(end),
        }
    }
    Ok(())
}

fn answer_line<K: Sink>(
    alloc: Global,
    tree: &mut PlainTree,
    number: u64,
    line: &ChronicleLine,
    out: &mut K,
) -> Result<(), ModelEnd>
    ensures says { LineSays number line.now (state_of tree.old) (state_of tree.new) (sink_state K.taken K.faults out.old) (sink_state K.taken K.faults out.new) result }
    ensures later { K.faults out.old ≤ K.faults out.new }
{
    match line {
        ChronicleLine::Skipped => Ok(()),
        ChronicleLine::Asked { request, given } => {
            answer_request(alloc, tree, number, request, given, out)
        }
    }
}

fn answer_request<K: Sink>(
    alloc: Global,
    tree: &mut PlainTree,
    number: u64,
    request: &ClientRequest,
    given: &Option<Items<u8>>,
    out: &mut K,
) -> Result<(), ModelEnd>
    ensures says { LineSays number (ChronicleLine.Asked request.entry.now given.now) (state_of tree.old) (state_of tree.new) (sink_state K.taken K.faults out.old) (sink_state K.taken K.faults out.new) result }
    ensures later { K.faults out.old ≤ K.faults out.new }
{
    let Ok(reply) = tree.apply(alloc, request) else {
        return Err(ModelEnd::Memory);
    };
    let Ok((text, differs)) = reply_line(alloc, number, &reply, given) else {
        return Err(ModelEnd::Memory);
    };
    match put_all(out, &text) {
        _ if differs => Err(ModelEnd::Differs),
        Ok(()) => Ok(()),
        Err(_) => Err(ModelEnd::Sink),
    }
}

// The line of a reply, and whether another was given.
fn reply_line(
    alloc: Global,
    number: u64,
    reply: &Reply,
    given: &Option<Items<u8>>,
) -> Result<(Vec<u8>, bool), AllocError>
    ensures { IfOk result (λ x. (x.1 ≡ is_other given.now (reply_text reply.now)) × (x.0.items ≡ decimal number ++ codes ": " ++ difference (is_other given.now (reply_text reply.now)) ++ reply_text reply.now ++ 10 ∷ [])) }
{
    let mut text = Vec::new(alloc);
    append_reply(reply, &mut text)?;
    let differs = is_other(given, &text);
    let mut line = Vec::new(alloc);
    append_number(number, &mut line)?;
    line.extend_from_slice(b": ")?;
    if differs {
        line.extend_from_slice(b"differs ")?;
    }
    line.extend_from_slice(&text)?;
    line.push(b'\n')?;
    Ok((line, differs))
}

fn is_other(given: &Option<Items<u8>>, text: &[u8]) -> bool
    ensures { result ≡ is_other given.now text.now }
{
    match given {
        Some(given) => given.as_slice() != text,
        None => false,
    }
}
