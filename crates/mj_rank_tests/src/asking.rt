//! Requests and replies as texts.

ghost use Rattle.std.specs.Prelude.{IfOk};
ghost use Rattle.mj_tree.specs.Request.{IsRequest};

use mj_texts::{Words, append_reply, read_request};
use mj_tree::{ClientRequest, Reply};
use std::alloc::{AllocError, Global};
use std::test::Fail;

/// The request that a line spells.
pub fn request(alloc: Global, line: &[u8]) -> Result<ClientRequest, Fail>
    ensures { IfOk result IsRequest }
{
    let mut words = Words::of(line);
    match read_request(alloc, &mut words)? {
        Some(request) => Ok(request),
        None => Err(Fail::from("a line is no request")),
    }
}

/// Whether a reply has this text.
pub fn has_text(alloc: Global, reply: &Reply, want: &str) -> Result<bool, AllocError> {
    let mut text = Vec::new(alloc);
    append_reply(reply, &mut text)?;
    Ok(text.as_slice() == want.as_bytes())
}
