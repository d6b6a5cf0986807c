//! The two directions of requests and lines: each has its spellings, and is read from nothing else.

ghost use Rattle.std.specs.Prelude.{◌≡◌, ◌++◌, ℕ, List, Some, true};
ghost use Rattle.mj_tree.specs.Request.{IsRequest};
ghost use Rattle.mj_tree.specs.declared.request.ClientRequest.{ClientRequest};
ghost use Rattle.mj_texts.specs.Line.{line_of};
ghost use Rattle.mj_texts.specs.LineSpelling.{IsSpelling, InRange};
ghost use Rattle.mj_texts.specs.Request.{request_of};
ghost use Rattle.mj_texts.specs.Spelling.{SpellsRequest, RequestInRange, are_plain_words};
ghost use Rattle.mj_texts.specs.declared.line.Line.{Line};

use mj_base::{escapes_are_read_again, paths_are_read_again};

/// Words that begin with a request begin with one of its spellings and keep its limits, and each of its spellings stands for it,
/// whatever follows.
pub fn requests_are_read_from_their_spellings()
    ensures takes { (ws : List (List ℕ)) (x : ClientRequest × List (List ℕ)) → request_of ws ≡ Some x
        → ((rws : List (List ℕ)) × SpellsRequest x.0 rws × (ws ≡ rws ++ x.1)) × IsRequest x.0 }
    ensures again { (r : ClientRequest) (ws rest : List (List ℕ)) → RequestInRange r → SpellsRequest r ws
        → (request_of (ws ++ rest) ≡ Some (r, rest)) × (are_plain_words ws ≡ true) }
{
    // Of paths and of escapes the law is that of their readers.
    paths_are_read_again();
    escapes_are_read_again();
}

/// A text that stands for a line is one of its spellings, and each of its spellings stands for it.
pub fn lines_are_read_from_their_spellings()
    ensures takes { (text : List ℕ) (l : Line) → line_of text ≡ Some l → IsSpelling text l }
    ensures again { (text : List ℕ) (l : Line) → InRange l → IsSpelling text l → line_of text ≡ Some l }
{
    // Of requests the law is that of their reader.
    requests_are_read_from_their_spellings();
}
