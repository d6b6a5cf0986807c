//! Scripts.

ghost use Rattle.std.specs.Prelude.{◌≡◌, All, IfOk, IfErr, Ok};
ghost use Rattle.mj_texts.specs.Line.{IsServed};
ghost use Rattle.mj_texts.specs.Script.{script_of, IsScriptRefusal};

use crate::line::{Line, read_line};
use crate::words::cut_at;
use std::alloc::{AllocError, AllocFailed, Global};

/// Why bytes are no script.
#[derive(Clone, Copy, Debug, PartialEq, Eq)]
pub enum ScriptRefusal {
    /// The line with this number, from 1, is the first outside the grammar.
    BadLine(u64),
    Memory,
}

impl From<AllocError> for ScriptRefusal {
    ghost use Rattle.std.specs.Prelude.{◌≡◌};
    ghost use Rattle.mj_texts.specs.declared.script.ScriptRefusal.TheVariants.{Memory};

    ghost from_gives = { λ _ e. e ≡ Memory };

    fn from(_e: AllocError) -> ScriptRefusal {
        ScriptRefusal::Memory
    }
}

impl<T: Drop> From<AllocFailed<T>> for ScriptRefusal {
    ghost use Rattle.std.specs.Prelude.{◌≡◌};
    ghost use Rattle.mj_texts.specs.declared.script.ScriptRefusal.TheVariants.{Memory};

    ghost from_gives = { λ _ e. e ≡ Memory };

    fn from(_e: AllocFailed<T>) -> ScriptRefusal {
        ScriptRefusal::Memory
    }
}

/// The lines of a script, each ended by a line feed.
pub fn read_script(alloc: Global, bytes: &[u8]) -> Result<Vec<Line>, ScriptRefusal>
    ensures served { IfOk result (λ lines. All IsServed lines.items) }
    ensures lines { IfOk result (λ lines. script_of bytes.now ≡ Ok lines.items) }
    ensures refused { IfErr result (λ why. IsScriptRefusal why bytes.now) }
{
    let mut lines = Vec::new(alloc);
    let mut rest = bytes;
    'lines: while let Some((text, after)) = cut_at(rest, b'\n') {
        match read_line(alloc, text)? {
            Some(line) => lines.push(line)?,
            None => return Err(ScriptRefusal::BadLine(lines.len() as u64 + 1)),
        }
        rest = after;
    }
    if rest.is_empty() {
        Ok(lines)
    } else {
        Err(ScriptRefusal::BadLine(lines.len() as u64 + 1))
    }
}
