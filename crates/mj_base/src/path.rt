//! Paths.

ghost use Rattle.std.specs.Prelude.{◌≡◌, ◌++◌, IsTrue, IfOk, IfErr, OnOk, OnErr, Ok, take, vec_len};
ghost use Rattle.mj_base.specs.Name.{is_path, path_text};
ghost use Rattle.mj_base.specs.PathText.{names_of, refusal_at, IsPathRefusal};

use crate::cursor::or_take_back;
use crate::escapes::{EscapeRefusal, escape, unescape};
use crate::limits::MAX_PATH;
use crate::name::{Name, NameRefusal};
use std::alloc::{AllocError, AllocFailed, Global};
use std::marker::Model;

/// The names from the root on, at most 64.
#[derive(Drop)]
pub struct Path {
    names: Vec<Name>,
}

impl Model for Path {
    ghost use Rattle.std.specs.Prelude.{ℕ, List, IsTrue};

    ghost Value = { List (List ℕ) };

    ghost use Rattle.mj_base.specs.Name.{is_path};

    ghost view = { λ a. a.names.items };

    ghost invariant = { λ a. IsTrue (is_path a.names.items) };
}

/// Why a text is no path.
#[derive(Clone, Copy, Debug, PartialEq, Eq)]
pub enum PathRefusal {
    /// The text does not begin with `/`.
    NoSlash,
    /// What begins here is neither a byte that stands for itself nor an escape of one that does not.
    BadEscape(u64),
    /// The name with this number, from 0, is none.
    BadName(u64, NameRefusal),
    /// There are this many names, more than 64.
    TooDeep(u64),
    /// There was no memory.
    Memory,
}

impl From<AllocError> for PathRefusal {
    ghost use Rattle.std.specs.Prelude.{◌≡◌};
    ghost use Rattle.mj_base.specs.declared.path.PathRefusal.TheVariants.{Memory};

    ghost from_gives = { λ _ e. e ≡ Memory };

    fn from(_e: AllocError) -> PathRefusal {
        PathRefusal::Memory
    }
}

impl<T: Drop> From<AllocFailed<T>> for PathRefusal {
    ghost use Rattle.std.specs.Prelude.{◌≡◌};
    ghost use Rattle.mj_base.specs.declared.path.PathRefusal.TheVariants.{Memory};

    ghost from_gives = { λ _ e. e ≡ Memory };

    fn from(_e: AllocFailed<T>) -> PathRefusal {
        PathRefusal::Memory
    }
}

impl Path {
    ghost use Rattle.mj_base.specs.Name.{path_text};
    ghost use Rattle.mj_base.specs.PathText.{path_of, IsPathRefusal};

    /// The path of a text. A bad escape is judged before any name, and the names before their number.
    pub fn read(alloc: Global, text: &[u8]) -> Result<Path, PathRefusal>
        ensures path { IfOk result (λ path. path_of text.now ≡ Ok path) }
        ensures refused { IfErr result (λ why. IsPathRefusal why (path_of text.now)) }
    {
        let [b'/', rest @ ..] = text else {
            return Err(PathRefusal::NoSlash);
        };
        match unescape(alloc, rest) {
            Ok(bytes) => Ok(Path {
                names: names_of(alloc, &bytes)?,
            }),
            Err(EscapeRefusal::BadEscape(at)) => Err(PathRefusal::BadEscape(at + 1)),
            Err(EscapeRefusal::Memory) => Err(PathRefusal::Memory),
        }
    }

    /// Appends the text of the path. After an error the buffer is as before.
    pub fn append_text(&self, out: &mut Vec<u8>) -> Result<(), AllocError>
        ensures ok { OnOk result (out.new.items ≡ out.old.items ++ path_text self.now) }
        ensures err { OnErr result (out.new.items ≡ out.old.items) }
    {
        let before = out.len();
        let done = append_names(&self.names, out);
        or_take_back(done, before, out)
    }

    /// The same path again.
    pub fn copy(&self, alloc: Global) -> Result<Path, AllocError>
        ensures { IfOk result (λ path. path ≡ self.now) }
    {
        let mut names = Vec::with_capacity(alloc, self.names.len())?;
        for name in &self.names {
            names.push(name.copy(alloc)?)?;
        }
        Ok(Path { names })
    }

    /// The names, from the root on.
    pub fn names(&self) -> &[Name]
        ensures { result.now ≡ self.now }
    {
        &self.names
    }
}

/// The names that the bytes behind the first slash stand for.
fn names_of(alloc: Global, bytes: &[u8]) -> Result<Vec<Name>, PathRefusal>
    ensures names { IfOk result (λ names. names_of bytes.now ≡ Ok names.items) }
    ensures is_path { IfOk result (λ names. IsTrue (is_path names.items)) }
    ensures refused { IfErr result (λ why. IsPathRefusal why (names_of bytes.now)) }
{
    let mut names = Vec::new(alloc);
    if bytes.is_empty() {
        return Ok(names);
    }
    for part in bytes.split(|b| *b == b'/') {
        match Name::read(alloc, part) {
            Ok(name) => names.push(name)?,
            Err(why) => return Err(bad_name(names.len() as u64, why)),
        }
    }
    if names.len() > MAX_PATH {
        return Err(PathRefusal::TooDeep(names.len() as u64));
    }
    Ok(names)
}

/// The refusal of the name with this number.
fn bad_name(which: u64, why: NameRefusal) -> PathRefusal
    ensures { result ≡ refusal_at which why }
{
    match why {
        NameRefusal::Memory => PathRefusal::Memory,
        why => PathRefusal::BadName(which, why),
    }
}

fn append_names(names: &[Name], out: &mut Vec<u8>) -> Result<(), AllocError>
    ensures ok { OnOk result (out.new.items ≡ out.old.items ++ path_text names.now) }
    ensures err { OnErr result (take (vec_len out.old) out.new.items ≡ out.old.items) }
{
    if names.is_empty() {
        out.push(b'/')?;
        return Ok(());
    }
    for name in names {
        out.push(b'/')?;
        escape(name.as_slice(), out)?;
    }
    Ok(())
}
