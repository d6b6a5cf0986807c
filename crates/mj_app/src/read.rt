//! The file of lines that a call is to work.

ghost use Rattle.std.specs.Prelude.{◌≡◌, ◌≤◌, All, IfOk, IfErr};
ghost use Rattle.mj_texts.specs.Line.{IsServed};
ghost use Rattle.mj_app.specs.Read.{Named, IsFileRefusal, IsScript, IsReadRefusal, IsChronicle, IsUnreadChronicle};

use mj_base::{FileRefusal, Files};
use mj_model::{ChronicleLine, ChronicleRefusal, read_chronicle};
use mj_texts::{Line, ScriptRefusal, read_script};
use std::alloc::Global;

/// Why a call does nothing.
#[derive(Clone, Copy, Debug, PartialEq, Eq)]
pub enum ReadRefusal {
    /// The words are not served.
    Words,
    FileMissing,
    /// The file has this many bytes.
    FileTooLong(u64),
    FileFault,
    /// The line with this number is the first outside the grammar.
    BadLine(u64),
    Memory,
}

/// The lines of the script in the file of this name.
pub fn read_lines<F: Files>(
    alloc: Global,
    name: &str,
    files: &mut F,
) -> Result<Vec<Line>, ReadRefusal>
    ensures lines { IfOk result (λ lines. IsScript (F.told files.old) name.now lines.items) }
    ensures served { IfOk result (λ lines. All IsServed lines.items) }
    ensures refused { IfErr result (IsReadRefusal (F.told files.old) (F.faults files.old) (F.faults files.new) name.now) }
    ensures unchanged { F.told files.new ≡ F.told files.old }
    ensures later { F.faults files.old ≤ F.faults files.new }
{
    let bytes = match read_file(alloc, name, files) {
        Ok(bytes) => bytes,
        Err(refusal) => return Err(refusal),
    };
    match read_script(alloc, &bytes) {
        Ok(lines) => Ok(lines),
        Err(ScriptRefusal::BadLine(n)) => Err(ReadRefusal::BadLine(n)),
        Err(ScriptRefusal::Memory) => Err(ReadRefusal::Memory),
    }
}

/// The lines of the chronicle in the file of this name.
pub fn read_chronicle_lines<F: Files>(
    alloc: Global,
    name: &str,
    files: &mut F,
) -> Result<Vec<ChronicleLine>, ReadRefusal>
    ensures lines { IfOk result (λ lines. IsChronicle (F.told files.old) name.now lines.items) }
    ensures refused { IfErr result (IsUnreadChronicle (F.told files.old) (F.faults files.old) (F.faults files.new) name.now) }
    ensures unchanged { F.told files.new ≡ F.told files.old }
    ensures later { F.faults files.old ≤ F.faults files.new }
{
    let bytes = match read_file(alloc, name, files) {
        Ok(bytes) => bytes,
        Err(refusal) => return Err(refusal),
    };
    match read_chronicle(alloc, &bytes) {
        Ok(lines) => Ok(lines),
        Err(ChronicleRefusal::BadLine(n)) => Err(ReadRefusal::BadLine(n)),
        Err(ChronicleRefusal::Memory) => Err(ReadRefusal::Memory),
    }
}

fn read_file<F: Files>(alloc: Global, name: &str, files: &mut F) -> Result<Vec<u8>, ReadRefusal>
    ensures named { IfOk result (λ bytes. Named (F.told files.old) name.now bytes.items) }
    ensures refused { IfErr result (IsFileRefusal (F.told files.old) (F.faults files.old) (F.faults files.new) name.now) }
    ensures unchanged { F.told files.new ≡ F.told files.old }
    ensures later { F.faults files.old ≤ F.faults files.new }
{
    match files.read(alloc, name) {
        Ok(bytes) => Ok(bytes),
        Err(FileRefusal::Missing) => Err(ReadRefusal::FileMissing),
        Err(FileRefusal::TooLong(n)) => Err(ReadRefusal::FileTooLong(n)),
        Err(FileRefusal::Failed) => Err(ReadRefusal::FileFault),
        Err(FileRefusal::Memory) => Err(ReadRefusal::Memory),
    }
}
