//! The image file of a call.

ghost use Rattle.std.specs.Prelude.{◌≡◌, ◌≤◌, IfOk, IfErr, OnOk};
ghost use Rattle.mj_app.specs.Call.{files_state};
ghost use Rattle.mj_app.specs.ImageFile.{IsRead, IsUnread, IsWritten, IsUnwritten};

use crate::read::ReadRefusal;
use mj_base::{FileRefusal, Files};
use mj_image::{ImageRefusal, ImageWriteRefusal, image_read, image_write};
use mj_memstore::MemStore;
use std::alloc::Global;

/// Why there is no store to begin with.
#[derive(Clone, Copy, Debug, PartialEq, Eq)]
pub enum Unread {
    /// The file can't be had.
    File(ReadRefusal),
    /// What it holds is no image.
    Image(ImageRefusal),
}

/// The store of the image file of this name: an empty one where there is no such file.
pub fn read_store<F: Files>(alloc: Global, name: &str, files: &mut F) -> Result<MemStore, Unread>
    ensures read { IfOk result (IsRead (F.told files.old) name.now) }
    ensures refused { IfErr result (IsUnread (files_state F.told F.faults files.old) (files_state F.told F.faults files.new) name.now) }
    ensures unwritten { F.told files.new ≡ F.told files.old }
    ensures later { F.faults files.old ≤ F.faults files.new }
{
    let bytes = match files.read(alloc, name) {
        Ok(bytes) => bytes,
        Err(FileRefusal::Missing) => return Ok(MemStore::new(alloc)),
        Err(FileRefusal::TooLong(n)) => return Err(Unread::File(ReadRefusal::FileTooLong(n))),
        Err(FileRefusal::Failed) => return Err(Unread::File(ReadRefusal::FileFault)),
        Err(FileRefusal::Memory) => return Err(Unread::File(ReadRefusal::Memory)),
    };
    match image_read(alloc, &bytes) {
        Ok(store) => Ok(store),
        Err(refusal) => Err(Unread::Image(refusal)),
    }
}

/// Writes the image of a store's applied contents to the file of this name.
pub fn write_store<F: Files>(
    alloc: Global,
    name: &str,
    store: &MemStore,
    files: &mut F,
) -> Result<(), ReadRefusal>
    ensures written { OnOk result (IsWritten (files_state F.told F.faults files.old) (files_state F.told F.faults files.new) name.now store.now) }
    ensures unwritten { IfErr result (IsUnwritten (files_state F.told F.faults files.old) (files_state F.told F.faults files.new) store.now) }
    ensures later { F.faults files.old ≤ F.faults files.new }
{
    let bytes = match image_write(alloc, store) {
        Ok(bytes) => bytes,
        Err(ImageWriteRefusal::TooLong(n)) => return Err(ReadRefusal::FileTooLong(n)),
        Err(ImageWriteRefusal::Memory) => return Err(ReadRefusal::Memory),
    };
    match files.write(alloc, name, &bytes) {
        Ok(()) => Ok(()),
        Err(FileRefusal::Memory) => Err(ReadRefusal::Memory),
        Err(_) => Err(ReadRefusal::FileFault),
    }
}
