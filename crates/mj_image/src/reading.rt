//! Reading an image.
ghost use Rattle.std.specs.Prelude.{◌≡◌, ◌-◌, List, [], Ok, IfOk, IfErr, length};
ghost use Rattle.mj_store.specs.declared.held.HeldObject.{HeldObject};
ghost use Rattle.mj_memstore.specs.Holding.{AreInOrder};
ghost use Rattle.mj_memstore.specs.Store.{IsNew};
ghost use Rattle.mj_image.specs.Whole.{image_of, refusal_of, IsImageRefusal};

use crate::flaw::{Flaw, Stop};
use crate::objects::read_objects;
use crate::refusal::ImageRefusal;
use mj_base::Cursor;
use mj_base::limits::{IMAGE_MAGIC, MAX_FILE_BYTES};
use mj_memstore::{HeldObject, MemStore};
use std::alloc::Global;

/// A store that holds the objects of an image, and fails no call but a submission that finds no number left.
pub fn image_read(alloc: Global, bytes: &[u8]) -> Result<MemStore, ImageRefusal>
    ensures read { IfOk result (λ store. (hs : List HeldObject) × (image_of bytes.now ≡ Ok hs) × IsNew hs [] store) }
    ensures refused { IfErr result (λ why. IsImageRefusal why (image_of bytes.now)) }
{
    let objects = objects_of(alloc, bytes)?;
    Ok(MemStore::holding(alloc, objects, &[])?)
}

#[tactic(auto, unfolding(crate::specs::Whole::image_of))]
fn objects_of(alloc: Global, bytes: &[u8]) -> Result<Vec<HeldObject>, ImageRefusal>
    ensures read { IfOk result (λ v. image_of bytes.now ≡ Ok v.items) }
    ensures refused { IfErr result (λ why. IsImageRefusal why (image_of bytes.now)) }
{
    if !bytes.starts_with(IMAGE_MAGIC) {
        return Err(ImageRefusal::BadMagic);
    }
    if bytes.len() > MAX_FILE_BYTES as usize {
        return Err(ImageRefusal::TooLarge(bytes.len() as u64));
    }
    let mut cursor = Cursor::new(&bytes[IMAGE_MAGIC.len()..]);
    match read_objects(alloc, &mut cursor) {
        Ok(objects) => {
            if cursor.is_empty() {
                Ok(objects)
            } else {
                Err(ImageRefusal::Trailing(offset(bytes, cursor.left())))
            }
        }
        Err(Stop::Memory) => Err(ImageRefusal::Memory),
        Err(Stop::At(flaw)) => Err(refused(bytes, flaw)),
    }
}

// The offset before so many bytes at the end.
fn offset(bytes: &[u8], left: usize) -> u64
    ensures { result ≡ length bytes.now - left }
{
    bytes.len().saturating_sub(left) as u64
}

fn refused(bytes: &[u8], flaw: Flaw) -> ImageRefusal
    ensures { result ≡ refusal_of (length bytes.now) flaw }
{
    match flaw {
        Flaw::Cut(left) => ImageRefusal::Truncated(offset(bytes, left)),
        Flaw::BadName(left) => ImageRefusal::BadName(offset(bytes, left)),
        Flaw::BadOrder(left) => ImageRefusal::BadOrder(offset(bytes, left)),
        Flaw::BadFlag(left) => ImageRefusal::BadFlag(offset(bytes, left)),
    }
}
