//! Reading a blob from a place in bytes.

ghost use Rattle.std.specs.Prelude.{◌≡◌, ◌≤◌, Ok, IfOk, IfErr, drop, length};
ghost use Rattle.mj_base.specs.Cursor.{Faults};
ghost use Rattle.mj_meta.specs.Blob.{IsBlob};
ghost use Rattle.mj_meta.specs.BlobReading.{blob_at, blob_in};
ghost use Rattle.mj_meta.specs.BlobRefused.{IsBlobRefusal};

use crate::MetaBlob;
use crate::lump::blob_field;
use mj_base::{Cursor, Fault};
use std::alloc::Global;

/// Why there is no blob.
#[derive(Clone, Copy, Debug, PartialEq, Eq)]
pub enum BlobRefusal {
    /// The offset of the first field that is outside the grammar, or at which the bytes end.
    BlobBad(u64),
    /// There was no memory.
    Memory,
}

/// Reads the blob that begins at offset `from`, with the offset behind it. Offsets, also a refusal's,
/// are from the start of `bytes`; a blob that begins past the end is refused at the end.
pub fn blob_read(alloc: Global, bytes: &[u8], from: usize) -> Result<(MetaBlob, usize), BlobRefusal>
    ensures read { IfOk result (λ x. blob_in bytes.now from ≡ Ok x) }
    ensures refused { IfErr result (λ why. IsBlobRefusal why (blob_in bytes.now from)) }
    ensures fits { IfOk result (λ x. IsBlob x.0) }
{
    let mut cursor = Cursor::new(from_offset(bytes, from));
    match blob_field(alloc, &mut cursor) {
        Ok(blob) => Ok((blob, bytes.len() - cursor.left())),
        Err(Fault::Left(left)) => Err(BlobRefusal::BlobBad((bytes.len() - left) as u64)),
        Err(Fault::Memory) => Err(BlobRefusal::Memory),
    }
}

fn from_offset(bytes: &[u8], from: usize) -> &[u8]
    ensures rest { result.now ≡ drop from bytes.now }
    ensures within { length result.now ≤ length bytes.now }
{
    if from < bytes.len() {
        &bytes[from..]
    } else {
        &[]
    }
}
