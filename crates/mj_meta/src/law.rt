//! What the two directions of blobs have in common.

ghost use Rattle.std.specs.Prelude.{◌≡◌, ◌++◌, ℕ, List, Ok};
ghost use Rattle.mj_meta.specs.declared.MetaBlob.{MetaBlob};
ghost use Rattle.mj_base.specs.Reading.{AreBytes};
ghost use Rattle.mj_meta.specs.Blob.{IsBlob, blob_bytes};
ghost use Rattle.mj_meta.specs.BlobReading.{blob_at};

/// A blob's bytes are read as that blob, whatever follows them.
pub fn blob_is_read_again()
    ensures { (b : MetaBlob) (rest : List ℕ) → IsBlob b → blob_at (blob_bytes b ++ rest) ≡ Ok (b, rest) }
{}

/// Bytes that are read as a blob are its bytes, and the blob is in the grammar.
pub fn blob_read_is_spelled()
    ensures { (bytes : List ℕ) (b : MetaBlob) (rest : List ℕ) → AreBytes bytes → blob_at bytes ≡ Ok (b, rest) → (bytes ≡ blob_bytes b ++ rest) × IsBlob b }
{}
