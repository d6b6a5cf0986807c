//! Blobs in bytes, and what becomes of bytes that are cut, changed or not at the start.

ghost use Rattle.std.specs.Prelude.{IfOk};
ghost use Rattle.mj_meta.specs.Blob.{IsBlob};

use super::payload::changed;
use mj_meta::{BlobRefusal, MetaBlob, blob_read, blob_write};
use std::alloc::{AllocError, Global};
use std::test::Fail;

/// A new directory `a` of the root, at time 101.
const BLOB: [u8; 115] = [
    0x02, 0x00, 0x00, 0x00, 0x01, 0x00, 0x00, 0x00, 0x00, 0x00, 0x00, 0x00, 0x01, 0x02, 0x00, 0x00,
    0x00, 0x00, 0x00, 0x00, 0x00, 0x01, 0x00, 0x00, 0x00, 0x00, 0x00, 0x00, 0x00, 0x00, 0x00, 0x00,
    0x00, 0x01, 0x00, 0x61, 0x02, 0x00, 0x00, 0x00, 0x00, 0x00, 0x00, 0x00, 0x01, 0x00, 0x00, 0x00,
    0x00, 0x00, 0x01, 0x00, 0x00, 0x01, 0xed, 0x01, 0x00, 0x00, 0x00, 0x00, 0x00, 0x00, 0x00, 0x00,
    0x00, 0x00, 0x00, 0x00, 0x00, 0x00, 0x00, 0x00, 0x65, 0x00, 0x00, 0x00, 0x00, 0x00, 0x00, 0x00,
    0x01, 0x00, 0x00, 0x00, 0x00, 0x00, 0x00, 0x00, 0x00, 0x00, 0x00, 0x01, 0x00, 0x00, 0x01, 0x01,
    0x00, 0x00, 0x00, 0x00, 0x00, 0x00, 0x00, 0x00, 0x00, 0x00, 0x00, 0x00, 0x00, 0x00, 0x00, 0x00,
    0x00, 0x00, 0x00,
];

// Where its fields begin.
static FIELDS: [usize; 26] = [
    0, 4, 12, 13, 21, 25, 29, 33, 35, 36, 44, 45, 53, 54, 56, 60, 64, 72, 80, 84, 86, 94, 95, 103,
    107, 111,
];

/// A directory whose head is gone, with the remote names `b` and `c` and the null name `d`.
const NAMES: [u8; 76] = [
    0x01, 0x00, 0x00, 0x00, 0x01, 0x00, 0x00, 0x00, 0x00, 0x00, 0x00, 0x00, 0x00, 0x00, 0x00, 0x00,
    0x00, 0x02, 0x00, 0x00, 0x00, 0x01, 0x00, 0x00, 0x00, 0x01, 0x00, 0x62, 0x07, 0x00, 0x00, 0x00,
    0x00, 0x00, 0x00, 0x00, 0x09, 0x00, 0x00, 0x00, 0x00, 0x00, 0x00, 0x00, 0x02, 0x01, 0x00, 0x63,
    0x07, 0x00, 0x00, 0x00, 0x00, 0x00, 0x00, 0x00, 0x09, 0x00, 0x00, 0x00, 0x00, 0x00, 0x00, 0x00,
    0x03, 0x01, 0x00, 0x64, 0x07, 0x00, 0x00, 0x00, 0x00, 0x00, 0x00, 0x00,
];

// Where reading stops: before a field that is wrong, or behind the blob.
fn stops(alloc: Global, bytes: &[u8], from: usize) -> Result<Result<usize, u64>, Fail> {
    match blob_read(alloc, bytes, from) {
        Ok((_, behind)) => Ok(Ok(behind)),
        Err(BlobRefusal::BlobBad(at)) => Ok(Err(at)),
        Err(BlobRefusal::Memory) => Err(Fail::from("memory ran out")),
    }
}

// The blob between other bytes.
fn between(alloc: Global, blob: &[u8]) -> Result<Vec<u8>, AllocError> {
    let mut bytes = b"before".to_vec(alloc)?;
    bytes.extend_from_slice(blob)?;
    bytes.extend_from_slice(b"behind")?;
    Ok(bytes)
}

// A copy of what is read, and where it ends.
fn copied(alloc: Global, bytes: &[u8]) -> Result<(MetaBlob, usize), Fail>
    ensures { IfOk result (λ read. IsBlob read.0) }
{
    match blob_read(alloc, bytes, 6) {
        Ok((read, behind)) => Ok((read.copy(alloc)?, behind)),
        Err(_) => Err(Fail::from("a blob was refused")),
    }
}

// Whether a blob ends where its bytes do, and is written behind what is kept.
fn is_written_again(alloc: Global, blob: &[u8]) -> Result<bool, Fail> {
    let bytes = between(alloc, blob)?;
    let (copy, behind) = copied(alloc, &bytes)?;
    let mut out = b"kept".to_vec(alloc)?;
    blob_write(alloc, &copy, &mut out)?;
    Ok(behind == 6usize.saturating_add(blob.len()) && out.strip_prefix(b"kept") == Some(blob))
}

#[test]
fn a_blob_is_read_copied_and_written(rt: HostRuntime) -> Result<(), Fail> {
    assert!(rt; is_written_again(rt.alloc(), &BLOB)?);
    assert!(rt; is_written_again(rt.alloc(), &NAMES)?);
    Ok(())
}

#[test]
fn a_cut_blob_stops_at_the_field(rt: HostRuntime) -> Result<(), Fail> {
    let mut at = 0;
    for k in 0..115usize {
        if FIELDS.contains(&k) {
            at = k as u64;
        }
        assert_eq!(rt; stops(rt.alloc(), &BLOB[..k], 0)?, Err(at), "at {k}");
    }
    assert_eq!(rt; stops(rt.alloc(), &BLOB, 115)?, Err(115));
    assert_eq!(rt; stops(rt.alloc(), &BLOB, 200)?, Err(115));
    Ok(())
}

// A byte of the names, what it becomes, and the field that is then wrong.
static FAULTS: [(usize, u8, u64); 12] = [
    (12, 2, 12),
    (25, 0, 25),
    (26, 1, 25),
    (27, b'/', 27),
    (27, b'.', 27),
    (44, 1, 44),
    (44, 4, 44),
    // the names fall, or are the same
    (47, b'a', 47),
    (47, b'b', 47),
    // a name in two lists
    (67, b'b', 67),
    (67, b'c', 67),
    // one null name more than there are
    (21, 2, 76),
];

#[test]
fn each_fault_is_at_its_field(rt: HostRuntime) -> Result<(), Fail> {
    for fault in &FAULTS {
        let (place, b, at) = *fault;
        let bytes = changed(rt.alloc(), &NAMES, place, b)?;
        assert_eq!(rt; stops(rt.alloc(), &bytes, 0)?, Err(at), "{b} at {place}");
    }
    Ok(())
}

#[test]
fn directories_that_fall_are_a_fault(rt: HostRuntime) -> Result<(), Fail> {
    let mut bytes = BLOB;
    bytes[91] = 0;
    bytes[86] = 1;
    assert_eq!(rt; stops(rt.alloc(), &bytes, 0)?, Err(86));
    Ok(())
}

#[test]
fn a_null_name_that_is_in_no_other_list_is_read(rt: HostRuntime) -> Result<(), Fail> {
    let mut bytes = NAMES;
    bytes[67] = b'a';
    assert_eq!(rt; stops(rt.alloc(), &bytes, 0)?, Ok(76));
    Ok(())
}

// Where reading stops once each bit of a byte is turned, and 255 where a blob is left.
static TURNED_BLOB: [u8; 115] = [
    115, 115, 115, 115, 255, 255, 255, 255, 255, 86, 86, 86, 12, 255, 255, 255, 255, 255, 255, 255,
    255, 86, 86, 86, 86, 86, 86, 86, 86, 86, 86, 86, 86, 35, 33, 255, 255, 255, 255, 255, 255, 255,
    255, 255, 44, 255, 255, 255, 255, 255, 255, 255, 255, 53, 255, 54, 255, 255, 255, 255, 255,
    255, 255, 255, 255, 255, 255, 255, 255, 255, 255, 255, 255, 255, 255, 255, 255, 255, 255, 255,
    255, 255, 255, 255, 84, 84, 255, 255, 255, 255, 255, 255, 255, 255, 94, 255, 255, 255, 255,
    255, 255, 255, 255, 115, 115, 115, 115, 115, 115, 115, 115, 115, 115, 115, 115,
];

static TURNED_NAMES: [u8; 76] = [
    76, 76, 76, 76, 255, 255, 255, 255, 255, 255, 255, 255, 12, 36, 36, 36, 36, 76, 76, 76, 76, 76,
    76, 76, 76, 27, 25, 47, 255, 255, 255, 255, 255, 255, 255, 255, 255, 255, 255, 255, 255, 255,
    255, 255, 44, 47, 45, 255, 255, 255, 255, 255, 255, 255, 255, 255, 255, 255, 255, 255, 255,
    255, 255, 255, 64, 67, 65, 255, 255, 255, 255, 255, 255, 255, 255, 255,
];

// Whether a blob with the byte at a place turned stops there.
fn is_turned(alloc: Global, bytes: &[u8], place: usize, stop: u8) -> Result<bool, Fail> {
    let byte = bytes.get(place).copied().unwrap_or(0);
    let others = changed(alloc, bytes, place, byte ^ 0xff)?;
    Ok(match stops(alloc, &others, 0)? {
        Ok(behind) => stop == 255 && behind == bytes.len(),
        Err(at) => at == u64::from(stop),
    })
}

#[test]
fn a_turned_byte_stops_at_its_field(rt: HostRuntime) -> Result<(), Fail> {
    for (place, stop) in TURNED_BLOB.iter().enumerate() {
        assert!(rt; is_turned(rt.alloc(), &BLOB, place, *stop)?, "at {place}");
    }
    Ok(())
}

#[test]
fn a_turned_byte_of_names_stops_at_its_field(rt: HostRuntime) -> Result<(), Fail> {
    for (place, stop) in TURNED_NAMES.iter().enumerate() {
        assert!(rt; is_turned(rt.alloc(), &NAMES, place, *stop)?, "at {place}");
    }
    Ok(())
}
