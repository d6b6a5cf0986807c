//! Images of worked examples, read and written again.

use mj_image::{ImageRefusal, image_read, image_write};
use std::alloc::Global;
use std::test::Fail;

const EMPTY: &[u8] = b"MJIMG001\0\0\0\0";

// Two objects: a file without head and keys, and a table with both.
const TWO: [u8; 92] =
    *b"MJIMG001\x02\0\0\0\x0c\x00200.00000001\x03\0\0\0\0\0\0\0abc\0\0\0\0\0\x0f\0mds0_sessionmap\0\0\0\0\0\0\0\0\x01\x01\0\0\0h\x02\0\0\0\x01\0a\x01\0\0\x001\x01\0b\0\0\0\0";

// Two objects of one name.
const SAME: &[u8] =
    b"MJIMG001\x02\0\0\0\x0c\x00200.00000001\0\0\0\0\0\0\0\0\0\0\0\0\0\x0c\x00200.00000001\0\0\0\0\0\0\0\0\0\0\0\0\0";

// Whether an image is read, and written again as these bytes.
fn is_written_again(alloc: Global, bytes: &[u8]) -> Result<bool, Fail> {
    match image_read(alloc, bytes) {
        Ok(store) => match image_write(alloc, &store) {
            Ok(again) => Ok(again.as_slice() == bytes),
            Err(_) => Err(Fail::from("an image was not written")),
        },
        Err(_) => Err(Fail::from("an image was refused")),
    }
}

#[test]
fn images_are_read_and_written_again(rt: HostRuntime) -> Result<(), Fail> {
    assert!(rt; is_written_again(rt.alloc(), EMPTY)?);
    assert!(rt; is_written_again(rt.alloc(), &TWO)?);
    Ok(())
}

// Why bytes are no image.
fn refusal(alloc: Global, bytes: &[u8]) -> Option<ImageRefusal> {
    image_read(alloc, bytes).err()
}

static REFUSED: [(&[u8], ImageRefusal); 9] = [
    (b"", ImageRefusal::BadMagic),
    (b"\0", ImageRefusal::BadMagic),
    (b"MJIMG00", ImageRefusal::BadMagic),
    (b"MJIMG001", ImageRefusal::Truncated(8)),
    (b"MJIMG001\0\0\0", ImageRefusal::Truncated(8)),
    (b"MJIMG001\xff\xff\xff\xff", ImageRefusal::Truncated(12)),
    (b"MJIMG001\x01\0\0\0\0", ImageRefusal::Truncated(12)),
    (b"MJIMG001\x01\0\0\0\x05\0a", ImageRefusal::Truncated(14)),
    (SAME, ImageRefusal::BadOrder(41)),
];

#[test]
fn other_bytes_are_refused(rt: HostRuntime) {
    for (bytes, want) in &REFUSED {
        assert_eq!(rt; refusal(rt.alloc(), bytes), Some(*want), "{bytes:?}");
    }
    assert_eq!(rt;
        refusal(rt.alloc(), &TWO[..30]),
        Some(ImageRefusal::Truncated(26))
    );
    assert_eq!(rt;
        refusal(rt.alloc(), &TWO[..90]),
        Some(ImageRefusal::Truncated(88))
    );
}

#[test]
fn a_byte_too_many_is_refused(rt: HostRuntime) -> Result<(), Fail> {
    let mut longer = TWO.to_vec(rt.alloc())?;
    longer.push(0)?;
    assert_eq!(rt;
        refusal(rt.alloc(), &longer),
        Some(ImageRefusal::Trailing(92))
    );
    Ok(())
}

// A byte of the two objects, what it becomes, and what is then wrong.
static CHANGED: [(usize, u8, ImageRefusal); 5] = [
    (14, b'0', ImageRefusal::BadName(14)),
    (14, b'g', ImageRefusal::BadName(14)),
    (44, b'n', ImageRefusal::BadName(44)),
    (37, 2, ImageRefusal::BadFlag(37)),
    (87, b'a', ImageRefusal::BadOrder(87)),
];

#[test]
fn a_changed_byte_is_refused(rt: HostRuntime) {
    for (at, byte, want) in &CHANGED {
        let mut bytes = TWO;
        if let Some(place) = bytes.get_mut(*at) {
            *place = *byte;
        }
        assert_eq!(rt; refusal(rt.alloc(), &bytes), Some(*want), "at {at}");
    }
}

// What a prefix of the two objects is cut in: the beginning of that field, 0 for the magic.
static CUT: [u8; 92] = [
    0, 0, 0, 0, 0, 0, 0, 0, 8, 8, 8, 8, 12, 12, 14, 14, 14, 14, 14, 14, 14, 14, 14, 14, 14, 14, 26,
    26, 26, 26, 26, 26, 26, 26, 34, 34, 34, 37, 38, 38, 38, 38, 42, 42, 44, 44, 44, 44, 44, 44, 44,
    44, 44, 44, 44, 44, 44, 44, 44, 59, 59, 59, 59, 59, 59, 59, 59, 67, 68, 68, 68, 68, 72, 73, 73,
    73, 73, 77, 77, 79, 80, 80, 80, 80, 84, 85, 85, 87, 88, 88, 88, 88,
];

// What is wrong once each bit of a byte is turned: the magic, a field that is cut, a name, an order, a flag, or nothing; and where.
static TURNED: [u8; 92] =
    *b"MMMMMMMMTTTTTTNNNNNNNNNNNNTTTTTTTT...FOOOOTTNNNNNNNNNNNNNNNTTTTTTTTFTTTT.TTTTTTOTTTT.TT.TTTT";

static TURNED_AT: [u8; 92] = [
    0, 0, 0, 0, 0, 0, 0, 0, 92, 92, 92, 92, 14, 14, 14, 14, 14, 14, 14, 14, 14, 14, 14, 14, 14, 14,
    34, 34, 34, 34, 34, 34, 34, 34, 0, 0, 0, 37, 65, 65, 65, 65, 44, 44, 44, 44, 44, 44, 44, 44,
    44, 44, 44, 44, 44, 44, 44, 44, 44, 67, 67, 67, 67, 67, 67, 67, 67, 67, 72, 72, 72, 72, 0, 92,
    92, 92, 92, 79, 79, 87, 84, 84, 84, 84, 0, 87, 87, 0, 92, 92, 92, 92,
];

fn told(kind: u8, at: u8) -> Option<ImageRefusal> {
    let at = u64::from(at);
    match kind {
        b'M' => Some(ImageRefusal::BadMagic),
        b'T' => Some(ImageRefusal::Truncated(at)),
        b'N' => Some(ImageRefusal::BadName(at)),
        b'O' => Some(ImageRefusal::BadOrder(at)),
        b'F' => Some(ImageRefusal::BadFlag(at)),
        _ => None,
    }
}

#[test]
fn each_prefix_is_cut_in_its_field(rt: HostRuntime) {
    for (len, at) in CUT.iter().enumerate() {
        let want = told(if *at == 0 { b'M' } else { b'T' }, *at);
        assert_eq!(rt; refusal(rt.alloc(), &TWO[..len]), want, "{len} bytes");
    }
}

#[test]
fn each_turned_byte_is_told(rt: HostRuntime) {
    for place in 0..92usize {
        let mut bytes = TWO;
        bytes[place] = TWO[place] ^ 0xff;
        let want = told(TURNED[place], TURNED_AT[place]);
        assert_eq!(rt; refusal(rt.alloc(), &bytes), want, "at {place}");
    }
}
