//! Worked rows, and what becomes of an entry that is cut or changed.

use mj_entry::{EntryRead, entry_read, entry_write};
use std::test::Fail;

/// The payload of one byte at 4194304.
const ENTRY: [u8; 21] = [
    0x93, 0x97, 0x58, 0x53, 0x26, 0x59, 0x41, 0x31, 0x01, 0x00, 0x00, 0x00, 0x01, 0x00, 0x00, 0x40,
    0x00, 0x00, 0x00, 0x00, 0x00,
];

const AT: u64 = 4_194_304;

#[test]
fn an_entry_is_written_and_read(rt: HostRuntime) -> Result<(), Fail> {
    let mut out = b"before".to_vec(rt.alloc())?;
    entry_write(rt.alloc(), AT, &[1], &mut out)?;
    assert_eq!(rt; &out[..6], b"before".as_slice());
    assert_eq!(rt; &out[6..], ENTRY.as_slice());
    out.extend_from_slice(b"behind")?;
    let whole = EntryRead::Whole {
        payload: &[1],
        ends: 4_194_325,
    };
    assert_eq!(rt; entry_read(&out[6..], AT), whole);
    Ok(())
}

#[test]
fn a_cut_entry_is_a_part(rt: HostRuntime) {
    for k in 0..21 {
        assert_eq!(rt; entry_read(&ENTRY[..k], AT), EntryRead::Part, "at {k}");
    }
}

// What is read once a byte has become this one.
fn read_once_changed(bytes: &[u8; 21], place: usize, b: u8) -> EntryRead<'_> {
    match place {
        0..=7 => EntryRead::BadSentinel,
        8 if b == 0 => EntryRead::BadLength(0),
        8 => EntryRead::Part,
        9 => EntryRead::Part,
        10 if b == 0 => EntryRead::Part,
        10 => EntryRead::BadLength(1 + u32::from(b) * 0x1_0000),
        11 => EntryRead::BadLength(1 + u32::from(b) * 0x100_0000),
        12 => EntryRead::Whole {
            payload: &bytes[12..13],
            ends: 4_194_325,
        },
        15 => EntryRead::BadStart(u64::from(b) * 0x1_0000),
        _ => EntryRead::BadStart(AT.wrapping_add(u64::from(b).wrapping_mul(unit_of(place)))),
    }
}

// What a byte of the position counts.
fn unit_of(place: usize) -> u64 {
    let mut unit = 1u64;
    for _ in 13..place {
        unit = unit.wrapping_mul(256);
    }
    unit
}

static OTHERS: [u8; 5] = [0x00, 0x01, 0x02, 0x92, 0xff];

#[test]
fn a_changed_byte_is_told(rt: HostRuntime) {
    for place in 0..21usize {
        for b in &OTHERS {
            let mut bytes = ENTRY;
            bytes[place] = *b;
            if bytes != ENTRY {
                let wanted = read_once_changed(&bytes, place, *b);
                assert_eq!(rt; entry_read(&bytes, AT), wanted, "{b} at {place}");
            }
        }
    }
}
