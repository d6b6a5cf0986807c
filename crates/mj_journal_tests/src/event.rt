//! Events in bytes, and what becomes of bytes that are cut, changed or too long.

use super::payload::{MAP, MKDIR, OPEN, changed};
use mj_cells::{CellKey, CellValue};
use mj_event::{EventRefusal, event_read, event_write, writes};
use std::alloc::Global;
use std::test::Fail;

// Where the fields of the mkdir begin, in order, and the end.
const FIELDS: [usize; 38] = [
    0, 4, 5, 9, 17, 25, 26, 30, 31, 39, 40, 41, 45, 53, 54, 62, 66, 70, 74, 76, 77, 85, 86, 94, 95,
    97, 101, 105, 113, 121, 125, 127, 135, 136, 144, 148, 152, 156,
];

// Where reading stops, or nothing where it is an event.
fn stops(alloc: Global, payload: &[u8]) -> Result<Option<u64>, Fail> {
    match event_read(alloc, payload) {
        Ok(_) => Ok(None),
        Err(EventRefusal::BadEvent(at)) => Ok(Some(at)),
        Err(EventRefusal::Memory) => Err(Fail::from("memory ran out")),
    }
}

// The beginning of the field in which a place lies.
fn field_of(place: usize) -> u64 {
    let mut at = 0;
    for start in FIELDS {
        if start <= place {
            at = start as u64;
        }
    }
    at
}

fn written_again(alloc: Global, payload: &[u8]) -> Result<bool, Fail> {
    match event_read(alloc, payload) {
        Ok(event) => {
            let bytes = event_write(alloc, &event)?;
            Ok(bytes.as_slice() == payload)
        }
        Err(_) => Err(Fail::from("an event was refused")),
    }
}

#[test]
fn a_mkdir_and_a_map_are_read_and_written(rt: HostRuntime) -> Result<(), Fail> {
    assert!(rt; written_again(rt.alloc(), &MAP)?);
    assert!(rt; written_again(rt.alloc(), &MKDIR)?);
    Ok(())
}

#[test]
fn a_cut_event_stops_at_the_field(rt: HostRuntime) -> Result<(), Fail> {
    for k in 0..156usize {
        let stop = stops(rt.alloc(), &MKDIR[..k])?;
        assert_eq!(rt; stop, Some(field_of(k)), "at {k}");
    }
    Ok(())
}

#[test]
fn a_long_event_stops_at_its_end(rt: HostRuntime) -> Result<(), Fail> {
    let mut long = MKDIR.to_vec(rt.alloc())?;
    long.push(0)?;
    assert_eq!(rt; stops(rt.alloc(), &long)?, Some(156));
    Ok(())
}

// Where the mkdir stops once the byte at a place is 255.
fn stops_once_changed(place: usize) -> Option<u64> {
    match place {
        0..=3 => Some(0),
        4 => Some(4),
        25 => Some(25),
        26..=29 => Some(26),
        30 => Some(30),
        39 => Some(39),
        40 => Some(40),
        // a third lump, of which there is no byte
        41..=44 => Some(156),
        // the second directory is not above the first
        50..=52 => Some(127),
        53 => Some(53),
        // one more bit, whose name has no byte
        62..=73 => Some(127),
        74 => Some(76),
        75 => Some(74),
        85 => Some(85),
        94 => Some(94),
        96 => Some(95),
        125 | 126 => Some(125),
        135 => Some(135),
        144..=155 => Some(156),
        _ => None,
    }
}

#[test]
fn a_changed_byte_stops_at_its_field(rt: HostRuntime) -> Result<(), Fail> {
    for place in 0..156usize {
        let mut bytes = MKDIR;
        bytes[place] = 0xff;
        let stop = stops(rt.alloc(), &bytes)?;
        assert_eq!(rt; stop, stops_once_changed(place), "at {place}");
    }
    Ok(())
}

// Two files that are open.
const REOPEN: [u8; 32] = [
    22, 0, 0, 0, 2, 0, 0, 0, 4, 0, 0, 0, 9, 0, 0, 0, 0, 0, 0, 0, 4, 0, 0, 0, 9, 0, 0, 0, 0, 0, 0, 0,
];

// A payload, the place of a byte, what it becomes, and where reading stops.
static FAULTS: [(&[u8], usize, u8, Option<u64>); 12] = [
    // a map whose second inode is not above the first, and one of no inode
    (&MAP, 17, 0, Some(16)),
    (&MAP, 4, 0, Some(4)),
    // an open session that drops a reply; a session of no kind
    (&OPEN, 25, 1, Some(25)),
    (&OPEN, 8, 3, Some(8)),
    (&OPEN, 28, 0, None),
    // the same file twice; the clients fall; the inode rises
    (&REOPEN, 0, 22, Some(24)),
    (&REOPEN, 20, 3, Some(20)),
    (&REOPEN, 24, 10, None),
    // a pad that is not zero, and one byte too many
    (&[51, 0, 0, 0, 2, 0, 0, 0, 0, 0], 9, 1, Some(8)),
    (&[51, 0, 0, 0, 2, 0, 0, 0, 0, 0], 4, 1, Some(9)),
    (&[51, 0, 0, 0, 2, 0, 0, 0, 0, 0], 4, 3, Some(8)),
    (&[9, 0, 0, 0], 0, 9, None),
];

fn stops_with(alloc: Global, payload: &[u8], place: usize, b: u8) -> Result<Option<u64>, Fail> {
    let bytes = changed(alloc, payload, place, b)?;
    stops(alloc, &bytes)
}

#[test]
fn each_fault_is_at_its_field(rt: HostRuntime) -> Result<(), Fail> {
    for (payload, place, b, wanted) in &FAULTS {
        let stop = stops_with(rt.alloc(), payload, *place, *b)?;
        assert_eq!(rt; stop, *wanted, "{b} at {place}");
    }
    Ok(())
}

// The key and the value of a write in a few numbers.
fn told(key: &CellKey, value: &CellValue) -> (u64, u64) {
    let key = match key {
        CellKey::Dentry(dir, _) => dir.0,
        CellKey::DirHead(dir) => 10u64.saturating_add(dir.0),
        CellKey::NextIno => 20,
        CellKey::Session(client) => 30 + u64::from(client.0),
        CellKey::Done(client, _) => 40 + u64::from(client.0),
        CellKey::OpenOf(client, _) => 50 + u64::from(client.0),
    };
    let value = match value {
        CellValue::Full(version, _) => *version,
        CellValue::Remote(version, _, _) => *version,
        CellValue::Null(version) => *version,
        CellValue::Number(n) => *n,
        CellValue::Present => 7,
        CellValue::Gone => 8,
    };
    (key, value)
}

const DIR: u64 = 1_099_511_627_776;

static WRITES: [(u64, u64); 5] = [(44, DIR), (20, DIR + 1), (11, 2), (1, 2), (10 + DIR, 1)];

#[test]
fn a_mkdir_writes_five_cells(rt: HostRuntime) -> Result<(), Fail> {
    let Ok(event) = event_read(rt.alloc(), &MKDIR) else {
        return Err(Fail::from("an event was refused"));
    };
    let ws = writes(rt.alloc(), &event)?;
    assert_eq!(rt; ws.len(), WRITES.len());
    for (w, wanted) in ws.iter().zip(&WRITES) {
        assert_eq!(rt; told(&w.key, &w.value), *wanted);
    }
    Ok(())
}
