//! Journals on a store in memory: what is read of a worked one, and the damage of changed ones.

use super::stored::{put, rank};
use mj_memstore::MemStore;
use mj_recovery::LiveJournal;
use mj_replay::read_journal;
use std::alloc::{AllocError, Global};
use std::test::Fail;

/// One object of 4 MiB a set; trimmed and expire are one period, and write is behind two entries.
const HEADER: [u8; 69] = [
    0x13, 0x00, 0x00, 0x00, 0x63, 0x65, 0x70, 0x68, 0x20, 0x66, 0x73, 0x20, 0x76, 0x6f, 0x6c, 0x75,
    0x6d, 0x65, 0x20, 0x76, 0x30, 0x31, 0x31, 0x00, 0x00, 0x40, 0x00, 0x00, 0x00, 0x00, 0x00, 0x00,
    0x00, 0x40, 0x00, 0x00, 0x00, 0x00, 0x00, 0x5d, 0x00, 0x40, 0x00, 0x00, 0x00, 0x00, 0x00, 0x00,
    0x00, 0x40, 0x00, 0x01, 0x00, 0x00, 0x00, 0x00, 0x00, 0x40, 0x00, 0x01, 0x02, 0x02, 0x00, 0x00,
    0x00, 0x00, 0x00, 0x00, 0x00,
];

/// A subtree map at 4194304, and at 4194348 the open session of client 4.
const ENTRIES: [u8; 93] = [
    0x93, 0x97, 0x58, 0x53, 0x26, 0x59, 0x41, 0x31, 0x18, 0x00, 0x00, 0x00, 0x02, 0x00, 0x00, 0x00,
    0x02, 0x00, 0x00, 0x00, 0x01, 0x00, 0x00, 0x00, 0x00, 0x00, 0x00, 0x00, 0x00, 0x01, 0x00, 0x00,
    0x00, 0x00, 0x00, 0x00, 0x00, 0x00, 0x40, 0x00, 0x00, 0x00, 0x00, 0x00, 0x93, 0x97, 0x58, 0x53,
    0x26, 0x59, 0x41, 0x31, 0x1d, 0x00, 0x00, 0x00, 0x0a, 0x00, 0x00, 0x00, 0x04, 0x00, 0x00, 0x00,
    0x01, 0x01, 0x00, 0x00, 0x00, 0x00, 0x00, 0x00, 0x00, 0x01, 0x00, 0x00, 0x00, 0x00, 0x00, 0x00,
    0x00, 0x00, 0x00, 0x00, 0x00, 0x2c, 0x00, 0x40, 0x00, 0x00, 0x00, 0x00, 0x00,
];

/// What is done to the bytes of an object.
#[derive(Clone, Copy, Debug)]
enum Change {
    /// Nothing.
    Kept,
    /// There is no such object.
    Without,
    Cut(usize),
    /// So many zeros are put behind.
    Longer(usize),
    /// This byte stands at that offset.
    Byte(usize, u8),
}

fn changed(alloc: Global, bytes: &[u8], change: Change) -> Result<Option<Vec<u8>>, AllocError> {
    let mut bytes = bytes.to_vec(alloc)?;
    match change {
        Change::Kept => {}
        Change::Without => return Ok(None),
        Change::Cut(len) => bytes.truncate(len),
        Change::Longer(more) => push_zeros(&mut bytes, more)?,
        Change::Byte(at, byte) => {
            if let Some(place) = bytes.get_mut(at) {
                *place = byte;
            }
        }
    }
    Ok(Some(bytes))
}

fn push_zeros(bytes: &mut Vec<u8>, count: usize) -> Result<(), AllocError> {
    for _ in 0..count {
        bytes.push(0)?;
    }
    Ok(())
}

/// Puts an object whose bytes are changed, if it is left.
fn put_changed(
    alloc: Global,
    store: &mut MemStore,
    index: u64,
    bytes: &[u8],
    change: Change,
) -> Result<(), Fail> {
    match changed(alloc, bytes, change)? {
        Some(bytes) => put(alloc, store, index, 0, bytes),
        None => Ok(()),
    }
}

/// The worked journal on a store, with its header and its entries changed. It takes four calls where both are there.
fn put_journal(
    alloc: Global,
    store: &mut MemStore,
    header: Change,
    entries: Change,
) -> Result<(), Fail> {
    put_changed(alloc, store, 0, &HEADER, header)?;
    put_changed(alloc, store, 1, &ENTRIES, entries)
}

/// A journal in words.
fn words_of(alloc: Global, journal: &LiveJournal) -> Result<String, AllocError> {
    let last = match journal.events.as_slice() {
        [.., last] => last.at,
        [] => 0,
    };
    let count = journal.events.len();
    let tail = journal.tail;
    format!(in alloc; "{count} events, the last at {last}, tail {tail}")
}

/// What is read of a store, in words.
fn told(alloc: Global, store: &mut MemStore) -> Result<String, Fail> {
    match read_journal(alloc, store, rank()?) {
        Ok(journal) => Ok(words_of(alloc, &journal)?),
        Err(why) => Ok(format!(in alloc; "{why:?}")?),
    }
}

const WHOLE: &str = "2 events, the last at 4194348, tail 4194397";

// What is done to the header and to the entries, and what is then read.
static ROWS: [(Change, Change, &str); 18] = [
    (Change::Kept, Change::Kept, WHOLE),
    (Change::Without, Change::Kept, "Damage(HeaderMissing)"),
    (Change::Cut(68), Change::Kept, "Damage(HeaderBad(68))"),
    (Change::Longer(1), Change::Kept, "Damage(HeaderBad(70))"),
    (Change::Longer(31), Change::Kept, "Damage(HeaderBad(100))"),
    (Change::Byte(4, 0x64), Change::Kept, "Damage(HeaderBad(4))"),
    (Change::Byte(23, 1), Change::Kept, "Damage(HeaderOrder)"),
    (Change::Byte(59, 0), Change::Kept, "Damage(Legacy)"),
    (Change::Kept, Change::Without, "Damage(Hole(4194304))"),
    (Change::Kept, Change::Cut(92), "Damage(Hole(4194396))"),
    (
        Change::Kept,
        Change::Byte(44, 0),
        "Damage(BadSentinel(4194348))",
    ),
    (
        Change::Kept,
        Change::Byte(8, 0),
        "Damage(BadLength(4194304, 0))",
    ),
    (
        Change::Kept,
        Change::Byte(36, 1),
        "Damage(BadStart(4194304, 4194305))",
    ),
    (
        Change::Kept,
        Change::Byte(52, 30),
        "Damage(CutEntry(4194348))",
    ),
    (
        Change::Kept,
        Change::Byte(12, 0),
        "Damage(BadEvent(4194304, 0))",
    ),
    // expire lies behind the subtree map
    (
        Change::Byte(31, 0x2c),
        Change::Kept,
        "Damage(NoSubtreeMap(4194348))",
    ),
    // write lies before the session's entry
    (
        Change::Byte(39, 0x2c),
        Change::Cut(90),
        "1 events, the last at 4194304, tail 4194348",
    ),
    (
        Change::Kept,
        Change::Longer(3),
        "Damage(BadSentinel(4194397))",
    ),
];

/// What is read of the worked journal once it is changed.
fn told_of(alloc: Global, header: Change, entries: Change) -> Result<String, Fail> {
    let mut store = MemStore::new(alloc);
    put_journal(alloc, &mut store, header, entries)?;
    told(alloc, &mut store)
}

#[test]
fn a_journal_is_read_or_its_first_damage_is_named(rt: HostRuntime) -> Result<(), Fail> {
    for (header, entries, want) in &ROWS {
        let found = told_of(rt.alloc(), *header, *entries)?;
        assert_eq!(rt; found.as_str(), *want, "{header:?}, {entries:?}");
    }
    Ok(())
}

// The size of the header, its bytes, the size of the next object, and its bytes.
static READS: [u64; 4] = [5, 6, 7, 8];

#[test]
fn a_fault_is_no_damage_and_no_end(rt: HostRuntime) -> Result<(), Fail> {
    let alloc = rt.alloc();
    for call in &READS {
        let mut store = MemStore::failing(alloc, &[*call])?;
        put_journal(alloc, &mut store, Change::Kept, Change::Kept)?;
        let found = told(alloc, &mut store)?;
        assert_eq!(rt;
            found.as_str(),
            "Store(StoreFault { faults: 1 })",
            "call {call}"
        );
        let again = told(alloc, &mut store)?;
        assert_eq!(rt; again.as_str(), WHOLE, "after call {call}");
    }
    Ok(())
}

/// Appends the longest entry, of zeros that say nothing.
fn push_pad(bytes: &mut Vec<u8>, at: u64) -> Result<(), AllocError> {
    bytes.extend_from_slice(&ENTRIES[..8])?;
    bytes.extend_from_slice(&65_516u32.to_le_bytes())?;
    bytes.extend_from_slice(&51u32.to_le_bytes())?;
    bytes.extend_from_slice(&65_508u32.to_le_bytes())?;
    push_zeros(bytes, 65_508)?;
    bytes.extend_from_slice(&at.to_le_bytes())
}

/// The subtree map and 64 of the longest entries.
fn long_journal(alloc: Global) -> Result<Vec<u8>, AllocError> {
    let mut bytes = ENTRIES[..44].to_vec(alloc)?;
    for k in 0..64 {
        push_pad(&mut bytes, 4_194_348 + 65_536 * k)?;
    }
    Ok(bytes)
}

/// The header where write is 8388652.
fn long_header(alloc: Global) -> Result<Vec<u8>, AllocError> {
    let mut header = HEADER;
    header[39] = 0x2c;
    header[41] = 0x80;
    header.to_vec(alloc)
}

/// Puts bytes into the objects 1 and 2, so many of them into the first.
fn put_two(alloc: Global, store: &mut MemStore, bytes: &[u8], cut: usize) -> Result<(), Fail> {
    let Some((first, second)) = bytes.split_at_checked(cut) else {
        return Err(Fail::from("too few bytes"));
    };
    put(alloc, store, 1, 0, first.to_vec(alloc)?)?;
    put(alloc, store, 2, 0, second.to_vec(alloc)?)
}

// The last entry lies over the ends of the first object and the first piece.
#[test]
fn an_entry_lies_over_two_objects_and_pieces(rt: HostRuntime) -> Result<(), Fail> {
    let alloc = rt.alloc();
    let mut store = MemStore::new(alloc);
    put(alloc, &mut store, 0, 0, long_header(alloc)?)?;
    let bytes = long_journal(alloc)?;
    assert_eq!(rt; bytes.len(), 4_194_348);
    put_two(alloc, &mut store, &bytes, 4_194_304)?;
    let found = told(alloc, &mut store)?;
    assert_eq!(rt;
        found.as_str(),
        "65 events, the last at 8323116, tail 8388652"
    );
    Ok(())
}
