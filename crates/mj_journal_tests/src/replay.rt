//! Journals of several layouts on a store in memory: what they are replayed to.

use super::payload::{MAP, MKDIR, OPEN, changed};
use super::stored::{layout, put, rank};
use mj_cache::Cache;
use mj_layout::{Header, Layout, Phase};
use mj_memstore::MemStore;
use mj_replay::replay;
use std::alloc::{AllocError, Global};
use std::test::Fail;

/// Where the number of lumps of `MKDIR` stands.
const LUMPS: usize = 41;

/// Where the last lump of `MKDIR` begins, that of `/a`.
const LAST_LUMP: usize = 127;

/// The inode of `/a`.
const FIRST_INO: u64 = 1 << 40;

/// The least stripe unit.
const UNIT: usize = 4_096;

/// The bytes of padding between the session and the directory, more than a stripe unit of 4 KiB.
const PAD: usize = 5_000;

/// What is changed.
#[derive(Clone, Copy, Debug, PartialEq, Eq)]
enum Change {
    Nothing,
    /// The last byte of the last entry is not there.
    Cut,
    /// The header says that the stream reaches a byte further.
    Hole,
    /// A subtree map stands before the first entry, and is expired.
    Expired,
    /// The first entry is the session's.
    NoMap,
    /// The first event has another type.
    BadEvent,
    /// A lump more of this directory, whose head is gone.
    Lump(u64),
}

fn push_entry(bytes: &mut Vec<u8>, from: u64, payload: &[u8]) -> Result<(), AllocError> {
    let at = from.wrapping_add(bytes.len() as u64);
    bytes.extend_from_slice(&[0x93, 0x97, 0x58, 0x53, 0x26, 0x59, 0x41, 0x31])?;
    bytes.extend_from_slice(&u32::try_from(payload.len()).unwrap_or(0).to_le_bytes())?;
    bytes.extend_from_slice(payload)?;
    bytes.extend_from_slice(&at.to_le_bytes())
}

// An event of zeros that say nothing.
fn pad(alloc: Global) -> Result<Vec<u8>, AllocError> {
    let mut payload = Vec::new(alloc);
    payload.extend_from_slice(&51u32.to_le_bytes())?;
    payload.extend_from_slice(&(PAD as u32).to_le_bytes())?;
    for _ in 0..PAD {
        payload.push(0)?;
    }
    Ok(payload)
}

// The subtree map: twice, with another type, or not at all.
fn push_map(bytes: &mut Vec<u8>, from: u64, change: Change) -> Result<(), AllocError> {
    let mut map = MAP;
    match change {
        Change::Expired => push_entry(bytes, from, &MAP)?,
        Change::BadEvent => map[0] = 3,
        Change::NoMap => return Ok(()),
        _ => {}
    }
    push_entry(bytes, from, &map)
}

fn push_pad(alloc: Global, bytes: &mut Vec<u8>, from: u64) -> Result<(), AllocError> {
    let payload = pad(alloc)?;
    push_entry(bytes, from, &payload)
}

fn push_mkdir(
    alloc: Global,
    bytes: &mut Vec<u8>,
    from: u64,
    change: Change,
) -> Result<(), AllocError> {
    match change {
        Change::Lump(dir) => {
            let payload = with_lump(alloc, dir)?;
            push_entry(bytes, from, &payload)
        }
        _ => push_entry(bytes, from, &MKDIR),
    }
}

// The entries of a journal that begins at a position: a subtree map, a session, padding and a directory.
fn entries(alloc: Global, from: u64, change: Change) -> Result<Vec<u8>, AllocError> {
    let mut bytes = Vec::new(alloc);
    push_map(&mut bytes, from, change)?;
    push_entry(&mut bytes, from, &OPEN)?;
    push_pad(alloc, &mut bytes, from)?;
    push_mkdir(alloc, &mut bytes, from, change)?;
    if change == Change::Cut {
        let _ = bytes.pop();
    }
    Ok(bytes)
}

// The directory's event with one lump more, whose head is gone.
fn with_lump(alloc: Global, dir: u64) -> Result<Vec<u8>, AllocError> {
    let mut payload = MKDIR[..LAST_LUMP].to_vec(alloc)?;
    if dir < FIRST_INO {
        push_lump(&mut payload, dir)?;
    }
    payload.extend_from_slice(&MKDIR[LAST_LUMP..])?;
    if FIRST_INO < dir {
        push_lump(&mut payload, dir)?;
    }
    changed(alloc, &payload, LUMPS, 3)
}

fn push_lump(payload: &mut Vec<u8>, dir: u64) -> Result<(), AllocError> {
    payload.extend_from_slice(&dir.to_le_bytes())?;
    payload.extend_from_slice(&[0; 13])
}

// Puts bytes where the layout has this position.
fn put_at(
    alloc: Global,
    store: &mut MemStore,
    layout: &Layout,
    position: u64,
    bytes: &[u8],
) -> Result<(), Fail> {
    let spot = layout.place(position);
    put(
        alloc,
        store,
        spot.index,
        u64::from(spot.offset),
        bytes.to_vec(alloc)?,
    )
}

// The stream's bytes from a position on, each where the layout has it: up to two stripe units of 4 KiB or longer.
fn put_stream(
    alloc: Global,
    store: &mut MemStore,
    layout: &Layout,
    from: u64,
    bytes: &[u8],
) -> Result<(), Fail> {
    let Some((first, second)) = bytes.split_at_checked(UNIT) else {
        return Err(Fail::from("too few bytes"));
    };
    put_at(alloc, store, layout, from, first)?;
    put_at(alloc, store, layout, from.wrapping_add(UNIT as u64), second)
}

// The header of a journal whose entries end here.
fn header(layout: Layout, change: Change, end: u64) -> Header {
    let from = layout.period();
    let second = from.wrapping_add(44);
    Header {
        trimmed: from,
        expire: if change == Change::Expired {
            second
        } else {
            from
        },
        write: match change {
            Change::Cut => second,
            Change::Hole => end.wrapping_add(1),
            _ => end,
        },
        layout,
        format: 1,
        phase: Phase::Serving,
        epoch: 1,
    }
}

// A store with a header and the entries.
fn journal(alloc: Global, layout: Layout, change: Change) -> Result<MemStore, Fail> {
    let mut store = MemStore::new(alloc);
    let from = layout.period();
    let bytes = entries(alloc, from, change)?;
    put_stream(alloc, &mut store, &layout, from, &bytes)?;
    let end = from.wrapping_add(bytes.len() as u64);
    let header = header(layout, change, end).write(alloc)?;
    put(alloc, &mut store, 0, 0, header)?;
    Ok(store)
}

// The whole tree behind a tail.
fn words_of(alloc: Global, tail: u64, cache: &Cache) -> Result<String, Fail> {
    let listing = cache.listing(alloc, true)?;
    let text = str::from_utf8(listing.as_slice()).unwrap_or("no text");
    Ok(format!(in alloc; "{tail} {text}")?)
}

// The tail behind the period and the whole tree, or why there is none.
fn told(alloc: Global, layout: Layout, change: Change) -> Result<String, Fail> {
    let mut store = journal(alloc, layout, change)?;
    match replay(alloc, &mut store, rank()?) {
        Ok(found) => words_of(
            alloc,
            found.tail.wrapping_sub(layout.period()),
            &found.cache,
        ),
        Err(why) => Ok(format!(in alloc; "{why:?}")?),
    }
}

const WHOLE: &str = "5297 /
/a dir 0755 0 0 0 101 1 1099511627776
next 1099511627777
session 4 1
reply 1 0
reply 2 1099511627776
";

const WITHOUT_LAST: &str = "5121 /
next 1099511627776
session 4 1
reply 1 0
";

// Layouts and their periods.
static LAYOUTS: [(u32, u32, u32, u64); 3] = [
    (4_096, 2, 65_536, 131_072),
    (65_536, 3, 65_536, 196_608),
    (4_194_304, 1, 4_194_304, 4_194_304),
];

static CHANGES: [Change; 8] = [
    Change::Nothing,
    Change::Cut,
    Change::Hole,
    Change::Expired,
    Change::NoMap,
    Change::BadEvent,
    Change::Lump(0x700),
    Change::Lump(FIRST_INO + 1),
];

// What is told of a journal that begins at this period.
fn wanted(alloc: Global, period: u64, change: Change) -> Result<String, AllocError> {
    match change {
        Change::Nothing => String::from_str(alloc, WHOLE),
        Change::Cut => String::from_str(alloc, WITHOUT_LAST),
        Change::Hole => format!(in alloc; "Damage(Hole({}))", 5_297u64.wrapping_add(period)),
        Change::Expired => String::from_str(alloc, "Damage(Unbuilt)"),
        Change::NoMap => format!(in alloc; "Damage(NoSubtreeMap({period}))"),
        Change::BadEvent => format!(in alloc; "Damage(BadEvent({period}, 0))"),
        Change::Lump(_) => String::from_str(alloc, "Damage(Unbuilt)"),
    }
}

fn is_so(alloc: Global, layout: Layout, period: u64, change: Change) -> Result<bool, Fail> {
    let found = told(alloc, layout, change)?;
    Ok(found == wanted(alloc, period, change)?)
}

#[test]
fn journals_are_replayed_or_their_damage_is_named(rt: HostRuntime) -> Result<(), Fail> {
    for (su, sc, os, period) in &LAYOUTS {
        let layout = layout(*su, *sc, *os)?;
        for change in &CHANGES {
            let is_so = is_so(rt.alloc(), layout, *period, *change)?;
            assert!(rt; is_so, "{change:?}, {su} {sc} {os}");
        }
    }
    Ok(())
}
