//! Images of worked runs: what they recover to, and the damage of changed ones.

use crate::{are_held, recovered};
use mj_base::{Damage, Items, ObjectName, RankNo};
use mj_replay::JournalRefusal;
use mj_store::{HeldObject, Pair};
use std::alloc::{AllocError, Global};
use std::process::Abort;
use std::test::Fail;

/// The header behind the magic, with one object of 4 MiB a set: trimmed, expire, write, layout, format, phase, epoch.
const FIRST_HEADER: &[u8] = b"13000000 6365706820667320766f6c756d652076303131
    0000400000000000 0000400000000000 0d01400000000000 00004000 01000000 00004000 01 02 0200000000000000";

const LATER_HEADER: &[u8] = b"13000000 6365706820667320766f6c756d652076303131
    0000400000000000 0d01400000000000 3901400000000000 00004000 01000000 00004000 01 02 0200000000000000";
/// Stripe units of 4 KiB over two objects of 64 KiB.
const STRIPED_HEADER: &[u8] = b"13000000 6365706820667320766f6c756d652076303131
    0000020000000000 0000020000000000 0000020000000000 00100000 02000000 00000100 01 02 0100000000000000";

/// A subtree map, the open session of client 4, and its mkdir of `/a`.
const FIRST_JOURNAL: &[u8] = b"
    9397585326594131 18000000 02000000 02000000 0100000000000000 0001000000000000 0000400000000000
    9397585326594131 1d000000 0a000000 04000000 01 0100000000000000 0100000000000000 00000000 2c00400000000000
    9397585326594131 9c000000
    14000000 03 04000000 0200000000000000 0000000000010000 00 00000000 01 0100000000010000 00 00 02000000
    0100000000000000 01 0200000000000000 01000000 00000000 00000000
    0100 61 0200000000000000 01 0000000000010000 01 ed01 00000000 00000000 0000000000000000 6500000000000000 01000000 0000
    0000000000010000 01 0100000000000000 00000000 00000000 00000000
    5d00400000000000";
/// A later subtree map, and behind it the open file of client 4.
const LATER_MAP: &[u8] =
    b"9397585326594131 18000000 02000000 02000000 0100000000000000 0001000000000000 0d01400000000000";

const REOPEN: &[u8] =
    b"9397585326594131 14000000 16000000 01000000 04000000 0000000000010000 3901400000000000";
/// The first 93 bytes of the first stripe unit, and an entry that begins the second one.
const FIRST_UNIT: &[u8] = b"
    9397585326594131 18000000 02000000 02000000 0100000000000000 0001000000000000 0000020000000000
    9397585326594131 1d000000 0a000000 04000000 01 0100000000000000 0100000000000000 00000000 2c00020000000000";

const SECOND_UNIT: &[u8] = b"9397585326594131 09000000 33000000 01000000 00 0010020000000000";

const ONE: &[u8] = b"0100000000000000";

const TWO: &[u8] = b"0200000000000000";

const NO_INO: &[u8] = b"0000000000000000";

const FIRST_INO: &[u8] = b"0000000000010000";

const NEXT_INO: &[u8] = b"0100000000010000";

const DIR_A: &[u8] = b"01 0200000000000000
    01 0000000000010000 01 ed01 00000000 00000000 0000000000000000 6500000000000000 01000000 0000";

const REMOTE_H: &[u8] = b"02 0300000000000000 0000000000010000 02";

const LINKED_FILE: &[u8] = b"01 0200000000000000
    01 0000000000010000 02 a401 00000000 00000000 0000000000000000 6500000000000000 01000000 0000";

const NAMELESS_FILE: &[u8] = b"01 0200000000000000
    01 0000000000010000 02 a401 00000000 00000000 0000000000000000 6500000000000000 00000000 0000";

fn file(ino: u64, index: u64) -> ObjectName {
    ObjectName::File { ino, index }
}

// Appends the bytes that hexadecimal digits spell, whatever stands between them.
fn push_hex(bytes: &mut Vec<u8>, text: &[u8]) -> Result<(), AllocError> {
    let mut high = None;
    for c in text {
        if let Some(digit) = (*c as char).to_digit(16) {
            high = match high {
                None => Some(digit),
                Some(first) => {
                    bytes.push((first % 16 * 16 + digit % 16) as u8)?;
                    None
                }
            };
        }
    }
    Ok(())
}

fn of_hex(alloc: Global, text: &[u8]) -> Result<Items<u8>, AllocError> {
    let mut bytes = Vec::new(alloc);
    push_hex(&mut bytes, text)?;
    Ok(Items::from_vec(bytes))
}

// Adds the object of the journal with this index, of these pieces of bytes.
fn add_bytes(
    alloc: Global,
    objects: &mut Vec<HeldObject>,
    index: u64,
    pieces: &[&[u8]],
) -> Result<(), AllocError> {
    let mut bytes = Vec::new(alloc);
    for piece in pieces {
        push_hex(&mut bytes, piece)?;
    }
    objects.push(HeldObject {
        name: file(0x200, index),
        bytes: Items::from_vec(bytes),
        head: None,
        pairs: Items::from_vec(Vec::new(alloc)),
    })?;
    Ok(())
}

// Adds an object with this head, where it is not empty, and these keys.
fn add_keys(
    alloc: Global,
    objects: &mut Vec<HeldObject>,
    name: ObjectName,
    head: &[u8],
    keys: &[(&[u8], &[u8])],
) -> Result<(), AllocError> {
    let mut pairs = Vec::new(alloc);
    for (key, value) in keys {
        pairs.push(Pair {
            key: Items::of_bytes(alloc, key)?,
            value: of_hex(alloc, value)?,
        })?;
    }
    let head = if head.is_empty() {
        None
    } else {
        Some(of_hex(alloc, head)?)
    };
    objects.push(HeldObject {
        name,
        bytes: Items::from_vec(Vec::new(alloc)),
        head,
        pairs: Items::from_vec(pairs),
    })?;
    Ok(())
}

fn add_tables(
    alloc: Global,
    objects: &mut Vec<HeldObject>,
    rank: RankNo,
    next: &[u8],
    sessions: &[(&[u8], &[u8])],
) -> Result<(), AllocError> {
    add_keys(alloc, objects, ObjectName::InoTable(rank), next, &[])?;
    add_keys(alloc, objects, ObjectName::SessionMap(rank), b"", sessions)
}

// A session of client 4, a directory made, and a restart.
fn first_run(alloc: Global, rank: RankNo) -> Result<Vec<HeldObject>, AllocError> {
    let mut found = Vec::new(alloc);
    add_bytes(alloc, &mut found, 0, &[FIRST_HEADER])?;
    add_bytes(alloc, &mut found, 1, &[FIRST_JOURNAL])?;
    add_keys(alloc, &mut found, file(1, 0), ONE, &[])?;
    add_keys(alloc, &mut found, file(0x600, 0), ONE, &[])?;
    add_tables(alloc, &mut found, rank, FIRST_INO, &[])?;
    Ok(found)
}

// The same run, all of it stored and a new segment begun.
fn expired(alloc: Global, rank: RankNo) -> Result<Vec<HeldObject>, AllocError> {
    let mut found = Vec::new(alloc);
    let sessions = [
        (b"00000004".as_slice(), ONE),
        (b"00000004.0000000000000001".as_slice(), NO_INO),
        (b"00000004.0000000000000002".as_slice(), FIRST_INO),
    ];
    add_bytes(alloc, &mut found, 0, &[LATER_HEADER])?;
    add_bytes(alloc, &mut found, 1, &[FIRST_JOURNAL, LATER_MAP])?;
    add_keys(alloc, &mut found, file(1, 0), TWO, &[(b"a_head", DIR_A)])?;
    add_keys(alloc, &mut found, file(1 << 40, 0), ONE, &[])?;
    add_keys(alloc, &mut found, file(0x600, 0), ONE, &[])?;
    add_tables(alloc, &mut found, rank, NEXT_INO, &sessions)?;
    Ok(found)
}

// A file whose full dentry lies in stray.
fn strays(
    alloc: Global,
    rank: RankNo,
    journal: &[&[u8]],
    root: &[(&[u8], &[u8])],
    stray: &[u8],
) -> Result<Vec<HeldObject>, AllocError> {
    let mut found = Vec::new(alloc);
    let names: [(&[u8], &[u8]); 1] = [(b"10000000000_head", stray)];
    add_bytes(alloc, &mut found, 0, &[LATER_HEADER])?;
    add_bytes(alloc, &mut found, 1, journal)?;
    add_keys(alloc, &mut found, file(1, 0), TWO, root)?;
    add_keys(alloc, &mut found, file(0x600, 0), TWO, &names)?;
    add_tables(alloc, &mut found, rank, NEXT_INO, &[(b"00000004", ONE)])?;
    Ok(found)
}

// The second link survives the first.
fn second_link(alloc: Global, rank: RankNo) -> Result<Vec<HeldObject>, AllocError> {
    let journal = [FIRST_JOURNAL, LATER_MAP];
    strays(alloc, rank, &journal, &[(b"h_head", REMOTE_H)], LINKED_FILE)
}

// A file without a name is open.
fn open_file(alloc: Global, rank: RankNo) -> Result<Vec<HeldObject>, AllocError> {
    let journal = [FIRST_JOURNAL, LATER_MAP, REOPEN];
    strays(alloc, rank, &journal, &[], NAMELESS_FILE)
}

// Two stripe units were sent, and only the later one was written.
fn torn_stripe(alloc: Global, rank: RankNo) -> Result<Vec<HeldObject>, AllocError> {
    let mut found = Vec::new(alloc);
    let inodes = ObjectName::InoTable(rank);
    add_bytes(alloc, &mut found, 0, &[STRIPED_HEADER])?;
    add_bytes(alloc, &mut found, 2, &[FIRST_UNIT])?;
    add_bytes(alloc, &mut found, 3, &[SECOND_UNIT])?;
    add_keys(alloc, &mut found, file(1, 0), ONE, &[])?;
    add_keys(alloc, &mut found, file(0x600, 0), ONE, &[])?;
    add_keys(alloc, &mut found, inodes, FIRST_INO, &[])?;
    Ok(found)
}

/// What is done to an image.
#[derive(Clone, Copy, Debug)]
enum Change {
    Without(ObjectName),
    Cut(ObjectName, usize),
    Byte(ObjectName, usize, u8),
}

fn change_one(
    alloc: Global,
    object: HeldObject,
    change: &Change,
) -> Result<Option<HeldObject>, AllocError> {
    match change {
        Change::Without(name) if *name == object.name => Ok(None),
        Change::Cut(name, len) if *name == object.name => {
            let len = object.bytes.len().min(*len);
            let bytes = Items::of_bytes(alloc, &object.bytes.as_slice()[..len])?;
            Ok(Some(HeldObject { bytes, ..object }))
        }
        Change::Byte(name, at, byte) if *name == object.name => {
            let mut bytes = object.bytes.into_vec();
            if let Some(place) = bytes.get_mut(*at) {
                *place = *byte;
            }
            Ok(Some(HeldObject {
                bytes: Items::from_vec(bytes),
                ..object
            }))
        }
        _ => Ok(Some(object)),
    }
}

fn changed(
    alloc: Global,
    objects: Vec<HeldObject>,
    change: &Change,
) -> Result<Vec<HeldObject>, AllocError> {
    let mut kept = Vec::new(alloc);
    for object in objects {
        if let Some(object) = change_one(alloc, object, change)? {
            kept.push(object)?;
        }
    }
    Ok(kept)
}

/// The damage that is looked for here.
#[derive(Clone, Copy, Debug, PartialEq, Eq)]
enum Fault {
    HeaderBad(u64),
    Hole(u64),
    BadSentinel(u64),
    InodesBad,
    NoHead(u64),
    Another,
}

fn told(damage: &Damage) -> Fault {
    match damage {
        Damage::HeaderBad(at) => Fault::HeaderBad(*at),
        Damage::Hole(at) => Fault::Hole(*at),
        Damage::BadSentinel(at) => Fault::BadSentinel(*at),
        Damage::TableBad(ObjectName::InoTable(_)) => Fault::InodesBad,
        Damage::DirfragMissing(dir) => Fault::NoHead(dir.0),
        _ => Fault::Another,
    }
}

fn rank_0() -> Result<RankNo, Fail> {
    match RankNo::new(0) {
        Some(rank) => Ok(rank),
        None => Err(Fail::from("no rank")),
    }
}

// An image recovers to the tree with this listing, and to this tail.
fn recovers_to(
    rt: &impl Abort,
    alloc: Global,
    objects: &[HeldObject],
    full: bool,
    text: &[u8],
    tail: u64,
) -> Result<(), Fail> {
    assert!(rt; are_held(objects), "an image with tail {tail}");
    let found = match recovered(alloc, objects, rank_0()?) {
        Ok(found) => found,
        Err(_) => return Err(Fail::from("damage")),
    };
    let listing = found.tree.listing(alloc, full)?;
    assert_eq!(rt; listing.as_slice(), text, "the tree with tail {tail}");
    assert_eq!(rt; found.journal.tail, tail);
    Ok(())
}

const LINK_TEXT: &[u8] = b"/\n/h file 0644 0 0 0 101 1 1099511627776\n";

const OPEN_TEXT: &[u8] = b"/\nkept 1099511627776 file 0644 0 0 0 101 0\nopen 4 1099511627776\n";

const RUN_TEXT: &[u8] = b"/
/a dir 0755 0 0 0 101 1 1099511627776
next 1099511627777
session 4 1
reply 1 0
reply 2 1099511627776
";

#[test]
fn images_recover_to_their_trees(rt: HostRuntime) -> Result<(), Fail> {
    let alloc = rt.alloc();
    let rank = rank_0()?;
    let objects = first_run(alloc, rank)?;
    recovers_to(&rt, alloc, &objects, true, RUN_TEXT, 4_194_573)?;
    // the live event holds the root's head
    let objects = changed(alloc, objects, &Change::Without(file(1, 0)))?;
    recovers_to(&rt, alloc, &objects, true, RUN_TEXT, 4_194_573)?;
    let objects = expired(alloc, rank)?;
    recovers_to(&rt, alloc, &objects, true, RUN_TEXT, 4_194_617)?;
    let objects = second_link(alloc, rank)?;
    recovers_to(&rt, alloc, &objects, false, LINK_TEXT, 4_194_617)?;
    let objects = open_file(alloc, rank)?;
    recovers_to(&rt, alloc, &objects, false, OPEN_TEXT, 4_194_657)?;
    let objects = torn_stripe(alloc, rank)?;
    recovers_to(&rt, alloc, &objects, false, b"/\n", 131_165)
}

// The damage that these objects are refused for, if they are.
fn fault_of(rt: &impl Abort, alloc: Global, objects: &[HeldObject]) -> Result<Option<Fault>, Fail> {
    assert!(rt; are_held(objects));
    match recovered(alloc, objects, rank_0()?) {
        Ok(_) => Ok(None),
        Err(JournalRefusal::Damage(damage)) => Ok(Some(told(&damage))),
        Err(_) => Err(Fail::from("no memory")),
    }
}

#[test]
fn damage_is_named(rt: HostRuntime) -> Result<(), Fail> {
    let alloc = rt.alloc();
    let rank = rank_0()?;
    let header = file(0x200, 0);
    let journal = file(0x200, 1);
    let inodes = ObjectName::InoTable(rank);
    for (is_first, change, want) in [
        (true, Change::Cut(header, 68), Fault::HeaderBad(68)),
        (true, Change::Byte(header, 4, b'd'), Fault::HeaderBad(4)),
        (true, Change::Without(journal), Fault::Hole(4_194_304)),
        (
            true,
            Change::Byte(journal, 44, 0),
            Fault::BadSentinel(4_194_348),
        ),
        (true, Change::Without(inodes), Fault::InodesBad),
        (true, Change::Without(file(0x600, 0)), Fault::NoHead(1536)),
        (false, Change::Without(file(1, 0)), Fault::NoHead(1)),
    ] {
        let objects = if is_first {
            first_run(alloc, rank)?
        } else {
            expired(alloc, rank)?
        };
        let objects = changed(alloc, objects, &change)?;
        assert_eq!(rt; fault_of(&rt, alloc, &objects)?, Some(want), "{change:?}");
    }
    Ok(())
}
