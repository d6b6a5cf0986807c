//! Names, paths, object names and records by their tables.

use mj_base::*;
use std::alloc::{AllocError, Global};
use std::test::Fail;

// Why bytes are no name.
fn name_refusal(alloc: Global, bytes: &[u8]) -> Option<NameRefusal> {
    Name::read(alloc, bytes).err()
}

static NO_NAMES: [(&[u8], NameRefusal); 5] = [
    (b"", NameRefusal::Empty),
    (b"a/b\0", NameRefusal::BadByte(1)),
    (b"..\0", NameRefusal::BadByte(2)),
    (b".", NameRefusal::Dots),
    (b"..", NameRefusal::Dots),
];

#[test]
fn other_bytes_are_no_name(rt: HostRuntime) {
    let alloc = rt.alloc();
    for (bytes, want) in &NO_NAMES {
        assert_eq!(rt; name_refusal(alloc, bytes), Some(*want), "{bytes:?}");
    }
    let long = [b'a'; 256];
    assert_eq!(rt; name_refusal(alloc, &long), Some(NameRefusal::TooLong(256)));
}

fn copied_name(alloc: Global, bytes: &[u8]) -> Result<Name, NameRefusal> {
    let name = Name::read(alloc, bytes)?;
    Ok(name.copy(alloc)?)
}

// Whether the copy of a name is that name, and has its bytes.
fn is_kept(alloc: Global, bytes: &[u8]) -> Result<bool, NameRefusal> {
    let copy = copied_name(alloc, bytes)?;
    let name = Name::read(alloc, bytes)?;
    Ok(copy.as_slice() == bytes && name == copy)
}

static NAMES: [&[u8]; 3] = [b"a", b"...", b"\xff \n"];

#[test]
fn a_name_keeps_its_bytes(rt: HostRuntime) {
    for bytes in &NAMES {
        assert_eq!(rt; is_kept(rt.alloc(), bytes), Ok(true), "{bytes:?}");
    }
    assert_eq!(rt; is_kept(rt.alloc(), &[b'a'; 255]), Ok(true));
}

// Whether a name stands before another.
fn is_before(alloc: Global, first: &[u8], second: &[u8]) -> Result<bool, NameRefusal> {
    let first = Name::read(alloc, first)?;
    let second = Name::read(alloc, second)?;
    Ok(first < second)
}

#[test]
fn names_go_by_their_bytes(rt: HostRuntime) {
    assert_eq!(rt; is_before(rt.alloc(), b"a", b"a\x01"), Ok(true));
}

// A path of this many names.
fn deep(alloc: Global, depth: usize) -> Result<Vec<u8>, AllocError> {
    let mut text = Vec::new(alloc);
    for _ in 0..depth {
        text.extend_from_slice(b"/d")?;
    }
    Ok(text)
}

fn path_refusal(alloc: Global, text: &[u8]) -> Option<PathRefusal> {
    Path::read(alloc, text).err()
}

static NO_PATHS: [(&[u8], PathRefusal); 11] = [
    (b"", PathRefusal::NoSlash),
    (b"a", PathRefusal::NoSlash),
    (b"/a%2f", PathRefusal::BadEscape(2)),
    (b"/a%61", PathRefusal::BadEscape(2)),
    (b"/%C3", PathRefusal::BadEscape(1)),
    (b"/a//%4", PathRefusal::BadEscape(4)),
    (b"/a b", PathRefusal::BadEscape(2)),
    (b"/a//b", PathRefusal::BadName(1, NameRefusal::Empty)),
    (b"/a/", PathRefusal::BadName(1, NameRefusal::Empty)),
    (b"/../%00", PathRefusal::BadName(0, NameRefusal::Dots)),
    (b"/%00", PathRefusal::BadName(0, NameRefusal::BadByte(0))),
];

#[test]
fn other_texts_are_no_path(rt: HostRuntime) -> Result<(), Fail> {
    let alloc = rt.alloc();
    for (text, want) in &NO_PATHS {
        assert_eq!(rt; path_refusal(alloc, text), Some(*want), "{text:?}");
    }
    let long = deep(alloc, 65)?;
    assert_eq!(rt; path_refusal(alloc, &long), Some(PathRefusal::TooDeep(65)));
    Ok(())
}

fn copied_path(alloc: Global, text: &[u8]) -> Result<Path, PathRefusal> {
    let path = Path::read(alloc, text)?;
    Ok(path.copy(alloc)?)
}

// Whether the copy of a path has this text again, and so many names.
fn is_spelled_again(alloc: Global, text: &[u8], depth: usize) -> Result<bool, PathRefusal> {
    let path = copied_path(alloc, text)?;
    let mut out = Vec::new(alloc);
    path.append_text(&mut out)?;
    Ok(out.as_slice() == text && path.names().len() == depth)
}

static PATHS: [(&[u8], usize); 3] = [(b"/", 0), (b"/a", 1), (b"/a/b%20c/%25%7f%c3~!", 3)];

#[test]
fn a_path_has_one_text(rt: HostRuntime) -> Result<(), Fail> {
    let alloc = rt.alloc();
    for (text, depth) in &PATHS {
        assert_eq!(rt; is_spelled_again(alloc, text, *depth), Ok(true), "{text:?}");
    }
    let long = deep(alloc, 64)?;
    assert_eq!(rt; is_spelled_again(alloc, &long, 64), Ok(true));
    Ok(())
}

#[test]
fn texts(rt: HostRuntime) -> Result<(), Fail> {
    let alloc = rt.alloc();
    let mut out = Vec::new(alloc);
    escape(b"a/b \xc3%", &mut out)?;
    assert_eq!(rt; out.as_slice(), b"a/b%20%c3%25".as_slice());
    assert_eq!(rt; unescape(alloc, &out)?.as_slice(), b"a/b \xc3%".as_slice());
    assert_eq!(rt;
        unescape(alloc, b"ab%2").err(),
        Some(EscapeRefusal::BadEscape(2))
    );
    Ok(())
}

fn target_refusal(alloc: Global, bytes: &[u8]) -> Option<TargetRefusal> {
    Target::read(alloc, bytes).err()
}

#[test]
fn other_bytes_are_no_target(rt: HostRuntime) -> Result<(), Fail> {
    let alloc = rt.alloc();
    let long = Vec::from_elem(alloc, b'a', 4_096)?;
    assert_eq!(rt; target_refusal(alloc, b""), Some(TargetRefusal::Empty));
    assert_eq!(rt;
        target_refusal(alloc, &long),
        Some(TargetRefusal::TooLong(4_096))
    );
    assert_eq!(rt;
        target_refusal(alloc, b"a\0"),
        Some(TargetRefusal::BadByte(1))
    );
    Ok(())
}

// Whether the copy of a target has its bytes.
fn is_copied(alloc: Global, bytes: &[u8]) -> Result<bool, TargetRefusal> {
    let target = Target::read(alloc, bytes)?;
    let copy = target.copy(alloc)?;
    Ok(copy.as_slice() == bytes)
}

#[test]
fn a_target_keeps_its_bytes(rt: HostRuntime) -> Result<(), Fail> {
    let long = Vec::from_elem(rt.alloc(), b'a', 4_095)?;
    assert_eq!(rt; is_copied(rt.alloc(), &long), Ok(true));
    assert_eq!(rt; Target::empty(rt.alloc()).as_slice(), b"".as_slice());
    Ok(())
}

// Object names of files in the order of their texts: 0x200 before 0x3.
static FILES: [(u64, u64, &[u8]); 7] = [
    (0, 0, b"0.00000000"),
    (1, 0, b"1.00000000"),
    (0x100_0000_0000, 0, b"10000000000.00000000"),
    (0x200, 7, b"200.00000007"),
    (0x200, 0x1_0000_0000, b"200.100000000"),
    (3, 0, b"3.00000000"),
    (u64::MAX, u64::MAX, b"ffffffffffffffff.ffffffffffffffff"),
];

// And behind every file the tables of ranks: the number of one, and whether it is that of its inodes.
static TABLES: [(u8, bool, &[u8]); 4] = [
    (0, true, b"mds0_inotable"),
    (0, false, b"mds0_sessionmap"),
    (15, true, b"mds15_inotable"),
    (9, false, b"mds9_sessionmap"),
];

fn table_of(rank: u8, of_inodes: bool) -> Option<ObjectName> {
    let rank = RankNo::new(rank)?;
    Some(if of_inodes {
        ObjectName::InoTable(rank)
    } else {
        ObjectName::SessionMap(rank)
    })
}

// Whether an object's name has this text, and is read from it.
fn is_spelled(alloc: Global, name: ObjectName, text: &[u8]) -> Result<bool, AllocError> {
    let spelled = name.text(alloc)?;
    Ok(spelled.as_slice() == text && ObjectName::read(text) == Some(name))
}

fn file(ino: u64, index: u64) -> ObjectName {
    ObjectName::File { ino, index }
}

#[test]
fn objects_have_their_texts(rt: HostRuntime) {
    for (ino, index, text) in &FILES {
        let spelled = is_spelled(rt.alloc(), file(*ino, *index), text);
        assert_eq!(rt; spelled, Ok(true), "{text:?}");
    }
    for (rank, of_inodes, text) in &TABLES {
        match table_of(*rank, *of_inodes) {
            Some(name) => {
                assert_eq!(rt; is_spelled(rt.alloc(), name, text), Ok(true), "{text:?}")
            }
            None => assert!(rt; false, "{text:?}"),
        }
    }
}

// Whether the object of a text stands before that of another.
fn goes_before(first: &[u8], second: &[u8]) -> bool {
    match (ObjectName::read(first), ObjectName::read(second)) {
        (Some(first), Some(second)) => first < second,
        _ => false,
    }
}

#[test]
fn objects_stand_in_order(rt: HostRuntime) {
    for pair in FILES.windows(2) {
        assert!(rt; goes_before(pair[0].2, pair[1].2), "{:?}", pair[1].2);
    }
    assert!(rt; goes_before(b"ffffffffffffffff.ffffffffffffffff", b"mds0_inotable"));
    for pair in TABLES.windows(2) {
        assert!(rt; goes_before(pair[0].2, pair[1].2), "{:?}", pair[1].2);
    }
}

static NO_OBJECTS: [&[u8]; 11] = [
    b"",
    b"1",
    b"1.0000000",
    b"01.00000000",
    b"1.000000000",
    b"A.00000000",
    b"+1.00000000",
    b"10000000000000000.00000000",
    b"mds16_inotable",
    b"mds00_inotable",
    b"mds0_table",
];

#[test]
fn other_texts_are_no_object(rt: HostRuntime) {
    for text in &NO_OBJECTS {
        assert_eq!(rt; ObjectName::read(text), None, "{text:?}");
    }
}

const BYTES: [u8; 15] = [1, 2, 3, 4, 5, 6, 7, 8, 9, 10, 11, 12, 13, 14, 15];

#[test]
fn numbers_are_put(rt: HostRuntime) -> Result<(), Fail> {
    let mut out = Vec::new(rt.alloc());
    put_u8(0x01, &mut out)?;
    put_u16(0x0302, &mut out)?;
    put_u32(0x0706_0504, &mut out)?;
    put_u64(0x0f0e_0d0c_0b0a_0908, &mut out)?;
    assert_eq!(rt; out.as_slice(), BYTES.as_slice());
    Ok(())
}

#[test]
fn numbers_are_taken(rt: HostRuntime) {
    let mut cursor = Cursor::new(&BYTES);
    assert_eq!(rt; cursor.take_u8(), Some(0x01));
    assert_eq!(rt; cursor.take_u16(), Some(0x0302));
    assert_eq!(rt; cursor.take_u32(), Some(0x0706_0504));
    assert_eq!(rt; cursor.take_bytes(9), None);
    assert_eq!(rt; cursor.read_bytes(9), Err(Fault::Left(8)));
    assert_eq!(rt; cursor.take_u64(), Some(0x0f0e_0d0c_0b0a_0908));
    assert!(rt; cursor.is_empty());
}

#[test]
fn numbers_are_read(rt: HostRuntime) {
    let mut cursor = Cursor::new(&BYTES);
    assert_eq!(rt; cursor.read_u8(), Ok(0x01));
    assert_eq!(rt; cursor.read_u16(), Ok(0x0302));
    assert_eq!(rt; cursor.read_u32(), Ok(0x0706_0504));
    assert_eq!(rt; cursor.read_u64(), Ok(0x0f0e_0d0c_0b0a_0908));
    assert_eq!(rt; cursor.read_u8(), Err(Fault::Left(0)));
}

/// The record of a directory that was just made, and something behind it.
const RECORD: [u8; 46] =
    *b"\x01\0\0\0\0\0\x01\0\0\x01\xed\x01\0\0\0\0\0\0\0\0\0\0\0\0\0\0\0\0\x65\0\0\0\0\0\0\0\x01\0\0\0\0\0rest";

#[test]
fn a_record_is_read(rt: HostRuntime) -> Result<(), Fail> {
    let alloc = rt.alloc();
    let mut cursor = Cursor::new(&RECORD);
    let inode = record_read(alloc, &mut cursor)?.copy(alloc)?;
    assert_eq!(rt; cursor.rest(), b"rest".as_slice());
    assert_eq!(rt; (inode.ino, inode.kind), (Ino(0x100_0000_0000), Kind::Dir));
    assert_eq!(rt; (inode.mode, inode.mtime, inode.links), (0o755, 101, 1));
    Ok(())
}

#[test]
fn a_record_is_written(rt: HostRuntime) -> Result<(), Fail> {
    let made = InodeRecord {
        ino: Ino(0x100_0000_0000),
        kind: Kind::Dir,
        mode: 0o755,
        uid: 0,
        gid: 0,
        size: 0,
        mtime: 101,
        links: 1,
        target: Target::empty(rt.alloc()),
    };
    let mut out = Vec::new(rt.alloc());
    record_write(&made, &mut out)?;
    assert_eq!(rt; out.as_slice(), &RECORD[..42]);
    Ok(())
}

// A byte's place, what it becomes, how many bytes there are, and where the record is then bad.
static BAD_RECORDS: [(usize, u8, usize, u64); 8] = [
    (0, 2, 46, 0),
    (0, 1, 0, 0),
    (0, 1, 8, 1),
    (9, 4, 46, 9),
    (11, 0x10, 46, 10),
    (0, 1, 27, 20),
    (40, 1, 46, 40),
    (9, 3, 46, 40),
];

// Why the bytes are no record, and how many are left for the next reader.
fn record_refusal(alloc: Global, bytes: &[u8]) -> (Option<RecordRefusal>, usize) {
    let mut cursor = Cursor::new(bytes);
    let refusal = record_read(alloc, &mut cursor).err();
    (refusal, cursor.left())
}

#[test]
fn a_wrong_record_is_left(rt: HostRuntime) {
    for (at, byte, len, want) in &BAD_RECORDS {
        let mut wrong = RECORD;
        if let Some(place) = wrong.get_mut(*at) {
            *place = *byte;
        }
        let (refusal, left) = record_refusal(rt.alloc(), wrong.get(..*len).unwrap_or(&[]));
        assert_eq!(rt; refusal, Some(RecordRefusal::RecordBad(*want)), "at {at}");
        assert_eq!(rt; left, *len);
    }
}

#[test]
fn copies(rt: HostRuntime) -> Result<(), Fail> {
    let alloc = rt.alloc();
    let key = Items::of_bytes(alloc, b"a_head")?;
    let damage = Damage::DirfragBad(Ino(1), key);
    match damage.copy(alloc)? {
        Damage::DirfragBad(ino, key) => {
            assert_eq!(rt; ino, Ino(1));
            assert_eq!(rt;
                key.copy(alloc)?.into_vec().as_slice(),
                b"a_head".as_slice()
            );
        }
        other => assert!(rt; false, "{other:?}"),
    }
    Ok(())
}
