//! Weights of each operation and reply, counted by hand, and ends through requests that are asked again.

use super::asking::request;
use mj_base::{ClientId, Ino, InodeRecord, Items, Kind, Name, Target, Tid};
use mj_chronicle::*;
use mj_machine::ChronicleEntry;
use mj_tree::{ClientRequest, Op, Reply};
use std::alloc::Global;
use std::test::Fail;

// A request with `/ab/c` and `/d` as its paths, where it has them, and four bytes of target, and what it weighs.
static OPS: [(&str, u64); 15] = [
    ("4 1 1 1000 session-open", 64),
    ("4 1 1 1000 session-close", 64),
    ("4 1 1 1000 mkdir /ab/c 755", 67),
    ("4 1 1 1000 create /ab/c 644", 67),
    ("4 1 1 1000 symlink /ab/c wxyz", 71),
    ("4 1 1 1000 link /ab/c /d", 68),
    ("4 1 1 1000 unlink /ab/c", 67),
    ("4 1 1 1000 rmdir /ab/c", 67),
    ("4 1 1 1000 rename /ab/c /d", 68),
    ("4 1 1 1000 setattr /ab/c 640 1000 1000 5 6", 67),
    ("4 1 1 1000 open /ab/c", 67),
    ("4 1 1 1000 release 7", 64),
    ("4 1 1 1000 lookup /ab/c", 67),
    ("4 1 1 1000 readdir /ab/c", 67),
    ("4 1 1 1000 readlink /ab/c", 67),
];

// Whether an entry weighs this much: from so much it leaves nothing, and from one less it can't be taken.
fn weighs(r: &ClientRequest, reply: &Reply, weight: u64) -> bool {
    less_weight(1000, r, reply) == 1000u64.checked_sub(weight)
        && less_weight(weight.saturating_sub(1), r, reply).is_none()
}

fn line_weighs(alloc: Global, line: &str, weight: u64) -> Result<bool, Fail> {
    let r = request(alloc, line.as_bytes())?;
    Ok(weighs(&r, &Reply::Done { ino: Ino(7) }, weight))
}

#[test]
fn weighs_each_operation(rt: HostRuntime) -> Result<(), Fail> {
    for (line, weight) in &OPS {
        assert!(rt; line_weighs(rt.alloc(), line, *weight)?, "{line}");
    }
    Ok(())
}

#[test]
fn a_name_weighs_its_bytes_and_not_their_text(rt: HostRuntime) -> Result<(), Fail> {
    let r = request(rt.alloc(), b"4 1 1 1000 mkdir /a%20b 755")?;
    assert_eq!(rt; less_weight(67, &r, &Reply::Done { ino: Ino(7) }), Some(0));
    Ok(())
}

fn found(alloc: Global) -> Result<Reply, Fail> {
    Ok(Reply::Found(InodeRecord {
        ino: Ino(7),
        kind: Kind::Symlink,
        mode: 0o777,
        uid: 0,
        gid: 0,
        size: 4,
        mtime: 0,
        links: 1,
        target: Target::of(alloc, b"wxyz")?,
    }))
}

// The names `ab` and `c`.
fn names(alloc: Global) -> Result<Reply, Fail> {
    let mut names = Vec::new(alloc);
    names.push(Name::read(alloc, b"ab")?)?;
    names.push(Name::read(alloc, b"c")?)?;
    Ok(Reply::Names(Items::from_vec(names)))
}

// Whether the reply to a session's beginning weighs this much.
fn reply_weighs(reply: &Reply, weight: u64) -> bool {
    weighs(&session(4, 1), reply, weight)
}

#[test]
fn weighs_each_reply(rt: HostRuntime) -> Result<(), Fail> {
    let alloc = rt.alloc();
    assert!(rt; reply_weighs(&Reply::Done { ino: Ino(7) }, 64));
    assert!(rt; reply_weighs(&Reply::Error(2), 64));
    assert!(rt; reply_weighs(&found(alloc)?, 68));
    assert!(rt; reply_weighs(&names(alloc)?, 67));
    assert!(rt; reply_weighs(&Reply::Link(Target::of(alloc, b"wxyz")?), 68));
    Ok(())
}

// A session's beginning.
fn session(client: u32, tid: u64) -> ClientRequest {
    ClientRequest {
        client: ClientId(client),
        tid: Tid(tid),
        oldest: Tid(1),
        now: 1000,
        op: Op::SessionOpen,
    }
}

// The client, the request's number, and the end of its event: a request with an event, one without, the first asked again
// while its event is known and once it is not, and a client whose request has the same number.
static ASKED: [(u32, u64, Option<u64>); 5] = [
    (4, 1, Some(100)),
    (4, 2, None),
    (4, 1, Some(100)),
    (4, 1, None),
    (5, 1, Some(200)),
];

// The ends of 1 and 2 of client 4 and of 1 of client 5.
fn ends(chronicle: &Chronicle) -> [Option<u64>; 3] {
    [
        chronicle.end_of(ClientId(4), Tid(1)),
        chronicle.end_of(ClientId(4), Tid(2)),
        chronicle.end_of(ClientId(5), Tid(1)),
    ]
}

fn add(
    alloc: Global,
    chronicle: &mut Chronicle,
    asked: &(u32, u64, Option<u64>),
) -> Result<(), Fail> {
    let (client, tid, ends_at) = *asked;
    let entry = ChronicleEntry {
        request: session(client, tid),
        reply: Reply::Done { ino: Ino(0) },
        ends_at,
    };
    if !chronicle.has_room(&entry.request, &entry.reply) {
        return Err(Fail::from("no room"));
    }
    Ok(chronicle.add(alloc, entry)?)
}

fn filled(alloc: Global) -> Result<Chronicle, Fail> {
    let mut chronicle = Chronicle::new(alloc);
    for asked in &ASKED {
        add(alloc, &mut chronicle, asked)?;
    }
    Ok(chronicle)
}

#[test]
fn tells_the_last_end(rt: HostRuntime) -> Result<(), Fail> {
    let chronicle = filled(rt.alloc())?;
    let copy = chronicle.copy(rt.alloc())?;
    assert_eq!(rt; copy.len(), 5);
    assert_eq!(rt; ends(&copy), [Some(100), None, Some(200)]);
    Ok(())
}

// The ends after each entry that is taken back.
static LEFT: [[Option<u64>; 3]; 5] = [
    [Some(100), None, None],
    [Some(100), None, None],
    [Some(100), None, None],
    [Some(100), None, None],
    [None, None, None],
];

#[test]
fn tells_the_last_end_of_what_is_left(rt: HostRuntime) -> Result<(), Fail> {
    let mut chronicle = filled(rt.alloc())?;
    chronicle.within_limits();
    for (i, want) in LEFT.iter().enumerate() {
        assert!(rt; 0 < chronicle.entries().len());
        chronicle.drop_last();
        assert_eq!(rt; ends(&chronicle), *want, "after {i}");
    }
    assert_eq!(rt; chronicle.len(), 0);
    Ok(())
}
