//! A mount over a store in memory, step by step, and a rank over one: requests between writes and acknowledgements.

use super::asking::{has_text, request};
use mj_base::{Items, ObjectName, RankNo};
use mj_layout::{Header, Layout, Phase};
use mj_memstore::MemStore;
use mj_rank::{MountStep, Mounting, Rank, Reaped};
use mj_store::{ObjectAct, ObjectOp, ObjectStore};
use std::alloc::{AllocError, Global};
use std::test::Fail;

fn object(index: u64) -> ObjectName {
    ObjectName::File { ino: 0x200, index }
}

/// An object of the journal of rank 0 with these bytes.
fn put(alloc: Global, store: &mut MemStore, index: u64, bytes: Vec<u8>) -> Result<(), Fail> {
    let name = object(index);
    let act = ObjectAct::Write {
        at: 0,
        bytes: Items::from_vec(bytes),
    };
    match store.submit(alloc, ObjectOp { name, act }) {
        Ok(_) => {}
        Err(_) => return Err(Fail::from("a write was refused")),
    }
    let _ = store.step(&name)?;
    Ok(())
}

/// The header of a new journal of this layout.
fn header(su: u32, sc: u32, os: u32) -> Result<Header, Fail> {
    let layout = match Layout::new(su, sc, os) {
        Ok(layout) => layout,
        Err(_) => return Err(Fail::from("a layout was refused")),
    };
    let start = layout.period();
    Ok(Header {
        trimmed: start,
        expire: start,
        write: start,
        layout,
        format: 1,
        phase: Phase::Serving,
        epoch: 0,
    })
}

fn begun(alloc: Global, store: MemStore) -> Result<Mounting<MemStore>, Fail> {
    let Some(rank) = RankNo::new(0) else {
        return Err(Fail::from("rank 0 was refused"));
    };
    match Mounting::begin(alloc, store, rank) {
        Ok(mount) => Ok(mount),
        Err(_) => Err(Fail::from("the mount was refused")),
    }
}

/// The next step of a mount, if it is not refused.
fn stepped(alloc: Global, mount: &mut Mounting<MemStore>) -> Option<MountStep> {
    mount.step(alloc).ok()
}

/// Whether the next step sends an operation to this object.
fn sends(alloc: Global, mount: &mut Mounting<MemStore>, index: u64) -> bool {
    match stepped(alloc, mount) {
        Some(MountStep::Sent(name)) => name == object(index),
        _ => false,
    }
}

/// Whether the mount waits for an operation on this object, and takes its acknowledgement once it was tried.
fn settles(alloc: Global, mount: &mut Mounting<MemStore>, index: u64) -> bool {
    if !matches!(stepped(alloc, mount), Some(MountStep::Waiting)) {
        return false;
    }
    let Some((_, name)) = mount.oldest_sent() else {
        return false;
    };
    if name != object(index) || mount.apply(&name).is_err() {
        return false;
    }
    matches!(stepped(alloc, mount), Some(MountStep::Reaped(_)))
}

/// Whether the objects 2 and 3 are cut, both before the first of them is awaited, between the two headers.
fn cuts_two(alloc: Global, mount: &mut Mounting<MemStore>) -> bool {
    sends(alloc, mount, 0)
        && settles(alloc, mount, 0)
        && sends(alloc, mount, 2)
        && sends(alloc, mount, 3)
        && settles(alloc, mount, 2)
        && settles(alloc, mount, 3)
        && sends(alloc, mount, 0)
        && settles(alloc, mount, 0)
        && matches!(stepped(alloc, mount), Some(MountStep::Ready))
        && mount.oldest_sent().is_none()
}

#[test]
fn what_lies_above_the_tail_is_cut_before_a_rank_serves(rt: HostRuntime) -> Result<(), Fail> {
    let alloc = rt.alloc();
    let mut store = MemStore::new(alloc);
    put(
        alloc,
        &mut store,
        0,
        header(4_194_304, 1, 4_194_304)?.write(alloc)?,
    )?;
    put(alloc, &mut store, 2, vec![in alloc; 7u8; 4_096]?)?;
    put(alloc, &mut store, 3, vec![in alloc; 7u8; 1]?)?;
    store.restart()?;
    let mut mount = begun(alloc, store)?;
    let tail = mount.tail();
    let is_cut = cuts_two(alloc, &mut mount);
    let mut store = mount.into_store();
    assert_eq!(rt; tail, 4_194_304);
    assert!(rt; is_cut);
    assert_eq!(rt; store.size(&object(2))?, Some(0));
    assert_eq!(rt; store.size(&object(3))?, Some(0));
    Ok(())
}

// ---- a rank

/// Rank 0 over a new journal of this layout.
fn new_rank(alloc: Global, su: u32, sc: u32, os: u32) -> Result<Rank<MemStore>, Fail> {
    let mut store = MemStore::new(alloc);
    put(alloc, &mut store, 0, header(su, sc, os)?.write(alloc)?)?;
    store.restart()?;
    mounted(alloc, store)
}

/// The rank that serves once the mount has come to its end.
fn mounted(alloc: Global, store: MemStore) -> Result<Rank<MemStore>, Fail> {
    let mut mount = begun(alloc, store)?;
    for _ in 0..100 {
        if !goes_on(alloc, &mut mount) {
            break;
        }
    }
    match mount.step(alloc) {
        Ok(MountStep::Ready) => Ok(mount.finish(alloc)),
        _ => {
            let _ = mount.into_store();
            Err(Fail::from("the mount has not come to its end"))
        }
    }
}

fn goes_on(alloc: Global, mount: &mut Mounting<MemStore>) -> bool {
    match stepped(alloc, mount) {
        None => false,
        Some(MountStep::Ready) => false,
        Some(MountStep::Waiting) => {
            tries_oldest(mount);
            true
        }
        Some(_) => true,
    }
}

fn tries_oldest(mount: &mut Mounting<MemStore>) {
    if let Some((_, name)) = mount.oldest_sent() {
        let _ = mount.apply(&name);
    }
}

/// A row of a run.
#[derive(Clone, Copy)]
enum Row {
    /// The request of these words is answered so, and an end is told or not.
    Ask(&'static str, &'static str, bool),
    /// Likewise, its last word is a target of 4,000 bytes.
    Fill(&'static str, &'static str, bool),
    /// A write is sent, which ends with its stripe unit or before.
    Flush(bool),
    /// The write to this object is done. The safe position rises or stays.
    Done(u64, bool),
}

/// The words, and so many `x` behind them.
fn filled(alloc: Global, text: &str, fills: usize) -> Result<Vec<u8>, AllocError> {
    let mut line = Vec::from_slice(alloc, text.as_bytes())?;
    for _ in 0..fills {
        line.push(b'x')?;
    }
    Ok(line)
}

/// Whether a request is answered so, and an end is told as wanted.
fn is_asked(
    alloc: Global,
    rank: &mut Rank<MemStore>,
    line: &[u8],
    want: &str,
    ends: bool,
) -> Result<bool, Fail> {
    let r = request(alloc, line)?;
    match rank.request(alloc, &r) {
        Ok(early) => Ok(early.ends_at.is_some() == ends && has_text(alloc, &early.reply, want)?),
        Err(_) => Ok(false),
    }
}

fn is_done(rank: &mut Rank<MemStore>, index: u64, rises: bool) -> bool {
    if rank.apply(&object(index)).is_err() {
        return false;
    }
    match rank.reap() {
        Ok(
            Reaped::One {
                safe_from,
                safe_to,
                ..
            },
        ) => (safe_from < safe_to) == rises,
        _ => false,
    }
}

fn is_flushed(alloc: Global, rank: &mut Rank<MemStore>, whole: bool) -> bool {
    match rank.flush(alloc) {
        Ok(span) => span.from < span.to && (span.to % 4_096 == 0) == whole,
        Err(_) => false,
    }
}

/// Whether a row is as it says.
fn is_so(alloc: Global, rank: &mut Rank<MemStore>, row: &Row) -> Result<bool, Fail> {
    match row {
        Row::Ask(text, want, ends) => is_asked(alloc, rank, text.as_bytes(), want, *ends),
        Row::Fill(text, want, ends) => {
            let line = filled(alloc, text, 4_000)?;
            is_asked(alloc, rank, &line, want, *ends)
        }
        Row::Flush(whole) => Ok(is_flushed(alloc, rank, *whole)),
        Row::Done(index, rises) => Ok(is_done(rank, *index, *rises)),
    }
}

/// Two stripe units of 4,096 bytes are written, to the objects 2 and 3, and the second is done first.
static ROWS: [Row; 17] = [
    Row::Ask("7 1 1 1000 session-open", "done 0", true),
    Row::Ask("7 2 1 1000 mkdir /d 755", "done 1099511627776", true),
    Row::Fill("7 3 1 1000 symlink /d/l ", "done 1099511627777", true),
    Row::Ask("7 2 1 1000 mkdir /d 755", "done 1099511627776", true),
    Row::Flush(true),
    Row::Flush(false),
    Row::Done(3, false),
    Row::Ask("7 2 1 1000 mkdir /d 755", "done 1099511627776", true),
    Row::Done(2, true),
    Row::Ask("7 2 1 1000 mkdir /d 755", "done 1099511627776", false),
    Row::Ask("7 4 1 1000 unlink /d/l", "done 1099511627777", true),
    Row::Ask("7 5 1 1000 create /d/f 644", "done 1099511627778", true),
    Row::Ask("7 6 1 1000 rename /d /e", "done 1099511627776", true),
    Row::Ask("7 7 1 1000 mkdir /e 755", "error 17", false),
    Row::Flush(false),
    Row::Done(3, true),
    Row::Ask("7 6 1 1000 rename /d /e", "done 1099511627776", false),
];

const TREE: &str =
    "/\n/e dir 0755 0 0 0 1000 1 1099511627776\n/e/f file 0644 0 0 0 1000 1 1099511627778\n";

/// The first row that is not as it says, and what the rank tells afterwards.
#[derive(Drop)]
struct Told {
    wrong: Option<usize>,
    tree: Vec<u8>,
    events: u64,
}

fn first_wrong(alloc: Global, rank: &mut Rank<MemStore>) -> Result<Option<usize>, Fail> {
    for (at, row) in ROWS.iter().enumerate() {
        if !is_so(alloc, rank, row)? {
            return Ok(Some(at));
        }
    }
    Ok(None)
}

fn play(alloc: Global, rank: &mut Rank<MemStore>) -> Result<Told, Fail> {
    Ok(Told {
        wrong: first_wrong(alloc, rank)?,
        tree: rank.listing(alloc, false)?,
        events: rank.segment_events(),
    })
}

#[test]
fn a_rank_answers_and_makes_safe(rt: HostRuntime) -> Result<(), Fail> {
    let alloc = rt.alloc();
    let mut rank = new_rank(alloc, 4_096, 2, 65_536)?;
    let told = play(alloc, &mut rank);
    let mut store = rank.into_store();
    let Told {
        wrong,
        tree,
        events,
    } = told?;
    assert_eq!(rt; wrong, None);
    assert_eq!(rt; tree.as_slice(), TREE.as_bytes());
    store.restart()?;
    let rank = mounted(alloc, store)?;
    let again = rank.listing(alloc, false);
    let none = rank.segment_events();
    let _ = rank.into_store();
    assert_eq!(rt; again?.as_slice(), TREE.as_bytes());
    assert_eq!(rt; (events, none), (6, 0));
    Ok(())
}
