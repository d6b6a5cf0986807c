//! Limits at their edge: 64 kept replies, 1,024 links, 4,096 sessions and the last inode. 65,536 opens and 100,000 entries of
//! a directory take a test too long: of them the contracts speak alone.

ghost use Rattle.std.specs.Prelude.{◌≡◌, [], IfOk, OnOk};

use super::asking::request;
use super::examples::plain_tree;
use super::served::{ask, begin};
use mj_base::{Ino, Items, RankNo};
use mj_cache::Cache;
use mj_cells::{CellKey, CellValue, CellWrite};
use mj_plan::new_cells;
use mj_tables::SafeCells;
use mj_tree::{PlainTree, Reply};
use std::alloc::{AllocError, Global};
use std::test::Fail;

/// A request with a number in it.
#[derive(Clone, Copy, Debug)]
enum Numbered {
    /// The client with the number begins its session.
    Begin,
    /// And ends it.
    End,
    /// Client 4 makes a directory of its own for the number, and may still ask from this one on.
    Mkdir(u32),
    /// Client 4 makes the file /f, and keeps only this reply; likewise the next two.
    Create,
    /// It links /f under a name of its own for the number.
    Link,
    /// It takes the first of those links away.
    Unlink,
    /// Client 6 opens /f, and may still ask from this number on.
    Open(u32),
}

/// What is asked with each number from one to below another, and the error of each answer; 0 for none.
type Step = (Numbered, u32, u32, u16);

static LIMITS: [Step; 22] = [
    (Numbered::Begin, 4, 5, 0),
    // 64 kept replies, with that of the session
    (Numbered::Mkdir(1), 2, 65, 0),
    (Numbered::Mkdir(1), 65, 66, 28),
    (Numbered::Mkdir(1), 64, 65, 0),
    (Numbered::Mkdir(2), 65, 66, 0),
    (Numbered::Mkdir(2), 66, 67, 28),
    (Numbered::Mkdir(1), 1, 2, 116),
    // 1,024 links
    (Numbered::Create, 66, 67, 0),
    (Numbered::Link, 67, 1_090, 0),
    (Numbered::Link, 1_090, 1_091, 31),
    (Numbered::Unlink, 1_090, 1_091, 0),
    (Numbered::Link, 1_091, 1_092, 0),
    (Numbered::Link, 1_092, 1_093, 31),
    // 4,096 sessions
    (Numbered::Begin, 5, 4_100, 0),
    (Numbered::Begin, 4_100, 4_101, 28),
    (Numbered::End, 5, 6, 0),
    (Numbered::Begin, 4_100, 4_101, 0),
    (Numbered::Begin, 4_101, 4_102, 28),
    // 64 kept replies of a file that stays open
    (Numbered::Open(1), 2, 65, 0),
    (Numbered::Open(1), 65, 66, 28),
    (Numbered::Open(2), 65, 66, 0),
    (Numbered::Open(2), 66, 67, 28),
];

// Of a rank that has two inodes left, of which it gives one.
static LAST_INODE: [Step; 3] = [
    (Numbered::Begin, 4, 5, 0),
    (Numbered::Mkdir(1), 2, 3, 0),
    (Numbered::Mkdir(1), 3, 4, 28),
];

fn line_of(alloc: Global, what: Numbered, n: u32) -> Result<String, AllocError> {
    match what {
        Numbered::Begin => format!(in alloc; "{n} 1 1 1000 session-open"),
        Numbered::End => format!(in alloc; "{n} 2 2 1000 session-close"),
        Numbered::Mkdir(oldest) => format!(in alloc; "4 {n} {oldest} 1000 mkdir /d{n} 755"),
        Numbered::Create => format!(in alloc; "4 {n} {n} 1000 create /f 644"),
        Numbered::Link => format!(in alloc; "4 {n} {n} 1000 link /f /d2/n{n}"),
        Numbered::Unlink => format!(in alloc; "4 {n} {n} 1000 unlink /d2/n67"),
        Numbered::Open(oldest) => format!(in alloc; "6 {n} {oldest} 1000 open /f"),
    }
}

// The error's number, and 0 where there is none.
fn errno(reply: &Reply) -> u16 {
    match reply {
        Reply::Error(code) => *code,
        _ => 0,
    }
}

// Asks both: the errors of the cache's reply and of the plain tree's.
fn errors_of(
    alloc: Global,
    cache: &mut Cache,
    tree: &mut PlainTree,
    line: &str,
) -> Result<(u16, u16), Fail>
    requires { cache.old.groups ≡ [] }
    ensures { OnOk result (cache.new.groups ≡ []) }
{
    let r = request(alloc, line.as_bytes())?;
    let planned = errno(&ask(alloc, cache, &r)?);
    let replied = errno(&tree.apply(alloc, &r)?);
    Ok((planned, replied))
}

// Asks with each number, and gives the first that is answered otherwise.
fn first_other(
    alloc: Global,
    cache: &mut Cache,
    tree: &mut PlainTree,
    step: &Step,
) -> Result<Option<u32>, Fail>
    requires { cache.old.groups ≡ [] }
    ensures { OnOk result (cache.new.groups ≡ []) }
{
    let (what, first, end, want) = *step;
    for n in first..end {
        let line = line_of(alloc, what, n)?;
        if errors_of(alloc, cache, tree, &line)? != (want, want) {
            return Ok(Some(n));
        }
    }
    Ok(None)
}

// Asks all, and gives the first step with its number that is answered otherwise.
fn failed_step(
    alloc: Global,
    cache: &mut Cache,
    tree: &mut PlainTree,
    steps: &[Step],
) -> Result<Option<(usize, u32)>, Fail>
    requires { cache.old.groups ≡ [] }
{
    for i in 0..steps.len() {
        if let Some(n) = first_other(alloc, cache, tree, &steps[i])? {
            return Ok(Some((i, n)));
        }
    }
    Ok(None)
}

#[test]
fn limits_at_their_edge(rt: HostRuntime) -> Result<(), Fail> {
    let alloc = rt.alloc();
    let mut cache = begin(alloc)?;
    let mut tree = plain_tree(alloc)?;
    assert_eq!(rt; failed_step(alloc, &mut cache, &mut tree, &LIMITS)?, None);
    Ok(())
}

const LAST: u64 = u64::MAX - 1;

fn near_the_last_inode(alloc: Global) -> Result<Cache, Fail>
    ensures { IfOk result (λ cache. cache.groups ≡ []) }
{
    let rank = RankNo::new(0).ok_or("a rank")?;
    let mut cells = new_cells(alloc, rank)?;
    let value = CellValue::Number(LAST);
    let key = CellKey::NextIno;
    cells.put(alloc, CellWrite { key, value })?;
    let cells = SafeCells::of_table(alloc, cells)?;
    let cache = Cache::new(alloc, cells, rank)?;
    Ok(cache)
}

fn tree_near_the_last_inode(alloc: Global) -> PlainTree {
    PlainTree {
        next: Ino(LAST),
        records: Items::from_vec(Vec::new(alloc)),
        links: Items::from_vec(Vec::new(alloc)),
        opens: Items::from_vec(Vec::new(alloc)),
        sessions: Items::from_vec(Vec::new(alloc)),
    }
}

#[test]
fn the_last_inode_is_not_given(rt: HostRuntime) -> Result<(), Fail> {
    let alloc = rt.alloc();
    let mut cache = near_the_last_inode(alloc)?;
    let mut tree = tree_near_the_last_inode(alloc);
    assert_eq!(rt;
        failed_step(alloc, &mut cache, &mut tree, &LAST_INODE)?,
        None
    );
    Ok(())
}
