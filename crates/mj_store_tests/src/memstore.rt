//! What acts make of objects, which calls fail, and what a restart leaves.

ghost use Rattle.std.specs.Prelude.{◌≡◌, IfOk};
ghost use Rattle.mj_store.specs.Object.{HasShortKeys};
ghost use Rattle.mj_memstore.specs.Holding.{AreInOrder};

use mj_base::{Items, OpNo, RankNo};
use mj_memstore::MemStore;
use mj_store::{
    Ack, HeadAct, HeldObject, ObjectAct, ObjectName, ObjectOp, ObjectStore, Pair, StoreFault,
    SubmitRefusal,
};
use std::alloc::{AllocError, Global};
use std::process::Abort;
use std::test::Fail;

const FILE: ObjectName = ObjectName::File {
    ino: 0x200,
    index: 1,
};

// An act of the tables below.
#[derive(Clone, Copy)]
enum Told {
    Write(u64, &'static [u8]),
    Truncate(u64),
    Remove,
    // a key is dropped, then it is set to the first and to the second value, and `a` is set too
    Keys(&'static [u8], &'static [u8], &'static [u8]),
    Drop(&'static [u8]),
    Head(&'static [u8]),
}

fn pair(alloc: Global, key: &[u8], value: &[u8]) -> Result<Pair, AllocError>
    ensures { IfOk result (λ p. p.key ≡ key.now) }
{
    Ok(Pair {
        key: Items::of_bytes(alloc, key)?,
        value: Items::of_bytes(alloc, value)?,
    })
}

fn act(alloc: Global, told: Told) -> Result<ObjectAct, Fail>
    ensures { IfOk result HasShortKeys }
{
    match told {
        Told::Write(at, bytes) => Ok(ObjectAct::Write {
            at,
            bytes: Items::of_bytes(alloc, bytes)?,
        }),
        Told::Truncate(len) => Ok(ObjectAct::Truncate { len }),
        Told::Remove => Ok(ObjectAct::Remove),
        Told::Keys(key, first, second) => keys(alloc, key, first, second),
        Told::Drop(key) => keys_dropped(alloc, key),
        Told::Head(head) => Ok(ObjectAct::Keys {
            set: Items::from_vec(Vec::new(alloc)),
            drop: Items::from_vec(Vec::new(alloc)),
            head: HeadAct::Put(Items::of_bytes(alloc, head)?),
        }),
    }
}

fn keys(alloc: Global, key: &[u8], first: &[u8], second: &[u8]) -> Result<ObjectAct, Fail>
    ensures { IfOk result HasShortKeys }
{
    if key.len() > 65_535 {
        return Err(Fail::from("a key is too long"));
    }
    let set = vec![in alloc;
        pair(alloc, key, first)?,
        pair(alloc, b"a", b"0")?,
        pair(alloc, key, second)?,
    ]?;
    Ok(ObjectAct::Keys {
        set: Items::from_vec(set),
        drop: Items::from_vec(vec![in alloc; Items::of_bytes(alloc, key)?]?),
        head: HeadAct::Leave,
    })
}

fn keys_dropped(alloc: Global, key: &[u8]) -> Result<ObjectAct, Fail>
    ensures { IfOk result HasShortKeys }
{
    if key.len() > 65_535 {
        return Err(Fail::from("a key is too long"));
    }
    Ok(ObjectAct::Keys {
        set: Items::from_vec(Vec::new(alloc)),
        drop: Items::from_vec(vec![in alloc; Items::of_bytes(alloc, key)?]?),
        head: HeadAct::Leave,
    })
}

fn push_head(out: &mut Vec<u8>, head: &Items<u8>) -> Result<(), AllocError> {
    out.push(b'#')?;
    out.extend_from_slice(head.as_slice())
}

fn push_pair(out: &mut Vec<u8>, pair: &Pair) -> Result<(), AllocError> {
    out.push(b' ')?;
    out.extend_from_slice(pair.key.as_slice())?;
    out.push(b'=')?;
    out.extend_from_slice(pair.value.as_slice())
}

fn push_name(alloc: Global, out: &mut Vec<u8>, name: &ObjectName) -> Result<(), AllocError> {
    let text = name.text(alloc)?;
    out.extend_from_slice(&text)?;
    Ok(out.push(b' ')?)
}

// An object's name, bytes, head and pairs.
fn push_object(alloc: Global, out: &mut Vec<u8>, object: &HeldObject) -> Result<(), AllocError> {
    push_name(alloc, out, &object.name)?;
    out.extend_from_slice(object.bytes.as_slice())?;
    if let Some(head) = &object.head {
        push_head(out, head)?;
    }
    for pair in object.pairs.as_slice() {
        push_pair(out, pair)?;
    }
    Ok(out.push(b'\n')?)
}

// The objects that are there.
fn shown(alloc: Global, store: &MemStore) -> Result<Vec<u8>, AllocError> {
    let objects = store.all_objects(alloc)?;
    let mut out = Vec::new(alloc);
    for object in &objects {
        push_object(alloc, &mut out, object)?;
    }
    Ok(out)
}

fn is_shown(alloc: Global, store: &MemStore, want: &[u8]) -> Result<bool, AllocError> {
    let out = shown(alloc, store)?;
    Ok(out.as_slice() == want)
}

fn submit(alloc: Global, store: &mut MemStore, told: Told) -> Result<Result<OpNo, u64>, Fail> {
    let act = act(alloc, told)?;
    match store.submit(alloc, ObjectOp { name: FILE, act }) {
        Ok(op) => Ok(Ok(op)),
        Err(SubmitRefusal::Failed(fault)) => Ok(Err(fault.faults)),
        Err(SubmitRefusal::Memory(_)) => Err(Fail::from("there was no memory")),
    }
}

// An act, and what is there afterwards.
static ACTS: [(Told, &[u8]); 15] = [
    (Told::Truncate(3), b""),
    (Told::Remove, b""),
    (Told::Write(3, b"ab"), b"200.00000001 \0\0\0ab\n"),
    (Told::Write(1, b"xy"), b"200.00000001 \0xyab\n"),
    (Told::Write(4, b"cde"), b"200.00000001 \0xyacde\n"),
    (Told::Write(9, b"."), b"200.00000001 \0xyacde\0\0.\n"),
    (Told::Truncate(20), b"200.00000001 \0xyacde\0\0.\n"),
    (Told::Truncate(2), b"200.00000001 \0x\n"),
    (Told::Keys(b"k", b"1", b"2"), b"200.00000001 \0x a=0 k=2\n"),
    (
        Told::Keys(b"b", b"3", b"4"),
        b"200.00000001 \0x a=0 b=4 k=2\n",
    ),
    (Told::Drop(b"k"), b"200.00000001 \0x a=0 b=4\n"),
    (Told::Head(b"h"), b"200.00000001 \0x#h a=0 b=4\n"),
    (Told::Drop(b"c"), b"200.00000001 \0x#h a=0 b=4\n"),
    (Told::Remove, b""),
    (Told::Head(b""), b"200.00000001 #\n"),
];

// Whether an act gets this number and leaves what is there as it was.
fn is_sent(
    alloc: Global,
    store: &mut MemStore,
    told: Told,
    op: OpNo,
    before: &[u8],
) -> Result<bool, Fail> {
    let sent = submit(alloc, store, told)?;
    Ok(sent == Ok(op) && is_shown(alloc, store, before)?)
}

// Whether the operation of this number is tried next, and done.
fn is_done(store: &mut MemStore, op: OpNo) -> bool {
    store.step(&FILE) == Ok(Some(op)) && store.reap() == Some(Ack { op, done: true })
}

#[test]
fn acts_make_contents(rt: HostRuntime) -> Result<(), Fail> {
    let alloc = rt.alloc();
    let mut store = MemStore::new(alloc);
    let mut before: &[u8] = b"";
    for (i, (told, want)) in ACTS.iter().enumerate() {
        let op = OpNo(1u64.saturating_add(i as u64));
        assert!(rt; is_sent(alloc, &mut store, *told, op, before)?, "{op:?}");
        assert!(rt; is_done(&mut store, op), "{op:?}");
        assert!(rt; is_shown(alloc, &store, want)?, "after {op:?}");
        before = want;
    }
    Ok(())
}

#[test]
fn the_listed_calls_fail(rt: HostRuntime) -> Result<(), Fail> {
    let alloc = rt.alloc();
    let mut store = MemStore::failing(alloc, &[1, 3, 5, 6, 8, 9, 12])?;
    assert_eq!(rt; submit(alloc, &mut store, ABC)?, Err(1));
    assert_eq!(rt; submit(alloc, &mut store, ABC)?, Ok(OpNo(1)));
    assert_eq!(rt; store.size(&FILE), Err(StoreFault { faults: 2 }));
    assert!(rt; is_done(&mut store, OpNo(1)));
    assert!(rt; store.read(alloc, &FILE, 1, 9).is_err());
    assert!(rt; store.keys(alloc, &FILE, None, 1).is_err());
    assert_eq!(rt; store.size(&FILE), Ok(Some(3)));
    assert_eq!(rt; store.step(&FILE), Err(StoreFault { faults: 5 }));
    assert_eq!(rt; store.restart(), Err(StoreFault { faults: 6 }));
    assert_eq!(rt; store.step(&FILE), Ok(None));
    assert!(rt; is_read(alloc, &mut store, 1, 9, b"bc"));
    assert_eq!(rt; submit(alloc, &mut store, Told::Remove)?, Err(7));
    assert!(rt; is_read(alloc, &mut store, 0, 1, b"a"));
    assert_eq!(rt; store.faults(), 7);
    Ok(())
}

const ABC: Told = Told::Write(0, b"abc");

// Whether a part of the file is read as these bytes.
fn is_read(alloc: Global, store: &mut MemStore, at: u64, len: u32, want: &[u8]) -> bool {
    match store.read(alloc, &FILE, at, len) {
        Ok(bytes) => bytes.as_slice() == want,
        Err(_) => false,
    }
}

#[test]
fn a_failed_step_blocks_its_object(rt: HostRuntime) -> Result<(), Fail> {
    let alloc = rt.alloc();
    let mut store = MemStore::failing(alloc, &[3])?;
    assert_eq!(rt;
        submit(alloc, &mut store, Told::Write(0, b"a"))?,
        Ok(OpNo(1))
    );
    assert_eq!(rt;
        submit(alloc, &mut store, Told::Write(0, b"bc"))?,
        Ok(OpNo(2))
    );
    assert_eq!(rt; store.step(&FILE), Ok(Some(OpNo(1))));
    assert_eq!(rt; store.step(&FILE), Ok(None));
    assert_eq!(rt; store.faults(), 1);
    let failed = Ack {
        op: OpNo(1),
        done: false,
    };
    assert_eq!(rt; store.reap(), Some(failed));
    assert_eq!(rt; store.reap(), None);
    until_restart(&rt, alloc, &mut store)
}

// A restart drops what the object waits for, and then it goes on.
fn until_restart(rt: &impl Abort, alloc: Global, store: &mut MemStore) -> Result<(), Fail> {
    assert_eq!(rt; store.restart(), Ok(()));
    assert_eq!(rt; store.step(&FILE), Ok(None));
    assert_eq!(rt; store.size(&FILE), Ok(None));
    assert_eq!(rt; submit(alloc, store, Told::Write(0, b"d"))?, Ok(OpNo(3)));
    assert_eq!(rt; store.step(&FILE), Ok(Some(OpNo(3))));
    assert!(rt; is_shown(alloc, store, b"200.00000001 d\n")?);
    Ok(())
}

// Two objects in the order of their names.
fn two_objects(alloc: Global, rank: RankNo) -> Result<Vec<HeldObject>, AllocError>
    ensures { IfOk result (λ objects. AreInOrder objects.items) }
{
    let file = HeldObject {
        name: FILE,
        bytes: Items::of_bytes(alloc, b"bytes")?,
        head: None,
        pairs: Items::from_vec(Vec::new(alloc)),
    };
    let table = HeldObject {
        name: ObjectName::SessionMap(rank),
        bytes: Items::of_bytes(alloc, b"")?,
        head: Some(Items::of_bytes(alloc, b"head")?),
        pairs: Items::from_vec(vec![in alloc; pair(alloc, b"a", b"1")?, pair(alloc, b"b", b"2")?]?),
    };
    Ok(vec![in alloc; file, table]?)
}

fn holding(alloc: Global) -> Result<MemStore, Fail> {
    let rank = RankNo::new(0).ok_or("a rank")?;
    let objects = two_objects(alloc, rank)?;
    Ok(MemStore::holding(alloc, objects, &[1])?)
}

fn count_pairs(store: &MemStore, place: usize) -> Option<usize> {
    let object = store.object_at(place)?;
    Some(object.pairs.len())
}

fn is_file(store: &MemStore, place: usize) -> bool {
    match store.object_at(place) {
        Some(object) => object.name == FILE,
        None => false,
    }
}

#[test]
fn holds_objects_by_their_places(rt: HostRuntime) -> Result<(), Fail> {
    let alloc = rt.alloc();
    let mut store = holding(alloc)?;
    assert_eq!(rt; store.size(&FILE), Err(StoreFault { faults: 1 }));
    assert_eq!(rt; store.size(&FILE), Ok(Some(5)));
    let want = b"200.00000001 bytes\nmds0_sessionmap #head a=1 b=2\n";
    assert!(rt; is_shown(alloc, &store, want)?);
    assert!(rt; is_file(&store, 0));
    assert_eq!(rt; count_pairs(&store, 1), Some(2));
    assert_eq!(rt; count_pairs(&store, 2), None);
    assert_eq!(rt; submit(alloc, &mut store, Told::Remove)?, Ok(OpNo(1)));
    assert_eq!(rt; store.step(&FILE), Ok(Some(OpNo(1))));
    assert_eq!(rt; count_pairs(&store, 1), None);
    Ok(())
}
