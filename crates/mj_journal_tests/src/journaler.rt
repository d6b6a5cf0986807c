//! Worked rows: two entries over two objects, what a stop leaves of them, and the most that may be unsafe.

ghost use Rattle.std.specs.Prelude.{◌≡◌, ℕ, ◌+◌, ◌^◌, ◌≤◌, IfOk};
ghost use Rattle.mj_journaler.specs.Journal.{IsNew};

use super::stored::rank;
use mj_base::OpNo;
use mj_entry::{EntryRead, entry_read};
use mj_journaler::{Acked, AppendRefusal, Journaler};
use mj_layout::{Header, Layout, Phase};
use mj_store::{ObjectAct, ObjectName, ObjectOp};
use std::alloc::Global;
use std::test::Fail;

/// The journaler of rank 0 over objects of 65,536 bytes, one to a set, where the journal begins at 65536.
fn journaler(alloc: Global, tail: u64) -> Result<Journaler, Fail>
    requires above { 65536 ≤ tail }
    requires below { tail ≤ 2 ^ 62 }
    ensures { IfOk result (IsNew 1) }
{
    let Ok(layout) = Layout::new(65_536, 1, 65_536) else {
        return Err(Fail::from("a layout was refused"));
    };
    let head = Header {
        trimmed: 65_536,
        expire: 65_536,
        write: 65_536,
        layout,
        format: 1,
        phase: Phase::Serving,
        epoch: 0,
    };
    Ok(Journaler::new(alloc, head, rank()?, tail)?)
}

/// Appends a payload of this many bytes.
fn append(alloc: Global, j: &mut Journaler, len: usize) -> Result<u64, AppendRefusal>
    requires some { 1 ≤ len }
    requires most { len ≤ 65516 }
    ensures { (n : ℕ) → IsNew n j.old → IsNew n j.new }
{
    let payload = vec![in alloc; 7u8; len]?;
    j.append(alloc, &payload)
}

/// Sends the next write with this number, and answers its object, its offset there, and its bytes.
fn flush(alloc: Global, j: &mut Journaler, op: u64) -> Result<(u64, u64, Vec<u8>), Fail>
    requires { IsNew op j.old }
    ensures { IfOk result (λ _. IsNew (op + 1) j.new) }
{
    match j.next_flush(alloc)? {
        Some(write) => {
            j.sent(OpNo(op));
            parts(write)
        }
        None => Err(Fail::from("there is nothing to write")),
    }
}

/// Acknowledges the operation of this number.
fn ack(j: &mut Journaler, op: u64) -> Acked
    ensures { (n : ℕ) → IsNew n j.old → IsNew n j.new }
{
    j.acked(OpNo(op))
}

fn parts(op: ObjectOp) -> Result<(u64, u64, Vec<u8>), Fail> {
    match (op.name, op.act) {
        (ObjectName::File { ino: 0x200, index }, ObjectAct::Write { at, bytes }) => {
            Ok((index, at, bytes.into_vec()))
        }
        _ => Err(Fail::from("no write of the journal")),
    }
}

/// The journaler with an entry of 21 bytes and one of 65,536.
fn two_entries(alloc: Global) -> Result<Journaler, Fail>
    ensures { IfOk result (IsNew 1) }
{
    let mut j = journaler(alloc, 65_536)?;
    let first = append(alloc, &mut j, 1)?;
    let second = append(alloc, &mut j, 65_516)?;
    if (first, second) != (65_557, 131_093) {
        return Err(Fail::from("an entry ends elsewhere"));
    }
    Ok(j)
}

#[test]
fn two_entries_go_over_two_objects(rt: HostRuntime) -> Result<(), Fail> {
    let alloc = rt.alloc();
    let mut j = two_entries(alloc)?;
    let (index, at, bytes) = flush(alloc, &mut j, 1)?;
    assert_eq!(rt; (index, at, bytes.len()), (1, 0, 65_536));
    assert_eq!(rt;
        ack(&mut j, 1),
        Acked {
            from: 65_536,
            to: 65_557
        }
    );
    let (second, offset, rest) = flush(alloc, &mut j, 2)?;
    assert_eq!(rt; (second, offset, rest.len()), (2, 0, 21));
    assert_eq!(rt;
        ack(&mut j, 2),
        Acked {
            from: 65_557,
            to: 131_093
        }
    );
    Ok(())
}

#[test]
fn the_cut_entry_is_a_part(rt: HostRuntime) -> Result<(), Fail> {
    let alloc = rt.alloc();
    let mut j = two_entries(alloc)?.copy(alloc)?;
    let (_, _, bytes) = flush(alloc, &mut j, 1)?;
    match bytes.get(21..) {
        Some(cut) => assert_eq!(rt; entry_read(cut, 65_557), EntryRead::Part),
        None => return Err(Fail::from("the write is too short")),
    }
    Ok(())
}

#[test]
fn the_cut_entry_is_truncated(rt: HostRuntime) -> Result<(), Fail> {
    let mounted = journaler(rt.alloc(), 65_557)?;
    assert!(rt; mounted.tail_truncate(1, 21).is_none());
    match mounted.tail_truncate(1, 65_536) {
        Some(
            ObjectOp {
                name: _,
                act: ObjectAct::Truncate { len },
            },
        ) => assert_eq!(rt; len, 21),
        _ => return Err(Fail::from("nothing is cut")),
    }
    Ok(())
}

#[test]
fn eight_mebibytes_may_be_unsafe(rt: HostRuntime) -> Result<(), Fail> {
    let alloc = rt.alloc();
    let mut j = journaler(alloc, 65_536)?;
    for _ in 0..128 {
        assert!(rt; append(alloc, &mut j, 65_516).is_ok());
    }
    assert_eq!(rt; j.unsafe_bytes(), 8_388_608);
    assert_eq!(rt;
        append(alloc, &mut j, 1),
        Err(AppendRefusal::Full(8_388_608))
    );
    assert_eq!(rt; j.end(), 65_536 + 8_388_608);
    Ok(())
}
