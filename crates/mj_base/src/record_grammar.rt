//! Records in bytes, both ways.

ghost use Rattle.std.specs.Prelude.{◌≡◌, ◌++◌, IsTrue, IfOk, IfErr, OnOk, OnErr, Ok, take, vec_len, length};
ghost use Rattle.mj_base.specs.Cursor.{Faults, Reads};
ghost use Rattle.mj_base.specs.RecordParts.{record_front, record_numbers};
ghost use Rattle.mj_base.specs.Record.{kind_at, mode_at, target_at, target_length_fits, record_at, record_bytes, IsRecord};
ghost use Rattle.mj_base.specs.RecordRefusal.{IsRecordRefusal};
ghost use Rattle.mj_base.specs.Target.{has_no_zero};

use crate::cursor::{Cursor, Fault, or_take_back, put_u8, put_u16, put_u32, put_u64};
use crate::limits::{MAX_MODE, MAX_TARGET};
use crate::numbers::Ino;
use crate::record::{InodeRecord, Kind, Target};
use std::alloc::{AllocError, Global};

/// The version that records are written in.
const VERSION: u8 = 1;

/// Why bytes begin with no record.
#[derive(Clone, Copy, Debug, PartialEq, Eq)]
pub enum RecordRefusal {
    /// The first field that is outside the grammar, or at which the bytes end, is here.
    RecordBad(u64),
    /// There was no memory.
    Memory,
}

/// Reads the record that is next. After a refusal the cursor is as before.
pub fn record_read(alloc: Global, cursor: &mut Cursor<'_>) -> Result<InodeRecord, RecordRefusal>
    ensures read { IfOk result (λ r. record_at cursor.old ≡ Ok (r, cursor.new)) }
    ensures refused { IfErr result (λ why. IsRecordRefusal why cursor.old) }
    ensures after_refusal { OnErr result (cursor.new ≡ cursor.old) }
{
    let bytes = cursor.rest();
    let mut ahead = Cursor::new(bytes);
    match record_field(alloc, &mut ahead) {
        Ok(record) => {
            *cursor = ahead;
            Ok(record)
        }
        Err(why) => Err(refusal_of(bytes, why)),
    }
}

/// The refusal of bytes that begin with no record, for a fault of reading one.
fn refusal_of(bytes: &[u8], why: Fault) -> RecordRefusal
    requires { Faults why (record_at bytes.now) }
    ensures { IsRecordRefusal result bytes.now }
{
    match why {
        Fault::Left(left) => RecordRefusal::RecordBad((bytes.len() - left) as u64),
        Fault::Memory => RecordRefusal::Memory,
    }
}

/// Reads a record, as a field of what is read. After a fault the cursor is somewhere in it.
#[tactic(auto, unfolding(crate::specs::Record::record_at))]
pub fn record_field(alloc: Global, cursor: &mut Cursor<'_>) -> Result<InodeRecord, Fault>
    ensures { Reads (λ x. x) result cursor.new (record_at cursor.old) }
{
    let left = cursor.left();
    if cursor.read_u8()? != VERSION {
        return Err(Fault::Left(left));
    }
    let ino = cursor.read_u64()?;
    let kind = kind_field(cursor)?;
    let mode = mode_field(cursor)?;
    let uid = cursor.read_u32()?;
    let gid = cursor.read_u32()?;
    let size = cursor.read_u64()?;
    let mtime = cursor.read_u64()?;
    let links = cursor.read_u32()?;
    let target = target_field(alloc, kind, cursor)?;
    Ok(InodeRecord {
        ino: Ino(ino),
        kind,
        mode,
        uid,
        gid,
        size,
        mtime,
        links,
        target,
    })
}

/// Reads a kind, as a field of what is read.
pub fn kind_field(cursor: &mut Cursor<'_>) -> Result<Kind, Fault>
    ensures { Reads (λ x. x) result cursor.new (kind_at cursor.old) }
{
    let left = cursor.left();
    match cursor.read_u8()? {
        1 => Ok(Kind::Dir),
        2 => Ok(Kind::File),
        3 => Ok(Kind::Symlink),
        _ => Err(Fault::Left(left)),
    }
}

fn mode_field(cursor: &mut Cursor<'_>) -> Result<u16, Fault>
    ensures { Reads (λ x. x) result cursor.new (mode_at cursor.old) }
{
    let left = cursor.left();
    let mode = cursor.read_u16()?;
    if mode > MAX_MODE {
        return Err(Fault::Left(left));
    }
    Ok(mode)
}

#[tactic(auto, unfolding(crate::specs::Record::target_at))]
fn target_field(alloc: Global, kind: Kind, cursor: &mut Cursor<'_>) -> Result<Target, Fault>
    ensures { Reads (λ x. x) result cursor.new (target_at kind cursor.old) }
{
    let left = cursor.left();
    let len = cursor.read_u16()?;
    if !is_target_length(kind, len) {
        return Err(Fault::Left(left));
    }
    let left = cursor.left();
    let bytes = cursor.read_bytes(len as usize)?;
    if !is_free_of_zeros(bytes) {
        return Err(Fault::Left(left));
    }
    Ok(Target::of(alloc, bytes)?)
}

fn is_target_length(kind: Kind, len: u16) -> bool
    ensures { result ≡ target_length_fits kind len }
{
    match kind {
        Kind::Symlink => 1 <= len && len as usize <= MAX_TARGET,
        _ => len == 0,
    }
}

fn is_free_of_zeros(bytes: &[u8]) -> bool
    ensures { result ≡ has_no_zero bytes.now }
{
    !bytes.contains(&0)
}

/// Appends the bytes of a record. After an error the buffer is as before.
pub fn record_write(inode: &InodeRecord, out: &mut Vec<u8>) -> Result<(), AllocError>
    requires { IsRecord inode.now }
    ensures ok { OnOk result (out.new.items ≡ out.old.items ++ record_bytes inode.now) }
    ensures err { OnErr result (out.new.items ≡ out.old.items) }
{
    let before = out.len();
    let done = append_record(inode, out);
    or_take_back(done, before, out)
}

fn append_record(inode: &InodeRecord, out: &mut Vec<u8>) -> Result<(), AllocError>
    requires { IsRecord inode.now }
    ensures ok { OnOk result (out.new.items ≡ out.old.items ++ record_bytes inode.now) }
    ensures err { OnErr result (take (vec_len out.old) out.new.items ≡ out.old.items) }
{
    append_front(inode, out)?;
    append_numbers(inode, out)?;
    let target = inode.target.as_slice();
    put_u16(target.len() as u16, out)?;
    out.extend_from_slice(target)?;
    Ok(())
}

fn append_front(inode: &InodeRecord, out: &mut Vec<u8>) -> Result<(), AllocError>
    ensures ok { OnOk result (out.new.items ≡ out.old.items ++ record_front inode.now) }
    ensures err { OnErr result (take (vec_len out.old) out.new.items ≡ out.old.items) }
{
    put_u8(VERSION, out)?;
    let ino = inode.ino;
    put_u64(ino.0, out)?;
    put_u8(inode.kind.code(), out)?;
    put_u16(inode.mode, out)
}

fn append_numbers(inode: &InodeRecord, out: &mut Vec<u8>) -> Result<(), AllocError>
    ensures ok { OnOk result (out.new.items ≡ out.old.items ++ record_numbers inode.now) }
    ensures err { OnErr result (take (vec_len out.old) out.new.items ≡ out.old.items) }
{
    put_u32(inode.uid, out)?;
    put_u32(inode.gid, out)?;
    put_u64(inode.size, out)?;
    put_u64(inode.mtime, out)?;
    put_u32(inode.links, out)
}
