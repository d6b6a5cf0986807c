//! Reading the bits of lumps.

ghost use Rattle.std.specs.Prelude.{◌≡◌, false, List};
ghost use Rattle.std.specs.Option.{option_copied};
ghost use Rattle.mj_base.specs.Reading.{run_at, optional_at, u64_at};
ghost use Rattle.mj_base.specs.Cursor.{Reads};
ghost use Rattle.mj_meta.specs.BlobReading.{full_at, remote_at, null_at, head_at};
ghost use Rattle.mj_meta.specs.Earlier.{earlier_names, DoRise};

use crate::naming::{Earlier, read_name};
use crate::{FullBit, HeadBit, NullBit, RemoteBit};
use mj_base::{Cursor, Fault, Ino, Kind, kind_field, record_field};
use std::alloc::Global;

/// A flag, and behind a 1 a number.
pub fn optional_field(cursor: &mut Cursor<'_>) -> Result<Option<u64>, Fault>
    ensures { Reads (λ x. x) result cursor.new (optional_at u64_at cursor.old) }
{
    let left = cursor.left();
    let flag = cursor.read_u8()?;
    match flag {
        0 => Ok(None),
        1 => Ok(Some(cursor.read_u64()?)),
        _ => Err(Fault::Left(left)),
    }
}

pub fn read_head(cursor: &mut Cursor<'_>) -> Result<HeadBit, Fault>
    ensures { Reads (λ x. x) result cursor.new (head_at cursor.old) }
{
    match optional_field(cursor)? {
        Some(version) => Ok(HeadBit::At(version)),
        None => Ok(HeadBit::Gone),
    }
}

#[tactic(auto, unfolding(crate::specs::BlobReading::full_at))]
pub fn read_full(
    alloc: Global,
    before: Option<&FullBit>,
    cursor: &mut Cursor<'_>,
) -> Result<FullBit, Fault>
    ensures { Reads (λ x. x) result cursor.new (full_at (option_copied before.entry) cursor.old) }
{
    let name = read_name(alloc, Earlier::Nothing, before.map(|b| &b.name), cursor)?;
    let version = cursor.read_u64()?;
    let inode = record_field(alloc, cursor)?;
    Ok(FullBit {
        name,
        version,
        inode,
    })
}

#[tactic(auto, unfolding(crate::specs::BlobReading::remote_at))]
pub fn read_remote(
    alloc: Global,
    earlier: Earlier<'_>,
    before: Option<&RemoteBit>,
    cursor: &mut Cursor<'_>,
) -> Result<RemoteBit, Fault>
    requires { DoRise earlier }
    ensures { Reads (λ x. x) result cursor.new (remote_at (earlier_names earlier.entry) (option_copied before.entry) cursor.old) }
{
    let name = read_name(alloc, earlier, before.map(|b| &b.name), cursor)?;
    let version = cursor.read_u64()?;
    let ino = Ino(cursor.read_u64()?);
    let left = cursor.left();
    let kind = kind_field(cursor)?;
    if kind == Kind::Dir {
        return Err(Fault::Left(left));
    }
    Ok(RemoteBit {
        name,
        version,
        ino,
        kind,
    })
}

#[tactic(auto, unfolding(crate::specs::BlobReading::null_at))]
pub fn read_null(
    alloc: Global,
    earlier: Earlier<'_>,
    before: Option<&NullBit>,
    cursor: &mut Cursor<'_>,
) -> Result<NullBit, Fault>
    requires { DoRise earlier }
    ensures { Reads (λ x. x) result cursor.new (null_at (earlier_names earlier.entry) (option_copied before.entry) cursor.old) }
{
    let name = read_name(alloc, earlier, before.map(|b| &b.name), cursor)?;
    let version = cursor.read_u64()?;
    Ok(NullBit { name, version })
}
