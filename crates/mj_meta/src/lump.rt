//! Reading lumps.

ghost use Rattle.std.specs.Prelude.{◌≡◌, ◌++◌, ℕ, None, IfOk, nat_lt};
ghost use Rattle.std.specs.Option.{option_copied, option_map};
ghost use Rattle.mj_base.specs.Reading.{run_at, such, is_above, u64_at};
ghost use Rattle.mj_base.specs.Cursor.{Reads};
ghost use Rattle.mj_meta.specs.BlobReading.{full_at, remote_at, null_at, lump_at, blob_at};
ghost use Rattle.mj_meta.specs.Blob.{full_names, remote_names};
ghost use Rattle.mj_meta.specs.Earlier.{NamesRise};

use crate::bits::{read_full, read_head, read_null, read_remote};
use crate::naming::Earlier;
use crate::{DirLump, FullBit, MetaBlob, NullBit, RemoteBit};
use mj_base::{Cursor, Fault, Ino, Items};
use std::alloc::Global;

fn read_fulls(alloc: Global, count: u32, cursor: &mut Cursor<'_>) -> Result<Vec<FullBit>, Fault>
    ensures read { Reads (λ v. v.items) result cursor.new (run_at full_at count None cursor.old) }
    ensures rise { IfOk result (λ v. NamesRise (λ (b : FullBit). b.name) v.items) }
{
    let mut bits = Vec::new(alloc);
    for _n in 0..count {
        let bit = read_full(alloc, bits.last(), cursor)?;
        bits.push(bit)?;
    }
    Ok(bits)
}

fn read_remotes(
    alloc: Global,
    fulls: &[FullBit],
    count: u32,
    cursor: &mut Cursor<'_>,
) -> Result<Vec<RemoteBit>, Fault>
    requires { NamesRise (λ (b : FullBit). b.name) fulls.now }
    ensures read { Reads (λ v. v.items) result cursor.new (run_at (remote_at (full_names fulls.now)) count None cursor.old) }
    ensures rise { IfOk result (λ v. NamesRise (λ (b : RemoteBit). b.name) v.items) }
{
    let mut bits = Vec::new(alloc);
    for _n in 0..count {
        let bit = read_remote(alloc, Earlier::Full(fulls), bits.last(), cursor)?;
        bits.push(bit)?;
    }
    Ok(bits)
}

fn read_nulls(
    alloc: Global,
    fulls: &[FullBit],
    remotes: &[RemoteBit],
    count: u32,
    cursor: &mut Cursor<'_>,
) -> Result<Vec<NullBit>, Fault>
    requires fulls { NamesRise (λ (b : FullBit). b.name) fulls.now }
    requires remotes { NamesRise (λ (b : RemoteBit). b.name) remotes.now }
    ensures { Reads (λ v. v.items) result cursor.new (run_at (null_at (full_names fulls.now ++ remote_names remotes.now)) count None cursor.old) }
{
    let mut bits = Vec::new(alloc);
    for _n in 0..count {
        let bit = read_null(alloc, Earlier::Both(fulls, remotes), bits.last(), cursor)?;
        bits.push(bit)?;
    }
    Ok(bits)
}

// The directory of a lump is above that of the one before.
fn read_dir(before: Option<&DirLump>, cursor: &mut Cursor<'_>) -> Result<Ino, Fault>
    ensures { Reads (λ x. x) result cursor.new (such (is_above nat_lt (option_map (λ (l : DirLump). l.dir) (option_copied before.entry))) u64_at cursor.old) }
{
    let left = cursor.left();
    let dir = Ino(cursor.read_u64()?);
    match before {
        Some(lump) if dir <= lump.dir => Err(Fault::Left(left)),
        _ => Ok(dir),
    }
}

#[tactic(auto, unfolding(crate::specs::BlobReading::lump_at))]
fn read_lump(
    alloc: Global,
    before: Option<&DirLump>,
    cursor: &mut Cursor<'_>,
) -> Result<DirLump, Fault>
    ensures { Reads (λ x. x) result cursor.new (lump_at (option_copied before.entry) cursor.old) }
{
    let dir = read_dir(before, cursor)?;
    let head = read_head(cursor)?;
    let full_count = cursor.read_u32()?;
    let remote_count = cursor.read_u32()?;
    let null_count = cursor.read_u32()?;
    let full = read_fulls(alloc, full_count, cursor)?;
    let remote = read_remotes(alloc, &full, remote_count, cursor)?;
    let null = read_nulls(alloc, &full, &remote, null_count, cursor)?;
    Ok(DirLump {
        dir,
        head,
        full: Items::from_vec(full),
        remote: Items::from_vec(remote),
        null: Items::from_vec(null),
    })
}

fn read_lumps(alloc: Global, count: u32, cursor: &mut Cursor<'_>) -> Result<Vec<DirLump>, Fault>
    ensures { Reads (λ v. v.items) result cursor.new (run_at lump_at count None cursor.old) }
{
    let mut lumps = Vec::new(alloc);
    for _n in 0..count {
        let lump = read_lump(alloc, lumps.last(), cursor)?;
        lumps.push(lump)?;
    }
    Ok(lumps)
}

/// Reads a blob, as a field of what is read.
#[tactic(auto, unfolding(crate::specs::BlobReading::blob_at))]
pub fn blob_field(alloc: Global, cursor: &mut Cursor<'_>) -> Result<MetaBlob, Fault>
    ensures { Reads (λ x. x) result cursor.new (blob_at cursor.old) }
{
    let count = cursor.read_u32()?;
    let lumps = read_lumps(alloc, count, cursor)?;
    Ok(MetaBlob {
        lumps: Items::from_vec(lumps),
    })
}
