//! Writing a blob at the end of a buffer. Until the whole is written, an error leaves a front of it behind
//! what was there.

ghost use Rattle.std.specs.Prelude.{◌≡◌, ◌++◌, OnOk, OnErr, take, length};
ghost use Rattle.std.specs.List.{AllByRecursion};
ghost use Rattle.mj_meta.specs.Blob.{name_bytes, full_bytes, remote_bytes, null_bytes, head_bytes, lump_front, lump_bytes, blob_bytes, FullFits, RemoteFits, NullFits, IsLump, IsBlob};
ghost use Rattle.std.specs.List.{flat_map};

use crate::{DirLump, FullBit, HeadBit, MetaBlob, NullBit, RemoteBit};
use mj_base::{Name, or_take_back, put_u8, put_u16, put_u32, put_u64, record_write};
use std::alloc::{AllocError, Global};

/// Appends the bytes of a blob. After an error the buffer is as before.
pub fn blob_write(_alloc: Global, blob: &MetaBlob, out: &mut Vec<u8>) -> Result<(), AllocError>
    requires { IsBlob blob.now }
    ensures ok { OnOk result (out.new.items ≡ out.old.items ++ blob_bytes blob.now) }
    ensures err { OnErr result (out.new.items ≡ out.old.items) }
{
    let before = out.len();
    let done = append_blob(blob, out);
    or_take_back(done, before, out)
}

/// Appends the bytes of a blob.
pub fn append_blob(blob: &MetaBlob, out: &mut Vec<u8>) -> Result<(), AllocError>
    requires { IsBlob blob.now }
    ensures ok { OnOk result (out.new.items ≡ out.old.items ++ blob_bytes blob.now) }
    ensures err { OnErr result (take (length out.old.items) out.new.items ≡ out.old.items) }
{
    let lumps = blob.lumps.as_slice();
    put_u32(lumps.len() as u32, out)?;
    append_lumps(lumps, out)
}

fn append_lumps(lumps: &[DirLump], out: &mut Vec<u8>) -> Result<(), AllocError>
    requires { AllByRecursion IsLump lumps.now }
    ensures ok { OnOk result (out.new.items ≡ out.old.items ++ flat_map lump_bytes lumps.now) }
    ensures err { OnErr result (take (length out.old.items) out.new.items ≡ out.old.items) }
{
    for lump in lumps {
        append_lump(lump, out)?;
    }
    Ok(())
}

fn append_lump(lump: &DirLump, out: &mut Vec<u8>) -> Result<(), AllocError>
    requires { IsLump lump.now }
    ensures ok { OnOk result (out.new.items ≡ out.old.items ++ lump_bytes lump.now) }
    ensures err { OnErr result (take (length out.old.items) out.new.items ≡ out.old.items) }
{
    append_front(lump, out)?;
    append_fulls(lump.full.as_slice(), out)?;
    append_remotes(lump.remote.as_slice(), out)?;
    append_nulls(lump.null.as_slice(), out)
}

fn append_front(lump: &DirLump, out: &mut Vec<u8>) -> Result<(), AllocError>
    requires { IsLump lump.now }
    ensures ok { OnOk result (out.new.items ≡ out.old.items ++ lump_front lump.now) }
    ensures err { OnErr result (take (length out.old.items) out.new.items ≡ out.old.items) }
{
    let dir = lump.dir;
    put_u64(dir.0, out)?;
    append_head(lump.head, out)?;
    put_u32(lump.full.len() as u32, out)?;
    put_u32(lump.remote.len() as u32, out)?;
    put_u32(lump.null.len() as u32, out)
}

fn append_head(head: HeadBit, out: &mut Vec<u8>) -> Result<(), AllocError>
    ensures ok { OnOk result (out.new.items ≡ out.old.items ++ head_bytes head) }
    ensures err { OnErr result (take (length out.old.items) out.new.items ≡ out.old.items) }
{
    match head {
        HeadBit::At(version) => {
            put_u8(1, out)?;
            put_u64(version, out)
        }
        HeadBit::Gone => put_u8(0, out),
    }
}

fn append_name(name: &Name, out: &mut Vec<u8>) -> Result<(), AllocError>
    ensures ok { OnOk result (out.new.items ≡ out.old.items ++ name_bytes name.now) }
    ensures err { OnErr result (take (length out.old.items) out.new.items ≡ out.old.items) }
{
    let bytes = name.as_slice();
    put_u16(bytes.len() as u16, out)?;
    out.extend_from_slice(bytes)
}

fn append_full(bit: &FullBit, out: &mut Vec<u8>) -> Result<(), AllocError>
    requires { FullFits bit.now }
    ensures ok { OnOk result (out.new.items ≡ out.old.items ++ full_bytes bit.now) }
    ensures err { OnErr result (take (length out.old.items) out.new.items ≡ out.old.items) }
{
    append_name(&bit.name, out)?;
    put_u64(bit.version, out)?;
    record_write(&bit.inode, out)
}

fn append_fulls(bits: &[FullBit], out: &mut Vec<u8>) -> Result<(), AllocError>
    requires { AllByRecursion FullFits bits.now }
    ensures ok { OnOk result (out.new.items ≡ out.old.items ++ flat_map full_bytes bits.now) }
    ensures err { OnErr result (take (length out.old.items) out.new.items ≡ out.old.items) }
{
    for bit in bits {
        append_full(bit, out)?;
    }
    Ok(())
}

fn append_remote(bit: &RemoteBit, out: &mut Vec<u8>) -> Result<(), AllocError>
    ensures ok { OnOk result (out.new.items ≡ out.old.items ++ remote_bytes bit.now) }
    ensures err { OnErr result (take (length out.old.items) out.new.items ≡ out.old.items) }
{
    append_name(&bit.name, out)?;
    put_u64(bit.version, out)?;
    let ino = bit.ino;
    put_u64(ino.0, out)?;
    put_u8(bit.kind.code(), out)
}

fn append_remotes(bits: &[RemoteBit], out: &mut Vec<u8>) -> Result<(), AllocError>
    ensures ok { OnOk result (out.new.items ≡ out.old.items ++ flat_map remote_bytes bits.now) }
    ensures err { OnErr result (take (length out.old.items) out.new.items ≡ out.old.items) }
{
    for bit in bits {
        append_remote(bit, out)?;
    }
    Ok(())
}

fn append_null(bit: &NullBit, out: &mut Vec<u8>) -> Result<(), AllocError>
    ensures ok { OnOk result (out.new.items ≡ out.old.items ++ null_bytes bit.now) }
    ensures err { OnErr result (take (length out.old.items) out.new.items ≡ out.old.items) }
{
    append_name(&bit.name, out)?;
    put_u64(bit.version, out)
}

fn append_nulls(bits: &[NullBit], out: &mut Vec<u8>) -> Result<(), AllocError>
    ensures ok { OnOk result (out.new.items ≡ out.old.items ++ flat_map null_bytes bits.now) }
    ensures err { OnErr result (take (length out.old.items) out.new.items ≡ out.old.items) }
{
    for bit in bits {
        append_null(bit, out)?;
    }
    Ok(())
}
