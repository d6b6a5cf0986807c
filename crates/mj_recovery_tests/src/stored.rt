//! Cells as objects hold them.

ghost use Rattle.std.specs.Prelude.{◌≡◌, ◌<◌, ◌≤◌, ◌*◌, ◌^◌, length, IfOk, IfSome};
ghost use Rattle.mj_cells.specs.Cell.{WriteFits};
ghost use Rattle.mj_recovery_tests.specs.Values.{IsOfDentry, IsNumber, HasNumbers};
ghost use Rattle.mj_recovery.specs.Stored.{cell, entire, number_in, full_in, remote_in, dentry_in, name_in, hex_digit, hex_number, reply_in, session_in, pair_cell, head_cell};

use mj_base::{
    ClientId, Cursor, Fault, Ino, Kind, Name, NameRefusal, ObjectName, Tid, kind_field,
    record_field,
};
use mj_cells::{CellKey, CellValue, CellWrite};
use mj_store::Pair;
use std::alloc::{AllocError, Global};

/// What ends the key of a dentry.
const SUFFIX: [u8; 5] = *b"_head";

fn number_in(bytes: &[u8]) -> Option<CellValue>
    ensures is { result ≡ number_in bytes.now }
    ensures fits { IfSome result IsNumber }
{
    let mut cursor = Cursor::new(bytes);
    let n = cursor.take_u64()?;
    match cursor.rest() {
        [] => Some(CellValue::Number(n)),
        _ => None,
    }
}

#[tactic(auto, unfolding(mj_recovery::specs::Stored::full_in))]
fn full_in(alloc: Global, bytes: &[u8]) -> Result<Option<CellValue>, AllocError>
    ensures is { IfOk result (λ v. v ≡ entire (full_in bytes.now)) }
    ensures fits { IfOk result (λ v. IfSome v IsOfDentry) }
{
    let mut cursor = Cursor::new(bytes);
    let Some(version) = cursor.take_u64() else {
        return Ok(None);
    };
    let inode = match record_field(alloc, &mut cursor) {
        Ok(inode) => inode,
        Err(Fault::Left(_)) => return Ok(None),
        Err(Fault::Memory) => return Err(AllocError),
    };
    match cursor.rest() {
        [] => Ok(Some(CellValue::Full(version, inode))),
        _ => Ok(None),
    }
}

#[tactic(auto, unfolding(mj_recovery::specs::Stored::remote_in))]
fn remote_in(bytes: &[u8]) -> Result<Option<CellValue>, AllocError>
    ensures is { IfOk result (λ v. v ≡ entire (remote_in bytes.now)) }
    ensures fits { IfOk result (λ v. IfSome v IsOfDentry) }
{
    let mut cursor = Cursor::new(bytes);
    let Some(version) = cursor.take_u64() else {
        return Ok(None);
    };
    let Some(ino) = cursor.take_u64() else {
        return Ok(None);
    };
    let kind = match kind_field(&mut cursor) {
        Ok(kind) => kind,
        Err(Fault::Left(_)) => return Ok(None),
        Err(Fault::Memory) => return Err(AllocError),
    };
    if kind == Kind::Dir {
        return Ok(None);
    }
    match cursor.rest() {
        [] => Ok(Some(CellValue::Remote(version, Ino(ino), kind))),
        _ => Ok(None),
    }
}

fn dentry_in(alloc: Global, bytes: &[u8]) -> Result<Option<CellValue>, AllocError>
    ensures is { IfOk result (λ v. v ≡ dentry_in bytes.now) }
    ensures fits { IfOk result (λ v. IfSome v IsOfDentry) }
{
    match bytes {
        [1, rest @ ..] => full_in(alloc, rest),
        [2, rest @ ..] => remote_in(rest),
        _ => Ok(None),
    }
}

#[tactic(auto, using(crate::proofs::Names::no_name))]
fn name_in(alloc: Global, text: &[u8]) -> Result<Option<Name>, AllocError>
    ensures { IfOk result (λ o. o ≡ name_in text.now) }
{
    let n = text.len().saturating_sub(SUFFIX.len());
    if text[n..] != SUFFIX[..] {
        return Ok(None);
    }
    match Name::read(alloc, &text[..n]) {
        Ok(name) => Ok(Some(name)),
        Err(NameRefusal::Memory) => Err(AllocError),
        Err(
            NameRefusal::Empty
            | NameRefusal::TooLong(_)
            | NameRefusal::BadByte(_)
            | NameRefusal::Dots,
        ) => Ok(None),
    }
}

/// The number that a hexadecimal digit stands for.
pub fn hex_digit(b: u8) -> Option<u64>
    ensures digit { result ≡ hex_digit b }
    ensures small { IfSome result (λ d. d < 16) }
{
    match b {
        b'0'..=b'9' => Some(u64::from(b - b'0')),
        b'a'..=b'f' => Some(u64::from(b - 87)),
        _ => None,
    }
}

fn hex_number(text: &[u8]) -> Option<u64>
    requires { length text.now ≤ 16 }
    ensures number { result ≡ hex_number text.now }
    ensures small { IfSome result (λ n. n < 2 ^ (4 * length text.now)) }
{
    let mut n = 0;
    for b in text {
        let digit = hex_digit(*b)?;
        n = n * 16 + digit;
    }
    Some(n)
}

#[tactic(auto, using(crate::proofs::Hex::client_fits))]
fn client_in(text: &[u8]) -> Option<ClientId>
    requires { length text.now ≡ 8 }
    ensures { result ≡ hex_number text.now }
{
    let n = hex_number(text)?;
    Some(ClientId(n as u32))
}

fn reply_in(text: &[u8]) -> Option<CellKey>
    requires { length text.now ≡ 25 }
    ensures is { result ≡ reply_in text.now }
    ensures kind { IfSome result HasNumbers }
{
    let client = client_in(&text[..8])?;
    let tid = hex_number(&text[9..])?;
    Some(CellKey::Done(client, Tid(tid)))
}

fn session_in(text: &[u8]) -> Option<CellKey>
    ensures is { result ≡ session_in text.now }
    ensures kind { IfSome result HasNumbers }
{
    if text.len() == 8 {
        let client = client_in(text)?;
        return Some(CellKey::Session(client));
    }
    if text.len() == 25 && text[8] == b'.' {
        return reply_in(text);
    }
    None
}

/// The cell that a pair of an object is: none where it is outside the format.
pub fn pair_cell(
    alloc: Global,
    name: &ObjectName,
    pair: &Pair,
) -> Result<Option<CellWrite>, AllocError>
    ensures is { IfOk result (λ o. o ≡ pair_cell name.now (pair.now.key, pair.now.value)) }
    ensures fits { IfOk result (λ o. IfSome o WriteFits) }
{
    match name {
        ObjectName::File { ino, index: 0 } => {
            let Some(name) = name_in(alloc, pair.key.as_slice())? else {
                return Ok(None);
            };
            let Some(value) = dentry_in(alloc, pair.value.as_slice())? else {
                return Ok(None);
            };
            Ok(Some(CellWrite {
                key: CellKey::Dentry(Ino(*ino), name),
                value,
            }))
        }
        ObjectName::SessionMap(_) => Ok(session_cell(pair.key.as_slice(), pair.value.as_slice())),
        _ => Ok(None),
    }
}

fn session_cell(key: &[u8], value: &[u8]) -> Option<CellWrite>
    ensures is { result ≡ cell (session_in key.now) (number_in value.now) }
    ensures fits { IfSome result WriteFits }
{
    let key = session_in(key)?;
    let value = number_in(value)?;
    Some(CellWrite { key, value })
}

/// The cell that the head of an object is: none where it is outside the format.
pub fn head_cell(name: &ObjectName, head: &[u8]) -> Option<CellWrite>
    ensures is { result ≡ head_cell name.now head.now }
    ensures fits { IfSome result WriteFits }
{
    let value = number_in(head)?;
    match name {
        ObjectName::File { ino, index: 0 } => Some(CellWrite {
            key: CellKey::DirHead(Ino(*ino)),
            value,
        }),
        ObjectName::InoTable(_) => Some(CellWrite {
            key: CellKey::NextIno,
            value,
        }),
        _ => None,
    }
}
