//! The cells that an event writes.

ghost use Rattle.std.specs.Prelude.{◌≡◌, ◌++◌, ◌∷◌, [], List, map, OnOk, IfOk};
ghost use Rattle.std.specs.List.{flat_map, AllByRecursion};
ghost use Rattle.mj_cells.specs.declared.cell.CellKey.TheVariants as key;
ghost use Rattle.mj_cells.specs.declared.cell.CellValue.TheVariants as value;
ghost use Rattle.mj_cells.specs.Cell.{WriteFits};
ghost use Rattle.mj_meta.specs.declared.FullBit.{FullBit};
ghost use Rattle.mj_meta.specs.declared.RemoteBit.{RemoteBit};
ghost use Rattle.mj_meta.specs.declared.NullBit.{NullBit};
ghost use Rattle.mj_event.specs.declared.OpenPair.{OpenPair};
ghost use Rattle.mj_event.specs.Event.{IsEvent};
ghost use Rattle.mj_event.specs.Writes.{write, where_some, head_value, lump_writes, full_write, remote_write, null_write, open_write, reply_gone, replies_gone, reply_writes, session_writes, update_writes, writes_of};

use crate::{Event, OpenPair, SessionEvent, SessionKind, UpdateEvent};
use mj_base::{ClientId, Ino, Tid};
use mj_cells::{CellKey, CellValue, CellWrite};
use mj_meta::{DirLump, FullBit, HeadBit, NullBit, RemoteBit};
use std::alloc::{AllocError, Global};

/// Room for the cells of most events, which write at most one lump's dentries beside a reply, and need no more.
const MOST_WRITE: usize = 8;

/// The cells that an event writes, in order. Those of an event in the grammar fit their keys.
pub fn writes(alloc: Global, event: &Event) -> Result<Vec<CellWrite>, AllocError>
    ensures writes { IfOk result (λ ws. ws.items ≡ writes_of event.now) }
    ensures fit { IsEvent event.now → IfOk result (λ ws. AllByRecursion WriteFits ws.items) }
{
    let mut ws = Vec::with_capacity(alloc, MOST_WRITE)?;
    push_event(alloc, event, &mut ws)?;
    Ok(ws)
}

fn push_event(alloc: Global, event: &Event, ws: &mut Vec<CellWrite>) -> Result<(), AllocError>
    ensures { OnOk result (ws.new.items ≡ ws.old.items ++ writes_of event.now) }
{
    match event {
        Event::Session(session) => push_session(session, ws),
        Event::Update(update) => push_update(alloc, update, ws),
        Event::Reopen(pairs) => push_opens(pairs.as_slice(), ws),
        _ => Ok(()),
    }
}

fn push(key: CellKey, value: CellValue, ws: &mut Vec<CellWrite>) -> Result<(), AllocError>
    ensures { OnOk result (ws.new.items ≡ ws.old.items ++ write key value ∷ []) }
{
    ws.push(CellWrite { key, value })?;
    Ok(())
}

fn push_session(event: &SessionEvent, ws: &mut Vec<CellWrite>) -> Result<(), AllocError>
    ensures { OnOk result (ws.new.items ≡ ws.old.items ++ session_writes event.now.kind event.now) }
{
    let oldest = event.oldest;
    match event.kind {
        SessionKind::Open => {
            push(
                CellKey::Session(event.client),
                CellValue::Number(oldest.0),
                ws,
            )?;
            push(
                CellKey::Done(event.client, event.tid),
                CellValue::Number(0),
                ws,
            )
        }
        SessionKind::Close => {
            push(CellKey::Session(event.client), CellValue::Gone, ws)?;
            push_dropped(event.client, event.dropped.as_slice(), ws)
        }
    }
}

fn push_dropped(client: ClientId, tids: &[Tid], ws: &mut Vec<CellWrite>) -> Result<(), AllocError>
    ensures { OnOk result (ws.new.items ≡ ws.old.items ++ replies_gone client tids.now) }
{
    for tid in tids {
        push(CellKey::Done(client, *tid), CellValue::Gone, ws)?;
    }
    Ok(())
}

fn push_opens(pairs: &[OpenPair], ws: &mut Vec<CellWrite>) -> Result<(), AllocError>
    ensures { OnOk result (ws.new.items ≡ ws.old.items ++ map open_write pairs.now) }
{
    for pair in pairs {
        push(
            CellKey::OpenOf(pair.client, pair.ino),
            CellValue::Present,
            ws,
        )?;
    }
    Ok(())
}

fn push_update(
    alloc: Global,
    event: &UpdateEvent,
    ws: &mut Vec<CellWrite>,
) -> Result<(), AllocError>
    ensures { OnOk result (ws.new.items ≡ ws.old.items ++ update_writes event.now) }
{
    push_replies(event, ws)?;
    push_next(event.next, ws)?;
    push_opened(event.client, event.opened, ws)?;
    push_released(event.client, event.released, ws)?;
    push_lumps(alloc, event.blob.lumps.as_slice(), ws)
}

fn push_replies(event: &UpdateEvent, ws: &mut Vec<CellWrite>) -> Result<(), AllocError>
    ensures { OnOk result (ws.new.items ≡ ws.old.items ++ reply_writes event.now) }
{
    let ino = event.ino;
    push(
        CellKey::Done(event.client, event.tid),
        CellValue::Number(ino.0),
        ws,
    )?;
    push_oldest(event.client, event.oldest, ws)?;
    push_dropped(event.client, event.dropped.as_slice(), ws)
}

fn push_oldest(
    client: ClientId,
    oldest: Option<Tid>,
    ws: &mut Vec<CellWrite>,
) -> Result<(), AllocError>
    ensures { OnOk result (ws.new.items ≡ ws.old.items ++ where_some (λ oldest. write (key.Session client) (value.Number oldest)) oldest) }
{
    match oldest {
        Some(oldest) => push(CellKey::Session(client), CellValue::Number(oldest.0), ws),
        None => Ok(()),
    }
}

fn push_next(next: Option<Ino>, ws: &mut Vec<CellWrite>) -> Result<(), AllocError>
    ensures { OnOk result (ws.new.items ≡ ws.old.items ++ where_some (λ next. write key.NextIno (value.Number next)) next) }
{
    match next {
        Some(next) => push(CellKey::NextIno, CellValue::Number(next.0), ws),
        None => Ok(()),
    }
}

fn push_opened(
    client: ClientId,
    opened: Option<Ino>,
    ws: &mut Vec<CellWrite>,
) -> Result<(), AllocError>
    ensures { OnOk result (ws.new.items ≡ ws.old.items ++ where_some (λ ino. write (key.OpenOf client ino) value.Present) opened) }
{
    match opened {
        Some(ino) => push(CellKey::OpenOf(client, ino), CellValue::Present, ws),
        None => Ok(()),
    }
}

fn push_released(
    client: ClientId,
    released: Option<Ino>,
    ws: &mut Vec<CellWrite>,
) -> Result<(), AllocError>
    ensures { OnOk result (ws.new.items ≡ ws.old.items ++ where_some (λ ino. write (key.OpenOf client ino) value.Gone) released) }
{
    match released {
        Some(ino) => push(CellKey::OpenOf(client, ino), CellValue::Gone, ws),
        None => Ok(()),
    }
}

fn push_lumps(alloc: Global, lumps: &[DirLump], ws: &mut Vec<CellWrite>) -> Result<(), AllocError>
    ensures { OnOk result (ws.new.items ≡ ws.old.items ++ flat_map lump_writes lumps.now) }
{
    for lump in lumps {
        push_lump(alloc, lump, ws)?;
    }
    Ok(())
}

fn push_lump(alloc: Global, lump: &DirLump, ws: &mut Vec<CellWrite>) -> Result<(), AllocError>
    ensures { OnOk result (ws.new.items ≡ ws.old.items ++ lump_writes lump.now) }
{
    push_head(lump.dir, lump.head, ws)?;
    push_fulls(alloc, lump.dir, lump.full.as_slice(), ws)?;
    push_remotes(alloc, lump.dir, lump.remote.as_slice(), ws)?;
    push_nulls(alloc, lump.dir, lump.null.as_slice(), ws)
}

fn push_head(dir: Ino, head: HeadBit, ws: &mut Vec<CellWrite>) -> Result<(), AllocError>
    ensures { OnOk result (ws.new.items ≡ ws.old.items ++ write (key.DirHead dir) (head_value head) ∷ []) }
{
    match head {
        HeadBit::At(version) => push(CellKey::DirHead(dir), CellValue::Number(version), ws),
        HeadBit::Gone => push(CellKey::DirHead(dir), CellValue::Gone, ws),
    }
}

fn push_fulls(
    alloc: Global,
    dir: Ino,
    bits: &[FullBit],
    ws: &mut Vec<CellWrite>,
) -> Result<(), AllocError>
    ensures { OnOk result (ws.new.items ≡ ws.old.items ++ map (full_write dir) bits.now) }
{
    for bit in bits {
        push_full(alloc, dir, bit, ws)?;
    }
    Ok(())
}

fn push_full(
    alloc: Global,
    dir: Ino,
    bit: &FullBit,
    ws: &mut Vec<CellWrite>,
) -> Result<(), AllocError>
    ensures { OnOk result (ws.new.items ≡ ws.old.items ++ full_write dir bit.now ∷ []) }
{
    let name = bit.name.copy(alloc)?;
    let inode = bit.inode.copy(alloc)?;
    push(
        CellKey::Dentry(dir, name),
        CellValue::Full(bit.version, inode),
        ws,
    )
}

fn push_remotes(
    alloc: Global,
    dir: Ino,
    bits: &[RemoteBit],
    ws: &mut Vec<CellWrite>,
) -> Result<(), AllocError>
    ensures { OnOk result (ws.new.items ≡ ws.old.items ++ map (remote_write dir) bits.now) }
{
    for bit in bits {
        push_remote(alloc, dir, bit, ws)?;
    }
    Ok(())
}

fn push_remote(
    alloc: Global,
    dir: Ino,
    bit: &RemoteBit,
    ws: &mut Vec<CellWrite>,
) -> Result<(), AllocError>
    ensures { OnOk result (ws.new.items ≡ ws.old.items ++ remote_write dir bit.now ∷ []) }
{
    let name = bit.name.copy(alloc)?;
    push(
        CellKey::Dentry(dir, name),
        CellValue::Remote(bit.version, bit.ino, bit.kind),
        ws,
    )
}

fn push_nulls(
    alloc: Global,
    dir: Ino,
    bits: &[NullBit],
    ws: &mut Vec<CellWrite>,
) -> Result<(), AllocError>
    ensures { OnOk result (ws.new.items ≡ ws.old.items ++ map (null_write dir) bits.now) }
{
    for bit in bits {
        push_null(alloc, dir, bit, ws)?;
    }
    Ok(())
}

fn push_null(
    alloc: Global,
    dir: Ino,
    bit: &NullBit,
    ws: &mut Vec<CellWrite>,
) -> Result<(), AllocError>
    ensures { OnOk result (ws.new.items ≡ ws.old.items ++ null_write dir bit.now ∷ []) }
{
    let name = bit.name.copy(alloc)?;
    push(CellKey::Dentry(dir, name), CellValue::Null(bit.version), ws)
}
