//! Writing an event's payload.

ghost use Rattle.std.specs.Prelude.{◌≡◌, ◌++◌, List, replicate, OnOk, IfOk};
ghost use Rattle.std.specs.List.{flat_map};
ghost use Rattle.mj_base.specs.Reading.{four, eight, optional};
ghost use Rattle.mj_event.specs.Event.{numbers, pair_bytes, session_bytes, session_code, update_bytes, update_front, pairs_bytes, pad_bytes, event_bytes, event_number, IsEvent, IsSessionEvent, IsUpdateEvent, AreNumbers, ArePairs};
ghost use Rattle.mj_event.specs.Event.EventType.{AMap, AReset, ASession, AnUpdate, AReopen, ANoOp};

use crate::{Event, OpenPair, SessionEvent, SessionKind, UpdateEvent};
use mj_base::limits::{NO_OP, REOPEN, RESET, SESSION, SUBTREE_MAP, UPDATE};
use mj_base::{Ino, Tid, put_u8, put_u32, put_u64};
use mj_meta::append_blob;
use std::alloc::{AllocError, Global};

/// Room for the payload of most events.
const MOST_TAKE: usize = 256;

/// The payload of an event.
pub fn event_write(alloc: Global, event: &Event) -> Result<Vec<u8>, AllocError>
    requires { IsEvent event.now }
    ensures { IfOk result (λ payload. payload.items ≡ event_bytes event.now) }
{
    let mut payload = Vec::with_capacity(alloc, MOST_TAKE)?;
    append_event(event, &mut payload)?;
    Ok(payload)
}

fn append_event(event: &Event, out: &mut Vec<u8>) -> Result<(), AllocError>
    requires { IsEvent event.now }
    ensures { OnOk result (out.new.items ≡ out.old.items ++ event_bytes event.now) }
{
    match event {
        Event::SubtreeMap(dirs) => {
            put_u32(SUBTREE_MAP, out)?;
            append_dirs(dirs.as_slice(), out)
        }
        Event::Reset => put_u32(RESET, out),
        Event::Session(session) => {
            put_u32(SESSION, out)?;
            append_session(session, out)
        }
        Event::Update(update) => {
            put_u32(UPDATE, out)?;
            append_update(update, out)
        }
        Event::Reopen(pairs) => {
            put_u32(REOPEN, out)?;
            append_pairs(pairs.as_slice(), out)
        }
        Event::NoOp(pad) => {
            put_u32(NO_OP, out)?;
            append_pad(*pad, out)
        }
    }
}

fn append_dirs(dirs: &[Ino], out: &mut Vec<u8>) -> Result<(), AllocError>
    requires { AreNumbers 1 64 dirs.now }
    ensures { OnOk result (out.new.items ≡ out.old.items ++ numbers dirs.now) }
{
    put_u32(dirs.len() as u32, out)?;
    append_inos(dirs, out)
}

fn append_inos(inos: &[Ino], out: &mut Vec<u8>) -> Result<(), AllocError>
    ensures { OnOk result (out.new.items ≡ out.old.items ++ flat_map eight inos.now) }
{
    for ino in inos {
        append_ino(*ino, out)?;
    }
    Ok(())
}

fn append_ino(ino: Ino, out: &mut Vec<u8>) -> Result<(), AllocError>
    ensures { OnOk result (out.new.items ≡ out.old.items ++ eight ino) }
{
    put_u64(ino.0, out)
}

fn append_tids(tids: &[Tid], out: &mut Vec<u8>) -> Result<(), AllocError>
    ensures { OnOk result (out.new.items ≡ out.old.items ++ flat_map eight tids.now) }
{
    for tid in tids {
        append_tid(*tid, out)?;
    }
    Ok(())
}

fn append_tid(tid: Tid, out: &mut Vec<u8>) -> Result<(), AllocError>
    ensures { OnOk result (out.new.items ≡ out.old.items ++ eight tid) }
{
    put_u64(tid.0, out)
}

fn append_dropped(tids: &[Tid], out: &mut Vec<u8>) -> Result<(), AllocError>
    requires { AreNumbers 0 64 tids.now }
    ensures { OnOk result (out.new.items ≡ out.old.items ++ numbers tids.now) }
{
    put_u32(tids.len() as u32, out)?;
    append_tids(tids, out)
}

fn append_session(event: &SessionEvent, out: &mut Vec<u8>) -> Result<(), AllocError>
    requires { IsSessionEvent event.now }
    ensures { OnOk result (out.new.items ≡ out.old.items ++ session_bytes event.now) }
{
    let client = event.client;
    put_u32(client.0, out)?;
    put_u8(session_code(event.kind), out)?;
    append_tid(event.oldest, out)?;
    append_tid(event.tid, out)?;
    append_dropped(event.dropped.as_slice(), out)
}

fn session_code(kind: SessionKind) -> u8
    ensures { result ≡ session_code kind }
{
    match kind {
        SessionKind::Open => 1,
        SessionKind::Close => 2,
    }
}

fn append_optional_tid(tid: Option<Tid>, out: &mut Vec<u8>) -> Result<(), AllocError>
    ensures { OnOk result (out.new.items ≡ out.old.items ++ optional eight tid) }
{
    match tid {
        Some(tid) => {
            put_u8(1, out)?;
            append_tid(tid, out)
        }
        None => put_u8(0, out),
    }
}

fn append_optional_ino(ino: Option<Ino>, out: &mut Vec<u8>) -> Result<(), AllocError>
    ensures { OnOk result (out.new.items ≡ out.old.items ++ optional eight ino) }
{
    match ino {
        Some(ino) => {
            put_u8(1, out)?;
            append_ino(ino, out)
        }
        None => put_u8(0, out),
    }
}

fn append_update(event: &UpdateEvent, out: &mut Vec<u8>) -> Result<(), AllocError>
    requires { IsUpdateEvent event.now }
    ensures { OnOk result (out.new.items ≡ out.old.items ++ update_bytes event.now) }
{
    append_update_front(event, out)?;
    append_dropped(event.dropped.as_slice(), out)?;
    append_optional_ino(event.next, out)?;
    append_optional_ino(event.opened, out)?;
    append_optional_ino(event.released, out)?;
    append_blob(&event.blob, out)
}

fn append_update_front(event: &UpdateEvent, out: &mut Vec<u8>) -> Result<(), AllocError>
    ensures { OnOk result (out.new.items ≡ out.old.items ++ update_front event.now) }
{
    put_u8(event.op, out)?;
    let client = event.client;
    put_u32(client.0, out)?;
    append_tid(event.tid, out)?;
    append_ino(event.ino, out)?;
    append_optional_tid(event.oldest, out)
}

fn append_pairs(pairs: &[OpenPair], out: &mut Vec<u8>) -> Result<(), AllocError>
    requires { ArePairs pairs.now }
    ensures { OnOk result (out.new.items ≡ out.old.items ++ pairs_bytes pairs.now) }
{
    put_u32(pairs.len() as u32, out)?;
    append_each_pair(pairs, out)
}

fn append_each_pair(pairs: &[OpenPair], out: &mut Vec<u8>) -> Result<(), AllocError>
    ensures { OnOk result (out.new.items ≡ out.old.items ++ flat_map pair_bytes pairs.now) }
{
    for pair in pairs {
        append_pair(pair, out)?;
    }
    Ok(())
}

fn append_pair(pair: &OpenPair, out: &mut Vec<u8>) -> Result<(), AllocError>
    ensures { OnOk result (out.new.items ≡ out.old.items ++ pair_bytes pair.now) }
{
    let client = pair.client;
    put_u32(client.0, out)?;
    append_ino(pair.ino, out)
}

fn append_pad(len: u32, out: &mut Vec<u8>) -> Result<(), AllocError>
    ensures { OnOk result (out.new.items ≡ out.old.items ++ pad_bytes len) }
{
    put_u32(len, out)?;
    out.resize(out.len() + len as usize, 0)
}
