//! Reading the fields of events.

ghost use Rattle.std.specs.Prelude.{◌≡◌, ℕ, None, nat_lt};
ghost use Rattle.std.specs.Option.{option_copied};
ghost use Rattle.mj_base.specs.Cursor.{Reads};
ghost use Rattle.mj_base.specs.Reading.{run_at, such, standing_for, optional_at, is_above, u8_at, u32_at, u64_at};
ghost use Rattle.mj_event.specs.Event.{is_count, most_dropped, client_follows, ino_follows};
ghost use Rattle.mj_event.specs.EventReading.{numbers_at, rising_at, session_kind_of, session_at, update_at, pair_at, pairs_at, are_zeros, pad_at};

use crate::{OpenPair, SessionEvent, SessionKind, UpdateEvent};
use mj_base::limits::{FIRST_OP, LAST_OP, MAX_DIRS, MAX_DROPPED, MAX_REOPENED};
use mj_base::{ClientId, Cursor, Fault, Ino, Items, Tid};
use mj_meta::{blob_field, optional_field};
use std::alloc::Global;

fn count_field(least: u32, most: u32, cursor: &mut Cursor<'_>) -> Result<u32, Fault>
    ensures { Reads (λ x. x) result cursor.new (such (is_count least most) u32_at cursor.old) }
{
    let left = cursor.left();
    let count = cursor.read_u32()?;
    if count < least || count > most {
        return Err(Fault::Left(left));
    }
    Ok(count)
}

fn tid_field(before: Option<&Tid>, cursor: &mut Cursor<'_>) -> Result<Tid, Fault>
    ensures { Reads (λ x. x) result cursor.new (such (is_above nat_lt (option_copied before.entry)) u64_at cursor.old) }
{
    let left = cursor.left();
    let tid = Tid(cursor.read_u64()?);
    match before {
        Some(before) if tid <= *before => Err(Fault::Left(left)),
        _ => Ok(tid),
    }
}

fn ino_field(before: Option<&Ino>, cursor: &mut Cursor<'_>) -> Result<Ino, Fault>
    ensures { Reads (λ x. x) result cursor.new (such (is_above nat_lt (option_copied before.entry)) u64_at cursor.old) }
{
    let left = cursor.left();
    let ino = Ino(cursor.read_u64()?);
    match before {
        Some(before) if ino <= *before => Err(Fault::Left(left)),
        _ => Ok(ino),
    }
}

fn rising_tids(alloc: Global, count: u32, cursor: &mut Cursor<'_>) -> Result<Vec<Tid>, Fault>
    ensures { Reads (λ v. v.items) result cursor.new (rising_at count cursor.old) }
{
    let mut tids = Vec::new(alloc);
    for _n in 0..count {
        let tid = tid_field(tids.last(), cursor)?;
        tids.push(tid)?;
    }
    Ok(tids)
}

fn rising_inos(alloc: Global, count: u32, cursor: &mut Cursor<'_>) -> Result<Vec<Ino>, Fault>
    ensures { Reads (λ v. v.items) result cursor.new (rising_at count cursor.old) }
{
    let mut inos = Vec::new(alloc);
    for _n in 0..count {
        let ino = ino_field(inos.last(), cursor)?;
        inos.push(ino)?;
    }
    Ok(inos)
}

#[tactic(auto, unfolding(crate::specs::EventReading::numbers_at))]
fn dropped_field(alloc: Global, most: u32, cursor: &mut Cursor<'_>) -> Result<Items<Tid>, Fault>
    ensures { Reads (λ x. x) result cursor.new (numbers_at 0 most cursor.old) }
{
    let count = count_field(0, most, cursor)?;
    let tids = rising_tids(alloc, count, cursor)?;
    Ok(Items::from_vec(tids))
}

/// The body of a subtree map.
#[tactic(auto, unfolding(crate::specs::EventReading::numbers_at))]
pub fn dirs_field(alloc: Global, cursor: &mut Cursor<'_>) -> Result<Items<Ino>, Fault>
    ensures { Reads (λ x. x) result cursor.new (numbers_at 1 64 cursor.old) }
{
    let count = count_field(1, MAX_DIRS, cursor)?;
    let inos = rising_inos(alloc, count, cursor)?;
    Ok(Items::from_vec(inos))
}

fn session_kind_field(cursor: &mut Cursor<'_>) -> Result<SessionKind, Fault>
    ensures { Reads (λ x. x) result cursor.new (standing_for session_kind_of u8_at cursor.old) }
{
    let left = cursor.left();
    match cursor.read_u8()? {
        1 => Ok(SessionKind::Open),
        2 => Ok(SessionKind::Close),
        _ => Err(Fault::Left(left)),
    }
}

// An open drops no reply, and a close drops at most 64.
fn most_dropped(kind: SessionKind) -> u32
    ensures { result ≡ most_dropped kind }
{
    match kind {
        SessionKind::Open => 0,
        SessionKind::Close => MAX_DROPPED,
    }
}

/// The body of a session event.
#[tactic(auto, unfolding(crate::specs::EventReading::session_at))]
pub fn session_field(alloc: Global, cursor: &mut Cursor<'_>) -> Result<SessionEvent, Fault>
    ensures { Reads (λ x. x) result cursor.new (session_at cursor.old) }
{
    let client = ClientId(cursor.read_u32()?);
    let kind = session_kind_field(cursor)?;
    let oldest = Tid(cursor.read_u64()?);
    let tid = Tid(cursor.read_u64()?);
    let dropped = dropped_field(alloc, most_dropped(kind), cursor)?;
    Ok(SessionEvent {
        client,
        kind,
        oldest,
        tid,
        dropped,
    })
}

fn op_field(cursor: &mut Cursor<'_>) -> Result<u8, Fault>
    ensures { Reads (λ x. x) result cursor.new (such (is_count 3 12) u8_at cursor.old) }
{
    let left = cursor.left();
    let op = cursor.read_u8()?;
    if op < FIRST_OP || op > LAST_OP {
        return Err(Fault::Left(left));
    }
    Ok(op)
}

fn optional_tid(cursor: &mut Cursor<'_>) -> Result<Option<Tid>, Fault>
    ensures { Reads (λ x. x) result cursor.new (optional_at u64_at cursor.old) }
{
    match optional_field(cursor)? {
        Some(tid) => Ok(Some(Tid(tid))),
        None => Ok(None),
    }
}

fn optional_ino(cursor: &mut Cursor<'_>) -> Result<Option<Ino>, Fault>
    ensures { Reads (λ x. x) result cursor.new (optional_at u64_at cursor.old) }
{
    match optional_field(cursor)? {
        Some(ino) => Ok(Some(Ino(ino))),
        None => Ok(None),
    }
}

/// The body of an update.
#[tactic(auto, unfolding(crate::specs::EventReading::update_at))]
pub fn update_field(alloc: Global, cursor: &mut Cursor<'_>) -> Result<UpdateEvent, Fault>
    ensures { Reads (λ x. x) result cursor.new (update_at cursor.old) }
{
    let op = op_field(cursor)?;
    let client = ClientId(cursor.read_u32()?);
    let tid = Tid(cursor.read_u64()?);
    let ino = Ino(cursor.read_u64()?);
    let oldest = optional_tid(cursor)?;
    let dropped = dropped_field(alloc, MAX_DROPPED, cursor)?;
    let next = optional_ino(cursor)?;
    let opened = optional_ino(cursor)?;
    let released = optional_ino(cursor)?;
    let blob = blob_field(alloc, cursor)?;
    Ok(UpdateEvent {
        op,
        client,
        tid,
        ino,
        oldest,
        dropped,
        next,
        opened,
        released,
        blob,
    })
}

// A client is not below the one before, and at the same client the inode is above it.
fn client_field(before: Option<&OpenPair>, cursor: &mut Cursor<'_>) -> Result<ClientId, Fault>
    ensures { Reads (λ x. x) result cursor.new (such (client_follows (option_copied before.entry)) u32_at cursor.old) }
{
    let left = cursor.left();
    let client = ClientId(cursor.read_u32()?);
    match before {
        Some(before) if client < before.client => Err(Fault::Left(left)),
        _ => Ok(client),
    }
}

fn next_ino_field(
    before: Option<&OpenPair>,
    client: ClientId,
    cursor: &mut Cursor<'_>,
) -> Result<Ino, Fault>
    ensures { Reads (λ x. x) result cursor.new (such (ino_follows (option_copied before.entry) client) u64_at cursor.old) }
{
    let left = cursor.left();
    let ino = Ino(cursor.read_u64()?);
    match before {
        Some(before) if before.client == client && ino <= before.ino => Err(Fault::Left(left)),
        _ => Ok(ino),
    }
}

#[tactic(auto, unfolding(crate::specs::EventReading::pair_at))]
fn pair_field(before: Option<&OpenPair>, cursor: &mut Cursor<'_>) -> Result<OpenPair, Fault>
    ensures { Reads (λ x. x) result cursor.new (pair_at (option_copied before.entry) cursor.old) }
{
    let client = client_field(before, cursor)?;
    let ino = next_ino_field(before, client, cursor)?;
    Ok(OpenPair { client, ino })
}

fn rising_pairs(alloc: Global, count: u32, cursor: &mut Cursor<'_>) -> Result<Vec<OpenPair>, Fault>
    ensures { Reads (λ v. v.items) result cursor.new (run_at pair_at count None cursor.old) }
{
    let mut pairs = Vec::new(alloc);
    for _n in 0..count {
        let pair = pair_field(pairs.last(), cursor)?;
        pairs.push(pair)?;
    }
    Ok(pairs)
}

/// The body of a reopen.
#[tactic(auto, unfolding(crate::specs::EventReading::pairs_at))]
pub fn pairs_field(alloc: Global, cursor: &mut Cursor<'_>) -> Result<Items<OpenPair>, Fault>
    ensures { Reads (λ x. x) result cursor.new (pairs_at cursor.old) }
{
    let count = count_field(1, MAX_REOPENED, cursor)?;
    let pairs = rising_pairs(alloc, count, cursor)?;
    Ok(Items::from_vec(pairs))
}

fn are_zeros(bytes: &[u8]) -> bool
    ensures { result ≡ are_zeros bytes.now }
{
    bytes.iter().all(|b| *b == 0)
}

/// The body of a no-op: the zero bytes are one field.
#[tactic(auto, unfolding(crate::specs::EventReading::pad_at))]
pub fn pad_field(cursor: &mut Cursor<'_>) -> Result<u32, Fault>
    ensures { Reads (λ x. x) result cursor.new (pad_at cursor.old) }
{
    let len = cursor.read_u32()?;
    let left = cursor.left();
    let bytes = cursor.read_bytes(len as usize)?;
    if !are_zeros(bytes) {
        return Err(Fault::Left(left));
    }
    Ok(len)
}
