//! The header's bytes, both ways.

ghost use Rattle.std.specs.Prelude.{◌≡◌, ◌≤◌, ◌<◌, ◌++◌, ℕ, List, length, slice_index, Ok, IfOk, IfErr, OnOk};
ghost use Rattle.std.specs.Int.{w32, w64};
ghost use Rattle.mj_layout.specs.declared.Header.{Header};
ghost use Rattle.mj_layout.specs.Gives.{Gives, Reads};
ghost use Rattle.mj_layout.specs.Header.{header_bytes, layout_bytes, header_of, fields_at, sound_layout_at, format_at, phase_at, ends, exactly, uncut, is_ordered, phase_code, phase_of, IsHeader};

use crate::{Header, HeaderRefusal, Layout, Phase};
use mj_base::limits::{HEADER_BYTES, HEADER_MAGIC, POSITIONS_END};
use mj_base::{Cursor, put_u8, put_u32, put_u64};
use std::alloc::{AllocError, Global};

impl Header {
    /// The header that the bytes are.
    pub fn read(bytes: &[u8]) -> Result<Header, HeaderRefusal>
        ensures { result ≡ header_of bytes.now }
    {
        match read_fields(bytes) {
            Ok(header) if header.is_ordered() => Ok(header),
            Ok(_) => Err(HeaderRefusal::HeaderOrder),
            Err(left) => Err(HeaderRefusal::HeaderBad((bytes.len() - left) as u64)),
        }
    }

    /// The 69 bytes of the header's fields, whatever they are.
    pub fn write(&self, alloc: Global) -> Result<Vec<u8>, AllocError>
        ensures { IfOk result (λ bytes. bytes.items ≡ header_bytes self.now) }
    {
        let mut out = Vec::with_capacity(alloc, HEADER_BYTES)?;
        out.extend_from_slice(&HEADER_MAGIC)?;
        put_u64(self.trimmed, &mut out)?;
        put_u64(self.expire, &mut out)?;
        put_u64(self.write, &mut out)?;
        append_layout(&self.layout, &mut out)?;
        put_u8(self.format, &mut out)?;
        put_u8(self.phase.code(), &mut out)?;
        put_u64(self.epoch, &mut out)?;
        Ok(out)
    }

    /// Whether the positions are in their order: period, trimmed, expire, write, 2^62.
    pub fn is_ordered(&self) -> bool
        ensures { result ≡ is_ordered self.now }
    {
        self.layout.period() <= self.trimmed
            && self.trimmed <= self.expire
            && self.expire <= self.write
            && self.write < POSITIONS_END
    }
}

fn append_layout(layout: &Layout, out: &mut Vec<u8>) -> Result<(), AllocError>
    ensures { OnOk result (out.new.items ≡ out.old.items ++ layout_bytes layout.now) }
{
    put_u32(layout.su(), out)?;
    put_u32(layout.sc(), out)?;
    put_u32(layout.os(), out)
}

impl Phase {
    fn code(self) -> u8
        ensures { result ≡ phase_code self }
    {
        match self {
            Phase::Mounting => 1,
            Phase::Serving => 2,
        }
    }

    fn of_code(code: u8) -> Option<Phase>
        ensures { result ≡ phase_of code }
    {
        match code {
            1 => Some(Phase::Mounting),
            2 => Some(Phase::Serving),
            _ => None,
        }
    }
}

// The readers below answer the value, or how many bytes there are from the fault on.

#[tactic(auto, unfolding(crate::specs::Header::fields_at))]
fn read_fields(bytes: &[u8]) -> Result<Header, usize>
    ensures is { Gives (λ h. h) result (fields_at bytes.now) }
    ensures within { IfErr result (λ left. left ≤ length bytes.now) }
{
    let magic = HEADER_MAGIC;
    let rest = exactly(&magic, bytes)?;
    let mut cursor = Cursor::new(rest);
    let trimmed = uncut_u64(&mut cursor)?;
    let expire = uncut_u64(&mut cursor)?;
    let write = uncut_u64(&mut cursor)?;
    let layout = read_layout(&mut cursor)?;
    let format = read_format(&mut cursor)?;
    let phase = read_phase(&mut cursor)?;
    let epoch = uncut_u64(&mut cursor)?;
    at_end(cursor.rest())?;
    Ok(Header {
        trimmed,
        expire,
        write,
        layout,
        format,
        phase,
        epoch,
    })
}

fn at_end(bytes: &[u8]) -> Result<(), usize>
    ensures { result ≡ ends bytes.now }
{
    match bytes {
        [] => Ok(()),
        [_, ..] => Err(0),
    }
}

/// The bytes behind a text that stands at the front; else the fault is at the first other byte, or at the end.
fn exactly<'a>(text: &[u8], bytes: &'a [u8]) -> Result<&'a [u8], usize>
    ensures is { Gives (λ rest. (tt, rest.now)) result (exactly text.now bytes.now) }
    ensures shorter { IfOk result (λ rest. length rest.now ≤ length bytes.now) }
    ensures within { IfErr result (λ left. left ≤ length bytes.now) }
{
    for (i, b) in text.iter().enumerate() {
        if bytes.len() <= i {
            return Err(0);
        }
        if bytes[i] != *b {
            return Err(bytes.len() - i);
        }
    }
    Ok(&bytes[text.len()..])
}

/// A number that is cut is wrong at the end of the bytes.
#[tactic(auto, unfolding(crate::specs::Header::uncut))]
fn uncut_u32(cursor: &mut Cursor) -> Result<u32, usize>
    ensures is { Reads (λ x. x) result cursor.new (uncut w32 cursor.old) }
    ensures shorter { length cursor.new ≤ length cursor.old }
    ensures within { IfErr result (λ left. left ≤ length cursor.old) }
{
    match cursor.take_u32() {
        Some(number) => Ok(number),
        None => Err(0),
    }
}

/// A number that is cut is wrong at the end of the bytes.
#[tactic(auto, unfolding(crate::specs::Header::uncut))]
fn uncut_u64(cursor: &mut Cursor) -> Result<u64, usize>
    ensures is { Reads (λ x. x) result cursor.new (uncut w64 cursor.old) }
    ensures shorter { length cursor.new ≤ length cursor.old }
    ensures within { IfErr result (λ left. left ≤ length cursor.old) }
{
    match cursor.take_u64() {
        Some(number) => Ok(number),
        None => Err(0),
    }
}

/// A layout that is refused is wrong at its first byte.
#[tactic(auto, unfolding(crate::specs::Header::layout_at))]
fn read_layout(cursor: &mut Cursor) -> Result<Layout, usize>
    ensures is { Reads (λ x. x) result cursor.new (sound_layout_at cursor.old) }
    ensures shorter { length cursor.new ≤ length cursor.old }
    ensures within { IfErr result (λ left. left ≤ length cursor.old) }
{
    let left = cursor.left();
    let su = uncut_u32(cursor)?;
    let sc = uncut_u32(cursor)?;
    let os = uncut_u32(cursor)?;
    match Layout::new(su, sc, os) {
        Ok(layout) => Ok(layout),
        Err(_) => Err(left),
    }
}

fn read_format(cursor: &mut Cursor) -> Result<u8, usize>
    ensures is { Reads (λ x. x) result cursor.new (format_at cursor.old) }
    ensures shorter { length cursor.new ≤ length cursor.old }
    ensures within { IfErr result (λ left. left ≤ length cursor.old) }
{
    let left = cursor.left();
    match cursor.take_u8() {
        None => Err(0),
        Some(format) if format <= 1 => Ok(format),
        Some(_) => Err(left),
    }
}

fn read_phase(cursor: &mut Cursor) -> Result<Phase, usize>
    ensures is { Reads (λ x. x) result cursor.new (phase_at cursor.old) }
    ensures shorter { length cursor.new ≤ length cursor.old }
    ensures within { IfErr result (λ left. left ≤ length cursor.old) }
{
    let left = cursor.left();
    match cursor.take_u8() {
        None => Err(0),
        Some(code) => match Phase::of_code(code) {
            Some(phase) => Ok(phase),
            None => Err(left),
        },
    }
}

/// A header has one spelling: what is read is spelled so, and each spelling is read again.
pub fn header_has_one_spelling()
    ensures spelled { (bytes : List ℕ) (h : Header) → ((i : ℕ) → slice_index bytes i < 256) → header_of bytes ≡ Ok h → (bytes ≡ header_bytes h) × IsHeader h }
    ensures again { (h : Header) → IsHeader h → header_of (header_bytes h) ≡ Ok h }
{}
