//! Reading numbers and bytes from the front, and writing numbers at the end.

ghost use Rattle.std.specs.Prelude.{◌≡◌, ◌==◌, ◌<◌, ◌↔◌, ◌++◌, ◌∷◌, [], IsNone, OnOk, OnErr, length, take};
ghost use Rattle.std.specs.Option.{option_copied};
ghost use Rattle.mj_base.specs.Reading.{u8_at, u16_at, u32_at, u64_at, bytes_at, two, four, eight};
ghost use Rattle.mj_base.specs.Cursor.{Takes, Reads};

use std::alloc::{AllocError, AllocFailed};
use std::marker::Model;

/// A place in bytes, from which fields are read one after another. Contracts see the bytes that are left.
#[derive(Drop)]
pub struct Cursor<'a> {
    bytes: &'a [u8],
}

impl<'a> Model for Cursor<'a> {
    ghost use Rattle.std.specs.Prelude.{List, ℕ};

    ghost Value = { List ℕ };

    ghost view = { λ a. a.bytes.now };
}

/// Why a field was not read: there was no memory, or this many bytes are left from the wrong field on.
#[derive(Clone, Copy, Debug, PartialEq, Eq)]
pub enum Fault {
    Memory,
    Left(usize),
}

impl From<AllocError> for Fault {
    ghost use Rattle.std.specs.Prelude.{◌≡◌};
    ghost use Rattle.mj_base.specs.declared.cursor.Fault.TheVariants.{Memory};

    ghost from_gives = { λ _ e. e ≡ Memory };

    fn from(_e: AllocError) -> Fault {
        Fault::Memory
    }
}

impl<T: Drop> From<AllocFailed<T>> for Fault {
    ghost use Rattle.std.specs.Prelude.{◌≡◌};
    ghost use Rattle.mj_base.specs.declared.cursor.Fault.TheVariants.{Memory};

    ghost from_gives = { λ _ e. e ≡ Memory };

    fn from(_e: AllocFailed<T>) -> Fault {
        Fault::Memory
    }
}

impl<'a> Cursor<'a> {
    /// A cursor before all of the bytes.
    pub fn new(bytes: &'a [u8]) -> Cursor<'a>
        ensures { result ≡ bytes.now }
    {
        Cursor { bytes }
    }

    /// The bytes that are left.
    pub fn rest(&self) -> &'a [u8]
        ensures { result.now ≡ self.now }
    {
        self.bytes
    }

    /// How many bytes are left.
    pub fn left(&self) -> usize
        ensures { result ≡ length self.now }
    {
        self.bytes.len()
    }

    /// Whether no byte is left.
    pub fn is_empty(&self) -> bool
        ensures { result ≡ (length self.now == 0) }
    {
        self.bytes.is_empty()
    }

    /// Takes the next n bytes, or nothing where fewer are left.
    pub fn take_bytes(&mut self, n: usize) -> Option<&'a [u8]>
        ensures short { IsNone result ↔ (length self.old < n) }
        ensures taken { Takes (option_copied result) self.old self.new (bytes_at n self.old) }
    {
        if self.bytes.len() < n {
            return None;
        }
        let (front, rest) = self.bytes.split_at(n);
        self.bytes = rest;
        Some(front)
    }

    /// Takes the next byte, or nothing where none is left.
    pub fn take_u8(&mut self) -> Option<u8>
        ensures short { IsNone result ↔ (length self.old < 1) }
        ensures taken { Takes result self.old self.new (u8_at self.old) }
    {
        match self.bytes {
            [] => None,
            [byte, rest @ ..] => {
                self.bytes = rest;
                Some(*byte)
            }
        }
    }

    /// Takes a number of 2 bytes, or nothing where fewer are left.
    pub fn take_u16(&mut self) -> Option<u16>
        ensures short { IsNone result ↔ (length self.old < 2) }
        ensures taken { Takes result self.old self.new (u16_at self.old) }
    {
        let bytes = self.take_bytes(2)?;
        Some(u16::from_le_bytes([bytes[0], bytes[1]]))
    }

    /// Takes a number of 4 bytes, or nothing where fewer are left.
    pub fn take_u32(&mut self) -> Option<u32>
        ensures short { IsNone result ↔ (length self.old < 4) }
        ensures taken { Takes result self.old self.new (u32_at self.old) }
    {
        let bytes = self.take_bytes(4)?;
        Some(u32::from_le_bytes([bytes[0], bytes[1], bytes[2], bytes[3]]))
    }

    /// Takes a number of 8 bytes, or nothing where fewer are left.
    pub fn take_u64(&mut self) -> Option<u64>
        ensures short { IsNone result ↔ (length self.old < 8) }
        ensures taken { Takes result self.old self.new (u64_at self.old) }
    {
        let bytes = self.take_bytes(8)?;
        Some(u64::from_le_bytes([
            bytes[0], bytes[1], bytes[2], bytes[3], bytes[4], bytes[5], bytes[6], bytes[7],
        ]))
    }

    /// Reads the next n bytes. After a fault the cursor is as before.
    pub fn read_bytes(&mut self, n: usize) -> Result<&'a [u8], Fault>
        ensures { Reads (λ x. x.now) result self.new (bytes_at n self.old) }
    {
        let left = self.left();
        self.take_bytes(n).ok_or(Fault::Left(left))
    }

    /// Reads a byte. After a fault the cursor is as before.
    pub fn read_u8(&mut self) -> Result<u8, Fault>
        ensures { Reads (λ x. x) result self.new (u8_at self.old) }
    {
        let left = self.left();
        self.take_u8().ok_or(Fault::Left(left))
    }

    /// Reads a number of 2 bytes. After a fault the cursor is as before.
    pub fn read_u16(&mut self) -> Result<u16, Fault>
        ensures { Reads (λ x. x) result self.new (u16_at self.old) }
    {
        let left = self.left();
        self.take_u16().ok_or(Fault::Left(left))
    }

    /// Reads a number of 4 bytes. After a fault the cursor is as before.
    pub fn read_u32(&mut self) -> Result<u32, Fault>
        ensures { Reads (λ x. x) result self.new (u32_at self.old) }
    {
        let left = self.left();
        self.take_u32().ok_or(Fault::Left(left))
    }

    /// Reads a number of 8 bytes. After a fault the cursor is as before.
    pub fn read_u64(&mut self) -> Result<u64, Fault>
        ensures { Reads (λ x. x) result self.new (u64_at self.old) }
    {
        let left = self.left();
        self.take_u64().ok_or(Fault::Left(left))
    }
}

/// Appends a byte. After an error the buffer is as before.
pub fn put_u8(n: u8, out: &mut Vec<u8>) -> Result<(), AllocError>
    ensures ok { OnOk result (out.new.items ≡ out.old.items ++ n ∷ []) }
    ensures err { OnErr result (out.new.items ≡ out.old.items) }
{
    out.push(n)?;
    Ok(())
}

/// Appends the 2 bytes of a number, the lowest first. After an error the buffer is as before.
pub fn put_u16(n: u16, out: &mut Vec<u8>) -> Result<(), AllocError>
    ensures ok { OnOk result (out.new.items ≡ out.old.items ++ two n) }
    ensures err { OnErr result (out.new.items ≡ out.old.items) }
{
    out.extend_from_slice(&n.to_le_bytes())
}

/// Appends the 4 bytes of a number, the lowest first. After an error the buffer is as before.
pub fn put_u32(n: u32, out: &mut Vec<u8>) -> Result<(), AllocError>
    ensures ok { OnOk result (out.new.items ≡ out.old.items ++ four n) }
    ensures err { OnErr result (out.new.items ≡ out.old.items) }
{
    out.extend_from_slice(&n.to_le_bytes())
}

/// Appends the 8 bytes of a number, the lowest first. After an error the buffer is as before.
pub fn put_u64(n: u64, out: &mut Vec<u8>) -> Result<(), AllocError>
    ensures ok { OnOk result (out.new.items ≡ out.old.items ++ eight n) }
    ensures err { OnErr result (out.new.items ≡ out.old.items) }
{
    out.extend_from_slice(&n.to_le_bytes())
}

/// The same answer. Where it is an error, what stands behind the first bytes of the buffer is taken back.
pub fn or_take_back(
    done: Result<(), AllocError>,
    before: usize,
    out: &mut Vec<u8>,
) -> Result<(), AllocError>
    ensures same { result ≡ done }
    ensures ok { OnOk result (out.new.items ≡ out.old.items) }
    ensures err { OnErr result (out.new.items ≡ take before out.old.items) }
{
    if done.is_err() {
        out.truncate(before);
    }
    done
}
