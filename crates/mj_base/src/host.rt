//! The adapters over real files and standard output. They tell nothing of contents: what the system
//! does is trusted.

ghost use Rattle.std.specs.Prelude.{◌≡◌, ◌<◌, ◌≤◌, ℕ, length, vec_len, IfOk, IfSome, IsErrOf, None};
ghost use Rattle.mj_base.specs.declared.files.FileRefusal.TheVariants.{TooLong};

use crate::files::{FileRefusal, Files};
use crate::limits::MAX_FILE_BYTES;
use crate::sink::{Sink, SinkFault};
use std::alloc::Global;
use std::fs::OpenFile;
use std::io::{ErrorKind, Read, Write};
use std::{fs, io, rt};

/// The files of the system. A write that fails may leave part of the file.
#[derive(Drop)]
pub struct HostFiles<'a, R> {
    rt: &'a R,
    faults: u64,
}

impl<'a, R: rt::Files> HostFiles<'a, R> {
    pub fn new(rt: &'a R) -> HostFiles<'a, R>
        ensures { ⟦<HostFiles<'a, R> as Files>⟧.faults result ≡ 0 }
    {
        HostFiles { rt, faults: 0 }
    }
}

// Reads to the end in pieces, as long as there are not too many bytes.
fn read_pieces<F: Read>(alloc: Global, file: &mut F) -> Result<Vec<u8>, FileRefusal>
    ensures limit { IfOk result (λ bytes. vec_len bytes ≤ MAX_FILE_BYTES) }
    ensures too_long { (n : ℕ) → IsErrOf result (TooLong n) → MAX_FILE_BYTES < n }
{
    let mut bytes = Vec::new(alloc);
    let mut piece = [0u8; 8192];
    for _ in 0..u64::MAX {
        match file.read(&mut piece) {
            Ok(0) => return Ok(bytes),
            Ok(n) => bytes.extend_from_slice(&piece[..n])?,
            Err(e) if e.kind() == ErrorKind::Interrupted => {}
            Err(_) => return Err(FileRefusal::Failed),
        }
        let len = bytes.len() as u64;
        if len > MAX_FILE_BYTES {
            return Err(FileRefusal::TooLong(len));
        }
    }
    Err(FileRefusal::Failed)
}

fn read_file<R: rt::Files>(rt: &R, alloc: Global, name: &str) -> Result<Vec<u8>, FileRefusal>
    ensures limit { IfOk result (λ bytes. vec_len bytes ≤ MAX_FILE_BYTES) }
    ensures too_long { (n : ℕ) → IsErrOf result (TooLong n) → MAX_FILE_BYTES < n }
{
    let mut file = match fs::open(rt, name) {
        Ok(file) => file,
        Err(e) if e.kind() == ErrorKind::NotFound => return Err(FileRefusal::Missing),
        Err(_) => return Err(FileRefusal::Failed),
    };
    match file.metadata() {
        Ok(told) if told.len() > MAX_FILE_BYTES => Err(FileRefusal::TooLong(told.len())),
        Ok(_) => read_pieces(alloc, &mut file),
        Err(_) => Err(FileRefusal::Failed),
    }
}

fn write_file<R: rt::Files>(rt: &R, name: &str, bytes: &[u8]) -> io::Result<()> {
    let mut file = fs::create(rt, name)?;
    let mut left = bytes;
    for _ in 0..u64::MAX {
        if left.is_empty() {
            return Ok(());
        }
        match file.write(left) {
            Ok(0) => break,
            Ok(n) => left = &left[n..],
            Err(e) if e.kind() == ErrorKind::Interrupted => {}
            Err(e) => return Err(e),
        }
    }
    Err(io::Error::from(ErrorKind::WriteZero))
}

impl<'a, R: rt::Files> Files for HostFiles<'a, R> {
    ghost told = { λ _. None };

    ghost faults = { λ h. h.faults };

    fn read(&mut self, alloc: Global, name: &str) -> Result<Vec<u8>, FileRefusal> {
        let answer = read_file(self.rt, alloc, name);
        if let Err(FileRefusal::Failed) = answer {
            self.faults = self.faults.saturating_add(1);
        }
        answer
    }

    fn write(&mut self, _alloc: Global, name: &str, bytes: &[u8]) -> Result<(), FileRefusal> {
        if write_file(self.rt, name, bytes).is_err() {
            self.faults = self.faults.saturating_add(1);
            return Err(FileRefusal::Failed);
        }
        Ok(())
    }
}

/// Standard output.
#[derive(Drop)]
pub struct HostSink<'a, R> {
    rt: &'a R,
    faults: u64,
}

impl<'a, R: Print> HostSink<'a, R> {
    pub fn new(rt: &'a R) -> HostSink<'a, R>
        ensures { ⟦<HostSink<'a, R> as Sink>⟧.faults result ≡ 0 }
    {
        HostSink { rt, faults: 0 }
    }
}

// How many bytes of the front were written; None where the system failed or took none.
fn write_front<R: Print>(rt: &R, bytes: &[u8]) -> Option<usize>
    ensures most { IfSome result (λ n. n ≤ length bytes.now) }
    ensures some { IfSome result (λ n. 0 < length bytes.now → 0 < n) }
{
    if bytes.is_empty() {
        return Some(0);
    }
    for _ in 0..u64::MAX {
        match rt.write_some(bytes) {
            Ok(0) => return None,
            Ok(n) => return Some(n),
            Err(e) if e.kind() == ErrorKind::Interrupted => {}
            Err(_) => return None,
        }
    }
    None
}

impl<'a, R: Print> Sink for HostSink<'a, R> {
    ghost taken = { λ _. None };

    ghost faults = { λ h. h.faults };

    fn put(&mut self, bytes: &[u8]) -> Result<usize, SinkFault> {
        match write_front(self.rt, bytes) {
            Some(n) => Ok(n),
            None => {
                self.faults = self.faults.saturating_add(1);
                Err(SinkFault)
            }
        }
    }
}
