//! Files and sinks, in memory and of the system.

use mj_base::*;
use std::alloc::{AllocError, Global};
use std::fs::OpenFile;
use std::test::Fail;
use std::{fs, process};

#[test]
fn the_listed_calls_of_files_fail(rt: HostRuntime) -> Result<(), Fail> {
    let alloc = rt.alloc();
    let mut files = MemFiles::new(alloc, &[4, 6])?;
    assert_eq!(rt; files.read(alloc, "a"), Err(FileRefusal::Missing));
    assert_eq!(rt; files.write(alloc, "a", b"one"), Ok(()));
    assert_eq!(rt; files.write(alloc, "b", b"two"), Ok(()));
    assert_eq!(rt; files.write(alloc, "a", b"lost"), Err(FileRefusal::Failed));
    assert_eq!(rt; files.write(alloc, "a", b"three"), Ok(()));
    assert_eq!(rt; files.read(alloc, "b"), Err(FileRefusal::Failed));
    assert!(rt; holds(alloc, &mut files, "a", b"three"));
    assert!(rt; holds(alloc, &mut files, "b", b"two"));
    Ok(())
}

// Whether a file has these bytes.
fn holds(alloc: Global, files: &mut MemFiles, name: &str, bytes: &[u8]) -> bool {
    match files.read(alloc, name) {
        Ok(found) => found.as_slice() == bytes,
        Err(_) => false,
    }
}

#[test]
fn copied_files_go_their_own_ways(rt: HostRuntime) -> Result<(), Fail> {
    let alloc = rt.alloc();
    let mut files = MemFiles::new(alloc, &[2])?;
    assert_eq!(rt; files.write(alloc, "a", b"three"), Ok(()));
    assert_eq!(rt; files.write(alloc, "a", b"lost"), Err(FileRefusal::Failed));
    let mut other = files.copy(alloc)?;
    assert_eq!(rt; other.write(alloc, "a", b"four"), Ok(()));
    assert!(rt; holds(alloc, &mut files, "a", b"three"));
    assert!(rt; holds(alloc, &mut other, "a", b"four"));
    Ok(())
}

#[test]
fn the_listed_calls_of_a_sink_fail(rt: HostRuntime) -> Result<(), Fail> {
    let mut sink = MemSink::new(rt.alloc(), &[2])?;
    assert_eq!(rt; put_all(&mut sink, b"first\n"), Ok(()));
    assert_eq!(rt; put_all(&mut sink, b"lost\n"), Err(SinkFault));
    assert_eq!(rt; put_all(&mut sink, b""), Ok(()));
    assert_eq!(rt; sink.put(b"second\n"), Ok(7));
    assert_eq!(rt; sink.taken(), b"first\nsecond\n".as_slice());
    assert_eq!(rt; is_copied(rt.alloc(), &sink), Ok(true));
    Ok(())
}

// Whether the copy of a sink has taken the same.
fn is_copied(alloc: Global, sink: &MemSink) -> Result<bool, AllocError> {
    let copy = sink.copy(alloc)?;
    Ok(copy.taken() == sink.taken())
}

// A name that no other process takes.
fn own_name(rt: &HostRuntime) -> Result<String, AllocError> {
    format!(in rt.alloc(); "mj_base_{}", process::id(rt.process()))
}

#[test]
fn a_file_of_the_system_is_replaced(rt: HostRuntime) -> Result<(), Fail> {
    let alloc = rt.alloc();
    let name = own_name(&rt)?;
    let mut files = HostFiles::new(&rt);
    files.write(alloc, &name, b"a longer text")?;
    files.write(alloc, &name, b"text")?;
    let held = files.read(alloc, &name);
    fs::remove_file(&rt, &name)?;
    assert_eq!(rt; held?.as_slice(), b"text".as_slice());
    assert_eq!(rt; files.read(alloc, &name), Err(FileRefusal::Missing));
    Ok(())
}

#[test]
fn a_long_file_of_the_system_is_refused(rt: HostRuntime) -> Result<(), Fail> {
    let name = own_name(&rt)?;
    fs::create(&rt, &name)?.set_len(MAX_FILE_BYTES + 1)?;
    let long = HostFiles::new(&rt).read(rt.alloc(), &name);
    fs::remove_file(&rt, &name)?;
    assert_eq!(rt; long, Err(FileRefusal::TooLong(MAX_FILE_BYTES + 1)));
    Ok(())
}

#[test]
fn a_folder_of_the_system_is_no_file(rt: HostRuntime) {
    let alloc = rt.alloc();
    let mut files = HostFiles::new(&rt);
    assert_eq!(rt; files.read(alloc, "."), Err(FileRefusal::Failed));
    assert_eq!(rt; files.write(alloc, ".", b"text"), Err(FileRefusal::Failed));
}

#[test]
fn standard_output_takes_a_piece(rt: HostRuntime) {
    assert_eq!(rt; put_all(&mut HostSink::new(&rt), b"text\n"), Ok(()));
}
