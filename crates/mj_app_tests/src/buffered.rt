// A sink in memory behind a buffer.
use mj_app::*;
use mj_base::{MemSink, Sink, SinkFault, put_all};
use std::test::Fail;

#[test]
fn small_pieces_wait_for_a_flush(rt: HostRuntime) -> Result<(), Fail> {
    let alloc = rt.alloc();
    let mut out = Buffered::new(alloc, MemSink::new(alloc, &[1])?);
    put_all(&mut out, b"one ")?;
    put_all(&mut out, b"two ")?;
    assert_eq!(rt; out.flush(), Err(SinkFault));
    put_all(&mut out, b"three\n")?;
    out.flush()?;
    put_all(&mut out, b"lost\n")?;
    assert_eq!(rt; out.into_inner().taken(), b"one two three\n".as_slice());
    Ok(())
}

#[test]
fn a_piece_that_does_not_fit_waits_for_those_before_it(rt: HostRuntime) -> Result<(), Fail> {
    let alloc = rt.alloc();
    let mut out = Buffered::new(alloc, MemSink::new(alloc, &[1])?);
    let piece = Vec::from_elem(alloc, b'x', 40_000)?;
    assert_eq!(rt; out.put(&piece), Ok(40_000));
    assert_eq!(rt; out.put(&piece), Err(SinkFault));
    assert_eq!(rt; out.put(&piece), Ok(40_000));
    assert_eq!(rt; out.into_inner().taken().len(), 40_000);
    Ok(())
}

#[test]
fn a_long_piece_is_not_held(rt: HostRuntime) -> Result<(), Fail> {
    let alloc = rt.alloc();
    let mut out = Buffered::new(alloc, MemSink::new(alloc, &[])?);
    let long = Vec::from_elem(alloc, b'x', 70_000)?;
    put_all(&mut out, b"short")?;
    put_all(&mut out, &long)?;
    let sink = out.into_inner();
    assert_eq!(rt; sink.taken().len(), long.len() + 5);
    assert!(rt; sink.taken().starts_with(b"shortx"));
    Ok(())
}
