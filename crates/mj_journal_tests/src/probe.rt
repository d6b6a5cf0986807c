//! Ends and ranges over a store in memory, by a table.

use super::stored::{layout, put, rank};
use mj_layout::Layout;
use mj_memstore::MemStore;
use mj_probe::{RangeRefusal, probe_end, read_range};
use mj_store::{ReadRefusal, StoreFault};
use std::alloc::Global;
use std::test::Fail;

/// Units of 4,096 bytes over sets of three objects of 65,536 bytes. The second set begins at 196608 with object 3.
fn striped() -> Result<Layout, Fail> {
    layout(4_096, 3, 65_536)
}

/// An object of the journal with this many bytes, each of them its index.
fn put_filled(alloc: Global, store: &mut MemStore, index: u8, len: usize) -> Result<(), Fail> {
    let bytes = Vec::from_elem(alloc, index, len)?;
    put(alloc, store, u64::from(index), 0, bytes)
}

/// A store with objects 3, 4 and 5 of these sizes.
fn holding(alloc: Global, sizes: [usize; 3]) -> Result<MemStore, Fail> {
    let mut store = MemStore::new(alloc);
    put_filled(alloc, &mut store, 3, sizes[0])?;
    put_filled(alloc, &mut store, 4, sizes[1])?;
    put_filled(alloc, &mut store, 5, sizes[2])?;
    Ok(store)
}

// The sizes of the objects, where the probe begins, and what it finds.
static ENDS: [([usize; 3], u64, u64); 7] = [
    ([0, 65_536, 65_536], 196_608, 196_608),
    ([4_196, 4_096, 65_536], 196_608, 208_996),
    ([65_536, 4_096, 4_097], 196_608, 212_992),
    ([4_196, 4_096, 65_536], 213_000, 213_000),
    ([4_196, 4_096, 65_536], 217_088, 221_184),
    ([65_536, 65_536, 65_536], 196_608, 393_216),
    ([65_536, 65_536, 65_536], 7, 7),
];

#[test]
fn the_stream_ends_at_the_least_missing_position(rt: HostRuntime) -> Result<(), Fail> {
    let alloc = rt.alloc();
    let layout = striped()?;
    let rank = rank()?;
    for (sizes, from, want) in &ENDS {
        let mut store = holding(alloc, *sizes)?;
        let end = probe_end(alloc, &mut store, rank, &layout, *from)?;
        assert_eq!(rt; end, *want, "{sizes:?} from {from}");
    }
    Ok(())
}

#[test]
fn a_range_goes_over_objects(rt: HostRuntime) -> Result<(), Fail> {
    let alloc = rt.alloc();
    let layout = striped()?;
    let rank = rank()?;
    let mut store = holding(alloc, [4_196, 4_096, 65_536])?;
    let bytes = read_range(alloc, &mut store, rank, &layout, 200_702, 200_706)?;
    assert_eq!(rt; bytes.as_slice(), [3, 3, 4, 4].as_slice());
    let hole = read_range(alloc, &mut store, rank, &layout, 200_702, 300_000);
    assert_eq!(rt; hole.err(), Some(RangeRefusal::Hole(208_996)));
    Ok(())
}

#[test]
fn a_fault_is_handed_on(rt: HostRuntime) -> Result<(), Fail> {
    let alloc = rt.alloc();
    let layout = striped()?;
    let rank = rank()?;
    let mut store = MemStore::failing(alloc, &[2, 4])?;
    let fault = read_range(alloc, &mut store, rank, &layout, 0, 1);
    assert_eq!(rt; fault.err(), Some(RangeRefusal::Hole(0)));
    let second = read_range(alloc, &mut store, rank, &layout, 0, 1);
    assert_eq!(rt;
        second.err(),
        Some(RangeRefusal::Store(StoreFault { faults: 1 }))
    );
    let end = probe_end(alloc, &mut store, rank, &layout, 196_608);
    assert_eq!(rt; end, Err(ReadRefusal::Failed(StoreFault { faults: 2 })));
    assert_eq!(rt;
        probe_end(alloc, &mut store, rank, &layout, 196_608)?,
        196_608
    );
    Ok(())
}
