//! Worked rows of striping, and what becomes of a header that is cut, changed or too long.

use super::stored::layout;
use mj_layout::{Header, HeaderRefusal, Layout, LayoutRefusal, Phase};
use std::test::Fail;

/// The header of a journal that was just formatted with the default layout.
const FORMATTED: [u8; 69] = [
    0x13, 0x00, 0x00, 0x00, 0x63, 0x65, 0x70, 0x68, 0x20, 0x66, 0x73, 0x20, 0x76, 0x6f, 0x6c, 0x75,
    0x6d, 0x65, 0x20, 0x76, 0x30, 0x31, 0x31, 0x00, 0x00, 0x40, 0x00, 0x00, 0x00, 0x00, 0x00, 0x00,
    0x00, 0x40, 0x00, 0x00, 0x00, 0x00, 0x00, 0x00, 0x00, 0x40, 0x00, 0x00, 0x00, 0x00, 0x00, 0x00,
    0x00, 0x40, 0x00, 0x01, 0x00, 0x00, 0x00, 0x00, 0x00, 0x40, 0x00, 0x01, 0x02, 0x00, 0x00, 0x00,
    0x00, 0x00, 0x00, 0x00, 0x00,
];

#[test]
fn positions_go_through_one_column(rt: HostRuntime) -> Result<(), Fail> {
    let plain = layout(4_194_304, 1, 4_194_304)?;
    assert_eq!(rt; plain.period(), 4_194_304);
    let spot = plain.place(4_194_304);
    assert_eq!(rt; (spot.index, spot.offset), (1, 0));
    assert_eq!(rt; plain.position_of(spot), 4_194_304);
    Ok(())
}

static SPOTS: [(u64, u64, u32); 3] = [
    (16_777_216, 4, 0),
    (17_825_792, 5, 0),
    (20_971_520, 4, 1_048_576),
];

#[test]
fn positions_go_round_the_columns(rt: HostRuntime) -> Result<(), Fail> {
    let striped = layout(1_048_576, 4, 4_194_304)?;
    assert_eq!(rt; striped.period(), 16_777_216);
    for (x, index, offset) in &SPOTS {
        let spot = striped.place(*x);
        assert_eq!(rt; (spot.index, spot.offset), (*index, *offset), "at {x}");
    }
    let extent = striped.extent(17_825_791, 20_971_520);
    assert_eq!(rt;
        (extent.index, extent.offset, extent.len),
        (4, 1_048_575, 1)
    );
    assert_eq!(rt; striped.extent(20_971_520, 20_971_530).len, 10);
    assert_eq!(rt; striped.front_below(5, 20_971_520), 1_048_576);
    Ok(())
}

static REFUSED: [(u32, u32, u32, LayoutRefusal); 6] = [
    (4_096, 17, 65_536, LayoutRefusal::BadCount),
    (4_095, 1, 65_536, LayoutRefusal::BadUnit),
    (5_000, 1, 65_536, LayoutRefusal::NotDividing),
    (4_096, 1, 65_535, LayoutRefusal::BadSize),
    (4_095, 0, 4_194_305, LayoutRefusal::BadSize),
    (0, 0, 65_536, LayoutRefusal::BadCount),
];

#[test]
fn a_layout_is_refused_by_its_first_fault(rt: HostRuntime) {
    for (su, sc, os, wanted) in &REFUSED {
        assert_eq!(rt; Layout::new(*su, *sc, *os), Err(*wanted), "{su} {sc} {os}");
    }
}

#[test]
fn a_header_is_written_and_read(rt: HostRuntime) -> Result<(), Fail> {
    let header = Header {
        trimmed: 4_194_304,
        expire: 4_194_304,
        write: 4_194_304,
        layout: layout(4_194_304, 1, 4_194_304)?,
        format: 1,
        phase: Phase::Serving,
        epoch: 0,
    };
    let bytes = header.write(rt.alloc())?;
    assert_eq!(rt; bytes.as_slice(), FORMATTED.as_slice());
    assert_eq!(rt; Header::read(&FORMATTED), Ok(header));
    Ok(())
}

#[test]
fn a_cut_header_is_bad_at_its_end(rt: HostRuntime) {
    for k in 0..69 {
        let read = Header::read(&FORMATTED[..k]);
        assert_eq!(rt; read, Err(HeaderRefusal::HeaderBad(k as u64)));
    }
}

#[test]
fn a_long_header_is_bad_at_its_end(rt: HostRuntime) -> Result<(), Fail> {
    let mut long = FORMATTED.to_vec(rt.alloc())?;
    for len in 70..101 {
        long.push(0)?;
        assert_eq!(rt; Header::read(&long), Err(HeaderRefusal::HeaderBad(len)));
    }
    Ok(())
}

// What a header is read as once a byte has become this one.
fn read_once_changed(place: usize, b: u8) -> Result<(), HeaderRefusal> {
    match place {
        0..=22 => Err(HeaderRefusal::HeaderBad(place as u64)),
        // trimmed, expire and write are one period: of them only write may rise alone
        23..=38 => Err(HeaderRefusal::HeaderOrder),
        46 if 0x40 <= b => Err(HeaderRefusal::HeaderOrder),
        39..=45 if place == 41 && b < 0x40 => Err(HeaderRefusal::HeaderOrder),
        39..=46 => Ok(()),
        51 if b == 3 => Err(HeaderRefusal::HeaderOrder),
        47..=58 => Err(HeaderRefusal::HeaderBad(47)),
        59 => Err(HeaderRefusal::HeaderBad(59)),
        60 => Err(HeaderRefusal::HeaderBad(60)),
        _ => Ok(()),
    }
}

static OTHERS: [u8; 4] = [0x03, 0x3f, 0x41, 0xff];

#[test]
fn a_changed_byte_is_told(rt: HostRuntime) {
    for place in 0..69usize {
        for b in &OTHERS {
            let mut bytes = FORMATTED;
            bytes[place] = *b;
            let read = Header::read(&bytes).map(|_| ());
            assert_eq!(rt; read, read_once_changed(place, *b), "{b} at {place}");
        }
    }
}
