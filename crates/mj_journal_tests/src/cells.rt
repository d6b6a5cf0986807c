//! The order of cells, and the last write of each key.

ghost use Rattle.mj_cells.specs.declared.cell.CellValue.TheVariants as value;
ghost use Rattle.mj_cells.specs.Cell.{Fits};

use mj_base::{ClientId, Ino, Kind, Name, Tid};
use mj_cells::{CellKey, CellTable, CellValue, CellWrite};
use std::alloc::{AllocError, Global};
use std::test::Fail;

fn put(alloc: Global, table: &mut CellTable, key: CellKey, value: CellValue) -> Result<(), Fail>
    requires { Fits key value }
{
    Ok(table.put(alloc, CellWrite { key, value })?)
}

fn put_number(alloc: Global, table: &mut CellTable, key: CellKey, n: u64) -> Result<(), Fail>
    requires { Fits key (value.Number n) }
{
    put(alloc, table, key, CellValue::Number(n))
}

fn fill_dentries(alloc: Global, table: &mut CellTable) -> Result<(), Fail> {
    let b = CellKey::Dentry(Ino(1), Name::read(alloc, b"b")?);
    put(alloc, table, b, CellValue::Null(2))?;
    let ab = CellKey::Dentry(Ino(1), Name::read(alloc, b"ab")?);
    put(alloc, table, ab, CellValue::Remote(1, Ino(9), Kind::File))
}

// Cells of each kind, out of order, with a number by which each is told.
fn fill(alloc: Global, table: &mut CellTable) -> Result<(), Fail> {
    let client = ClientId(4);
    put(
        alloc,
        table,
        CellKey::OpenOf(client, Ino(9)),
        CellValue::Present,
    )?;
    put_number(alloc, table, CellKey::Done(client, Tid(2)), 6)?;
    put_number(alloc, table, CellKey::Session(client), 5)?;
    put_number(alloc, table, CellKey::NextIno, 4)?;
    put_number(alloc, table, CellKey::DirHead(Ino(1)), 3)?;
    fill_dentries(alloc, table)?;
    put(alloc, table, CellKey::DirHead(Ino(2)), CellValue::Gone)
}

// By which number a value is told.
fn told(value: &CellValue) -> u64 {
    match value {
        CellValue::Full(version, _) => *version,
        CellValue::Remote(version, _, _) => *version,
        CellValue::Null(version) => *version,
        CellValue::Number(n) => *n,
        CellValue::Present => 7,
        CellValue::Gone => 0,
    }
}

fn in_order(alloc: Global, table: &CellTable) -> Result<Vec<u64>, AllocError> {
    let mut seen = Vec::new(alloc);
    let mut after = None;
    for _ in 0..20 {
        let Some(cell) = table.next_after(after) else {
            return Ok(seen);
        };
        seen.push(told(cell.value))?;
        after = Some(cell.key);
    }
    Ok(seen)
}

#[test]
fn cells_go_by_kind_and_then_by_key(rt: HostRuntime) -> Result<(), Fail> {
    let alloc = rt.alloc();
    let mut table = CellTable::new(alloc);
    assert!(rt; table.next_after(None).is_none());
    fill(alloc, &mut table)?;
    let seen = in_order(alloc, &table)?;
    assert_eq!(rt; seen.as_slice(), [1, 2, 3, 0, 4, 5, 6, 7].as_slice());
    Ok(())
}

#[test]
fn the_last_write_of_a_key_stands(rt: HostRuntime) -> Result<(), Fail> {
    let alloc = rt.alloc();
    let mut table = CellTable::new(alloc);
    fill(alloc, &mut table)?;
    put_number(alloc, &mut table, CellKey::NextIno, 40)?;
    put_number(alloc, &mut table, CellKey::DirHead(Ino(3)), 8)?;
    put_number(alloc, &mut table, CellKey::NextIno, 41)?;
    table.drop_key(&CellKey::Session(ClientId(4)));
    assert_eq!(rt; table.get(&CellKey::NextIno).map(told), Some(41));
    assert_eq!(rt; table.get(&CellKey::DirHead(Ino(3))).map(told), Some(8));
    assert!(rt; table.get(&CellKey::Session(ClientId(4))).is_none());
    let same = table.copy(alloc)?;
    let seen = in_order(alloc, &same)?;
    assert_eq!(rt; seen.as_slice(), [1, 2, 3, 0, 8, 41, 6, 7].as_slice());
    Ok(())
}
