//! Tables with damage make no cache: of two kinds of damage the first is named, and of one kind that of the least inode or client.

ghost use Rattle.std.specs.Prelude.{◌≢◌, ℕ, List, IfOk};
ghost use Rattle.mj_base.specs.Record.{IsRecord};
ghost use Rattle.mj_base.specs.declared.record.Kind.TheVariants.{Symlink};
ghost use Rattle.mj_cells.specs.declared.cell.CellKey.TheVariants as key;
ghost use Rattle.mj_cells.specs.declared.cell.CellValue.TheVariants as value;
ghost use Rattle.mj_cells.specs.Cell.{Fits, WriteFits};

use mj_base::{ClientId, Ino, InodeRecord, Kind, Name, RankNo, Target, Tid};
use mj_cache::{Cache, CacheRefusal};
use mj_cells::{CellKey, CellTable, CellValue, CellWrite};
use mj_plan::new_cells;
use mj_tables::SafeCells;
use std::alloc::Global;
use std::test::Fail;

const STRAY: u64 = 0x600;

// A directory in the root, a file in it with a second link in the root, and the next inode.
const DIR: u64 = 1_099_511_627_776;

const FILE: u64 = 1_099_511_627_777;

const NEXT: u64 = 1_099_511_627_778;

/// A cell in short. A dentry is its directory, its name and its inode, a file's with the number of links.
#[derive(Clone, Copy)]
enum Cell {
    Dir(u64, &'static str, u64),
    File(u64, &'static str, u64, u32),
    Link(u64, &'static str, u64),
    Head(u64),
    Next(u64),
    Session(u32, u64),
    Done(u32, u64),
    Open(u32, u64),
}

// What stands over the cells of a new rank.
static SMALL: [Cell; 9] = [
    Cell::Head(DIR),
    Cell::Dir(1, "a", DIR),
    Cell::File(DIR, "f", FILE, 2),
    Cell::Link(1, "l", FILE),
    Cell::Next(NEXT),
    Cell::Session(4, 1),
    Cell::Session(5, 9),
    Cell::Done(4, 7),
    Cell::Open(4, FILE),
];

// What is put over that, how many sessions more, and what is named.
static DAMAGES: [(&[Cell], u32, &str); 13] = [
    (
        &[
            Cell::Dir(1, "d", NEXT),
            Cell::Next(NEXT + 1),
            Cell::File(1, "x", FILE, 2),
        ],
        0,
        "DirfragMissing(Ino(1099511627778))",
    ),
    (
        &[Cell::File(1, "x", FILE, 2), Cell::Link(1, "y", NEXT)],
        0,
        "TwoPrimaries(Ino(1099511627777))",
    ),
    (
        &[Cell::Link(1, "y", NEXT), Cell::File(DIR, "f", FILE, 9)],
        0,
        "NoPrimary(Ino(1099511627778))",
    ),
    (
        &[Cell::File(DIR, "f", FILE, 9), Cell::Next(5)],
        0,
        "BadLinks(Ino(1099511627777))",
    ),
    (&[Cell::Next(5), Cell::Open(7, FILE)], 0, "BadNext(Ino(5))"),
    (
        &[Cell::Head(NEXT + 9), Cell::Open(7, FILE)],
        0,
        "BadNext(Ino(1099511627787))",
    ),
    (
        &[Cell::File(STRAY, "x", NEXT, 0), Cell::Next(NEXT + 1)],
        0,
        "BadNext(Ino(1099511627778))",
    ),
    (
        &[Cell::Open(7, FILE), Cell::Done(3, 1)],
        0,
        "BadOpen(ClientId(7), Ino(1099511627777))",
    ),
    (
        &[Cell::Open(7, FILE), Cell::Open(9, DIR), Cell::Open(8, DIR)],
        0,
        "BadOpen(ClientId(8), Ino(1099511627776))",
    ),
    (&[Cell::Done(3, 1)], 4_095, "BadSession(ClientId(3))"),
    (&[Cell::Done(5, 8)], 0, "BadSession(ClientId(5))"),
    (&[], 4_095, "OverLimit(4097)"),
    (&[], 4_094, "none"),
];

fn record(alloc: Global, ino: u64, kind: Kind, links: u32) -> InodeRecord
    requires { kind ≢ Symlink }
    ensures { IsRecord result }
{
    InodeRecord {
        ino: Ino(ino),
        kind,
        mode: 0o644,
        uid: 0,
        gid: 0,
        size: 0,
        mtime: 1000,
        links,
        target: Target::empty(alloc),
    }
}

fn full(alloc: Global, ino: u64, kind: Kind, links: u32) -> CellValue
    requires { kind ≢ Symlink }
    ensures { (dir : ℕ) (name : List ℕ) → Fits (key.Dentry dir name) result }
{
    CellValue::Full(1, record(alloc, ino, kind, links))
}

fn dentry(alloc: Global, dir: u64, text: &str, value: CellValue) -> Result<CellWrite, Fail>
    requires { (name : List ℕ) → Fits (key.Dentry dir name) value }
    ensures { IfOk result WriteFits }
{
    let name = Name::read(alloc, text.as_bytes())?;
    Ok(CellWrite {
        key: CellKey::Dentry(Ino(dir), name),
        value,
    })
}

fn number(key: CellKey, n: u64) -> CellWrite
    requires { Fits key (value.Number n) }
    ensures { WriteFits result }
{
    CellWrite {
        key,
        value: CellValue::Number(n),
    }
}

fn write_of(alloc: Global, cell: Cell) -> Result<CellWrite, Fail>
    ensures { IfOk result WriteFits }
{
    match cell {
        Cell::Dir(dir, text, ino) => dentry(alloc, dir, text, full(alloc, ino, Kind::Dir, 1)),
        Cell::File(dir, text, ino, links) => {
            dentry(alloc, dir, text, full(alloc, ino, Kind::File, links))
        }
        Cell::Link(dir, text, ino) => {
            let value = CellValue::Remote(1, Ino(ino), Kind::File);
            dentry(alloc, dir, text, value)
        }
        Cell::Head(dir) => Ok(number(CellKey::DirHead(Ino(dir)), 1)),
        Cell::Next(next) => Ok(number(CellKey::NextIno, next)),
        Cell::Session(client, oldest) => { Ok(number(CellKey::Session(ClientId(client)), oldest)) }
        Cell::Done(client, tid) => Ok(number(CellKey::Done(ClientId(client), Tid(tid)), FILE)),
        Cell::Open(client, ino) => Ok(CellWrite {
            key: CellKey::OpenOf(ClientId(client), Ino(ino)),
            value: CellValue::Present,
        }),
    }
}

fn put_all(alloc: Global, table: &mut CellTable, cells: &[Cell]) -> Result<(), Fail> {
    for cell in cells {
        table.put(alloc, write_of(alloc, *cell)?)?;
    }
    Ok(())
}

fn damaged(alloc: Global, rank: RankNo, cells: &[Cell], sessions: u32) -> Result<CellTable, Fail> {
    let mut table = new_cells(alloc, rank)?;
    put_all(alloc, &mut table, &SMALL)?;
    put_all(alloc, &mut table, cells)?;
    for n in 0..sessions {
        let client = ClientId(n.saturating_add(100));
        table.put(alloc, number(CellKey::Session(client), 1))?;
    }
    Ok(table)
}

fn named(alloc: Global, table: CellTable, rank: RankNo) -> Result<String, Fail> {
    let cells = SafeCells::of_table(alloc, table)?;
    match Cache::new(alloc, cells, rank) {
        Ok(_) => Ok(String::from_str(alloc, "none")?),
        Err(CacheRefusal::NotTree(damage)) => Ok(format!(in alloc; "{damage:?}")?),
        Err(CacheRefusal::Memory) => Err(Fail::from("memory ran out")),
    }
}

#[test]
fn the_first_damage_is_named(rt: HostRuntime) -> Result<(), Fail> {
    let alloc = rt.alloc();
    let rank = RankNo::new(0).ok_or("a rank")?;
    for (cells, sessions, want) in &DAMAGES {
        let table = damaged(alloc, rank, cells, *sessions)?;
        let text = named(alloc, table, rank)?;
        assert_eq!(rt; text.as_str(), *want);
    }
    Ok(())
}
