// Chronicles that are read and refused, and what the plain tree says to them.
use mj_base::{MemSink, RankNo};
use mj_model::{ChronicleRefusal, ModelEnd, model, read_chronicle};
use std::alloc::Global;
use std::test::Fail;

// A chronicle, and how many lines it has, or which is the first outside the grammar.
static CHRONICLES: [(&[u8], Result<usize, u64>); 30] = [
    (b"", Ok(0)),
    (b"1 1 1 10 session-open => done 0\n", Ok(1)),
    (b"1 1 1 10 session-open\nend 1 safe 4194304\n", Ok(2)),
    (b"1 2 1 11 mkdir /a 755 => done 1099511627776\n", Ok(1)),
    (b"1 2 1 11 create /a 1644 => error 65535\n", Ok(1)),
    (b"1 2 1 11 symlink /a => => done 7\n", Ok(1)),
    (
        b"1 2 1 11 lookup /a => found 7 symlink 0777 1 2 3 4 5\n",
        Ok(1),
    ),
    (b"1 2 1 11 readdir / => names a b%20c\n", Ok(1)),
    (b"1 2 1 11 readdir / => names\n", Ok(1)),
    (b"1 2 1 11 readlink /a => target ../%25\n", Ok(1)),
    (b"1 2 1 11 link /a /b => done 1\n", Ok(1)),
    (b"1 2 1 11 rename /a /b => error 2\n", Ok(1)),
    (b"1 2 1 11 setattr /a 644 1 2 3 4 => done 1\n", Ok(1)),
    // neither empty lines nor comments
    (b"\n", Err(1)),
    (b"# a note\n", Err(1)),
    (b"end\n", Err(1)),
    (b"end caf\xc3\xa9\n", Err(1)),
    (b"1 1 1 10 session-open", Err(1)),
    (b"req 1 1 1 10 session-open\n", Err(1)),
    // no replies
    (b"1 1 1 10 session-open =>\n", Err(1)),
    (b"1 1 1 10 session-open => \n", Err(1)),
    (b"1 1 1 10 session-open => done 1 ends 2\n", Err(1)),
    (b"1 1 1 10 session-open => done 01\n", Err(1)),
    (b"1 1 1 10 session-open => error 65536\n", Err(1)),
    (b"1 1 1 10 session-open => logfull 3\n", Err(1)),
    (b"1 1 1 10 session-open done 0\n", Err(1)),
    (
        b"1 2 1 11 lookup /a => found 7 pipe 0777 1 2 3 4 5\n",
        Err(1),
    ),
    (
        b"1 2 1 11 lookup /a => found 7 file 777 1 2 3 4 5\n",
        Err(1),
    ),
    (b"1 2 1 11 readdir / => names ..\n", Err(1)),
    (b"1 2 1 11 readlink /a => target %00\n", Err(1)),
];

// The lines of a chronicle, or its first bad line.
fn count_lines(alloc: Global, bytes: &[u8]) -> Result<usize, u64> {
    match read_chronicle(alloc, bytes) {
        Ok(lines) => Ok(lines.len()),
        Err(ChronicleRefusal::BadLine(n)) => Err(n),
        Err(ChronicleRefusal::Memory) => Err(0),
    }
}

#[test]
fn chronicles_are_read_or_refused_at_their_first_bad_line(rt: HostRuntime) {
    for (bytes, want) in &CHRONICLES {
        assert_eq!(rt; count_lines(rt.alloc(), bytes), *want, "at {bytes:?}");
    }
}

// A chronicle, what is printed, and how it ends.
static ANSWERS: [(&[u8], &[u8], Result<(), ModelEnd>); 3] = [
    (
        b"1 1 1 10 session-open => done 0\n1 2 1 11 mkdir /a 755 => done 1099511627776\nend 2 safe 7\n1 3 1 12 mkdir /a 755\n1 4 1 13 lookup /a => found 1099511627776 dir 0755 0 0 0 11 1\n",
        b"1: done 0\n2: done 1099511627776\n4: error 17\n5: found 1099511627776 dir 0755 0 0 0 11 1\n",
        Ok(()),
    ),
    (
        b"1 1 1 10 session-open\n1 2 1 11 mkdir /a 755 => done 7\n1 3 1 12 mkdir /b 755\n",
        b"1: done 0\n2: differs done 1099511627776\n",
        Err(ModelEnd::Differs),
    ),
    (b"end 0 safe 0\n", b"", Ok(())),
];

// How a chronicle ends whose answers are printed.
fn answered(alloc: Global, bytes: &[u8], out: &mut MemSink) -> Result<Result<(), ModelEnd>, Fail> {
    let rank = RankNo::new(0).ok_or("a rank")?;
    match read_chronicle(alloc, bytes) {
        Ok(lines) => Ok(model(alloc, rank, &lines, out)),
        Err(_) => Err(Fail::from("a chronicle was refused")),
    }
}

#[test]
fn the_plain_tree_answers_a_chronicle(rt: HostRuntime) -> Result<(), Fail> {
    let alloc = rt.alloc();
    for (bytes, want, end) in &ANSWERS {
        let mut out = MemSink::new(alloc, &[])?;
        assert_eq!(rt; answered(alloc, bytes, &mut out)?, *end);
        assert_eq!(rt; out.taken(), *want);
    }
    Ok(())
}
