// Scripts that are read and refused, and the texts of answers.
use mj_base::{ClientId, Damage, Ino, Items, ObjectName, OpNo};
use mj_texts::{
    Answer, Early, Line, Reaped, ScriptRefusal, Span, Step, append_turn, read_line, read_script,
};
use mj_tree::Reply;
use std::alloc::{AllocError, Global};
use std::test::Fail;

const RUN: &[u8] =
    b"mount\nreq 4 1 1 100 session-open\nreq 4 2 1 101 mkdir /a 755\nflush\nstep 200.00000001\nreap\nrestart\nmount\ntree\nstate\n";

// A script, and how many lines it has, or which is the first outside the grammar.
static SCRIPTS: [(&[u8], Result<usize, u64>); 22] = [
    (b"", Ok(0)),
    (RUN, Ok(10)),
    (b"\n# a note\nmount\n", Ok(3)),
    (b"step mds15_sessionmap\n", Ok(1)),
    (
        b"req 4294967295 18446744073709551615 18446744073709551615 0 mkdir /%20 0755\n",
        Ok(1),
    ),
    (b"req 4 3 1 102 mkdir / 755\n", Ok(1)),
    // no last line feed, and what is not ASCII
    (b"mount", Err(1)),
    (b"mount\nmount", Err(2)),
    (b"# caf\xc3\xa9\n", Err(1)),
    // other words, and other spaces
    (b"mount\n\nflsh\n", Err(3)),
    (b" mount\n", Err(1)),
    (b"mount \n", Err(1)),
    (b"tree  now\n", Err(1)),
    (b"step 200.0000001\n", Err(1)),
    (b"step mds16_inotable\n", Err(1)),
    (b"state 1\n", Err(1)),
    // requests
    (b"req 04 1 1 100 session-open\n", Err(1)),
    (b"req 4 1 1  session-open\n", Err(1)),
    (b"req 4 1 1 100 session-open now\n", Err(1)),
    (b"req 4 1 1 100\n", Err(1)),
    (b"req 4 1 1 100 mkdir a 755\n", Err(1)),
    (b"req 4 1 1 100 statfs /\n", Err(1)),
];

// The number of a script's lines, or its first bad line.
fn count_lines(alloc: Global, bytes: &[u8]) -> Result<usize, u64> {
    match read_script(alloc, bytes) {
        Ok(lines) => Ok(lines.len()),
        Err(ScriptRefusal::BadLine(n)) => Err(n),
        Err(ScriptRefusal::Memory) => Err(0),
    }
}

#[test]
fn scripts_are_read_or_refused_at_their_first_bad_line(rt: HostRuntime) {
    for (bytes, want) in &SCRIPTS {
        assert_eq!(rt; count_lines(rt.alloc(), bytes), *want, "at {bytes:?}");
    }
}

#[test]
fn a_script_may_have_many_lines(rt: HostRuntime) -> Result<(), Fail> {
    let mut bytes = Vec::from_elem(rt.alloc(), b'\n', 20_000)?;
    bytes.extend_from_slice(b"state\nrep\n")?;
    assert_eq!(rt; count_lines(rt.alloc(), &bytes), Err(20_002));
    Ok(())
}

// Whether a line is one step, and this one.
fn is_reap(alloc: Global, line: &[u8]) -> Result<bool, AllocError> {
    let line = read_line(alloc, line)?;
    Ok(matches!(line, Some(Line::One(Step::Reap))))
}

fn is_state(alloc: Global, line: &[u8]) -> Result<bool, AllocError> {
    let line = read_line(alloc, line)?;
    Ok(matches!(line, Some(Line::One(Step::State))))
}

#[test]
fn a_line_is_a_step(rt: HostRuntime) {
    assert_eq!(rt; is_reap(rt.alloc(), b"reap"), Ok(true));
    assert_eq!(rt; is_state(rt.alloc(), b"state"), Ok(true));
}

// Whether the answer to line 7 has this text.
fn has_text(alloc: Global, answer: &Answer, want: &[u8]) -> Result<bool, AllocError> {
    let mut text = Vec::new(alloc);
    append_turn(7, answer, &mut text)?;
    Ok(text.as_slice() == want)
}

const FILE: ObjectName = ObjectName::File { ino: 512, index: 1 };

#[test]
fn answers_of_the_store_have_their_texts(rt: HostRuntime) -> Result<(), Fail> {
    let alloc = rt.alloc();
    let applied = Answer::Applied(FILE, Some(OpNo(3)));
    assert!(rt; has_text(alloc, &applied, b"7: applied 200.00000001 3\n")?);
    let idle = Answer::Applied(FILE, None);
    assert!(rt; has_text(alloc, &idle, b"7: idle 200.00000001\n")?);
    assert!(rt; has_text(alloc, &Answer::Restarted, b"7: restarted\n")?);
    Ok(())
}

#[test]
fn answers_of_the_journal_have_their_texts(rt: HostRuntime) -> Result<(), Fail> {
    let alloc = rt.alloc();
    let (from, to) = (4_194_304, 4_194_573);
    let mounted = Answer::Mounted {
        epoch: 1,
        tail: from,
    };
    assert!(rt; has_text(alloc, &mounted, b"7: mounted 1 4194304\n")?);
    let flushed = Answer::Flushed(Span { from, to });
    assert!(rt; has_text(alloc, &flushed, b"7: wrote 4194304 4194573\n")?);
    let reaped = Answer::Reaped(Reaped::One {
        op: OpNo(3),
        safe_from: from,
        safe_to: to,
    });
    let want = b"7: reaped 3 safe 4194304 4194573\n";
    assert!(rt; has_text(alloc, &reaped, want)?);
    Ok(())
}

#[test]
fn answers_of_the_tree_have_their_texts(rt: HostRuntime) -> Result<(), Fail> {
    let alloc = rt.alloc();
    let ino = Ino(1_099_511_627_776);
    let asked = Answer::Asked(Early {
        reply: Reply::Done { ino },
        ends_at: Some(4_194_573),
        place: 1,
    });
    let want = b"7: done 1099511627776 ends 4194573\n";
    assert!(rt; has_text(alloc, &asked, want)?);
    let state = Answer::State(Items::of_bytes(alloc, b"/\n")?);
    assert!(rt; has_text(alloc, &state, b"7: state\n/\n")?);
    Ok(())
}

#[test]
fn damages_have_their_texts(rt: HostRuntime) -> Result<(), Fail> {
    let alloc = rt.alloc();
    let key = Items::of_bytes(alloc, b"a ")?;
    let dirfrag = Answer::Damaged(Damage::DirfragBad(Ino(1), key));
    assert!(rt; has_text(alloc, &dirfrag, b"7: damage DirfragBad 1 a%20\n")?);
    let open = Answer::Damaged(Damage::BadOpen(ClientId(4), Ino(1)));
    assert!(rt; has_text(alloc, &open, b"7: damage BadOpen 4 1\n")?);
    Ok(())
}

#[test]
fn turns_follow_one_another(rt: HostRuntime) -> Result<(), Fail> {
    let mut text = Vec::new(rt.alloc());
    append_turn(1, &Answer::Restarted, &mut text)?;
    append_turn(12, &Answer::Restarted, &mut text)?;
    assert_eq!(rt;
        text.as_slice(),
        b"1: restarted\n12: restarted\n".as_slice()
    );
    Ok(())
}
