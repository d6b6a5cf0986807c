// Calls over files, a sink and a store in memory.
use mj_app::{mdjournal_call, mdjournal_image_call};
use mj_base::{Files, MemFiles, MemSink};
use mj_memstore::MemStore;
use std::alloc::Global;
use std::test::Fail;

const RUN: &[u8] =
    b"mount\nreq 4 1 1 100 session-open\nreq 4 2 1 101 mkdir /a 755\nflush\nstep 200.00000001\nreap\nrestart\nmount\ntree\n";

const TOLD: &[u8] =
    b"1: mounted 1 4194304\n2: done 0 ends 4194397\n3: done 1099511627776 ends 4194573\n4: wrote 4194304 4194573\n5: applied 200.00000001 3\n6: reaped 3 safe 4194304 4194573\n7: restarted\n8: mounted 2 4194573\n9: tree\n/\n/a dir 0755 0 0 0 101 1 1099511627776\n";

const EMPTY_IMAGE: &[u8] = b"MJIMG001\0\0\0\0";

// The numbers of the calls with which a store is formatted: its restart, a look, and five operations, each sent and stepped.
const FORMAT_CALLS: u64 = 12;

fn words_of(alloc: Global, given: &[&str]) -> Result<Vec<String>, Fail> {
    let mut words = Vec::new(alloc);
    for word in given {
        words.push(String::from_str(alloc, word)?)?;
    }
    Ok(words)
}

// Whether a call with these words over the files has this status and this text.
fn says(
    alloc: Global,
    files: &mut MemFiles,
    given: &[&str],
    want: u8,
    text: &[u8],
) -> Result<bool, Fail> {
    let words = words_of(alloc, given)?;
    let mut out = MemSink::new(alloc, &[])?;
    let status = mdjournal_image_call(alloc, &words, files, &mut out);
    Ok(status == want && out.taken() == text)
}

static CALLS: [(&[&str], u8, &[u8]); 3] = [
    (&["i", "format"], 0, b"formatted 0 4194304\n"),
    (
        &["i", "play", "s"],
        0,
        b"1: mounted 1 4194304\n2: tree\n/\n",
    ),
    (&["i", "format"], 3, b"refused formatted\n"),
];

#[test]
fn calls_follow_one_another_over_an_image(rt: HostRuntime) -> Result<(), Fail> {
    let mut files = with_script(rt.alloc(), &[], b"mount\ntree\n")?;
    for (given, want, text) in &CALLS {
        assert!(rt;
            says(rt.alloc(), &mut files, given, *want, text)?,
            "{given:?}"
        );
    }
    Ok(())
}

#[test]
fn a_run_goes_over_a_formatted_image(rt: HostRuntime) -> Result<(), Fail> {
    let alloc = rt.alloc();
    let mut files = with_script(alloc, &[], RUN)?;
    assert!(rt;
        says(
            alloc,
            &mut files,
            &["j", "format"],
            0,
            b"formatted 0 4194304\n"
        )?
    );
    assert!(rt; says(alloc, &mut files, &["j", "play", "s"], 0, TOLD)?);
    Ok(())
}

// Files with this script, of which these calls fail, the first being the writing of the script.
fn with_script(alloc: Global, calls: &[u64], script: &[u8]) -> Result<MemFiles, Fail> {
    let mut files = MemFiles::new(alloc, calls)?;
    files.write(alloc, "s", script)?;
    Ok(files)
}

const REFUSED: &[u8] = b"words refused\n";

static COMMANDS: [(&[&str], u8, &[u8]); 24] = [
    (&["format"], 0, b"formatted 0 4194304\n"),
    (&["format", "--rank", "3"], 0, b"formatted 3 4194304\n"),
    (
        &["format", "--su=4096", "--os", "65536", "--sc", "2"],
        0,
        b"formatted 0 131072\n",
    ),
    (&["format", "--"], 0, b"formatted 0 4194304\n"),
    (&["play", "--rank=15", "t"], 6, b"file missing\n"),
    (&["play", "--", "--rank"], 6, b"file missing\n"),
    (&["play", "-"], 6, b"file missing\n"),
    (&[], 2, REFUSED),
    (&["fromat"], 2, REFUSED),
    (&["--rank", "0", "format"], 2, REFUSED),
    (&["play"], 2, REFUSED),
    (&["play", "s", "s"], 2, REFUSED),
    (&["format", "s"], 2, REFUSED),
    (&["format", "--rank"], 2, REFUSED),
    (&["format", "--rank", "16"], 2, REFUSED),
    (&["format", "--rank", "01"], 2, REFUSED),
    (&["format", "--rank", "-1"], 2, REFUSED),
    (&["format", "--rank=1", "--rank=1"], 2, REFUSED),
    (&["format", "--sc", "4294967296"], 2, REFUSED),
    (&["format", "--os", "65535"], 2, REFUSED),
    (&["format", "--size", "65536"], 2, REFUSED),
    (&["format", "-r"], 2, REFUSED),
    (&["play", "s", "--su", "4096"], 2, REFUSED),
    (&["play", "s", "--", "--rank=0"], 2, REFUSED),
];

// Whether a call with these words over a new store and no file has this status and this text.
fn begins(alloc: Global, given: &[&str], want: u8, text: &[u8]) -> Result<bool, Fail> {
    let words = words_of(alloc, given)?;
    let mut files = MemFiles::new(alloc, &[])?;
    let mut out = MemSink::new(alloc, &[])?;
    let (status, _) = mdjournal_call(alloc, &words, &mut files, MemStore::new(alloc), &mut out);
    Ok(status == want && out.taken() == text)
}

#[test]
fn words_are_read_as_a_command(rt: HostRuntime) -> Result<(), Fail> {
    for (given, want, text) in &COMMANDS {
        assert!(rt; begins(rt.alloc(), given, *want, text)?, "at {given:?}");
    }
    Ok(())
}

// The image, the script or chronicle, the words, and what comes of it.
static IMAGES: [(Option<&[u8]>, &[u8], &[&str], u8, &[u8]); 12] = [
    (None, RUN, &["i", "play"], 2, b"words refused\n"),
    (None, RUN, &["i", "play", "t"], 6, b"file missing\n"),
    (
        Some(EMPTY_IMAGE),
        b"mount\n\nflsh\n",
        &["i", "play", "s"],
        7,
        b"line 3\n",
    ),
    (
        None,
        b"1 1 1 10 session-open => done 0\n1 2 1 11 mkdir /a 755\nend 2 safe 4194304\n",
        &["i", "model", "s", "--rank=1"],
        0,
        b"1: done 0\n2: done 2199023255552\n",
    ),
    (
        Some(EMPTY_IMAGE),
        b"1 1 1 10 session-open\n1 2 1 11 mkdir /a 755 => done 7\n1 3 1 12 mkdir /b 755\n",
        &["i", "model", "s"],
        3,
        b"1: done 0\n2: differs done 1099511627776\n",
    ),
    (
        None,
        b"1 1 1 10 session-open\n\n",
        &["i", "model", "s"],
        7,
        b"line 2\n",
    ),
    (Some(b""), RUN, &["i", "play"], 1, b"image BadMagic 0\n"),
    (
        Some(b"MJIMG001\0\0\0"),
        RUN,
        &["i", "play"],
        1,
        b"image Truncated 8\n",
    ),
    (
        Some(b"MJIMG001\x01\0\0\0\x01\0x"),
        RUN,
        &["i", "format"],
        1,
        b"image BadName 14\n",
    ),
    (
        Some(b"MJIMG001\x01\0\0\0\x0a\x001.00000000\0\0\0\0\0\0\0\0\x02"),
        RUN,
        &["i", "format"],
        1,
        b"image BadFlag 32\n",
    ),
    (
        Some(b"MJIMG001\x02\0\0\0\x0a\x001.00000000\0\0\0\0\0\0\0\0\0\0\0\0\0\x0a\x001.00000000"),
        RUN,
        &["i", "format"],
        1,
        b"image BadOrder 39\n",
    ),
    (
        Some(b"MJIMG001\0\0\0\0\0"),
        RUN,
        &["i", "format"],
        1,
        b"image Trailing 12\n",
    ),
];

// Files with this script and this image, if there is one.
fn with_image(alloc: Global, image: Option<&[u8]>, script: &[u8]) -> Result<MemFiles, Fail> {
    let mut files = with_script(alloc, &[], script)?;
    if let Some(image) = image {
        files.write(alloc, "i", image)?;
    }
    Ok(files)
}

fn is_image(alloc: Global, files: &mut MemFiles, want: &[u8]) -> Result<bool, Fail> {
    let image = files.read(alloc, "i")?;
    Ok(image.as_slice() == want)
}

#[test]
fn the_image_is_read_first_and_written_last(rt: HostRuntime) -> Result<(), Fail> {
    let alloc = rt.alloc();
    for (image, script, given, want, text) in &IMAGES {
        let mut files = with_image(alloc, *image, script)?;
        assert!(rt; says(alloc, &mut files, given, *want, text)?, "{given:?}");
        assert!(rt;
            is_image(alloc, &mut files, image.unwrap_or(EMPTY_IMAGE))?,
            "{given:?}"
        );
    }
    Ok(())
}

// The words, the calls that fail of the files and of the sink, the first being the writing of the script, and what comes of it.
static FAULTS: [(&[&str], &[u64], &[u64], u8, &[u8]); 8] = [
    (&["i", "play", "s"], &[2], &[], 6, b"file fault\n"),
    (&["i", "play", "s"], &[3], &[], 6, b"file fault\n"),
    (
        &["i", "play", "s"],
        &[4],
        &[],
        6,
        b"1: stopped\nfile fault\n",
    ),
    (&["i", "play"], &[3], &[], 2, b"words refused\n"),
    (&["i", "play", "s"], &[], &[1], 8, b""),
    (&["i", "format"], &[], &[1], 8, b""),
    (&["i", "format"], &[3], &[2], 6, b"formatted 0 4194304\n"),
    (&[], &[], &[1], 2, b""),
];

// The status of a call with these words, and what took the text.
fn ends(alloc: Global, given: &[&str], calls: &[u64], puts: &[u64]) -> Result<(u8, MemSink), Fail> {
    let words = words_of(alloc, given)?;
    let mut files = with_script(alloc, calls, b"flush\n")?;
    let mut out = MemSink::new(alloc, puts)?;
    let status = mdjournal_image_call(alloc, &words, &mut files, &mut out);
    Ok((status, out))
}

#[test]
fn faults_of_files_and_the_sink_end_a_call(rt: HostRuntime) -> Result<(), Fail> {
    for (given, calls, puts, want, text) in &FAULTS {
        let (status, out) = ends(rt.alloc(), given, calls, puts)?;
        assert_eq!(rt; out.taken(), *text);
        assert_eq!(rt; status, *want);
    }
    Ok(())
}

// Formats a store whose call of this number fails: the store, and whether that is told just where it has to be.
fn formatted(alloc: Global, k: u64) -> Result<(MemStore, bool), Fail> {
    let words = words_of(alloc, &["format"])?;
    let mut files = MemFiles::new(alloc, &[])?;
    let mut out = MemSink::new(alloc, &[])?;
    let store = MemStore::failing(alloc, &[k])?;
    let (status, store) = mdjournal_call(alloc, &words, &mut files, store, &mut out);
    let fails = status == 5 && out.taken() == b"store 1\n".as_slice();
    Ok((store, fails == (k <= FORMAT_CALLS)))
}

// The status of the run over a store.
fn played(alloc: Global, store: MemStore) -> Result<u8, Fail> {
    let words = words_of(alloc, &["play", "s"])?;
    let mut files = with_script(alloc, &[], RUN)?;
    let mut out = MemSink::new(alloc, &[])?;
    let (status, _) = mdjournal_call(alloc, &words, &mut files, store, &mut out);
    Ok(status)
}

#[test]
fn each_failed_call_of_formatting_is_told(rt: HostRuntime) -> Result<(), Fail> {
    for k in 1..80 {
        let (_, is_told) = formatted(rt.alloc(), k)?;
        assert!(rt; is_told, "call {k}");
    }
    Ok(())
}

// Behind those of formatting the calls fail one by one, until none of the run's is left.
#[test]
fn each_failed_call_of_a_run_is_told(rt: HostRuntime) -> Result<(), Fail> {
    let mut is_over = false;
    for k in FORMAT_CALLS + 1..80 {
        let (store, _) = formatted(rt.alloc(), k)?;
        let status = played(rt.alloc(), store)?;
        assert!(rt; status == 0 || status == 5, "call {k}");
        assert!(rt; status == 0 || !is_over, "call {k}");
        is_over = status == 0;
    }
    assert!(rt; is_over);
    Ok(())
}

// Each text, and that many `x` behind it.
fn with_fills(alloc: Global, parts: &[(&[u8], usize)]) -> Result<Vec<u8>, Fail> {
    let mut text = Vec::new(alloc);
    for (part, fills) in parts {
        text.extend_from_slice(part)?;
        for _ in 0..*fills {
            text.push(b'x')?;
        }
    }
    Ok(text)
}

// The words that format, the text of that, the script, and what it is told.
static RUNS: [(&[&str], &[u8], &[(&[u8], usize)], &[(&[u8], usize)]); 3] = [
    // a later stripe alone is dropped, and a stale tail is cut
    (
        &["i", "format", "--su", "4096", "--sc", "2", "--os", "65536"],
        b"formatted 0 131072\n",
        &[
            (
                b"mount\nreq 4 1 1 100 session-open\nflush\nstep 200.00000002\nreap\nreq 4 2 1 101 symlink /s ",
                3856,
            ),
            (
                b"\nreq 4 3 1 102 mkdir /b 755\nflush\nflush\nstep 200.00000003\nreap\nrestart\nmount\ntree\nreq 4 2 1 103 symlink /t ",
                3812,
            ),
            (b"\nflush\nstep 200.00000002\nrestart\nmount\ntree\n", 0),
        ],
        &[
            (
                b"1: mounted 1 131072\n2: done 0 ends 131165\n3: wrote 131072 131165\n4: applied 200.00000002 3\n5: reaped 3 safe 131072 131165\n6: done 1099511627776 ends 135168\n7: done 1099511627777 ends 135344\n8: wrote 131165 135168\n9: wrote 135168 135344\n10: applied 200.00000003 5\n11: reaped 5 safe 131165 131165\n12: restarted\n13: mounted 2 131165\n14: tree\n/\n15: done 1099511627776 ends 135168\n16: wrote 131165 135168\n17: applied 200.00000002 9\n18: restarted\n19: mounted 3 135168\n20: tree\n/\n/t symlink 0777 0 0 0 103 1 1099511627776 -> ",
                3812,
            ),
            (b"\n", 0),
        ],
    ),
    // a file that is open is kept without a name
    (
        &["i", "format"],
        b"formatted 0 4194304\n",
        &[(
            b"mount\nreq 4 1 1 100 session-open\nreq 4 2 1 101 create /f 644\nreq 4 3 1 102 open /f\nreq 4 4 1 103 unlink /f\ntree\n",
            0,
        )],
        &[(
            b"1: mounted 1 4194304\n2: done 0 ends 4194397\n3: done 1099511627776 ends 4194544\n4: done 1099511627776 ends 4194609\n5: done 1099511627776 ends 4194798\n6: tree\n/\nkept 1099511627776 file 0644 0 0 0 101 0\nopen 4 1099511627776\n",
            0,
        )],
    ),
    // ordinary use by three clients
    (
        &["i", "format"],
        b"formatted 0 4194304\n",
        &[(
            b"mount\nreq 4 1 1 1000 session-open\nreq 5 1 1 1000 session-open\nreq 6 1 1 1000 session-open\nreq 4 2 1 1001 mkdir /home 755\nreq 4 3 1 1001 mkdir /home/ann 755\nreq 5 2 1 1002 create /home/ann/notes.txt 644\nreq 6 2 1 1002 lookup /home/ann/notes.txt\nreq 5 3 1 1003 setattr /home/ann/notes.txt 640 1000 1000 512 1003\nreq 4 4 1 1004 rename /home/ann/notes.txt /home/todo.txt\nreq 4 5 1 1005 unlink /home/missing\nflush\nstep 200.00000001\nreap\nreq 4 4 1 1004 rename /home/ann/notes.txt /home/todo.txt\nrestart\nmount\ntree\n",
            0,
        )],
        &[(
            b"1: mounted 1 4194304\n2: done 0 ends 4194397\n3: done 0 ends 4194446\n4: done 0 ends 4194495\n5: done 1099511627776 ends 4194674\n6: done 1099511627777 ends 4194852\n7: done 1099511627778 ends 4195007\n8: found 1099511627778 file 0644 0 0 0 1002 1\n9: done 1099511627778 ends 4195154\n10: done 1099511627778 ends 4195348\n11: error 2\n12: wrote 4194304 4195348\n13: applied 200.00000001 3\n14: reaped 3 safe 4194304 4195348\n15: done 1099511627778\n16: restarted\n17: mounted 2 4195348\n18: tree\n/\n/home dir 0755 0 0 0 1001 1 1099511627776\n/home/ann dir 0755 0 0 0 1001 1 1099511627777\n/home/todo.txt file 0640 1000 1000 512 1003 1 1099511627778\n",
            0,
        )],
    ),
];

// Whether a script is told this, fills and all.
fn is_told(
    alloc: Global,
    files: &mut MemFiles,
    script: &[(&[u8], usize)],
    want: &[(&[u8], usize)],
) -> Result<bool, Fail> {
    let script = with_fills(alloc, script)?;
    files.write(alloc, "s", &script)?;
    let want = with_fills(alloc, want)?;
    says(alloc, files, &["i", "play", "s"], 0, &want)
}

#[test]
fn scripts_are_played_over_a_formatted_image(rt: HostRuntime) -> Result<(), Fail> {
    let alloc = rt.alloc();
    for (format, formatted, script, want) in &RUNS {
        let mut files = MemFiles::new(alloc, &[])?;
        assert!(rt;
            says(alloc, &mut files, format, 0, formatted)?,
            "{format:?}"
        );
        assert!(rt; is_told(alloc, &mut files, script, want)?, "{format:?}");
    }
    Ok(())
}
