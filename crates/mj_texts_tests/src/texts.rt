// The words of every operation, read and refused, and the texts of replies.
use mj_base::{Ino, InodeRecord, Items, Kind, Name, Target};
use mj_texts::{Words, append_reply, read_request};
use mj_tree::{Op, Reply};
use std::alloc::{AllocError, Global};
use std::test::Fail;

// Which operation a request's words spell.
fn spelled(op: &Op) -> u8 {
    match op {
        Op::SessionOpen => 1,
        Op::SessionClose => 2,
        Op::Mkdir { .. } => 3,
        Op::Create { .. } => 4,
        Op::Symlink { .. } => 5,
        Op::Link { .. } => 6,
        Op::Unlink { .. } => 7,
        Op::Rmdir { .. } => 8,
        Op::Rename { .. } => 9,
        Op::SetAttr { .. } => 10,
        Op::OpenFile { .. } => 11,
        Op::Release { .. } => 12,
        Op::Lookup { .. } => 13,
        Op::Readdir { .. } => 14,
        Op::Readlink { .. } => 15,
    }
}

// Words, and which operation they spell.
static WORDS: [(&[u8], Option<u8>); 40] = [
    (b"4 1 1 100 session-open", Some(1)),
    (b"4 9 2 100 session-close", Some(2)),
    (b"4 2 1 101 mkdir /a 755", Some(3)),
    (b"4 2 1 101 create /a/b 0644", Some(4)),
    (b"4 2 1 101 symlink /a/s ../%20x", Some(5)),
    (b"4 2 1 101 symlink /a =>", Some(5)),
    (b"4 2 1 101 link /a /b", Some(6)),
    (b"4 2 1 101 unlink /a/b/c", Some(7)),
    (b"4 2 1 101 rmdir /", Some(8)),
    (b"4 2 1 101 rename /a /b/c", Some(9)),
    (
        b"4 2 1 101 setattr /a 7777 1 2 4611686018427387903 5",
        Some(10),
    ),
    (b"4 2 1 101 open /a", Some(11)),
    (b"4 2 1 101 release 1099511627776", Some(12)),
    (b"4 2 1 101 lookup /a", Some(13)),
    (b"4 2 1 101 readdir /", Some(14)),
    (b"4 2 1 101 readlink /a", Some(15)),
    (
        b"4294967295 18446744073709551615 18446744073709551615 0 lookup /",
        Some(13),
    ),
    // numbers
    (b"04 1 1 100 session-open", None),
    (b"4294967296 1 1 100 session-open", None),
    (b"4 18446744073709551616 1 100 session-open", None),
    (b"4 1 18446744073709551616 100 session-open", None),
    (b"4 +1 1 100 session-open", None),
    (b"4 1 1  session-open", None),
    (b"4 2 1 101 release 01", None),
    (b"4 2 1 101 setattr /a 644 1 2 4611686018427387904 5", None),
    (b"4 2 1 101 setattr /a 644 4294967296 2 3 5", None),
    (b"4 2 1 101 setattr /a 644 1 2 3", None),
    // modes, paths and targets
    (b"4 2 1 101 mkdir /a 75", None),
    (b"4 2 1 101 mkdir /a 758", None),
    (b"4 2 1 101 create /a 07550", None),
    (b"4 2 1 101 mkdir a 755", None),
    (b"4 2 1 101 unlink /a//b", None),
    (b"4 2 1 101 unlink /..", None),
    (b"4 2 1 101 unlink /%2F", None),
    (b"4 2 1 101 unlink /%41", None),
    (b"4 2 1 101 symlink /a ", None),
    (b"4 2 1 101 symlink /a %00", None),
    (b"4 2 1 101 link /a", None),
    // other operations
    (b"4 2 1 101 statfs /a", None),
    (b"4 2 1 101", None),
];

// Which operation the words spell, if they are a request and nothing behind it.
fn operation_of(alloc: Global, text: &[u8]) -> Result<Option<u8>, Fail> {
    let mut words = Words::of(text);
    match read_request(alloc, &mut words)? {
        Some(request) if words.is_empty() => Ok(Some(spelled(&request.op))),
        Some(_) => Err(Fail::from("words are left")),
        None => Ok(None),
    }
}

#[test]
fn every_operation_is_read_from_its_words(rt: HostRuntime) -> Result<(), Fail> {
    for (text, want) in &WORDS {
        let found = operation_of(rt.alloc(), text)?;
        assert_eq!(rt; found, *want, "at {text:?}");
    }
    Ok(())
}

#[test]
fn what_follows_a_request_is_left(rt: HostRuntime) -> Result<(), Fail> {
    let alloc = rt.alloc();
    let mut words = Words::of(b"4 2 1 101 symlink /a => => done 7");
    assert!(rt; read_request(alloc, &mut words)?.is_some());
    assert_eq!(rt; words.next(), Some(b"=>".as_slice()));
    assert_eq!(rt; words.next(), Some(b"done".as_slice()));
    Ok(())
}

// Whether a reply has this text.
fn has_text(alloc: Global, reply: &Reply, want: &[u8]) -> Result<bool, AllocError> {
    let mut text = Vec::new(alloc);
    append_reply(reply, &mut text)?;
    Ok(text.as_slice() == want)
}

fn found(alloc: Global) -> Result<Reply, Fail> {
    Ok(Reply::Found(InodeRecord {
        ino: Ino(1_099_511_627_776),
        kind: Kind::Symlink,
        mode: 0o777,
        uid: 0,
        gid: 1,
        size: 2,
        mtime: 3,
        links: 4,
        target: Target::of(alloc, b"x")?,
    }))
}

fn names(alloc: Global) -> Result<Reply, Fail> {
    let mut names = Vec::new(alloc);
    names.push(Name::read(alloc, b"a")?)?;
    names.push(Name::read(alloc, b"b c")?)?;
    Ok(Reply::Names(Items::from_vec(names)))
}

#[test]
fn replies_have_their_texts(rt: HostRuntime) -> Result<(), Fail> {
    let alloc = rt.alloc();
    let none = Reply::Names(Items::from_vec(Vec::new(alloc)));
    assert!(rt; has_text(alloc, &Reply::Done { ino: Ino(7) }, b"done 7")?);
    assert!(rt; has_text(alloc, &Reply::Error(116), b"error 116")?);
    assert!(rt; has_text(alloc, &none, b"names")?);
    Ok(())
}

#[test]
fn long_replies_have_their_texts(rt: HostRuntime) -> Result<(), Fail> {
    let alloc = rt.alloc();
    let want = b"found 1099511627776 symlink 0777 0 1 2 3 4";
    assert!(rt; has_text(alloc, &found(alloc)?, want)?);
    assert!(rt; has_text(alloc, &names(alloc)?, b"names a b%20c")?);
    let link = Reply::Link(Target::of(alloc, b"../%")?);
    assert!(rt; has_text(alloc, &link, b"target ../%25")?);
    Ok(())
}

#[test]
fn a_reply_is_appended(rt: HostRuntime) -> Result<(), Fail> {
    let mut text = b"kept;".to_vec(rt.alloc())?;
    append_reply(&Reply::Error(2), &mut text)?;
    assert_eq!(rt; text.as_slice(), b"kept;error 2".as_slice());
    Ok(())
}
