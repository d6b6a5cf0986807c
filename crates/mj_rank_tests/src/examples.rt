//! Requests whose replies and trees are known, asked of the plain tree and of a rank's cache.

ghost use Rattle.std.specs.Prelude.{◌≡◌, [], OnOk};
ghost use Rattle.mj_tree.specs.Request.{IsRequest};

use super::asking::{has_text, request};
use super::served::{ask, begin};
use mj_base::RankNo;
use mj_cache::Cache;
use mj_tree::{ClientRequest, PlainTree};
use std::alloc::Global;
use std::test::Fail;

/// A request and its reply.
type Row = (&'static str, &'static str);

// What is asked of a new rank, the listing afterwards, and what a whole one has behind it.
static EXAMPLES: [(&[Row], &str, &str); 6] = [
    (
        // each operation's happy path and each of its refusals, in their order
        &[
            ("4 1 2 1001 session-open", "error 22"),
            ("4 1 1 1001 mkdir /a 755", "error 116"),
            ("4 1 1 1001 session-open", "done 0"),
            ("4 1 1 1001 session-open", "done 0"),
            ("4 2 1 1002 session-open", "error 17"),
            ("4 2 1 1002 mkdir / 755", "error 17"),
            ("4 2 1 1002 mkdir /no/a 755", "error 2"),
            ("4 2 1 1002 mkdir /a 755", "done 1099511627776"),
            ("4 2 1 1002 create /other 644", "done 1099511627776"),
            ("4 3 1 1003 create /a 644", "error 17"),
            ("4 3 1 1003 create /a/f 644", "done 1099511627777"),
            ("4 4 1 1004 symlink /s /a/f", "done 1099511627778"),
            ("4 5 1 1005 create /a/f/g 644", "error 20"),
            ("4 5 1 1005 create /a/f/g/h 644", "error 20"),
            ("4 5 1 1005 link /no /l", "error 2"),
            ("4 5 1 1005 link /a /l", "error 21"),
            ("4 5 1 1005 link /a/f /", "error 17"),
            ("4 5 1 1005 link /a/f /s", "error 17"),
            ("4 5 1 1005 link /a/f /l", "done 1099511627777"),
            (
                "4 6 1 1006 lookup /l",
                "found 1099511627777 file 0644 0 0 0 1003 2",
            ),
            ("4 6 1 1006 lookup /", "found 1 dir 0755 0 0 0 0 0"),
            ("4 6 1 1006 lookup /no", "error 2"),
            ("4 6 1 1006 readdir /", "names a l s"),
            ("4 6 1 1006 readdir /l", "error 20"),
            ("4 6 1 1006 readlink /s", "target /a/f"),
            ("4 6 1 1006 readlink /a", "error 22"),
            ("4 6 1 1006 setattr / 640 1000 1000 0 1003", "error 22"),
            ("4 6 1 1006 setattr /a 640 1000 1000 5 1003", "error 22"),
            (
                "4 6 1 1006 setattr /l 640 1000 1000 512 1003",
                "done 1099511627777",
            ),
            (
                "4 7 1 1007 lookup /a/f",
                "found 1099511627777 file 0640 1000 1000 512 1003 2",
            ),
            ("4 7 1 1007 unlink /", "error 21"),
            ("4 7 1 1007 unlink /a", "error 21"),
            ("4 7 1 1007 unlink /no", "error 2"),
            ("4 7 1 1007 unlink /a/f", "done 1099511627777"),
            ("4 8 1 1008 rmdir /", "error 22"),
            ("4 8 1 1008 rmdir /l", "error 20"),
            ("4 8 1 1008 create /a/g 644", "done 1099511627779"),
            ("4 9 1 1009 rmdir /a", "error 39"),
            ("4 9 1 1009 mkdir /d 755", "done 1099511627780"),
            ("4 10 1 1010 rename / /x", "error 22"),
            ("4 10 1 1010 rename /a /", "error 22"),
            ("4 10 1 1010 rename /no /x", "error 2"),
            ("4 10 1 1010 rename /a /a/b", "error 22"),
            ("4 10 1 1010 rename /l /d", "error 21"),
            ("4 10 1 1010 rename /d /l", "error 20"),
            ("4 10 1 1010 rename /d /a", "error 39"),
            ("4 10 1 1010 rename /a /d", "done 1099511627776"),
            ("4 11 1 1011 readdir /d", "names g"),
            ("4 11 1 1011 rename /l /d/g", "done 1099511627777"),
            ("4 12 1 1012 link /d/g /h", "done 1099511627777"),
            ("4 13 1 1013 rename /h /d/g", "done 1099511627777"),
            (
                "4 14 1 1014 lookup /h",
                "found 1099511627777 file 0640 1000 1000 512 1003 2",
            ),
            ("4 14 1 1014 open /d", "error 21"),
            ("4 14 1 1014 open /s", "error 22"),
            ("4 14 1 1014 open /h", "done 1099511627777"),
            ("4 15 1 1015 session-close", "error 22"),
            ("4 15 1 1015 release 1099511627778", "error 2"),
            ("4 15 1 1015 release 1099511627777", "done 1099511627777"),
            ("4 16 9 1016 rmdir /d", "error 39"),
            ("4 16 9 1016 unlink /h", "done 1099511627777"),
            ("4 8 1 1008 lookup /h", "error 116"),
            ("4 9 1 1009 lookup /d/g", "done 1099511627780"),
            ("4 17 9 1017 session-close", "done 0"),
            ("4 17 9 1017 session-close", "error 116"),
            ("4 2 1 1002 session-open", "done 0"),
        ],
        "/\n/d dir 0755 0 0 0 1002 1 1099511627776\n/d/g file 0640 1000 1000 512 1003 1 1099511627777\n/s symlink 0777 0 0 0 1004 1 1099511627778 -> /a/f\n",
        "next 1099511627781\nsession 4 1\nreply 2 0\n",
    ),
    // a second link outlives the first
    (
        &[
            ("4 1 1 1001 session-open", "done 0"),
            ("4 2 1 1002 create /f 644", "done 1099511627776"),
            ("4 3 1 1003 link /f /h", "done 1099511627776"),
            ("4 4 1 1004 unlink /f", "done 1099511627776"),
            (
                "4 5 1 1005 lookup /h",
                "found 1099511627776 file 0644 0 0 0 1002 1",
            ),
        ],
        "/\n/h file 0644 0 0 0 1002 1 1099511627776\n",
        "next 1099511627777\nsession 4 1\nreply 1 0\nreply 2 1099511627776\nreply 3 1099511627776\nreply 4 1099511627776\n",
    ),
    // a file without a name is open
    (
        &[
            ("4 1 1 1001 session-open", "done 0"),
            ("4 2 1 1002 create /f 644", "done 1099511627776"),
            ("4 3 1 1003 open /f", "done 1099511627776"),
            ("4 4 1 1004 unlink /f", "done 1099511627776"),
            ("4 5 1 1005 lookup /f", "error 2"),
        ],
        "/\nkept 1099511627776 file 0644 0 0 0 1002 0\nopen 4 1099511627776\n",
        "next 1099511627777\nsession 4 1\nreply 1 0\nreply 2 1099511627776\nreply 3 1099511627776\nreply 4 1099511627776\n",
    ),
    // and is released
    (
        &[
            ("4 1 1 1001 session-open", "done 0"),
            ("4 2 1 1002 create /f 644", "done 1099511627776"),
            ("4 3 1 1003 open /f", "done 1099511627776"),
            ("4 4 1 1004 unlink /f", "done 1099511627776"),
            ("4 5 1 1005 release 1099511627776", "done 1099511627776"),
        ],
        "/\n",
        "next 1099511627777\nsession 4 1\nreply 1 0\nreply 2 1099511627776\nreply 3 1099511627776\nreply 4 1099511627776\nreply 5 1099511627776\n",
    ),
    // ordinary use
    (
        &[
            ("4 1 1 1001 session-open", "done 0"),
            ("4 2 1 1002 mkdir /home 755", "done 1099511627776"),
            ("4 3 1 1003 mkdir /home/ann 755", "done 1099511627777"),
            ("4 4 1 1004 create /home/ann/n 644", "done 1099511627778"),
            (
                "4 5 1 1005 rename /home/ann/n /home/todo",
                "done 1099511627778",
            ),
        ],
        "/\n/home dir 0755 0 0 0 1002 1 1099511627776\n/home/ann dir 0755 0 0 0 1003 1 1099511627777\n/home/todo file 0644 0 0 0 1004 1 1099511627778\n",
        "next 1099511627779\nsession 4 1\nreply 1 0\nreply 2 1099511627776\nreply 3 1099511627777\nreply 4 1099511627778\nreply 5 1099511627778\n",
    ),
    // lists of names go by the names, not by their texts
    (
        &[
            ("4 1 1 1001 session-open", "done 0"),
            ("4 2 1 1002 mkdir /a 755", "done 1099511627776"),
            ("4 3 1 1003 symlink /a!b x%2520", "done 1099511627777"),
            ("4 4 1 1004 mkdir /a/z 755", "done 1099511627778"),
            ("4 5 1 1005 create /%ff 644", "done 1099511627779"),
        ],
        "/\n/a dir 0755 0 0 0 1002 1 1099511627776\n/a/z dir 0755 0 0 0 1004 1 1099511627778\n/a!b symlink 0777 0 0 0 1003 1 1099511627777 -> x%2520\n/%ff file 0644 0 0 0 1005 1 1099511627779\n",
        "next 1099511627780\nsession 4 1\nreply 1 0\nreply 2 1099511627776\nreply 3 1099511627777\nreply 4 1099511627778\nreply 5 1099511627779\n",
    ),
];

/// The plain tree of a new rank.
pub fn plain_tree(alloc: Global) -> Result<PlainTree, Fail> {
    let rank = RankNo::new(0).ok_or("a rank")?;
    Ok(PlainTree::new(alloc, rank))
}

// Whether the plain tree answers a request so.
fn is_answered(
    alloc: Global,
    tree: &PlainTree,
    r: &ClientRequest,
    want: &str,
) -> Result<bool, Fail> {
    let reply = tree.answer(alloc, r)?;
    Ok(has_text(alloc, &reply, want)?)
}

// Whether it replies so as it takes a copy of the request.
fn is_applied(
    alloc: Global,
    tree: &mut PlainTree,
    r: &ClientRequest,
    want: &str,
) -> Result<bool, Fail> {
    let copy = r.copy(alloc)?;
    let reply = tree.apply(alloc, &copy)?;
    Ok(has_text(alloc, &reply, want)?)
}

// Whether the cache replies so.
fn is_planned(alloc: Global, cache: &mut Cache, r: &ClientRequest, want: &str) -> Result<bool, Fail>
    requires fits { IsRequest r.now }
    requires idle { cache.old.groups ≡ [] }
    ensures { OnOk result (cache.new.groups ≡ []) }
{
    let reply = ask(alloc, cache, r)?;
    Ok(has_text(alloc, &reply, want)?)
}

// Whether both list the same.
fn list_alike(alloc: Global, cache: &Cache, tree: &PlainTree) -> Result<bool, Fail> {
    let listed = cache.listing(alloc, true)?;
    let wanted = tree.listing(alloc, true)?;
    Ok(listed.as_slice() == wanted.as_slice())
}

// Asks both: whether they reply so and list the same afterwards.
fn agree_on(alloc: Global, cache: &mut Cache, tree: &mut PlainTree, row: &Row) -> Result<bool, Fail>
    requires { cache.old.groups ≡ [] }
    ensures { OnOk result (cache.new.groups ≡ []) }
{
    let (line, want) = *row;
    let r = request(alloc, line.as_bytes())?;
    let answered = is_answered(alloc, tree, &r, want)?;
    let applied = is_applied(alloc, tree, &r, want)?;
    let planned = is_planned(alloc, cache, &r, want)?;
    Ok(answered && applied && planned && list_alike(alloc, cache, tree)?)
}

// The first of the rows that is answered otherwise.
fn first_difference(
    alloc: Global,
    cache: &mut Cache,
    tree: &mut PlainTree,
    rows: &[Row],
) -> Result<Option<usize>, Fail>
    requires { cache.old.groups ≡ [] }
{
    for i in 0..rows.len() {
        if !agree_on(alloc, cache, tree, &rows[i])? {
            return Ok(Some(i));
        }
    }
    Ok(None)
}

// Whether a copy of the tree has this whole listing.
fn copy_lists(alloc: Global, tree: &PlainTree, want: &str, rest: &str) -> Result<bool, Fail> {
    let copy = tree.copy(alloc)?;
    let full = copy.listing(alloc, true)?;
    Ok(full.strip_prefix(want.as_bytes()) == Some(rest.as_bytes()))
}

// Whether both have this listing without sessions.
fn list_so(alloc: Global, cache: &Cache, tree: &PlainTree, want: &str) -> Result<bool, Fail> {
    let listed = tree.listing(alloc, false)?;
    let cached = cache.listing(alloc, false)?;
    Ok(listed.as_slice() == want.as_bytes() && cached.as_slice() == want.as_bytes())
}

#[test]
fn requests_of_the_plain_tree_and_of_a_cache(rt: HostRuntime) -> Result<(), Fail> {
    let alloc = rt.alloc();
    for (rows, want, rest) in &EXAMPLES {
        let mut cache = begin(alloc)?;
        let mut tree = plain_tree(alloc)?;
        assert_eq!(rt; first_difference(alloc, &mut cache, &mut tree, rows)?, None);
        assert!(rt; copy_lists(alloc, &tree, want, rest)?, "{want}");
        assert!(rt; list_so(alloc, &cache, &tree, want)?, "{want}");
    }
    Ok(())
}
