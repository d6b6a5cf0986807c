//! A plain tree as text.
ghost use Rattle.std.specs.Prelude.{◌≡◌, ◌+◌, ◌%◌, ◌++◌, ◌∷◌, [], ℕ, List, OnOk, IfOk, filter, ◌==◌, codes};
ghost use Rattle.std.specs.Option.{unwrap_or, option_map};
ghost use Rattle.std.specs.List.{flat_map};
ghost use Rattle.std.specs.Fmt.{decimal};
ghost use Rattle.mj_base.specs.Name.{escaped};
ghost use Rattle.mj_maps.specs.Map.{entries, len};
ghost use Rattle.mj_base.specs.declared.record.InodeRecord.{InodeRecord};
ghost use Rattle.mj_tree.specs.declared.plain.PlainOpen.{PlainOpen};
ghost use Rattle.mj_tree.specs.declared.session.KeptReply.{KeptReply};
ghost use Rattle.mj_tree.specs.declared.session.PlainSession.{PlainSession};
ghost use Rattle.mj_tree.specs.State.{attributes, attributes_of, root_attributes, root, link_count};
ghost use Rattle.mj_tree.specs.Listing.{spaced, octal, kind_word, attribute_words, arrow, link_line, links_below, kept_lines, open_line, next_line, reply_line, session_lines, rest_of_listing, listing, kept_line};
ghost use Rattle.mj_tree.specs.Lists.{session_of};
ghost use Rattle.mj_tree.specs.Meaning.{state_of};

use crate::limits::ROOT;
use crate::looks;
use crate::plain::{PlainOpen, PlainTree};
use crate::session::{KeptReply, PlainSession};
use crate::view::TreeView;
use itoa::Buffer;
use mj_base::{Ino, InodeRecord, Items, Kind, escape};
use std::alloc::{AllocError, Global};

// Adds a number in decimal.
fn put_number(out: &mut Vec<u8>, n: u64) -> Result<(), AllocError>
    ensures { OnOk result (out.new.items ≡ out.old.items ++ decimal n) }
{
    let mut buffer = Buffer::new();
    out.extend_from_slice(buffer.format(n).as_bytes())
}

// Adds a space and a number.
fn put_word(out: &mut Vec<u8>, n: u64) -> Result<(), AllocError>
    ensures { OnOk result (out.new.items ≡ out.old.items ++ 32 ∷ decimal n) }
{
    out.push(b' ')?;
    put_number(out, n)
}

fn octal_digit(n: u16) -> u8
    ensures { result ≡ 48 + n % 8 }
{
    b'0' + (n % 8) as u8
}

// Adds a mode in four octal digits.
fn put_mode(out: &mut Vec<u8>, mode: u16) -> Result<(), AllocError>
    ensures { OnOk result (out.new.items ≡ out.old.items ++ octal mode) }
{
    out.push(octal_digit(mode / 512))?;
    out.push(octal_digit(mode / 64))?;
    out.push(octal_digit(mode / 8))?;
    out.push(octal_digit(mode))?;
    Ok(())
}

fn kind_word(kind: Kind) -> &'static [u8]
    ensures { result.now ≡ kind_word kind }
{
    match kind {
        Kind::Dir => b"dir",
        Kind::File => b"file",
        Kind::Symlink => b"symlink",
    }
}

// Adds what a record says, from its kind to its time.
fn put_attributes(out: &mut Vec<u8>, inode: &InodeRecord) -> Result<(), AllocError>
    ensures { OnOk result (out.new.items ≡ out.old.items ++ spaced (attribute_words (attributes_of inode.now))) }
{
    out.push(b' ')?;
    out.extend_from_slice(kind_word(inode.kind))?;
    out.push(b' ')?;
    put_mode(out, inode.mode)?;
    put_word(out, u64::from(inode.uid))?;
    put_word(out, u64::from(inode.gid))?;
    put_word(out, inode.size)?;
    put_word(out, inode.mtime)
}

// Adds where a symlink leads, and the end of the line.
fn put_arrow(out: &mut Vec<u8>, inode: &InodeRecord) -> Result<(), AllocError>
    ensures { OnOk result (out.new.items ≡ out.old.items ++ (spaced (arrow (attributes_of inode.now)) ++ 10 ∷ [])) }
{
    match inode.kind {
        Kind::Symlink => put_target(out, inode),
        Kind::Dir | Kind::File => {
            out.push(b'\n')?;
            Ok(())
        }
    }
}

// Adds where the symlink leads, and the end of the line.
fn put_target(out: &mut Vec<u8>, inode: &InodeRecord) -> Result<(), AllocError>
    ensures { OnOk result (out.new.items ≡ out.old.items ++ (spaced (codes "->" ∷ escaped inode.now.target ∷ []) ++ 10 ∷ [])) }
{
    out.extend_from_slice(b" -> ")?;
    escape(inode.target.as_slice(), out)?;
    out.push(b'\n')?;
    Ok(())
}

// Adds the line of a record without links.
fn put_kept(out: &mut Vec<u8>, inode: &InodeRecord) -> Result<(), AllocError>
    ensures { OnOk result (out.new.items ≡ out.old.items ++ kept_line (inode.now.ino, attributes_of inode.now)) }
{
    out.extend_from_slice(b"kept")?;
    put_word(out, inode.ino.0)?;
    put_attributes(out, inode)?;
    out.extend_from_slice(b" 0")?;
    put_arrow(out, inode)
}

fn put_open(out: &mut Vec<u8>, open: &PlainOpen) -> Result<(), AllocError>
    ensures { OnOk result (out.new.items ≡ out.old.items ++ open_line ((«open».now.client, «open».now.ino), tt)) }
{
    out.extend_from_slice(b"open")?;
    put_word(out, u64::from(open.client.0))?;
    put_word(out, open.ino.0)?;
    out.push(b'\n')?;
    Ok(())
}

fn put_reply(out: &mut Vec<u8>, reply: &KeptReply) -> Result<(), AllocError>
    ensures { OnOk result (out.new.items ≡ out.old.items ++ reply_line (reply.now.tid, reply.now.ino)) }
{
    out.extend_from_slice(b"reply")?;
    put_word(out, reply.tid.0)?;
    put_word(out, reply.ino.0)?;
    out.push(b'\n')?;
    Ok(())
}

fn put_next(out: &mut Vec<u8>, next: Ino) -> Result<(), AllocError>
    ensures { OnOk result (out.new.items ≡ out.old.items ++ next_line next) }
{
    out.extend_from_slice(b"next")?;
    put_word(out, next.0)?;
    out.push(b'\n')?;
    Ok(())
}

fn put_opens(out: &mut Vec<u8>, opens: &Items<PlainOpen>) -> Result<(), AllocError>
    ensures { OnOk result (out.new.items ≡ out.old.items ++ flat_map (λ (o : PlainOpen). open_line ((o.client, o.ino), tt)) opens.now) }
{
    for open in opens.as_slice() {
        put_open(out, open)?;
    }
    Ok(())
}

fn put_replies(out: &mut Vec<u8>, kept: &Items<KeptReply>) -> Result<(), AllocError>
    ensures { OnOk result (out.new.items ≡ out.old.items ++ flat_map (λ (k : KeptReply). reply_line (k.tid, k.ino)) kept.now) }
{
    for reply in kept.as_slice() {
        put_reply(out, reply)?;
    }
    Ok(())
}

// Adds a session and its kept replies.
fn put_session(out: &mut Vec<u8>, session: &PlainSession) -> Result<(), AllocError>
    ensures { OnOk result (out.new.items ≡ out.old.items ++ session_lines (session.now.client, session_of session.now)) }
{
    out.extend_from_slice(b"session")?;
    put_word(out, u64::from(session.client.0))?;
    put_word(out, session.oldest.0)?;
    out.push(b'\n')?;
    put_kept_replies(out, session)
}

// Adds the kept replies of a session.
fn put_kept_replies(out: &mut Vec<u8>, session: &PlainSession) -> Result<(), AllocError>
    ensures { OnOk result (out.new.items ≡ out.old.items ++ flat_map reply_line (entries (session_of session.now).kept)) }
{
    put_replies(out, &session.kept)
}

fn put_sessions(out: &mut Vec<u8>, sessions: &Items<PlainSession>) -> Result<(), AllocError>
    ensures { OnOk result (out.new.items ≡ out.old.items ++ flat_map (λ (c : PlainSession). session_lines (c.client, session_of c)) sessions.now) }
{
    for session in sessions.as_slice() {
        put_session(out, session)?;
    }
    Ok(())
}

impl PlainTree {
    // Adds the lines of the records without links.
    fn put_kept_lines(&self, out: &mut Vec<u8>) -> Result<(), AllocError>
        ensures { OnOk result (out.new.items ≡ out.old.items ++ flat_map (λ (r : InodeRecord). kept_line (r.ino, attributes_of r)) (filter (λ (r : InodeRecord). link_count (state_of self.now) r.ino == 0) self.now.records)) }
    {
        for inode in self.records.as_slice() {
            if self.link_count(inode.ino) == 0 {
                put_kept(out, inode)?;
            }
        }
        Ok(())
    }

    // The record of an inode, or the root's where there is none.
    fn record_or<'a>(&'a self, root: &'a InodeRecord, ino: Ino) -> &'a InodeRecord
        requires { attributes_of root.now ≡ root_attributes }
        ensures { attributes_of result.now ≡ unwrap_or (attributes (state_of self.now) ino) root_attributes }
    {
        if ino == ROOT {
            return root;
        }
        match self.record(ino) {
            Some(found) => found,
            None => root,
        }
    }

    // Adds the line of a link.
    fn put_link_line(
        &self,
        out: &mut Vec<u8>,
        path: &[u8],
        ino: Ino,
        root: &InodeRecord,
    ) -> Result<(), AllocError>
        requires { attributes_of root.now ≡ root_attributes }
        ensures { OnOk result (out.new.items ≡ out.old.items ++ link_line (state_of self.now) path.now ino) }
    {
        let inode = self.record_or(root, ino);
        out.extend_from_slice(path)?;
        put_attributes(out, inode)?;
        put_word(out, self.link_count(ino))?;
        put_word(out, ino.0)?;
        put_arrow(out, inode)
    }

    // Adds the links below a directory, down to a depth. The path is that of the directory.
    fn put_links(
        &self,
        out: &mut Vec<u8>,
        path: &mut Vec<u8>,
        dir: Ino,
        root: &InodeRecord,
        depth: usize,
    ) -> Result<(), AllocError>
        requires { attributes_of root.now ≡ root_attributes }
        ensures text { OnOk result (out.new.items ≡ out.old.items ++ links_below depth (state_of self.now) path.old.items dir) }
        ensures path { OnOk result (path.new.items ≡ path.old.items) }
    {
        if depth == 0 {
            return Ok(());
        }
        let above = path.len();
        for link in self.links.as_slice() {
            if link.parent == dir {
                path.push(b'/')?;
                escape(link.name.as_slice(), path)?;
                self.put_link_line(out, path, link.ino, root)?;
                self.put_links(out, path, link.ino, root, depth - 1)?;
                path.truncate(above);
            }
        }
        Ok(())
    }

    // Adds the lines of the records without links.
    fn put_kept_records(&self, out: &mut Vec<u8>) -> Result<(), AllocError>
        ensures { OnOk result (out.new.items ≡ out.old.items ++ kept_lines (state_of self.now)) }
    {
        self.put_kept_lines(out)
    }

    // Adds the opens.
    fn put_open_files(&self, out: &mut Vec<u8>) -> Result<(), AllocError>
        ensures { OnOk result (out.new.items ≡ out.old.items ++ flat_map open_line (entries (state_of self.now).opens)) }
    {
        put_opens(out, &self.opens)
    }

    // Adds the sessions.
    fn put_all_sessions(&self, out: &mut Vec<u8>) -> Result<(), AllocError>
        ensures { OnOk result (out.new.items ≡ out.old.items ++ flat_map session_lines (entries (state_of self.now).sessions)) }
    {
        put_sessions(out, &self.sessions)
    }

    // Adds what the full listing has more.
    fn put_rest(&self, out: &mut Vec<u8>, full: bool) -> Result<(), AllocError>
        ensures { OnOk result (out.new.items ≡ out.old.items ++ rest_of_listing (state_of self.now) full) }
    {
        if !full {
            return Ok(());
        }
        put_next(out, self.next)?;
        self.put_all_sessions(out)
    }

    // How many links there are.
    fn link_total(&self) -> usize
        ensures { result ≡ len (state_of self.now).links }
    {
        self.links.len()
    }

    /// The tree as text: a line for each link in the order of the paths, each record without links, and each open.
    /// The full listing adds the next inode and the sessions with their kept replies.
    #[tactic(auto, unfolding(crate::specs::Listing::listing))]
    pub fn listing(&self, alloc: Global, full: bool) -> Result<Vec<u8>, AllocError>
        ensures { IfOk result (λ text. text.items ≡ listing (state_of self.now) full) }
    {
        let root = looks::record_of(ROOT, 0, looks::root_attributes(alloc));
        let mut path = Vec::new(alloc);
        let mut out = Vec::from_slice(alloc, b"/\n")?;
        self.put_links(&mut out, &mut path, ROOT, &root, self.link_total())?;
        self.put_kept_records(&mut out)?;
        self.put_open_files(&mut out)?;
        self.put_rest(&mut out, full)?;
        Ok(out)
    }
}
