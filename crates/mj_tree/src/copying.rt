//! Copies.
ghost use Rattle.std.specs.Prelude.{◌≡◌, IfOk};
ghost use Rattle.mj_tree.specs.Lists.{session_of, session_entries};
ghost use Rattle.mj_tree.specs.Meaning.{state_of};

use crate::plain::{PlainLink, PlainOpen, PlainTree};
use crate::request::{ClientRequest, NameList, Op, Reply};
use crate::session::{KeptReply, PlainSession};
use mj_base::{InodeRecord, Items};
use std::alloc::{AllocError, Global};

fn copy_names(alloc: Global, names: &NameList) -> Result<NameList, AllocError>
    ensures { IfOk result (λ same. same ≡ names.now) }
{
    let mut all = Vec::new(alloc);
    for name in names.as_slice() {
        all.push(name.copy(alloc)?)?;
    }
    Ok(Items::from_vec(all))
}

impl Reply {
    pub fn copy(&self, alloc: Global) -> Result<Reply, AllocError>
        ensures { IfOk result (λ same. same ≡ self.now) }
    {
        Ok(match self {
            Reply::Done { ino } => Reply::Done { ino: *ino },
            Reply::Error(code) => Reply::Error(*code),
            Reply::Found(inode) => Reply::Found(inode.copy(alloc)?),
            Reply::Names(names) => Reply::Names(copy_names(alloc, names)?),
            Reply::Link(target) => Reply::Link(target.copy(alloc)?),
        })
    }
}

impl Op {
    pub fn copy(&self, alloc: Global) -> Result<Op, AllocError>
        ensures { IfOk result (λ same. same ≡ self.now) }
    {
        Ok(match self {
            Op::SessionOpen => Op::SessionOpen,
            Op::SessionClose => Op::SessionClose,
            Op::Mkdir { path, mode } => Op::Mkdir {
                path: path.copy(alloc)?,
                mode: *mode,
            },
            Op::Create { path, mode } => Op::Create {
                path: path.copy(alloc)?,
                mode: *mode,
            },
            Op::Symlink { path, target } => Op::Symlink {
                path: path.copy(alloc)?,
                target: target.copy(alloc)?,
            },
            Op::Link { from, to } => Op::Link {
                from: from.copy(alloc)?,
                to: to.copy(alloc)?,
            },
            Op::Unlink { path } => Op::Unlink {
                path: path.copy(alloc)?,
            },
            Op::Rmdir { path } => Op::Rmdir {
                path: path.copy(alloc)?,
            },
            Op::Rename { from, to } => Op::Rename {
                from: from.copy(alloc)?,
                to: to.copy(alloc)?,
            },
            Op::SetAttr {
                path,
                mode,
                uid,
                gid,
                size,
                mtime,
            } => Op::SetAttr {
                path: path.copy(alloc)?,
                mode: *mode,
                uid: *uid,
                gid: *gid,
                size: *size,
                mtime: *mtime,
            },
            Op::OpenFile { path } => Op::OpenFile {
                path: path.copy(alloc)?,
            },
            Op::Release { ino } => Op::Release { ino: *ino },
            Op::Lookup { path } => Op::Lookup {
                path: path.copy(alloc)?,
            },
            Op::Readdir { path } => Op::Readdir {
                path: path.copy(alloc)?,
            },
            Op::Readlink { path } => Op::Readlink {
                path: path.copy(alloc)?,
            },
        })
    }
}

impl ClientRequest {
    pub fn copy(&self, alloc: Global) -> Result<ClientRequest, AllocError>
        ensures { IfOk result (λ same. same ≡ self.entry.now) }
    {
        Ok(ClientRequest {
            client: self.client,
            tid: self.tid,
            oldest: self.oldest,
            now: self.now,
            op: self.op.copy(alloc)?,
        })
    }
}

fn copy_records(
    alloc: Global,
    records: &Items<InodeRecord>,
) -> Result<Items<InodeRecord>, AllocError>
    ensures { IfOk result (λ same. same ≡ records.now) }
{
    let mut all = Vec::new(alloc);
    for inode in records.as_slice() {
        all.push(inode.copy(alloc)?)?;
    }
    Ok(Items::from_vec(all))
}

fn copy_link(alloc: Global, link: &PlainLink) -> Result<PlainLink, AllocError>
    ensures { IfOk result (λ same. same ≡ link.now) }
{
    Ok(PlainLink {
        parent: link.parent,
        name: link.name.copy(alloc)?,
        ino: link.ino,
    })
}

fn copy_links(alloc: Global, links: &Items<PlainLink>) -> Result<Items<PlainLink>, AllocError>
    ensures { IfOk result (λ same. same ≡ links.now) }
{
    let mut all = Vec::new(alloc);
    for link in links.as_slice() {
        all.push(copy_link(alloc, link)?)?;
    }
    Ok(Items::from_vec(all))
}

fn copy_opens(alloc: Global, opens: &Items<PlainOpen>) -> Result<Items<PlainOpen>, AllocError>
    ensures { IfOk result (λ same. same ≡ opens.now) }
{
    Ok(Items::from_vec(Vec::from_slice(alloc, opens.as_slice())?))
}

fn copy_replies(alloc: Global, kept: &Items<KeptReply>) -> Result<Items<KeptReply>, AllocError>
    ensures { IfOk result (λ same. same ≡ kept.now) }
{
    Ok(Items::from_vec(Vec::from_slice(alloc, kept.as_slice())?))
}

impl PlainSession {
    pub fn copy(&self, alloc: Global) -> Result<PlainSession, AllocError>
        ensures client { IfOk result (λ same. same.client ≡ self.now.client) }
        ensures session { IfOk result (λ same. session_of same ≡ session_of self.now) }
    {
        Ok(PlainSession {
            client: self.client,
            oldest: self.oldest,
            kept: copy_replies(alloc, &self.kept)?,
        })
    }
}

fn copy_sessions(
    alloc: Global,
    sessions: &Items<PlainSession>,
) -> Result<Items<PlainSession>, AllocError>
    ensures { IfOk result (λ same. session_entries same ≡ session_entries sessions.now) }
{
    let mut all = Vec::new(alloc);
    for session in sessions.as_slice() {
        all.push(session.copy(alloc)?)?;
    }
    Ok(Items::from_vec(all))
}

impl PlainTree {
    pub fn copy(&self, alloc: Global) -> Result<PlainTree, AllocError>
        ensures { IfOk result (λ same. state_of same ≡ state_of self.now) }
    {
        Ok(PlainTree {
            next: self.next,
            records: copy_records(alloc, &self.records)?,
            links: copy_links(alloc, &self.links)?,
            opens: copy_opens(alloc, &self.opens)?,
            sessions: copy_sessions(alloc, &self.sessions)?,
        })
    }
}
