//! The records, opens and sessions of a plain tree.

ghost use Rattle.std.specs.Prelude.{◌≡◌, ◌≤◌, IsTrue, nat_lt, length, drop, map, filter_map, Some, IfOk, OnOk};
ghost use Rattle.std.specs.FinMap.Entries.{is_sorted};
ghost use Rattle.mj_maps.specs.Map.{from_entries, insert, picked};
ghost use Rattle.mj_maps.specs.Orders.{nat_cmp, pair_cmp};
ghost use Rattle.mj_tree.specs.Lists.{open_entries, session_entries, session_of};
ghost use Rattle.mj_tree.specs.Replies.{kept_entries};
ghost use Rattle.mj_recovery.specs.Tree.{reply_of, session_in};
ghost use Rattle.mj_cache.specs.PlainParts.{with_unit};

use mj_base::{ClientId, Ino, InodeRecord, Items, Tid};
use mj_tree::{KeptReply, PlainOpen, PlainSession};
use std::alloc::{AllocError, Global};
use std::collections::BTreeMap;

/// Puts the record of an inode among those by inode.
pub fn put_record(
    alloc: Global,
    found: &mut BTreeMap<Ino, InodeRecord>,
    inode: &InodeRecord,
) -> Result<(), AllocError>
    ensures { OnOk result (from_entries {R = nat_cmp} found.new.entries ≡ insert (from_entries found.old.entries) inode.now.ino inode.now) }
{
    let same = inode.copy(alloc)?;
    found.insert(inode.ino, same)?;
    Ok(())
}

/// The opens of these clients and inodes.
pub fn plain_opens(alloc: Global, places: &[(ClientId, Ino)]) -> Result<Vec<PlainOpen>, AllocError>
    ensures { IfOk result (λ v. open_entries v.items ≡ map with_unit places.now) }
{
    let mut found = Vec::new(alloc);
    for place in places {
        found.push(PlainOpen {
            client: place.0,
            ino: place.1,
        })?;
    }
    Ok(found)
}

// Where the replies of a client begin, among replies in the order of clients.
fn replies_begin(replies: &[((ClientId, Tid), Ino)], client: ClientId) -> usize
    requires { IsTrue (is_sorted pair_cmp replies.now) }
    ensures bound { result ≤ length replies.now }
    ensures kept { filter_map (reply_of client) (drop result replies.now) ≡ filter_map (reply_of client) replies.now }
{
    replies.partition_point(
        |reply: &((ClientId, Tid), Ino)| -> bool
            ensures { result ≡ nat_lt reply.now.0.0 client }
        { reply.0.0 < client },
    )
}

// The replies that are kept for a client.
fn replies_of(
    alloc: Global,
    client: ClientId,
    replies: &[((ClientId, Tid), Ino)],
) -> Result<Vec<KeptReply>, AllocError>
    requires { IsTrue (is_sorted pair_cmp replies.now) }
    ensures { IfOk result (λ v. kept_entries v.items ≡ filter_map (reply_of client) replies.now) }
{
    let mut found = Vec::new(alloc);
    for i in replies_begin(replies, client)..replies.len() {
        let ((holder, tid), ino) = replies[i];
        if client < holder {
            break;
        }
        if holder == client {
            found.push(KeptReply { tid, ino })?;
        }
    }
    Ok(found)
}

#[tactic(auto, using(crate::proofs::PlainSessions::sorted_replies))]
fn plain_session(
    alloc: Global,
    client: ClientId,
    oldest: Tid,
    replies: &[((ClientId, Tid), Ino)],
) -> Result<PlainSession, AllocError>
    requires { IsTrue (is_sorted pair_cmp replies.now) }
    ensures client { IfOk result (λ c. c.client ≡ client) }
    ensures session { IfOk result (λ c. Some (session_of c) ≡ session_in replies.now client oldest) }
{
    let kept = replies_of(alloc, client, replies)?;
    Ok(PlainSession {
        client,
        oldest,
        kept: Items::from_vec(kept),
    })
}

/// The sessions of these clients with their oldest tids, and these replies.
pub fn plain_sessions(
    alloc: Global,
    oldest: &[(ClientId, Tid)],
    replies: &[((ClientId, Tid), Ino)],
) -> Result<Vec<PlainSession>, AllocError>
    requires { IsTrue (is_sorted pair_cmp replies.now) }
    ensures { IfOk result (λ v. session_entries v.items ≡ picked (session_in replies.now) oldest.now) }
{
    let mut found = Vec::new(alloc);
    for held in oldest {
        let session = plain_session(alloc, held.0, held.1, replies)?;
        found.push(session)?;
    }
    Ok(found)
}
