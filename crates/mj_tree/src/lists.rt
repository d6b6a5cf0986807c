// Look-ups and counts in lists.
ghost use Rattle.std.specs.Prelude.{◌≡◌, ◌==◌, ◌&&◌, nat_le, count_by, map, filter, IfOk};
ghost use Rattle.std.specs.Option.{option_copied, option_map};
ghost use Rattle.std.specs.List.{find};
ghost use Rattle.mj_tree.specs.declared.plain.PlainLink.{PlainLink};
ghost use Rattle.mj_base.specs.InOrder.{same_bytes};

use crate::plain::{PlainLink, PlainOpen};
use crate::request::NameList;
use crate::session::{KeptReply, PlainSession};
use mj_base::{ClientId, Ino, InodeRecord, Items, Name, Tid};
use std::alloc::{AllocError, Global};

pub fn record_in(records: &Items<InodeRecord>, ino: Ino) -> Option<&InodeRecord>
    ensures { option_copied result ≡ find (λ r. r.ino == ino) records.now }
{
    records.as_slice().iter().find(|r| r.ino == ino)
}

pub fn link_in(links: &Items<PlainLink>, dir: Ino, name: &Name) -> Option<Ino>
    ensures { result ≡ option_map (λ l. l.ino) (find (λ l. (l.parent == dir) && same_bytes l.name name.now) links.now) }
{
    links
        .as_slice()
        .iter()
        .find(|l| l.parent == dir && l.name == *name)
        .map(|l| l.ino)
}

pub fn open_in(opens: &Items<PlainOpen>, client: ClientId, ino: Ino) -> Option<&PlainOpen>
    ensures { option_copied result ≡ find (λ o. (o.client == client) && (o.ino == ino)) opens.now }
{
    opens
        .as_slice()
        .iter()
        .find(|o| o.client == client && o.ino == ino)
}

pub fn session_in(sessions: &Items<PlainSession>, client: ClientId) -> Option<&PlainSession>
    ensures { option_copied result ≡ find (λ c. c.client == client) sessions.now }
{
    sessions.as_slice().iter().find(|c| c.client == client)
}

pub fn reply_in(kept: &Items<KeptReply>, tid: Tid) -> Option<Ino>
    ensures { result ≡ option_map (λ k. k.ino) (find (λ k. k.tid == tid) kept.now) }
{
    kept.as_slice().iter().find(|k| k.tid == tid).map(|k| k.ino)
}

pub fn links_to(links: &Items<PlainLink>, ino: Ino) -> usize
    ensures { result ≡ count_by (λ l. l.ino == ino) links.now }
{
    links.as_slice().iter().filter(|l| l.ino == ino).count()
}

pub fn links_from(links: &Items<PlainLink>, dir: Ino) -> usize
    ensures { result ≡ count_by (λ l. l.parent == dir) links.now }
{
    links.as_slice().iter().filter(|l| l.parent == dir).count()
}

pub fn opens_to(opens: &Items<PlainOpen>, ino: Ino) -> usize
    ensures { result ≡ count_by (λ o. o.ino == ino) opens.now }
{
    opens.as_slice().iter().filter(|o| o.ino == ino).count()
}

pub fn opens_from(opens: &Items<PlainOpen>, client: ClientId) -> usize
    ensures { result ≡ count_by (λ o. o.client == client) opens.now }
{
    opens
        .as_slice()
        .iter()
        .filter(|o| o.client == client)
        .count()
}

/// How many replies are kept for this number and later ones.
pub fn kept_from(kept: &Items<KeptReply>, oldest: Tid) -> usize
    ensures { result ≡ count_by (λ k. nat_le oldest k.tid) kept.now }
{
    kept.as_slice().iter().filter(|k| k.tid >= oldest).count()
}

/// The names of a directory's links.
pub fn names_in(alloc: Global, links: &Items<PlainLink>, dir: Ino) -> Result<NameList, AllocError>
    ensures { IfOk result (λ names. names ≡ map (λ (l : PlainLink). l.name) (filter (λ (l : PlainLink). l.parent == dir) links.now)) }
{
    let mut names = Vec::new(alloc);
    for link in links.as_slice() {
        if link.parent == dir {
            names.push(link.name.copy(alloc)?)?;
        }
    }
    Ok(Items::from_vec(names))
}
