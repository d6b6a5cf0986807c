//! The lists of a plain tree, one item in or out.
ghost use Rattle.std.specs.Prelude.{◌≡◌, OnOk, OnErr};
ghost use Rattle.mj_maps.specs.Map.{insert, remove};
ghost use Rattle.mj_tree.specs.State.{attributes_of};
ghost use Rattle.mj_tree.specs.Lists.{session_of};
ghost use Rattle.mj_tree.specs.Meaning.{state_of};

use crate::keyed;
use crate::plain::{PlainLink, PlainOpen, PlainTree};
use crate::session::PlainSession;
use mj_base::{ClientId, Ino, InodeRecord, Name};
use std::alloc::{AllocError, Global};

impl PlainTree {
    pub(crate) fn put_record(&mut self, alloc: Global, inode: InodeRecord) -> Result<(), AllocError>
        ensures ok { OnOk result (state_of self.new ≡ record (state_of self.old) { records = insert (state_of self.old).records inode.ino (attributes_of inode) }) }
        ensures err { OnErr result (state_of self.new ≡ state_of self.old) }
    {
        keyed::put(alloc, &mut self.records, inode)
    }

    pub(crate) fn put_link(
        &mut self,
        alloc: Global,
        place: (Ino, Name),
        ino: Ino,
    ) -> Result<(), AllocError>
        ensures ok { OnOk result (state_of self.new ≡ record (state_of self.old) { links = insert (state_of self.old).links place ino }) }
        ensures err { OnErr result (state_of self.new ≡ state_of self.old) }
    {
        let (parent, name) = place;
        keyed::put(alloc, &mut self.links, PlainLink { parent, name, ino })
    }

    pub(crate) fn put_open(
        &mut self,
        alloc: Global,
        client: ClientId,
        ino: Ino,
    ) -> Result<(), AllocError>
        ensures ok { OnOk result (state_of self.new ≡ record (state_of self.old) { opens = insert (state_of self.old).opens (client, ino) tt }) }
        ensures err { OnErr result (state_of self.new ≡ state_of self.old) }
    {
        keyed::put(alloc, &mut self.opens, PlainOpen { client, ino })
    }

    pub(crate) fn put_session(
        &mut self,
        alloc: Global,
        session: PlainSession,
    ) -> Result<(), AllocError>
        ensures ok { OnOk result (state_of self.new ≡ record (state_of self.old) { sessions = insert (state_of self.old).sessions session.client (session_of session) }) }
        ensures err { OnErr result (state_of self.new ≡ state_of self.old) }
    {
        keyed::put(alloc, &mut self.sessions, session)
    }

    pub(crate) fn drop_record(&mut self, alloc: Global, ino: Ino)
        ensures { state_of self.new ≡ record (state_of self.old) { records = remove (state_of self.old).records ino } }
    {
        keyed::drop_record(alloc, &mut self.records, ino);
    }

    pub(crate) fn drop_link(&mut self, alloc: Global, place: &(Ino, Name))
        ensures { state_of self.new ≡ record (state_of self.old) { links = remove (state_of self.old).links place.now } }
    {
        keyed::drop_link(alloc, &mut self.links, place);
    }

    pub(crate) fn drop_open(&mut self, alloc: Global, client: ClientId, ino: Ino)
        ensures { state_of self.new ≡ record (state_of self.old) { opens = remove (state_of self.old).opens (client, ino) } }
    {
        keyed::drop_open(alloc, &mut self.opens, client, ino);
    }

    pub(crate) fn drop_session(&mut self, alloc: Global, client: ClientId)
        ensures { state_of self.new ≡ record (state_of self.old) { sessions = remove (state_of self.old).sessions client } }
    {
        keyed::drop_session(alloc, &mut self.sessions, client);
    }
}
