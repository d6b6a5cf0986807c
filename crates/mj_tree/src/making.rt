//! The changes of a plain tree. An error is want of memory and leaves the tree as it was.
ghost use Rattle.std.specs.Prelude.{◌≡◌, ◌-◌, ◌^◌, ◌==◌, false, None, Some, IfOk, OnOk, OnErr};
ghost use Rattle.mj_maps.specs.Map.{get};
ghost use Rattle.mj_tree.specs.Change.{settled, with_new, with_link, without_link, with_moved, with_set, with_open, without_open, changed, set_in};
ghost use Rattle.mj_tree.specs.State.{attributes_of};
ghost use Rattle.mj_tree.specs.Possible.{CanBe};
ghost use Rattle.mj_tree.specs.Meaning.{state_of};

use crate::change::{Attributes, Change, Settings};
use crate::looks::record_of;
use crate::plain::PlainTree;
use crate::view::TreeView;
use mj_base::{ClientId, Ino, InodeRecord, Name};
use std::alloc::{AllocError, Global};

// The record of the inode, once these attributes are set in it.
fn with_settings(
    alloc: Global,
    ino: Ino,
    old: &InodeRecord,
    settings: Settings,
) -> Result<InodeRecord, AllocError>
    ensures ino { IfOk result (λ new. new.ino ≡ ino) }
    ensures attributes { IfOk result (λ new. attributes_of new ≡ set_in settings (attributes_of old.now)) }
{
    Ok(InodeRecord {
        ino,
        kind: old.kind,
        mode: settings.mode,
        uid: settings.uid,
        gid: settings.gid,
        size: settings.size,
        mtime: settings.mtime,
        links: 0,
        target: old.target.copy(alloc)?,
    })
}

impl PlainTree {
    // The record goes if no link and no open names its inode.
    fn settle(&mut self, alloc: Global, ino: Ino)
        ensures { state_of self.new ≡ settled (state_of self.old) ino }
    {
        if !self.is_kept(ino) {
            self.drop_record(alloc, ino);
        }
    }

    // The next inode begins, with a link.
    fn begin(
        &mut self,
        alloc: Global,
        place: (Ino, Name),
        attributes: Attributes,
    ) -> Result<(), AllocError>
        requires free { get (state_of self.old).links place ≡ None }
        requires more { ((state_of self.old).next == 2 ^ 64 - 1) ≡ false }
        ensures ok { OnOk result (state_of self.new ≡ with_new (state_of self.old) place attributes) }
        ensures err { OnErr result (state_of self.new ≡ state_of self.old) }
    {
        let ino = self.next;
        let name = place.1.copy(alloc)?;
        self.put_link(alloc, (place.0, name), ino)?;
        match self.put_record(alloc, record_of(ino, 0, attributes)) {
            Ok(()) => {
                self.next = Ino(ino.0 + 1);
                Ok(())
            }
            Err(e) => {
                self.drop_link(alloc, &place);
                Err(e)
            }
        }
    }

    fn unlink_at(&mut self, alloc: Global, place: &(Ino, Name), ino: Ino)
        ensures { state_of self.new ≡ without_link (state_of self.old) place.now ino }
    {
        self.drop_link(alloc, place);
        self.settle(alloc, ino);
    }

    // A link moves to a free place.
    fn move_link(
        &mut self,
        alloc: Global,
        from: &(Ino, Name),
        to: (Ino, Name),
        ino: Ino,
    ) -> Result<(), AllocError>
        requires from { get (state_of self.old).links from.now ≡ Some ino }
        requires to { get (state_of self.old).links to ≡ None }
        ensures ok { OnOk result (state_of self.new ≡ with_moved (state_of self.old) from.now to ino) }
        ensures err { OnErr result (state_of self.new ≡ state_of self.old) }
    {
        self.put_link(alloc, to, ino)?;
        self.drop_link(alloc, from);
        Ok(())
    }

    // A link moves to the place of another inode's, which goes.
    fn replace_link(
        &mut self,
        alloc: Global,
        from: &(Ino, Name),
        to: (Ino, Name),
        ino: Ino,
        other: Ino,
    ) -> Result<(), AllocError>
        requires from { get (state_of self.old).links from.now ≡ Some ino }
        requires to { get (state_of self.old).links to ≡ Some other }
        requires apart { (ino == other) ≡ false }
        ensures ok { OnOk result (state_of self.new ≡ with_moved (without_link (state_of self.old) to other) from.now to ino) }
        ensures err { OnErr result (state_of self.new ≡ state_of self.old) }
    {
        self.put_link(alloc, to, ino)?;
        self.drop_link(alloc, from);
        self.settle(alloc, other);
        Ok(())
    }

    fn set(&mut self, alloc: Global, ino: Ino, settings: Settings) -> Result<(), AllocError>
        ensures ok { OnOk result (state_of self.new ≡ with_set (state_of self.old) ino settings (get (state_of self.old).records ino)) }
        ensures err { OnErr result (state_of self.new ≡ state_of self.old) }
    {
        match self.record(ino) {
            Some(old) => {
                let new = with_settings(alloc, ino, old, settings)?;
                self.put_record(alloc, new)
            }
            None => Ok(()),
        }
    }

    fn release_file(&mut self, alloc: Global, client: ClientId, ino: Ino)
        ensures { state_of self.new ≡ without_open (state_of self.old) client ino }
    {
        self.drop_open(alloc, client, ino);
        self.settle(alloc, ino);
    }

    /// Makes a change that can be.
    pub(crate) fn change(&mut self, alloc: Global, change: Change) -> Result<(), AllocError>
        requires { CanBe (state_of self.old) change }
        ensures ok { OnOk result (state_of self.new ≡ changed (state_of self.old) change) }
        ensures err { OnErr result (state_of self.new ≡ state_of self.old) }
    {
        match change {
            Change::Nothing => Ok(()),
            Change::Begin { place, attributes } => self.begin(alloc, place, attributes),
            Change::Link { place, ino } => self.put_link(alloc, place, ino),
            Change::Unlink { place, ino } => {
                self.unlink_at(alloc, &place, ino);
                Ok(())
            }
            Change::Move { from, to, ino } => self.move_link(alloc, &from, to, ino),
            Change::Replace {
                from,
                to,
                ino,
                other,
            } => self.replace_link(alloc, &from, to, ino, other),
            Change::Set { ino, settings } => self.set(alloc, ino, settings),
            Change::Hold { client, ino } => self.put_open(alloc, client, ino),
            Change::Release { client, ino } => {
                self.release_file(alloc, client, ino);
                Ok(())
            }
        }
    }
}
