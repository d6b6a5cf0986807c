//! Copies.

ghost use Rattle.std.specs.Prelude.{◌≡◌, IfOk};

use crate::{Event, SessionEvent, UpdateEvent};
use std::alloc::{AllocError, Global};

impl SessionEvent {
    pub fn copy(&self, alloc: Global) -> Result<SessionEvent, AllocError>
        ensures { IfOk result (λ same. same ≡ self.now) }
    {
        Ok(SessionEvent {
            client: self.client,
            kind: self.kind,
            oldest: self.oldest,
            tid: self.tid,
            dropped: self.dropped.copy(alloc)?,
        })
    }
}

impl UpdateEvent {
    pub fn copy(&self, alloc: Global) -> Result<UpdateEvent, AllocError>
        ensures { IfOk result (λ same. same ≡ self.now) }
    {
        Ok(UpdateEvent {
            op: self.op,
            client: self.client,
            tid: self.tid,
            ino: self.ino,
            oldest: self.oldest,
            dropped: self.dropped.copy(alloc)?,
            next: self.next,
            opened: self.opened,
            released: self.released,
            blob: self.blob.copy(alloc)?,
        })
    }
}

impl Event {
    pub fn copy(&self, alloc: Global) -> Result<Event, AllocError>
        ensures { IfOk result (λ same. same ≡ self.now) }
    {
        Ok(match self {
            Event::SubtreeMap(dirs) => Event::SubtreeMap(dirs.copy(alloc)?),
            Event::Reset => Event::Reset,
            Event::Session(event) => Event::Session(event.copy(alloc)?),
            Event::Update(event) => Event::Update(event.copy(alloc)?),
            Event::Reopen(pairs) => Event::Reopen(pairs.copy(alloc)?),
            Event::NoOp(len) => Event::NoOp(*len),
        })
    }
}
