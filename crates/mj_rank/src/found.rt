//! What a mount finds, and with what its rank begins.

ghost use Rattle.std.specs.Prelude.{◌≡◌, ◌<◌, ◌≤◌, ◌+◌, ◌^◌, min, [], IfOk, IsTrue};
ghost use Rattle.mj_layout.specs.Header.{IsHeader};
ghost use Rattle.mj_rank.specs.Log.{log_value, is_unsent};
ghost use Rattle.mj_rank.specs.Mount.{first_log, first_segment, next_header, serving_header};

use crate::entries::map_payload;
use mj_base::RankNo;
use mj_base::limits::ENVELOPE;
use mj_cache::Cache;
use mj_journaler::Journaler;
use mj_layout::{Header, Phase};
use std::alloc::{AllocError, Global};

/// The header, where the journal ends, and the cells of its events.
#[derive(Drop)]
pub struct Found {
    pub header: Header,
    pub tail: u64,
    pub cache: Cache,
    ghost sound: { IsHeader header },
    ghost order: { header.expire ≤ tail },
    ghost in_range: { tail < 2 ^ 62 },
    ghost safe: { cache.groups ≡ [] },
}

/// The journal with which a rank begins to serve, and how many events its first segment has. Nothing of it was sent. Where no subtree
/// map fits behind the tail, no segment has begun.
#[derive(Drop)]
pub struct FirstLog {
    pub journal: Journaler,
    pub segment: Option<u64>,
    ghost unsent: { IsTrue (is_unsent journal) },
}

impl Found {
    /// The journal of a rank that serves from here on: it begins with a subtree map, for which all memory is taken.
    pub fn log(&self, alloc: Global, number: RankNo) -> Result<FirstLog, AllocError>
        ensures journal { IfOk result (λ log. log_value log.journal ≡ first_log self.now.header number self.now.tail) }
        ensures segment { IfOk result (λ log. log.segment ≡ first_segment self.now.header number self.now.tail) }
    {
        let payload = map_payload(alloc, number)?;
        let mut journal = Journaler::new(alloc, self.serving_header(), number, self.tail)?;
        if journal.refusal(&payload).is_some() {
            return Ok(FirstLog {
                journal,
                segment: None,
            });
        }
        journal.reserve(alloc, payload.len() + ENVELOPE)?;
        journal.append(alloc, &payload).unwrap();
        Ok(FirstLog {
            journal,
            segment: Some(0),
        })
    }

    // The header under which a rank serves.
    fn serving_header(&self) -> Header
        ensures is { result ≡ serving_header self.now.header self.now.tail }
        ensures sound { IsHeader result }
        ensures below { result.expire ≤ self.now.tail }
    {
        let mut header = self.next_header();
        header.phase = Phase::Serving;
        header
    }

    /// The header that a mount sends: its epoch is one more, and at the end of its type it stays.
    pub fn next_header(&self) -> Header
        ensures { result ≡ next_header self.now.header self.now.tail }
    {
        Header {
            trimmed: self.header.trimmed,
            expire: self.header.expire,
            write: self.tail,
            layout: self.header.layout,
            format: self.header.format,
            phase: self.header.phase,
            epoch: self.header.epoch.saturating_add(1),
        }
    }
}
