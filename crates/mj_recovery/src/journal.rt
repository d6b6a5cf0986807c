//! What a live journal holds.

use mj_base::Items;
use mj_event::Event;
use mj_layout::Header;

/// An event, and where its entry begins.
#[derive(Drop)]
pub struct LiveEvent {
    pub at: u64,
    pub event: Event,
}

/// Events, and the first place without one behind them.
#[derive(Drop)]
pub struct Entries {
    pub events: Items<LiveEvent>,
    pub tail: u64,
}

/// The header, the events from its expire on, and the tail behind them.
#[derive(Drop)]
pub struct LiveJournal {
    pub header: Header,
    pub events: Items<LiveEvent>,
    pub tail: u64,
}
