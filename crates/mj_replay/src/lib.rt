//! The live journal of a store, and what it comes to: the header, the events from its expire on, the tail, and the cells that
//! they leave.
#![tactic(auto)]

mod entries;
mod header;
mod journal;
mod laws;
mod lumps;
mod overlaid;
mod piece;
mod refusal;
mod replaying;

pub use entries::judge_first;
pub use journal::read_journal;
pub use laws::a_history_is_replayed;
pub use piece::{Piece, read_piece};
pub use refusal::JournalRefusal;
pub use replaying::{Replayed, replay};
