//! The world of one rank: its store, stopped, mounting or serving.
#![tactic(auto)]

mod laws;
mod refusal;
mod world;

pub use laws::a_mount_waits_once;
pub use mj_texts::{Said, Step};
pub use refusal::WorldRefusal;
pub use world::World;
