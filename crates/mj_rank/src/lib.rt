//! One rank over an object store: its mount and its calls.
#![tactic(auto)]

mod cutting;
mod entries;
mod finding;
mod found;
mod laws;
mod mounting;
mod rank;
mod refusal;

pub use laws::{
    a_mount_lives_on, a_new_store_rests, a_rank_answers, a_rank_lives_on, a_stopped_store_stays,
    each_image_is_a_front,
};
pub use mj_texts::{Early, MountStep, Reaped, Span};
pub use mounting::Mounting;
pub use rank::Rank;
pub use refusal::{Fault, MountRefusal, RankRefusal, Sealed};
