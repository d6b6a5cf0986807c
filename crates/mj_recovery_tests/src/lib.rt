//! A plain program of recovery over a list of objects, by the definitions of `mj_recovery`, and its tests on images of worked runs.
#![tactic(auto)]

mod bad;
#[cfg(test)]
mod images;
mod journal;
mod objects;
mod put;
mod recover;
mod stored;
mod stream;

pub use objects::are_held;
pub use recover::{Recovery, recovered};
