//! Chronicles, and what the plain tree says to them.
#![tactic(auto)]

mod chronicle;
mod reply;
mod run;

pub use chronicle::{ChronicleLine, ChronicleRefusal, read_chronicle};
pub use run::{ModelEnd, model};
