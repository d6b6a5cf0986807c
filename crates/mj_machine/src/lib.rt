//! What a rank is answered for: the machine that accepts requests, makes them safe and stops; the exact change of
//! an event; what every stop leaves; and which text a script may print.
#![tactic(auto)]

mod kept;
mod laws;

pub use kept::{ChronicleEntry, Kept};
pub use laws::{safe_requests_stay, turns_keep_what_is_safe};
