//! Formatting: a store gets the objects that a new rank begins with.
#![tactic(auto)]

mod formatting;
mod laws;
mod made;
mod refusal;
mod sending;

pub use formatting::format;
pub use laws::a_formatted_store_is_new;
pub use refusal::FormatRefusal;
