//! Image files: the objects of a store as bytes, both ways.
#![tactic(auto)]

mod fields;
mod flaw;
mod law;
mod objects;
mod reading;
mod refusal;
mod size;
mod writing;

pub use law::{image_is_read_again, image_read_is_spelled, names_are_read_again};
pub use reading::image_read;
pub use refusal::{ImageRefusal, ImageWriteRefusal};
pub use writing::image_write;
