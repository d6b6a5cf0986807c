//! The program's top calls: a store is formatted, a script is played over it, or a chronicle is answered by the plain tree, with files
//! and a sink that may fail.
#![tactic(auto)]

mod answer;
mod buffered;
mod call;
mod chronicle;
mod formatting;
mod image;
mod image_file;
mod laws;
mod line;
mod mount;
mod play;
mod read;
mod say;
mod status;
mod words;

pub use buffered::Buffered;
pub use call::mdjournal_call;
pub use image::mdjournal_image_call;
pub use laws::{a_formatted_image_begins, a_written_image_rests};
pub use status::Status;
