//! The texts of requests and replies, of the lines of a script and of their answers, read and written.
#![tactic(auto)]

mod answer;
mod damage;
mod law;
mod line;
mod number;
mod reply;
mod request;
mod script;
mod steps;
mod text;
mod words;

pub use answer::{Answer, append_turn};
pub use law::{lines_are_read_from_their_spellings, requests_are_read_from_their_spellings};
pub use line::{Line, read_line};
pub use number::{read_mode, read_number};
pub use reply::append_reply;
pub use request::{read_request, read_target};
pub use script::{ScriptRefusal, read_script};
pub use steps::{Early, MountStep, Reaped, Said, Span, Step};
pub use text::{Word, append_line, append_number, append_numbers, append_spaced, append_words};
pub use words::{Words, cut_at, is_all_ascii, is_word, last};
