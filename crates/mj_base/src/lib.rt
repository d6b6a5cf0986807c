//! Names, numbers, records and the outside of the program.
#![tactic(auto)]

mod cursor;
mod damage;
mod escapes;
mod fault_plan;
mod files;
mod host;
mod law;
pub mod limits;
mod list;
mod memory;
mod name;
mod numbers;
mod object;
mod order;
mod path;
mod record;
mod record_grammar;
mod short_text;
mod sink;

pub use cursor::{Cursor, Fault, or_take_back, put_u8, put_u16, put_u32, put_u64};
pub use damage::Damage;
pub use escapes::{EscapeRefusal, escape, unescape};
pub use fault_plan::FaultPlan;
pub use files::{FileRefusal, Files};
pub use host::{HostFiles, HostSink};
pub use law::{
    escapes_are_read_again, names_are_read, paths_are_read_again, records_are_read_again,
};
pub use limits::MAX_FILE_BYTES;
pub use list::Items;
pub use memory::{MemFiles, MemSink};
pub use name::{Name, NameRefusal};
pub use numbers::{ClientId, Ino, OpNo, RankNo, Tid};
pub use object::ObjectName;
pub use path::{Path, PathRefusal};
pub use record::{InodeRecord, Kind, Target, TargetRefusal};
pub use record_grammar::{RecordRefusal, kind_field, record_field, record_read, record_write};
pub use sink::{Sink, SinkFault, put_all};
