//! Sessions: records taken from a reader or from bytes in memory, and texts written to an output.
#![tactic(auto)]

mod blocks;
mod buffered;
mod ends;
mod in_memory;
mod inputs;
mod joined;
mod line_records;
mod lines;
mod machine;
mod output;
mod record;
mod sessions;
mod sources;

pub use buffered::{Buffered, remove_front};
pub use ends::RunFault;
pub use in_memory::InMemory;
pub use inputs::Input;
pub use joined::Joined;
pub use lines::ends_line;
pub use output::write_all;
pub use record::{Effect, Record, Word, field, word_of};
pub use sessions::{Plain, Session};
pub use sources::{Records, Source};
