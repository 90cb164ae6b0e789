//! Whole runs: what the arguments ask for, and the records of a file and then of an input, each answered before the next is taken,
//! over any streams, with a log or without.
#![tactic(auto)]

mod answers;
mod arguments;
mod command_line;
mod explaining;
mod files;
mod from_log;
mod inputs;
mod loader;
mod logged;
mod records;
mod sizes;
mod starts;
mod statuses;
mod streams;

pub use arguments::{Options, OptionsFault};
pub use command_line::options;
pub use explaining::explain;
pub use files::open_file;
pub use from_log::OpenLog;
pub use loader::{Progress, RestoreFault, restore};
pub use logged::run_with_log;
pub use olr_input::{Buffered, RunFault, Session};
pub use olr_log::{Gate, Journal, LogFault};
pub use records::{Scratch, run, run_bytes, run_session, run_source};
pub use sizes::compaction_length;
pub use statuses::{Status, WRONG_ARGUMENTS, exit_code, report_fault};
pub use streams::program;
