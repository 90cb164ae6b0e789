//! The log of a run: the gate through which answers leave once it stores their changes, and a log in a file, over any disk and in
//! any folder.
#![tactic(auto)]

mod changes;
mod folder;
mod gate;
mod journal;
mod log_file;
mod logged;
mod opening;
mod reads;
mod scan;
mod state;
mod unopened;
mod unstored;
mod whole;
mod writes;

pub use folder::Folder;
pub use gate::{Gate, LogFault};
pub use journal::Journal;
pub use log_file::LogFile;
pub use logged::Logged;
pub use unopened::OpenError;
pub use unstored::Unstored;
pub use whole::is_whole;
pub use writes::BLOCK;
