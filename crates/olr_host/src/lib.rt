//! The system below a log: files, names, folders and locks. All code of the program that no proof covers is here.
#![tactic(auto)]

mod file;
mod opened;
mod place;
mod traced;

pub use file::HostFile;
pub use opened::open_records;
pub use place::{HostDisk, LogFolder, open_place, set_aside};
pub use sqlite_disk::{Start, Unknown};
