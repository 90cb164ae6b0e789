//! Records of comma-separated fields read as commands, and the texts of replies and faults.
#![tactic(auto)]

mod attributes;
mod edits;
pub mod faults;
mod fields;
mod lists;
mod parts;
mod paths;
mod questions;
mod read;
mod reply;
mod texts;

pub use faults::{ReadFault, fault_text, read_fault_text};
pub use read::{is_report, read_command, read_record, text_to_explain};
pub use reply::{append_count, append_entry, append_reply, dump_text, reply_text};
