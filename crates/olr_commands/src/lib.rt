//! Commands to a register of named paths, their replies and faults, and their meaning: states and their steps, replies,
//! the count of encodings, and the claims about whole runs of commands.
#![tactic(auto)]

pub mod command;
pub mod fault;
pub mod record_text;
pub mod recordable;
pub mod reply;

pub use command::Command;
pub use fault::CommandFault;
pub use record_text::{
    push_field, push_line_record, push_margin_record, push_node_record, push_number,
    push_path_record,
};
pub use recordable::{is_name, is_recordable_coord, is_recordable_line};
pub use reply::{Dump, Entry, NamedObstacle, Reply};
