//! The laws of the definitions: what follows from them, for all maps, paths, references, bytes, commands and records;
//! and worked rows, whose values were calculated by hand and which the definitions compute.
//!
//! Each function here is empty, and no other crate depends on this one. Its contract is what is proved.
#![tactic(auto)]

pub mod answers;
pub mod bytes;
pub mod changes;
pub mod commands;
pub mod coordinates;
pub mod laws;
pub mod margins;
pub mod receivers;
pub mod records;
pub mod runs;
