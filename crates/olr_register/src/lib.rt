//! The register: a road map and named paths, whose published answers are right after every command.
#![tactic(auto)]

mod ambiguities;
mod apply;
mod batch;
mod batch_commands;
mod bounds;
mod building;
mod change;
mod dependents;
mod dumps;
mod edits;
mod footprints;
mod margins;
mod paths;
mod questions;
mod records;
mod register;

pub use apply::replay;
pub use building::Building;
pub use olr_paths::{Iter, Published};
pub use register::Register;
