//! Paths, the margin with which they are encoded, their answers with the ambiguities of a string, and the coverage queries by
//! which an encoding was found: what the encoder takes and makes, and what commands and records speak of.
#![tactic(auto)]

mod ambiguity;
pub mod answer;
mod coverage_query;
mod margin;
mod path;

pub use ambiguity::{Found, Obstacle};
pub use answer::{Answer, Refusal};
pub use coverage_query::{CoverageQuery, KnownQuery};
pub use margin::Margin;
pub use path::{Path, PathFault};
