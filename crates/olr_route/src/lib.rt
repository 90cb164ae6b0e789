//! Shortest paths within a limit, by the labels of a search from their start: whether a route is the shortest path or the
//! unique shortest path. The program doesn't use this crate, which also exports the names of `olr_search`.
//!
//! Which of equally long routes is the shortest path is a choice of this project (profile).
#![tactic(auto)]

mod labels;
mod routes;
mod shortest;

pub use labels::Labels;
pub use olr_search::{
    Dijkstra, Direction, GREATEST_LIMIT, LEG_LIMIT, ResolvedLine, Work, resolve_line,
};
pub use routes::{search, settled_search};
pub use shortest::{is_least, is_unique_shortest};
