//! Distances within a limit. A Dijkstra search can be continued, begins at one node or at several, goes along the lines
//! or against them, and can be cut by distance bounds; by its labels it is tested whether a line extends the unique
//! shortest path. Maps are read through `MapRead`.
//!
//! The White Paper (version 1.5, revision 2) covers a location by shortest paths between its location reference points
//! (LRPs). That only a unique shortest path joins two LRPs is a choice of this project (profile).
#![tactic(auto)]

pub mod bounds;
pub mod distances;
mod frontier;
mod lengths;
mod queue;
mod resolved;
mod steps;
pub mod work;

pub use distances::{Dijkstra, Direction};
pub use frontier::{Frontier, GREATEST_LIMIT, LEG_LIMIT};
pub use resolved::{ResolvedLine, resolve_line};
pub use steps::{ends_from, lines_from};
pub use work::Work;
