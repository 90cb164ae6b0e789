//! Finds the ambiguities of a string: at each location reference point (LRP) other lines
//! at its node that a receiver may take for the path's own, and other nodes near the decoded coordinate. The tests are
//! by the decoded coordinates themselves. Nodes are found by a grid, which is made once for all strings of a map, or of
//! the nodes near one string.
#![tactic(auto)]

mod finding;
mod grid;
mod measures;
mod near;
mod own_line;
mod rivals;

pub use finding::{obstacles, obstacles_near};
pub use grid::Grid;
pub use own_line::Side;
