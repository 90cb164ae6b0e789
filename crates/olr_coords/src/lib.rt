//! Coordinates in whole units of 1/327,680,000,000 degree: degrees as text, and the 24-bit and 16-bit values of the
//! binary format. 10^-7 degree is 32,768 units, 10^-5 degree 3,276,800, and a 24-bit step 7,031,250, so all of them,
//! and half of each, are whole. Only `push_degrees` allocates.
#![tactic(auto)]

mod coord;
mod degrees;
mod digits;
mod steps;
mod text;

pub use coord::Coord;
pub use degrees::{CoordFault, read_degrees};
pub use digits::read_digits;
pub use steps::{abs24, from_abs24, from_rel16, rel16};
pub use text::{has_degrees_text, push_degrees};
