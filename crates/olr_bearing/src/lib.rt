//! Bearings: coordinates along a line, the 32 sectors of the compass, and the sectors of a line's direction from its
//! start and back from its end. A bearing is the attribute BEAR of a location reference point (LRP), taken over
//! BEARDIST, which is 20 m of the line (OpenLR White Paper, version 1.5 rev 2). The calculation in whole numbers, with
//! boundaries of whole numbers and the cosine as a quotient of two, is this project's profile. All numbers fit 128
//! bits, and no call allocates.
#![tactic(auto)]

mod bearings;
mod margins;
pub mod places;
mod sectors;

pub use bearings::{Direction, bearing_back, bearing_out, direction_back, direction_out};
pub use margins::{is_beyond, is_direction};
pub use places::{Ends, Scaled, place};
pub use sectors::sector;
