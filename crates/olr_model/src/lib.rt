//! Roads, however a map stores them: node and line numbers, lines with their shapes, the read interface `MapRead`, sets of
//! nodes, and edits with their faults.
#![tactic(auto)]

mod edit;
mod footprint;
mod ids;
mod line;
mod number_hash;
mod read;

pub use edit::{Edit, EditFault};
pub use footprint::Footprint;
pub use ids::{LineId, NodeId};
pub use line::{Line, Shape, has_good_fields};
pub use number_hash::NumberHasher;
pub use read::{LineEnd, MapRead, NodeLines};
