//! The road map: the read interface `MapRead`, whether a map accepts an edit, and edits that can be undone. What a map is made
//! of (`olr_model`) is exported under the same names.
#![tactic(auto)]

mod change;
mod history;
mod inline;
pub mod judging;
mod links;
mod number_table;
pub mod road_map;
mod slab;
mod slot_index;
mod slots;
mod tables;
pub mod undo;

pub use judging::{EditPlan, judge};
pub use olr_model::{
    Edit, EditFault, Footprint, Line, LineEnd, LineId, MapRead, NodeId, NodeLines, NumberHasher,
    Shape,
};
pub use road_map::RoadMap;
pub use tables::NodePlaces;
pub use undo::{Undo, UndoLog};
