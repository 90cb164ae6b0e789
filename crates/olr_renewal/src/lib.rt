//! The renewal of a list of paths: what edits touched, the distance bounds, which paths the edits may affect, and which
//! of these retain their answer. New and affected paths are encoded, and those whose answer changed are reported.
#![tactic(auto)]

mod actions;
mod add_and_set;
mod affected;
mod around;
mod candidates;
pub mod change_set;
mod detours;
pub mod distance_bounds;
mod encoding;
mod naming;
mod reencode;
mod renewal;
mod searches;
mod sources;
mod update;

pub use add_and_set::{add, set};
pub use change_set::ChangeSet;
pub use detours::Detours;
pub use distance_bounds::DistanceBounds;
pub use naming::affected_names;
pub use reencode::{NewResults, is_unaffected, renew_over, renewal_over};
pub use renewal::{Renewal, Renewed};
pub use searches::Searches;
pub use update::MapUpdate;
