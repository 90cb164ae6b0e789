//! Named paths in order, each with what is published of it, the index by which they are found, and changes over a list.
//! Nothing here encodes a path, or asks what an edit affects.
#![tactic(auto)]

mod entries;
mod finder;
mod index;
mod iter;
mod keys;
mod numbered;
mod overlaid_list;
pub mod overlay;
mod path_list;
mod positions;
mod published;
mod queries;
mod view;

pub use index::Index;
pub use iter::Iter;
pub use numbered::Numbered;
pub use overlaid_list::OverlaidList;
pub use overlay::Overlay;
pub use path_list::{NamedPath, PathList};
pub use positions::put_in;
pub use published::Published;
pub use queries::fresh_queries;
pub use view::PathView;
