//! The encoding of a path: extension of its ends to valid nodes, location reference points (LRPs), trim by the offsets,
//! fields.
#![tactic(auto)]

mod along;
mod choice;
mod chosen;
mod degree_two_runs;
mod encoding;
mod extension;
mod footprints;
mod lrp_fields;
mod nodes;
mod path_fault;
mod reach;
mod reference;
mod resolved;
mod reuse;
mod trim;

pub use along::{ResolvedPath, distances};
pub use chosen::{Choice, Chosen, Queries, points};
pub use encoding::{Encoding, encode, encode_again};
pub use extension::{Extended, extend};
pub use footprints::{refer, refer_with};
pub use nodes::passing;
pub use olr_answers::{Answer, CoverageQuery, KnownQuery, Margin, Path, PathFault, Refusal};
pub use olr_search::ResolvedLine;
pub use resolved::resolve;
pub use reuse::Reuse;
