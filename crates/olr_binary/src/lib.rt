//! Line location references in the binary physical format of OpenLR, version 3, and as base64 text: their fields
//! (`fields`), their bytes (`write`, `read`), their text (`text`), and the decoded coordinates of their location
//! reference points, LRPs (`places`). Encoding and decoding are inverse to each other, for bytes and for texts.
#![tactic(auto)]

mod bits;
pub mod faults;
mod fields;
mod places;
mod read;
pub mod text;
mod write;

pub use faults::{TextFault, V3Fault};
pub use fields::{Attrs, First, Last, Middle, Reference};
pub use places::decoded;
pub use read::read_v3;
pub use text::{from_text, to_text};
pub use write::write_v3;
