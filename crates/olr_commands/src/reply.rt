//! Replies to accepted commands.

use olr_answers::{Found, Refusal};
use olr_binary::Reference;

/// A path's string, or the reason why it has none.
#[derive(Drop)]
pub struct Entry {
    /// The path's name.
    pub name: String,
    /// The base64 text of its reference, or the reason why the path is not encodable.
    pub published: Result<String, Refusal>,
}

/// Records as text. Those of a whole register: its margin if it has one, its nodes and its lines in ascending order of
/// their numbers, and its paths in their order.
#[derive(Drop)]
pub struct Dump {
    /// The number of records.
    pub count: usize,
    /// The records, one on each line.
    pub text: Vec<u8>,
}

/// An ambiguity of a path's string.
#[derive(Drop)]
pub struct NamedObstacle {
    /// The path's name.
    pub name: String,
    /// The ambiguity, and at which LRP.
    pub found: Found,
}

/// The reply to an accepted command.
#[derive(Drop)]
pub enum Reply {
    /// Paths in the order of the register; after a change, the new ones and those whose answer changed.
    Paths(Vec<Entry>),
    /// The fields of a reference.
    Fields(Reference),
    /// The number of changes in the open batch, this one included.
    Held(u32),
    /// The records that build the register from an empty one.
    Dump(Dump),
    /// The record of a node; or the records of a line's nodes, each once, and of the line; or that of the margin.
    Records(Dump),
    /// The names of paths, in the order of the register.
    Names(Vec<String>),
    /// The ambiguities of strings, path by path in the order of the register.
    Obstacles(Vec<NamedObstacle>),
}
