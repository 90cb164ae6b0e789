//! What a renewal works on.

use crate::change_set::ChangeSet;
use olr_refs::Margin;
use std::alloc::Global;

/// The map and the margin after changes, and what these touched.
#[derive(Clone, Copy)]
pub struct MapUpdate<'a, M> {
    /// Where a renewal takes its memory.
    pub alloc: Global,
    /// The map after the edits.
    pub map: &'a M,
    /// The margin with which paths are encoded.
    pub margin: Margin,
    /// Whether the margin was set: then each path is encoded again.
    pub sets_margin: bool,
    /// What the edits touched.
    pub touched: &'a ChangeSet,
}
