//! The ambiguities of a string: what a receiver may take for a line of its path.

use olr_model::{LineId, NodeId};

/// An ambiguity at a location reference point (LRP).
#[derive(Clone, Copy, PartialEq, Eq)]
pub enum Obstacle {
    /// Another line at its node with the same class, form and sector.
    SameSector(LineId),
    /// Another line at its node with a direction in the sector or its margin; or the path's own line, without one.
    OtherBearing(LineId),
    /// Another node with a candidate that a receiver may take.
    OtherNode(NodeId),
}

/// An ambiguity, and at which LRP it is, counted from 0.
#[derive(Clone, Copy, PartialEq, Eq)]
pub struct Found {
    /// The number of the LRP.
    pub lrp: usize,
    /// What is ambiguous there.
    pub obstacle: Obstacle,
}
