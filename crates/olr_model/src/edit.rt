//! Edits of a map, and the faults for which an edit is rejected.

use crate::ids::{LineId, NodeId};
use crate::line::{Line, Shape};
use olr_coords::Coord;
use thiserror::Error;

/// An edit of a map.
#[derive(Drop)]
pub enum Edit {
    /// Adds a node at a coordinate.
    AddNode(NodeId, Coord),
    /// Moves a node to another coordinate.
    MoveNode(NodeId, Coord),
    /// Removes a node that no line uses.
    DropNode(NodeId),
    /// Adds a line between two nodes of the map.
    AddLine(LineId, Line),
    /// Sets the classes, the length (in decimetres) and the shape of a line. Its ends do not change.
    SetLine {
        id: LineId,
        frc: u8,
        fow: u8,
        len: u32,
        shape: Vec<Shape>,
    },
    /// Removes a line.
    DropLine(LineId),
}

/// Why an edit is rejected. The map is then unchanged.
#[derive(Clone, Copy, Debug, PartialEq, Eq, Error)]
pub enum EditFault {
    /// The new node is on the map already.
    #[error("NodeExists")]
    NodeExists,
    /// The node, or an end of the new line, is not on the map.
    #[error("NoNode")]
    NoNode,
    /// The new line is on the map already.
    #[error("LineExists")]
    LineExists,
    /// The line is not on the map.
    #[error("NoLine")]
    NoLine,
    /// A line enters or leaves the node.
    #[error("NodeInUse")]
    NodeInUse,
    /// The line would not be good.
    #[error("BadShape")]
    BadShape,
    /// Out of memory: an allocation for the edit failed.
    #[error("Memory")]
    Memory,
}
