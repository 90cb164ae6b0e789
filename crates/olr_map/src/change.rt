//! Changes of the tables of a map. Each is undone by another change, so that the undo of an edit is a change as well.

use crate::links::EmptyLinks;
use olr_coords::Coord;
use olr_model::{Line, LineId, NodeId};

/// A change of the tables.
#[derive(Drop)]
pub enum TableChange {
    /// Inserts a node without lines, with the memory for the lines that leave it and that enter it.
    PutNode(NodeId, Coord, EmptyLinks, EmptyLinks),
    /// Moves a node to another coordinate.
    MoveNode(NodeId, Coord),
    /// Removes a node's entry.
    TakeNode(NodeId),
    /// Inserts a line, and its number into the lists of its ends.
    PutLine(LineId, Line),
    /// Replaces a line by another one with the same ends.
    SetLine(LineId, Line),
    /// Removes a line, and its number from the lists of its ends.
    TakeLine(LineId),
}
