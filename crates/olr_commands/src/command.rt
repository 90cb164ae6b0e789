//! Commands to a register of named paths.

use olr_answers::Margin;
use olr_model::{Edit, LineId, NodeId};

/// A command. In records a name has 1 to 64 bytes; here it may be any text.
#[derive(Drop)]
pub enum Command {
    /// An edit of the map.
    Edit(Edit),
    /// Adds a path under an unused name: its lines, and its positive and negative offset in decimetres.
    AddPath(String, Vec<LineId>, u32, u32),
    /// Replaces the lines and offsets of a path, which keeps its position.
    SetPath(String, Vec<LineId>, u32, u32),
    /// Removes a path.
    DropPath(String),
    /// Sets the margin with which all paths are encoded.
    SetMargin(Margin),
    /// Asks for one path's answer.
    Show(String),
    /// Asks for the record of a node.
    ShowNode(NodeId),
    /// Asks for the record of a line, after the records of the nodes where it begins and ends.
    ShowLine(LineId),
    /// Asks for the record that sets the margin.
    ShowMargin,
    /// Asks for the names of the paths whose answers an edit may change that touches one of these nodes.
    Depends(Vec<NodeId>),
    /// Asks for the answer of every path.
    Report,
    /// Asks for the records that build the register from an empty one.
    Dump,
    /// Asks that a log be replaced by a dump. A register has no log: nothing changes.
    Compact,
    /// Asks for the ambiguities of strings: those of one path, or of all.
    Ambiguous(Option<String>),
    /// Asks for the fields of a reference, given as base64 text.
    Explain(Vec<u8>),
    /// Opens a batch, which holds the commands that follow.
    Begin,
    /// Asks for the reply that a commit of all held commands would have.
    Preview,
    /// Accepts all held commands at once, if their number is this one.
    Commit(u32),
    /// Drops all held commands.
    Abort,
}
