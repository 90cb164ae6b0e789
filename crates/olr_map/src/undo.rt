//! Undo records: of one edit, and of a list of edits.
ghost use Rattle.std.specs.Prelude.{◌≡◌, ◌≤◌, reverse, vec_len};
ghost use Rattle.olr_map.specs.Changes.{all_node_puts, all_line_puts};

use crate::change::TableChange;
use std::alloc::{AllocError, Global};

/// The undo record of one edit. It must be passed to `undo` or to `keep`.
pub struct Undo {
    pub(crate) change: TableChange,
}

/// The undo records of a list of edits, applied from the last one to the first. Only the log has what the edits removed
/// from the map. If a log is dropped, this is freed, and the map stays as it is.
#[derive(Drop)]
pub struct UndoLog {
    pub(crate) changes: Vec<TableChange>,
    pub(crate) nodes: usize,
    pub(crate) lines: usize,
    ghost nodes_counted: { nodes ≡ all_node_puts (reverse changes.items) },
    ghost lines_counted: { lines ≡ all_line_puts (reverse changes.items) },
    ghost nodes_few: { nodes ≤ vec_len changes },
    ghost lines_few: { lines ≤ vec_len changes },
}

impl UndoLog {
    ghost use Rattle.std.specs.Prelude.{◌<◌, ◌+◌, ◌∷◌, ◌↔◌, [], OnOk, IsTrue};
    ghost use Rattle.std.specs.Vec.{vec_capacity};
    ghost use Rattle.olr_map.specs.Changes.{node_puts, line_puts};
    ghost use Rattle.olr_map.specs.RoadMaps.{log_changes, dropped_nodes};

    /// A log of no edits. Does not allocate.
    pub fn new(alloc: Global) -> UndoLog
        ensures { log_changes result ≡ [] }
    {
        UndoLog {
            changes: Vec::new(alloc),
            nodes: 0,
            lines: 0,
        }
    }

    /// Whether an edit of the log dropped a node.
    pub fn drops_nodes(&self) -> bool
        ensures { IsTrue result ↔ 0 < dropped_nodes self.now }
    {
        self.nodes > 0
    }

    /// Reserves capacity for one more change.
    pub(crate) fn reserve(&mut self) -> Result<(), AllocError>
        ensures same { log_changes self.new ≡ log_changes self.old }
        ensures nodes { self.new.nodes ≡ self.old.nodes }
        ensures lines { self.new.lines ≡ self.old.lines }
        ensures room { OnOk result (vec_len self.new.changes < vec_capacity self.new.changes) }
    {
        self.changes.reserve(1)
    }

    /// Appends the change that undoes one more edit. Capacity for it is reserved.
    pub(crate) fn push(&mut self, change: TableChange)
        requires { vec_len self.old.changes < vec_capacity self.old.changes }
        ensures more { log_changes self.new ≡ change ∷ log_changes self.old }
        ensures nodes { self.new.nodes ≡ node_puts change + self.old.nodes }
        ensures lines { self.new.lines ≡ line_puts change + self.old.lines }
    {
        let nodes = matches!(change, TableChange::PutNode(..));
        let lines = matches!(change, TableChange::PutLine(..));
        self.changes.push_reserved(change);
        self.nodes += usize::from(nodes);
        self.lines += usize::from(lines);
    }
}
