//! What edits around some nodes may touch.

use crate::change_set::ChangeSet;
use olr_model::{MapRead, NodeId};
use std::alloc::{AllocError, Global};

impl ChangeSet {
    ghost use Rattle.std.specs.Prelude.{IfOk};
    ghost use Rattle.olr_renewal.specs.ChangeSets.{IsAround};

    /// What edits around these nodes may touch: the nodes, and the lines of the map that begin or end at one of them. No
    /// line is changed.
    pub fn around<M: MapRead>(
        alloc: Global,
        map: &M,
        nodes: &[NodeId],
    ) -> Result<ChangeSet, AllocError>
        ensures { IfOk result (IsAround (M.map map.now) nodes.now) }
    {
        let mut own = Vec::from_slice(alloc, nodes)?;
        own.sort_unstable();
        own.dedup();
        let mut lines = Vec::new(alloc);
        for node in &own {
            lines.extend_from_slice(map.in_lines(*node))?;
            lines.extend_from_slice(map.out_lines(*node))?;
        }
        lines.sort_unstable();
        lines.dedup();
        Ok(ChangeSet {
            nodes: own,
            lines,
            changed: Vec::new(alloc),
        })
    }
}
