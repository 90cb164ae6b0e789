//! Which paths depend on nodes.
ghost use Rattle.std.specs.List.{list_all};
ghost use Rattle.std.specs.Prelude.{◌≡◌};
ghost use Rattle.olr_map.specs.RoadMaps.{map_of};
ghost use Rattle.olr_spec.specs.Map.{has_node};

use crate::register::Register;
use olr_commands::{CommandFault, Reply};
use olr_map::{EditFault, MapRead, NodeId, RoadMap};
use olr_renewal::{ChangeSet, MapUpdate, affected_names};

/// Whether each of these nodes is on the map.
fn are_nodes(roads: &RoadMap, nodes: &[NodeId]) -> bool
    ensures { result ≡ list_all (has_node (map_of roads.now)) nodes.now }
{
    nodes.iter().all(|node| roads.node(*node).is_some())
}

impl Register {
    ghost use Rattle.olr_commands.specs.State.{Depends};
    ghost use Rattle.olr_register.specs.Answered.{Answered};

    /// The names of the paths whose answers an edit may change that touches one of these nodes, in order: those whose
    /// footprint holds one of the nodes, and those that name a line of the map which begins or ends at one. The search is
    /// that of an edit. Nothing changes, not even a count. The faults are `BatchOpen`, `NoNode` and `Memory`, in this order
    /// of precedence.
    #[inline(never)]
    pub fn depends(&mut self, nodes: &[NodeId]) -> Result<Reply, CommandFault>
        ensures { Answered self.old (Depends nodes.now) result self.new }
    {
        if self.batch.is_some() {
            return Err(CommandFault::BatchOpen);
        }
        if !are_nodes(&self.roads, nodes) {
            return Err(CommandFault::Map(EditFault::NoNode));
        }
        let around = ChangeSet::around(self.alloc, &self.roads, nodes)?;
        self.searches.bounds.settle(&self.roads);
        let update = MapUpdate {
            alloc: self.alloc,
            map: &self.roads,
            margin: self.margin,
            sets_margin: false,
            touched: &around,
        };
        let names = affected_names(&update, &self.paths, &mut self.searches)?;
        Ok(Reply::Names(names))
    }
}
