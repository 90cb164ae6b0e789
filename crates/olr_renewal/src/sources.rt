//! Where the searches of a renewal begin.
ghost use Rattle.std.specs.Prelude.{◌≡◌, ℕ, map as list_map, OnOk};
ghost use Rattle.olr_search.specs.Searches.{IsSearch};
ghost use Rattle.olr_search.specs.declared.distances.Direction.{Direction};
ghost use Rattle.olr_renewal.specs.AffectedSearches.{source_in};
ghost use Rattle.olr_renewal.specs.ChangeSets.{change_of};

use crate::change_set::ChangedLine;
use olr_model::{MapRead, NodeId};
use olr_search::{Dijkstra, Direction};
use std::alloc::{AllocError, Global};

/// What a search can begin at.
pub(crate) trait Source {
    /// The node where a search in a direction begins, and its start value in decimetres.
    ghost source_of: { Direction → Self → ℕ × ℕ };

    /// The node where a search in a direction begins, and its start value in decimetres.
    fn source(&self, direction: Direction) -> (NodeId, u32)
        ensures { result ≡ source_of direction self.now };
}

impl Source for NodeId {
    ghost source_of = { λ direction v. (v, 0) };

    fn source(&self, _: Direction) -> (NodeId, u32) {
        (*self, 0)
    }
}

/// Against the lines a search begins where the changed line begins, with its length; along them, where it ends.
impl Source for ChangedLine {
    ghost source_of = { λ direction c. source_in direction (change_of c) };

    fn source(&self, direction: Direction) -> (NodeId, u32) {
        match direction {
            Direction::Along => (self.to, 0),
            Direction::Against => (self.from, self.len),
        }
    }
}

/// Begins a search at all of these.
pub(crate) fn begin_at<M: MapRead, T: Source>(
    alloc: Global,
    map: &M,
    direction: Direction,
    items: &[T],
    search: &mut Dijkstra,
) -> Result<(), AllocError>
    ensures { OnOk result (IsSearch (M.map map.now) (M.node_slot map.now) direction
        (list_map (T.source_of direction) items.now) search.new) }
{
    let mut sources = Vec::with_capacity(alloc, items.len())?;
    for item in items {
        sources.push(item.source(direction))?;
    }
    search.begin(map, direction, &sources)
}
