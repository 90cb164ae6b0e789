//! The searches of a list's renewals.

use crate::detours::Detours;
use crate::distance_bounds::DistanceBounds;
use olr_search::Dijkstra;
use std::alloc::Global;

/// Distance bounds for the coverage queries of a list, and searches that are restarted for each renewal, so that their
/// tables are allocated once.
#[derive(Drop)]
pub struct Searches {
    /// The bounds, which limit the search from touched nodes.
    pub bounds: DistanceBounds,
    /// The reverse search from touched nodes.
    pub near: Dijkstra,
    /// The searches from changed lines.
    pub detours: Detours,
    /// The search of the encoder.
    pub query: Dijkstra,
}

impl Searches {
    ghost use Rattle.std.specs.Prelude.{ℕ, List};
    ghost use Rattle.olr_spec.specs.Map.{Map};
    ghost use Rattle.olr_renewal.specs.Bounds.{IsUnderWay};

    /// No bounds, and searches that have not begun. Takes no memory.
    pub fn new(alloc: Global) -> Searches
        ensures { (M : Map) (s : ℕ → ℕ) (T : List ℕ) → IsUnderWay M s T result.bounds }
    {
        Searches {
            bounds: DistanceBounds::new(alloc),
            near: Dijkstra::new(alloc),
            detours: Detours {
                before: Dijkstra::new(alloc),
                after: Dijkstra::new(alloc),
            },
            query: Dijkstra::new(alloc),
        }
    }
}
