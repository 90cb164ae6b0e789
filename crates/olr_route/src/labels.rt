//! The labels of a search.
ghost use Rattle.std.specs.Prelude.{◌≡◌, length};

use olr_model::{LineId, NodeId};
use olr_search::Dijkstra;

/// The length of the shortest path to a node, and its last line.
pub type Label = (u32, Option<LineId>);

/// The labels of a search: for each node that a route from the source within the limit reaches, the length and the last
/// line of the shortest path there.
#[derive(Drop)]
pub struct Labels {
    pub(crate) search: Dijkstra,
    /// The nodes within the limit, in ascending order.
    pub(crate) nodes: Vec<NodeId>,
    /// The label of each node, in the order of `nodes`.
    pub(crate) labels: Vec<Label>,
    ghost beside: { length labels.items ≡ length nodes.items },
}

impl Labels {
    ghost use Rattle.std.specs.Prelude.{◌↔◌, ◌≤◌, ℕ, ◌∷◌, [], ◌++◌, List, Some, MatchOption};
    ghost use Rattle.olr_spec.specs.Map.{Map};
    ghost use Rattle.olr_search.specs.Distances.{IsDistance};
    ghost use Rattle.olr_search.specs.Searches.{LiesWithin};
    ghost use Rattle.olr_search.specs.declared.distances.Direction.TheVariants.{Along};
    ghost use Rattle.olr_route.specs.Labels.{LeastWithin, IsLabel, AreLabels, limit_of};

    /// The label of a node.
    fn label(&self, node: NodeId) -> Option<Label>
        ensures { (M : Map) (slot : ℕ → ℕ) (s : ℕ) → AreLabels M slot s self.now
            → MatchOption result (¬ LiesWithin M Along ((s, 0) ∷ []) (limit_of self.now) node)
            (λ k. IsLabel M s (limit_of self.now) node k) }
    {
        match self.nodes.binary_search(&node) {
            Ok(at) => Some(self.labels[at]),
            Err(_) => None,
        }
    }

    /// The length of the shortest path to a node, in decimetres. None if no route within the limit reaches it.
    pub fn dist(&self, node: NodeId) -> Option<u32>
        ensures { (M : Map) (slot : ℕ → ℕ) (s d : ℕ) → AreLabels M slot s self.now
            → ((result ≡ Some d) ↔ (IsDistance M Along ((s, 0) ∷ []) node d × (d ≤ limit_of self.now))) }
    {
        let (dist, _) = self.label(node)?;
        Some(dist)
    }

    /// The last line of the shortest path to a node. None at the source, and if no route within the limit reaches the
    /// node.
    pub fn last_line(&self, node: NodeId) -> Option<LineId>
        ensures { (M : Map) (slot : ℕ → ℕ) (s x : ℕ) → AreLabels M slot s self.now → ((result ≡ Some x)
            ↔ ((front : List ℕ) × LeastWithin M s (limit_of self.now) node (front ++ x ∷ []))) }
    {
        let (_, line) = self.label(node)?;
        line
    }
}
