//! The search for shortest paths within a limit.
ghost use Rattle.std.specs.Prelude.{◌≡◌, ◌≤◌, ◌↔◌, ◌⊎◌, ◌∷◌, [], ℕ, Contains, IsTrue, IfOk, OnOk, length};
ghost use Rattle.olr_spec.specs.Map.{has_node, has_line, end};
ghost use Rattle.olr_search.specs.Searches.{IsSearch, LiesWithin, limit_of as search_limit};
ghost use Rattle.olr_search.specs.declared.distances.Direction.TheVariants.{Along};
ghost use Rattle.olr_route.specs.Labels.{Counts, EndsRoute, IsFound, IsLast, after_search, AreLabels, limit_of};

use crate::labels::Labels;
use olr_model::{Footprint, LineId, MapRead, NodeId};
use olr_search::{Dijkstra, Direction, GREATEST_LIMIT, Work};
use std::alloc::{AllocError, Global};

/// A search from some nodes, each with a start value, settled to a limit. All in decimetres.
pub fn settled_search<M: MapRead>(
    alloc: Global,
    map: &M,
    direction: Direction,
    from: &[(NodeId, u32)],
    limit: u32,
) -> Result<Dijkstra, AllocError>
    requires { limit ≤ GREATEST_LIMIT }
    ensures search { IfOk result (λ search. IsSearch (M.map map.now) (M.node_slot map.now) direction from.now search) }
    ensures limit { IfOk result (λ search. search_limit search ≡ limit) }
{
    let mut search = Dijkstra::new(alloc);
    search.begin(map, direction, from)?;
    search.settle_to(map, limit)?;
    Ok(search)
}

/// Whether a line ends a shortest route of this length to a node that it enters.
fn ends_route<M: MapRead>(map: &M, settled: &Dijkstra, line: LineId, length: u32) -> bool
    ensures { (s v : ℕ) → IsFound (M.map map.now) (M.node_slot map.now) s settled.now v length
        → IsTrue (has_line (M.map map.now) line) → end (M.map map.now) line ≡ v
        → (IsTrue result ↔ EndsRoute (M.map map.now) s v length line) }
{
    let Some(record) = map.line(line) else {
        return false;
    };
    record.len <= length && settled.dist(map, record.from) == Some(length - record.len)
}

/// The least number of a line that ends a shortest route to a node, which has this length. None if there is no such line.
fn last_line<M: MapRead>(map: &M, settled: &Dijkstra, node: NodeId, length: u32) -> Option<LineId>
    ensures { (s : ℕ) → IsFound (M.map map.now) (M.node_slot map.now) s settled.now node length
        → IsLast (M.map map.now) s node length result }
{
    for line in map.in_lines(node) {
        if ends_route(map, settled, *line, length) {
            return Some(*line);
        }
    }
    None
}

/// The labels of a settled search.
fn labels_of<M: MapRead>(alloc: Global, map: &M, settled: Dijkstra) -> Result<Labels, AllocError>
    requires { (s : ℕ) × IsSearch (M.map map.now) (M.node_slot map.now) Along ((s, 0) ∷ []) settled }
    ensures labels { IfOk result (λ labels. (s : ℕ)
        → IsSearch (M.map map.now) (M.node_slot map.now) Along ((s, 0) ∷ []) settled
        → AreLabels (M.map map.now) (M.node_slot map.now) s labels) }
    ensures limit { IfOk result (λ labels. limit_of labels ≡ search_limit settled) }
{
    let nodes = settled.nodes(alloc, map)?;
    let mut labels = Vec::with_capacity(alloc, nodes.len())?;
    for node in &nodes {
        let dist = settled.dist(map, *node).unwrap();
        labels.push((dist, last_line(map, &settled, *node, dist)))?;
    }
    Ok(Labels {
        search: settled,
        nodes,
        labels,
    })
}

/// Labels the nodes that a route of at most `limit_dm` decimetres from the source reaches, each with the length and the
/// last line of the shortest path there. Of equally long routes the shortest path is the one with the smaller line
/// number at the first difference, counted from the end (profile). Adds the labelled nodes to the footprint, and to the
/// work one search and as many settled nodes as there are labels. If an allocation fails, footprint and work may hold
/// more than before.
pub fn search<M: MapRead>(
    alloc: Global,
    map: &M,
    source: NodeId,
    limit_dm: u32,
    footprint: &mut Footprint,
    work: &mut Work,
) -> Result<Labels, AllocError>
    requires source { IsTrue (has_node (M.map map.now) source) }
    requires limit { limit_dm ≤ GREATEST_LIMIT }
    ensures labels { IfOk result (λ labels. AreLabels (M.map map.now) (M.node_slot map.now) source labels) }
    ensures limit { IfOk result (λ labels. limit_of labels ≡ limit_dm) }
    ensures footprint { OnOk result ((v : ℕ) → (Contains footprint.new v)
        ↔ ((Contains footprint.old v) ⊎ (LiesWithin (M.map map.now) Along ((source, 0) ∷ []) limit_dm v))) }
    ensures work { OnOk result ((n : ℕ) × Counts (M.map map.now) Along ((source, 0) ∷ []) limit_dm n
        × (work.new ≡ after_search work.old n) × (n ≤ length footprint.new)) }
    ensures grows { OnOk result (length footprint.old ≤ length footprint.new) }
{
    let search = settled_search(alloc, map, Direction::Along, &[(source, 0)], limit_dm)?;
    let labels = labels_of(alloc, map, search)?;
    footprint.note_all(&labels.nodes)?;
    work.searches = work.searches.saturating_add(1);
    work.settled = work.settled.saturating_add(labels.nodes.len() as u64);
    Ok(labels)
}
