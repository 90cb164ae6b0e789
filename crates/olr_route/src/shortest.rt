//! Whether a route is the shortest path, or the unique shortest path, to its end, by the labels of a search from its
//! start.
ghost use Rattle.std.specs.Prelude.{◌↔◌, ◌≤◌, ◌+◌, ℕ, List, [], ◌∷◌, ◌++◌, IsTrue};
ghost use Rattle.olr_spec.specs.Map.{start, end, dm};
ghost use Rattle.olr_spec.specs.Routes.{IsRoute, UniqueShortest, dm_of};
ghost use Rattle.olr_route.specs.Labels.{LeastWithin, AreLabels, limit_of};

use crate::labels::Labels;
use olr_model::{LineId, MapRead};
use olr_search::resolve_line;

/// Whether a line extends the shortest path to its start to the shortest path to its end, within the limit.
fn extends_least<M: MapRead>(map: &M, labels: &Labels, line: LineId) -> bool
    ensures { (s : ℕ) (route : List ℕ) → AreLabels (M.map map.now) (M.node_slot map.now) s labels.now
        → LeastWithin (M.map map.now) s (limit_of labels.now) (start (M.map map.now) line) route
        → (IsTrue result ↔ LeastWithin (M.map map.now) s (limit_of labels.now) (end (M.map map.now) line)
        (route ++ line ∷ [])) }
{
    match resolve_line(map, line) {
        None => false,
        Some(resolved) => labels.last_line(resolved.to) == Some(line),
    }
}

/// Whether a line extends the unique shortest path to its start to the unique shortest path to its end. Unspecified if
/// the extended path is longer than the limit.
#[tactic(auto, using(olr_search::proofs::RouteEnds::last_step))]
fn extends_unique<M: MapRead>(map: &M, labels: &Labels, line: LineId) -> bool
    ensures { (s : ℕ) (route : List ℕ) → AreLabels (M.map map.now) (M.node_slot map.now) s labels.now
        → UniqueShortest (M.map map.now) s (start (M.map map.now) line) route
        → dm_of (M.map map.now) route + dm (M.map map.now) line ≤ limit_of labels.now
        → (IsTrue result ↔ UniqueShortest (M.map map.now) s (end (M.map map.now) line) (route ++ line ∷ [])) }
{
    match resolve_line(map, line) {
        None => false,
        Some(resolved) => labels.search.extends_unique_shortest(map, resolved),
    }
}

/// Whether a route from the source of the labels is the shortest path to its end, and within their limit. Unspecified if
/// the lines are not such a route, or the labels are of another map.
pub fn is_least<M: MapRead>(map: &M, labels: &Labels, lines: &[LineId]) -> bool
    ensures { (s t : ℕ) → AreLabels (M.map map.now) (M.node_slot map.now) s labels.now
        → IsRoute (M.map map.now) s t lines.now
        → (IsTrue result ↔ LeastWithin (M.map map.now) s (limit_of labels.now) t lines.now) }
{
    lines.iter().all(|line| extends_least(map, labels, *line))
}

/// Whether a route from the source of the labels is the unique shortest path to its end, each other route being longer,
/// and within their limit. Unspecified if the lines are not such a route, or the labels are of another map.
#[tactic(auto, using(olr_spec::proofs::RouteLemmas::unique_least))]
pub fn is_unique_shortest<M: MapRead>(map: &M, labels: &Labels, lines: &[LineId]) -> bool
    ensures { (s t : ℕ) → AreLabels (M.map map.now) (M.node_slot map.now) s labels.now
        → IsRoute (M.map map.now) s t lines.now
        → (IsTrue result ↔ (UniqueShortest (M.map map.now) s t lines.now × (dm_of (M.map map.now) lines.now ≤ limit_of labels.now))) }
{
    is_least(map, labels, lines) && lines.iter().all(|line| extends_unique(map, labels, *line))
}
