//! The searches of a renewal, and which paths the edits of the map affect.
ghost use Rattle.std.specs.Prelude.{◌≡◌, ◌↔◌, ◌⊎◌, ℕ, min, Contains, IsTrue, IfOk, OnOk};
ghost use Rattle.std.specs.List.{list_any};
ghost use Rattle.olr_spec.specs.Map.{has};
ghost use Rattle.olr_spec.specs.Detours.{Near};
ghost use Rattle.olr_paths.specs.Items.{results_of, items};
ghost use Rattle.olr_paths.specs.Views.{shown_items};
ghost use Rattle.olr_paths.specs.Changes.{LineTouched, QueryTouched, TraversedTouched};
ghost use Rattle.olr_paths.specs.Origins as origins;
ghost use Rattle.olr_paths.specs.Origins.{Begins, LackQueries};
ghost use Rattle.olr_renewal.specs.ChangeSets.{nodes_of, lines_of};
ghost use Rattle.olr_renewal.specs.Updates.{CanSearch, Searched, FindsCandidates};

use crate::candidates::positions;
use crate::change_set::ChangeSet;
use crate::distance_bounds::DistanceBounds;
use crate::sources::begin_at;
use crate::update::MapUpdate;
use olr_answers::{CoverageQuery, Margin, Path};
use olr_model::{Footprint, LineId, MapRead};
use olr_paths::{OverlaidList, PathList, Published};
use olr_search::{Dijkstra, Direction, GREATEST_LIMIT, LEG_LIMIT};
use std::alloc::AllocError;

/// The greatest length of a coverage query with a margin, in decimetres.
fn farthest(margin: Margin) -> u32
    ensures { result ≡ origins.farthest margin }
{
    if margin.routes() == 0 {
        return LEG_LIMIT;
    }
    2 * LEG_LIMIT
}

/// Whether it is known that no path of a list has a coverage query.
#[tactic(auto, using(olr_paths::proofs::NotedPositions::lack_by))]
fn lacks_queries(list: &PathList) -> bool
    ensures { IsTrue result → LackQueries (items list.now) }
{
    list.finder.indexed && list.finder.by_query_origin.is_empty()
}

/// Whether it is known that no path has a coverage query: then no touched node can be near to one.
#[tactic(auto, using(crate::proofs::Covering::lack_overlaid))]
fn is_without_queries(overlaid: OverlaidList<'_>) -> bool
    ensures { IsTrue result → LackQueries (shown_items overlaid.entry) }
{
    lacks_queries(overlaid.list) && lacks_queries(&overlaid.overlay.added)
}

/// Searches against the lines from the touched nodes, as far as the distance bounds let it or, if they are invalid, the
/// length of coverage queries with the margin; from none of the nodes, if no coverage query can reach one: the bounds show
/// so, or no path has a query.
fn search_touched<M: MapRead>(
    update: &MapUpdate<'_, M>,
    overlaid: OverlaidList<'_>,
    bounds: &DistanceBounds,
    near: &mut Dijkstra,
) -> Result<(), AllocError>
    requires { CanSearch M.map M.node_slot update.now bounds.now (shown_items overlaid) }
    ensures { OnOk result (Searched M.map M.node_slot update.now near.new (Begins (shown_items overlaid.entry))) }
{
    let (map, nodes) = (update.map, update.touched.nodes());
    if bounds.are_unbounded(map, nodes) || is_without_queries(overlaid) {
        near.begin(map, Direction::Against, &[])?;
        return Ok(());
    }
    begin_at(update.alloc, map, Direction::Against, nodes, near)?;
    if bounds.is_valid() {
        near.settle_under(map, &bounds.bounds)?;
        return Ok(());
    }
    near.settle_to(map, farthest(update.margin))?;
    Ok(())
}

/// Searches from the touched nodes, and finds the paths that the edits may affect. Without paths, nothing is searched.
pub(crate) fn find_candidates<M: MapRead>(
    update: &MapUpdate<'_, M>,
    overlaid: OverlaidList<'_>,
    bounds: &DistanceBounds,
    near: &mut Dijkstra,
) -> Result<Vec<usize>, AllocError>
    requires { CanSearch M.map M.node_slot update.now bounds.now (shown_items overlaid) }
    ensures { IfOk result (λ found. FindsCandidates M.map M.node_slot update.now near.new (shown_items overlaid.entry)
        found.items) }
{
    if overlaid.at(0).is_none() {
        return Ok(Vec::new(update.alloc));
    }
    search_touched(update, overlaid, bounds, near)?;
    let positions = positions(update, overlaid, near)?;
    Ok(positions)
}

/// Whether a coverage query reaches a touched node, within its length and the greatest limit.
fn is_near<M: MapRead>(update: &MapUpdate<'_, M>, near: &Dijkstra, query: CoverageQuery) -> bool
    requires { Searched M.map M.node_slot update.now near.now (λ l. l ≡ query) }
    ensures { IsTrue result
        ↔ Near (M.map update.now.map.now) (nodes_of update.now.touched.now) query.from (min query.within GREATEST_LIMIT) }
{
    match update.map.slot_of(query.from) {
        Some(slot) => near.is_within(slot, query.within.min(GREATEST_LIMIT)),
        None => update.touched.has_node(query.from),
    }
}

/// Whether one of the traversed nodes was touched: each node of the shorter list is looked up.
#[tactic(auto, using(olr_spec::proofs::SameNumbers::has_from, olr_spec::proofs::SameNumbers::in_from))]
fn is_traversed_touched(touched: &ChangeSet, traversed: &Footprint) -> bool
    ensures { IsTrue result ↔ ((v : ℕ) × IsTrue (has (nodes_of touched.now) v) × Contains traversed.now v) }
{
    let nodes = traversed.as_slice();
    if touched.nodes.len() < nodes.len() {
        return touched.nodes.iter().any(|node| traversed.has(*node));
    }
    nodes.iter().any(|node| touched.has_node(*node))
}

/// Whether one of the lines was touched: each is tested. An edit outside a batch touches at most one line.
fn is_line_touched(touched: &ChangeSet, lines: &[LineId]) -> bool
    ensures { result ≡ list_any (λ x. has (lines_of touched.now) x) lines.now }
{
    if let [only] = touched.lines.as_slice() {
        return lines.contains(only);
    }
    lines.iter().any(|line| touched.has_line(*line))
}

/// Whether one of a path's traversed nodes or of its lines was touched.
pub(crate) fn is_path_touched(touched: &ChangeSet, path: &Path, published: &Published) -> bool
    ensures { IsTrue result ↔ TraversedTouched (nodes_of touched.now) (results_of published.now)
        ⊎ LineTouched (lines_of touched.now) path.now }
{
    is_traversed_touched(touched, published.traversed()) || is_line_touched(touched, path.lines())
}

/// Whether one of a path's coverage queries, as they were on the map before the edits, reaches a touched node.
pub(crate) fn is_query_touched<M: MapRead>(
    update: &MapUpdate<'_, M>,
    near: &Dijkstra,
    queries: &[CoverageQuery],
) -> bool
    requires { Searched M.map M.node_slot update.now near.now (Contains queries.now) }
    ensures { IsTrue result
        ↔ QueryTouched (M.map update.now.map.now) (nodes_of update.now.touched.now) queries.now }
{
    for query in queries {
        if is_near(update, near, *query) {
            return true;
        }
    }
    false
}
