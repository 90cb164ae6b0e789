//! Distance bounds, which cut the search from an edit, and the renewal of a list with them.
ghost use Rattle.std.specs.Prelude.{◌≡◌, ℕ, List, [], Contains, IfOk, OnOk, OnErr, IsFalse};
ghost use Rattle.olr_map.specs.RoadMaps.{map_of, slot_of, CanUndoAll, map_before};
ghost use Rattle.olr_paths.specs.Items.{Item, items};
ghost use Rattle.olr_paths.specs.Origins.{AreNewQueries};
ghost use Rattle.olr_renewal.specs.ChangeSets.{nodes_of, lines_of, changed_of};
ghost use Rattle.olr_paths.specs.Overlaid.{under_overlay};
ghost use Rattle.olr_renewal.specs.AffectedSearches.{AreBoundsOf};
ghost use Rattle.olr_renewal.specs.Bounds.{IsUnderWay, IsSource};
ghost use Rattle.olr_renewal.specs.Reencoded.{AreRenewed};
ghost use Rattle.olr_spec.specs.Map.{Map};
ghost use Rattle.olr_spec.specs.Queries.{CoverageQuery as QueryRecord};
ghost use Rattle.olr_map.specs.declared.road_map.RoadMap.{RoadMap as Roads};
ghost use Rattle.olr_register.specs.Contents.{AreTouched, HasBounds, CanUpdate};

use olr_map::{RoadMap, UndoLog};
use olr_paths::{Overlay, PathList};
use olr_refs::CoverageQuery;
use olr_renewal::{
    ChangeSet, DistanceBounds, MapUpdate, Renewed, Searches, renew_over, renewal_over,
};
use std::alloc::{AllocError, Global};

/// Makes the bounds right on the map after edits that touched these nodes. If an allocation fails, they are invalid, and
/// searches go as far as they may.
fn make_right_after(bounds: &mut DistanceBounds, roads: &RoadMap, touched: &ChangeSet)
    ensures { (is : List Item) → HasBounds roads.now (nodes_of touched.now) is bounds.old
        → AreBoundsOf (map_of roads.now) (slot_of roads.now) bounds.new is }
{
    bounds.reopen(touched.nodes());
    bounds.settle(roads);
}

/// Adds coverage queries, whose lines are followed when the bounds are settled. If an allocation fails, the bounds are
/// invalid.
fn add_sources(bounds: &mut DistanceBounds, queries: &[CoverageQuery])
    ensures under_way { (M : Map) (slot : ℕ → ℕ) (T : List ℕ) → IsUnderWay M slot T bounds.old → IsUnderWay M slot T bounds.new }
    ensures before { (s w : ℕ) → IsSource bounds.old s w → IsSource bounds.new s w }
    ensures sources { (l : QueryRecord) → Contains queries.now l → IsSource bounds.new l.from l.within }
{
    if !bounds.is_valid() {
        return;
    }
    for query in queries {
        bounds.add(query.from, query.within);
    }
}

/// Begins the bounds from scratch, with a source where each coverage query of the list begins. If an allocation fails,
/// they are invalid.
#[inline(never)]
fn bounds_from_scratch(alloc: Global, bounds: &mut DistanceBounds, paths: &PathList)
    ensures { (roads : Roads) (T : List ℕ) → HasBounds roads T (items paths.now) bounds.new }
{
    match paths.queries(alloc) {
        Ok(queries) => {
            bounds.clear();
            add_sources(bounds, &queries);
        }
        Err(_) => bounds.forget(),
    }
}

/// Adds sources to the bounds where new coverage queries of the list begin, or begins the bounds from scratch if they are
/// invalid, or if searches that found no path have cost more than that would. The next edit settles them.
pub(crate) fn renew_bounds(
    alloc: Global,
    bounds: &mut DistanceBounds,
    paths: &PathList,
    renewed: &Renewed,
)
    ensures { (roads : Roads) (T : List ℕ) (is : List Item) → HasBounds roads T is bounds.old
        → AreNewQueries renewed.now.queries.items is (items paths.now) → HasBounds roads T (items paths.now) bounds.new }
{
    add_sources(bounds, &renewed.queries);
    if bounds.add_wasted_labels(renewed.wasted_labels, paths.len()) {
        bounds_from_scratch(alloc, bounds, paths);
    }
}

/// Encodes the affected paths again after edits that led to the map, with the changes of an overlay, and adds their new
/// coverage queries to the bounds; if the margin was set, all paths, and the bounds begin from scratch. If an allocation
/// fails, the list is unchanged, and the bounds are invalid.
#[inline(never)]
pub(crate) fn renew(
    update: &MapUpdate<'_, RoadMap>,
    paths: &mut PathList,
    overlay: &Overlay,
    searches: &mut Searches,
) -> Result<Renewed, AllocError>
    requires { CanUpdate update.now searches.old.bounds (items paths.old) (under_overlay (items paths.old) overlay.now) }
    ensures renewed { IfOk result (AreRenewed map_of update.now (items paths.old)
        (under_overlay (items paths.old) overlay.now) (items paths.new)) }
    ensures bounded { OnOk result (HasBounds update.now.map.now [] (items paths.new) searches.new.bounds) }
    ensures err { OnErr result (items paths.new ≡ items paths.old) }
    ensures invalid { OnErr result (IsFalse searches.new.bounds.valid) }
{
    make_right_after(&mut searches.bounds, update.map, update.touched);
    match renew_over(paths, update, overlay, searches) {
        Ok(renewed) => {
            let bounds = &mut searches.bounds;
            if update.sets_margin {
                bounds_from_scratch(update.alloc, bounds, paths);
                return Ok(renewed);
            }
            renew_bounds(update.alloc, bounds, paths, &renewed);
            Ok(renewed)
        }
        Err(error) => {
            searches.bounds.forget();
            Err(error)
        }
    }
}

/// What `renew` would return; the list stays as it is.
pub(crate) fn preview(
    update: &MapUpdate<'_, RoadMap>,
    paths: &PathList,
    overlay: &Overlay,
    searches: &mut Searches,
) -> Result<Renewed, AllocError>
    requires { CanUpdate update.now searches.old.bounds (items paths.now) (under_overlay (items paths.now) overlay.now) }
    ensures renewed { IfOk result (λ r. (js : List Item) × AreRenewed map_of update.now (items paths.now)
        (under_overlay (items paths.now) overlay.now) js r) }
    ensures bounded { (T : List ℕ) (is : List Item)
        → HasBounds update.now.map.now (nodes_of update.now.touched.now) is searches.old.bounds
        → HasBounds update.now.map.now T is searches.new.bounds }
{
    make_right_after(&mut searches.bounds, update.map, update.touched);
    let new_results = renewal_over(paths, update, overlay, searches)?;
    Ok(new_results.renewal.renewed)
}

/// Undoes the edits of a log, which touched these nodes and lines, and reopens the nodes. The bounds are invalid after that
/// if an edit dropped a node, which may now be in another slot, or if an allocation fails.
pub(crate) fn undo_edits(
    roads: &mut RoadMap,
    bounds: &mut DistanceBounds,
    log: UndoLog,
    touched: &ChangeSet,
)
    requires undo { CanUndoAll roads.old log }
    requires edits { AreTouched (map_before roads.old log) (map_of roads.old) (nodes_of touched.now)
        (lines_of touched.now) (changed_of touched.now) }
    ensures map { map_of roads.new ≡ map_before roads.old log }
    ensures bounded { (is : List Item) → HasBounds roads.old (nodes_of touched.now) is bounds.old
        → HasBounds roads.new [] is bounds.new }
{
    let drops_nodes = log.drops_nodes();
    roads.undo_all(log);
    if drops_nodes {
        bounds.forget();
        return;
    }
    bounds.reopen(touched.nodes());
}
