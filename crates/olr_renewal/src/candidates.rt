//! Which paths the edits may affect: found by what they touched, without a pass over all paths.
ghost use Rattle.std.specs.Prelude.{◌≡◌, ◌<◌, ◌≤◌, ℕ, [], Some, All, Contains, length, get_or, IsTrue, IsFalse, IfOk, OnOk};
ghost use Rattle.std.specs.List.Sorted.{IsStrictlyIncreasing};
ghost use Rattle.olr_spec.specs.Map.{has, has_node};
ghost use Rattle.olr_paths.specs.PathIds.{path_ids_of};
ghost use Rattle.olr_paths.specs.Items.{items};
ghost use Rattle.olr_paths.specs.Overlaid.{overlay_changes};
ghost use Rattle.olr_paths.specs.Origins.{Begins};
ghost use Rattle.olr_paths.specs.Views.{shown_items};
ghost use Rattle.olr_renewal.specs.ChangeSets.{nodes_of, lines_of};
ghost use Rattle.olr_renewal.specs.Candidates.{Includes, Finds, Covers, CoversSearched, FindsChanged};
ghost use Rattle.olr_renewal.specs.Updates.{Searched};

use crate::change_set::ChangeSet;
use crate::distance_bounds::DistanceBounds;
use crate::update::MapUpdate;
use olr_model::MapRead;
use olr_paths::{Index, Numbered, OverlaidList, PathList};
use olr_search::Dijkstra;
use std::alloc::AllocError;

/// The position of the path with this id, by binary search.
fn position_of(path_ids: &[u64], path_id: u64) -> Option<usize>
    requires { IsStrictlyIncreasing path_ids.now }
    ensures { (k : ℕ) → k < length path_ids.now → get_or path_ids.now k 0 ≡ path_id → result ≡ Some k }
{
    path_ids.binary_search(&path_id).ok()
}

/// Appends the positions of the paths with these ids.
fn put_positions(path_ids: &[u64], of: &[u64], found: &mut Vec<usize>) -> Result<(), AllocError>
    requires { IsStrictlyIncreasing path_ids.now }
    ensures grows { OnOk result (Includes found.old.items found.new.items) }
    ensures put { OnOk result ((k : ℕ) → k < length path_ids.now → IsTrue (has of.now (get_or path_ids.now k 0))
        → IsTrue (has found.new.items k)) }
{
    for path_id in of {
        if let Some(position) = position_of(path_ids, *path_id) {
            found.push(position)?;
        }
    }
    Ok(())
}

/// Appends the positions of the paths that have an index entry for one of these.
fn put_found<T: Numbered>(
    path_ids: &[u64],
    index: &Index,
    items: &[T],
    found: &mut Vec<usize>,
) -> Result<(), AllocError>
    requires { IsStrictlyIncreasing path_ids.now }
    ensures grows { OnOk result (Includes found.old.items found.new.items) }
    ensures put { OnOk result
        (All (λ x. Finds path_ids.now index.now (T.number_of x) found.new.items) items.now) }
{
    if index.is_empty() {
        return Ok(());
    }
    for item in items {
        let of = index.of(item.index_number());
        if of.is_empty() {
            continue;
        }
        put_positions(path_ids, of, found)?;
    }
    Ok(())
}

/// Appends the positions of the paths that have an index entry for a node in one of these slots.
fn put_found_at<M: MapRead>(
    map: &M,
    slots: &[u32],
    path_ids: &[u64],
    index: &Index,
    found: &mut Vec<usize>,
) -> Result<(), AllocError>
    requires { IsStrictlyIncreasing path_ids.now }
    ensures grows { OnOk result (Includes found.old.items found.new.items) }
    ensures put { OnOk result ((v : ℕ) → IsTrue (has_node (M.map map.now) v)
        → Contains slots.now (M.node_slot map.now v) → Finds path_ids.now index.now v found.new.items) }
{
    if index.is_empty() {
        return Ok(());
    }
    for slot in slots {
        let Some(node) = map.node_at(*slot) else {
            continue;
        };
        put_positions(path_ids, index.of(node.number()), found)?;
    }
    Ok(())
}

/// Appends the positions from `from` up to, but not including, `to`.
fn put_range(from: usize, to: usize, found: &mut Vec<usize>) -> Result<(), AllocError>
    ensures grows { OnOk result (Includes found.old.items found.new.items) }
    ensures put { OnOk result ((k : ℕ) → from ≤ k → k < to → IsTrue (has found.new.items k)) }
{
    for position in from..to {
        found.push(position)?;
    }
    Ok(())
}

/// Appends the positions of the paths that changes replace.
fn put_changed(overlaid: OverlaidList<'_>, found: &mut Vec<usize>) -> Result<(), AllocError>
    ensures grows { OnOk result (Includes found.old.items found.new.items) }
    ensures put { OnOk result
        (FindsChanged (overlay_changes overlaid.entry.overlay.now) (items overlaid.entry.list.now) found.new.items) }
{
    for (name, _) in &overlaid.overlay.changes {
        if let Some(position) = overlaid.list.paths.get_index_of(name.as_str()) {
            found.push(position)?;
        }
    }
    Ok(())
}

/// Appends the positions of the paths that the edits may affect: those with a touched node or line, and those with a
/// coverage query that begins at a node labelled by the search.
fn put_touched<M: MapRead>(
    map: &M,
    list: &PathList,
    touched: &ChangeSet,
    near: &Dijkstra,
    found: &mut Vec<usize>,
) -> Result<(), AllocError>
    requires encoded { IsFalse list.now.held }
    requires indexed { IsTrue list.now.finder.indexed }
    ensures { OnOk result
        (CoversSearched (M.map map.now) (M.node_slot map.now) touched.now near.now (items list.now) found.new.items) }
{
    let ids = list.path_ids.as_slice();
    let nodes = touched.nodes();
    put_found(ids, &list.finder.traversed, nodes, found)?;
    put_found(ids, &list.finder.by_query_origin, nodes, found)?;
    put_found(ids, &list.finder.lines, &touched.lines, found)?;
    put_found_at(
        map,
        near.labelled_slots(),
        ids,
        &list.finder.by_query_origin,
        found,
    )?;
    Ok(())
}

/// Appends the positions of the list's paths that the edits may affect, or that changes replace; all positions if the
/// list may have a path that is not encoded yet, or if its index entries are not known.
fn put_listed<M: MapRead>(
    map: &M,
    overlaid: OverlaidList<'_>,
    touched: &ChangeSet,
    near: &Dijkstra,
    found: &mut Vec<usize>,
) -> Result<(), AllocError>
    ensures changed { OnOk result
        (FindsChanged (overlay_changes overlaid.entry.overlay.now) (items overlaid.entry.list.now) found.new.items) }
    ensures listed { OnOk result
        (CoversSearched (M.map map.now) (M.node_slot map.now) touched.now near.now (items overlaid.entry.list.now)
        found.new.items) }
{
    if overlaid.list.held || !overlaid.list.finder.indexed {
        put_range(0, overlaid.list.len(), found)?;
        return Ok(());
    }
    put_touched(map, overlaid.list, touched, near, found)?;
    put_changed(overlaid, found)?;
    Ok(())
}

/// The positions of the paths that the edits may affect, and of replaced and new paths, each once and in ascending order.
/// All positions if the list may have a path that is not encoded yet.
pub(crate) fn positions<M: MapRead>(
    update: &MapUpdate<'_, M>,
    overlaid: OverlaidList<'_>,
    near: &Dijkstra,
) -> Result<Vec<usize>, AllocError>
    requires { Searched M.map M.node_slot update.now near.now (Begins (shown_items overlaid)) }
    ensures ascending { IfOk result (λ found. IsStrictlyIncreasing found.items) }
    ensures covers { IfOk result (λ found. Covers (M.map update.now.map.now) (nodes_of update.now.touched.now)
        (lines_of update.now.touched.now) (shown_items overlaid.entry) found.items) }
{
    let count = overlaid.list.paths.len();
    let mut found = Vec::new(update.alloc);
    put_listed(update.map, overlaid, update.touched, near, &mut found)?;
    put_range(
        count,
        count + overlaid.overlay.added.paths.len(),
        &mut found,
    )?;
    found.sort_unstable();
    found.dedup();
    Ok(found)
}

/// Whether no path has an index entry for one of these.
pub(crate) fn finds_none<T: Numbered>(index: &Index, items: &[T]) -> bool
    ensures { IsTrue result → All (λ x. path_ids_of index.now (T.number_of x) ≡ []) items.now }
{
    index.is_empty()
        || items
            .iter()
            .all(|item| index.of(item.index_number()).is_empty())
}
