//! The names of the paths that edits would affect.
ghost use Rattle.std.specs.Prelude.{◌≡◌, map as list_map, string_bytes, IfOk};
ghost use Rattle.olr_paths.specs.Items.{items};
ghost use Rattle.olr_paths.specs.Views.{shown_items};
ghost use Rattle.olr_renewal.specs.AffectedSearches.{AreBoundsOf};
ghost use Rattle.olr_renewal.specs.Updates.{FindsCandidates};
ghost use Rattle.olr_renewal.specs.Reencoded.{IsUnchanged, AreAffectedNames};

use crate::actions::is_affected;
use crate::affected::find_candidates;
use crate::searches::Searches;
use crate::update::MapUpdate;
use olr_model::MapRead;
use olr_paths::{OverlaidList, Overlay, PathList};
use olr_search::Dijkstra;
use std::alloc::AllocError;

/// The names of the paths that edits would affect, after the search from what they touch.
fn names_by<M: MapRead>(
    update: &MapUpdate<'_, M>,
    overlaid: OverlaidList<'_>,
    near: &Dijkstra,
    positions: &[usize],
) -> Result<Vec<String>, AllocError>
    requires candidates { FindsCandidates M.map M.node_slot update.now near.now (shown_items overlaid) positions.now }
    requires before { IsUnchanged M.map update.now (shown_items overlaid) }
    ensures { IfOk result (λ names. AreAffectedNames M.map update.now (shown_items overlaid.entry)
        (list_map string_bytes names.items)) }
{
    let mut names = Vec::new(update.alloc);
    for position in positions {
        let Some(shown) = overlaid.at(*position) else {
            continue;
        };
        if !is_affected(update, near, shown) {
            continue;
        }
        names.push(String::from_str(update.alloc, shown.name)?)?;
    }
    Ok(names)
}

/// The names of the paths of a list that edits would affect which touch these nodes and lines, in the order of the list.
/// The results in the list are right on the map with the margin, and the bounds are distance bounds for all its coverage queries.
pub fn affected_names<M: MapRead>(
    update: &MapUpdate<'_, M>,
    list: &PathList,
    searches: &mut Searches,
) -> Result<Vec<String>, AllocError>
    requires before { IsUnchanged M.map update.now (items list.now) }
    requires bounds { AreBoundsOf (M.map update.now.map.now) (M.node_slot update.now.map.now) searches.old.bounds
        (items list.now) }
    ensures names { IfOk result
        (λ names. AreAffectedNames M.map update.now (items list.now) (list_map string_bytes names.items)) }
    ensures bounds { searches.new.bounds ≡ searches.old.bounds }
{
    let overlay = Overlay::new(update.alloc);
    let overlaid = OverlaidList {
        list,
        overlay: &overlay,
        before: list,
    };
    let near = &mut searches.near;
    let found = find_candidates(update, overlaid, &searches.bounds, near)?;
    names_by(update, overlaid, near, &found)
}
