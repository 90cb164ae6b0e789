//! Encodes again the paths whose answer a change of the map may have changed, in place or in a list under changes.
ghost use Rattle.std.specs.Prelude.{◌≡◌, ℕ, List, [], MatchOption, IsTrue, IfOk, OnErr};
ghost use Rattle.olr_spec.specs.Detours.{ChangedLine};
ghost use Rattle.olr_spec.specs.Map.{Map};
ghost use Rattle.olr_spec.specs.Margins.{Margin as Margins};
ghost use Rattle.olr_commands.specs.State.{NamesDiffer};
ghost use Rattle.olr_paths.specs.Items.{Item, items, all_named};
ghost use Rattle.olr_paths.specs.Overlaid.{RemovesNone, overlay_changes, under_overlay};
ghost use Rattle.olr_paths.specs.Origins.{AreNewQueries};
ghost use Rattle.olr_paths.specs.Changes.{Reported};
ghost use Rattle.olr_renewal.specs.AffectedSearches.{AreBoundsOf};
ghost use Rattle.olr_renewal.specs.Bounds.{IsEdit, IsRight, IsUnderWay};
ghost use Rattle.olr_renewal.specs.Changes.{IsBefore};
ghost use Rattle.olr_renewal.specs.Reencoded.{AreLeft, CanRenewUnder, AreRenewed, IsRenewed, IsPutIn, to_renew_by};
ghost use Rattle.olr_renewal.specs.Reencoded.{after_renewal, entries_of};

use crate::candidates::finds_none;
use crate::distance_bounds::DistanceBounds;
use crate::renewal::{Renewal, Renewed, renewal_of};
use crate::searches::Searches;
use crate::update::MapUpdate;
use olr_model::{LineId, MapRead, NodeId};
use olr_paths::{OverlaidList, Overlay, PathList, fresh_queries, put_in};
use std::alloc::{AllocError, Global};
use std::mem;

/// The renewal of a list under changes, before it is put in place.
#[derive(Drop)]
pub struct NewResults {
    /// What was encoded, and what is reported and counted.
    pub renewal: Renewal,
    /// If the changes remove a path, the list under them.
    copy: Option<PathList>,
}

/// The renewal of a list under changes: new and replaced paths are encoded, and those whose answer the edits of the map may
/// have changed; all paths if the margin was set. It has the paths whose answer differs from the earlier one of their
/// name, and the counts: each affected path counts as one encoding. The results in the list are right on the map
/// before the update, and the bounds on the one after it, for all coverage queries of the list. Nothing is put in place.
pub fn renewal_over<M: MapRead>(
    list: &PathList,
    update: &MapUpdate<'_, M>,
    overlay: &Overlay,
    searches: &mut Searches,
) -> Result<NewResults, AllocError>
    requires { CanRenewUnder M.map M.node_slot update.now searches.old.bounds (items list.now) overlay.now }
    ensures renewed { IfOk result (λ u. IsRenewed M.map update.now (items list.now)
        (under_overlay (items list.now) overlay.now) u.renewal) }
    ensures copied { IfOk result (λ u. MatchOption u.copy (RemovesNone (overlay_changes overlay.now))
        (λ copy. items copy ≡ under_overlay (items list.now) overlay.now)) }
    ensures bounds { searches.new.bounds ≡ searches.old.bounds }
{
    if !overlay.removes_some() {
        let overlaid = OverlaidList {
            list,
            overlay,
            before: list,
        };
        let renewal = renewal_of(update, overlaid, searches)?;
        let copy = None;
        return Ok(NewResults { renewal, copy });
    }
    let copy = overlay.overlaid_copy(update.alloc, list)?;
    let none = Overlay::new(update.alloc);
    let overlaid = OverlaidList {
        list: &copy,
        overlay: &none,
        before: list,
    };
    let renewal = renewal_of(update, overlaid, searches)?;
    drop(none);
    let copy = Some(copy);
    Ok(NewResults { renewal, copy })
}

/// Makes the changes of a list, of which none removes a path, and puts their renewal in the list. The replaced and new paths are
/// put in place, at a cost that depends only on the changes. If an allocation fails, the list is unchanged.
fn put_results<M: MapRead>(
    list: &mut PathList,
    update: &MapUpdate<'_, M>,
    overlay: &Overlay,
    renewal: Renewal,
) -> Result<Renewed, AllocError>
    requires none_removed { RemovesNone (overlay_changes overlay.now) }
    requires names { NamesDiffer (all_named (under_overlay (items list.old) overlay.now)) }
    requires reported { (before : List Item) × Reported before
        (after_renewal renewal (to_renew_by update.now (under_overlay (items list.old) overlay.now))) (entries_of renewal.renewed) }
    ensures put { IfOk result (λ r. IsPutIn update.now (under_overlay (items list.old) overlay.now) renewal
        (items list.new) r) }
    ensures err { OnErr result (items list.new ≡ items list.old) }
{
    let Renewal { fresh, mut renewed } = renewal;
    let queries = fresh_queries(update.alloc, &fresh)?;
    put_in(update.alloc, list, overlay, fresh)?;
    list.note_encoded();
    renewed.queries = queries;
    Ok(renewed)
}

/// Whether it is known without a search that edits which touch these nodes and lines affect no path of a list: all were
/// encoded, none has a touched node or line, and no coverage query reaches a touched node. Then the results and the bounds
/// are right on the map after the edits. `map` is the map before them.
pub fn is_unaffected<M: MapRead>(
    list: &PathList,
    map: &M,
    nodes: &[NodeId],
    lines: &[LineId],
    bounds: &DistanceBounds,
) -> bool
    ensures paths { IsTrue result → (g : Margins) (L N : Map) (slot : ℕ → ℕ) (C : List ChangedLine)
        → IsEdit nodes.now (M.map map.now) (M.node_slot map.now) N slot
        → IsBefore g L N nodes.now lines.now C (items list.now) → AreBoundsOf N slot bounds.now (items list.now)
        → AreLeft g L N nodes.now lines.now (items list.now) }
    ensures bounds { IsTrue result → (N : Map) (slot : ℕ → ℕ)
        → IsEdit nodes.now (M.map map.now) (M.node_slot map.now) N slot
        → IsUnderWay (M.map map.now) (M.node_slot map.now) [] bounds.now → IsRight N slot bounds.now }
{
    if list.held
        || !list.finder.indexed
        || !bounds.is_settled()
        || !bounds.are_unbounded(map, nodes)
        || !finds_none(&list.finder.traversed, nodes)
        || !finds_none(&list.finder.lines, lines)
    {
        return false;
    }
    true
}

/// Makes the changes of the list, and puts their renewal in the list, which `renewal_over` returns. If no path is removed, the
/// changes are made in place, at the cost of the changes and of the affected paths; otherwise the list under the changes
/// replaces the list, at the cost of all paths. If an allocation fails, the list is unchanged.
pub fn renew_over<M: MapRead>(
    list: &mut PathList,
    update: &MapUpdate<'_, M>,
    overlay: &Overlay,
    searches: &mut Searches,
) -> Result<Renewed, AllocError>
    requires { CanRenewUnder M.map M.node_slot update.now searches.old.bounds (items list.old) overlay.now }
    ensures renewed { IfOk result (AreRenewed M.map update.now (items list.old)
        (under_overlay (items list.old) overlay.now) (items list.new)) }
    ensures queries { IfOk result (λ r. AreNewQueries r.queries.items
        (to_renew_by update.now (under_overlay (items list.old) overlay.now)) (items list.new)) }
    ensures err { OnErr result (items list.new ≡ items list.old) }
    ensures bounds { searches.new.bounds ≡ searches.old.bounds }
{
    let NewResults { renewal, copy } = renewal_over(list, update, overlay, searches)?;
    let Some(mut copy) = copy else {
        let renewed = put_results(list, update, overlay, renewal)?;
        list.index(update.alloc);
        return Ok(renewed);
    };
    let none = Overlay::new(update.alloc);
    let renewed = put_results(&mut copy, update, &none, renewal)?;
    drop(none);
    replace_by(list, update.alloc, copy);
    Ok(renewed)
}

/// Replaces the list by another, and adds the index entries of its paths.
#[inline(never)]
fn replace_by(list: &mut PathList, alloc: Global, other: PathList)
    ensures { items list.new ≡ items other }
{
    drop(mem::replace(list, other));
    list.index(alloc);
}
