//! Whether changed lines offer a detour that is as short as a coverage query.
ghost use Rattle.std.specs.Prelude.{◌≡◌, ◌<◌, ◌≤◌, ◌↔◌, ℕ, List, length, All, IsTrue, IfOk, OnOk};
ghost use Rattle.olr_spec.specs.Map.{Map, IsMap, has_node};
ghost use Rattle.olr_spec.specs.Detours.{Detour};
ghost use Rattle.olr_spec.specs.Queries.{IsClear};
ghost use Rattle.olr_search.specs.Distances.{Leads};
ghost use Rattle.olr_search.specs.Searches.{IsSearch};
ghost use Rattle.olr_paths.specs.Changes.{StayKnown};
ghost use Rattle.olr_renewal.specs.AffectedSearches.{AreDetours};
ghost use Rattle.olr_renewal.specs.ChangeSets.{changed_of};
ghost use Rattle.olr_renewal.specs.Updates.{AreReady, AreReadyIfFew};
ghost use Rattle.olr_renewal.specs.declared.change_set.ChangeSet.{ChangeSet as Touched};

use crate::change_set::ChangeSet;
use crate::sources::begin_at;
use crate::update::MapUpdate;
use olr_answers::{CoverageQuery, KnownQuery};
use olr_model::MapRead;
use olr_search::{Dijkstra, Direction, GREATEST_LIMIT};
use std::alloc::AllocError;

/// The searches for detours over changed lines. Each renewal starts them again, and each test continues them.
#[derive(Drop)]
pub struct Detours {
    /// The reverse search from the starts of changed lines.
    pub(crate) before: Dijkstra,
    /// The forward search from the ends of changed lines.
    pub(crate) after: Dijkstra,
}

/// With more changed lines than this, no detours are searched for: nearly every path is encoded anyway.
const MOST_CHANGED: usize = 8;

/// Whether so few lines changed that detours over them are searched for.
pub(crate) fn are_few(touched: &ChangeSet) -> bool
    ensures { IsTrue result ↔ (length (changed_of touched.now) ≤ MOST_CHANGED) }
{
    touched.changed.len() <= MOST_CHANGED
}

/// Begins the searches for distances to the starts of changed lines and from their ends, unless no path is found that
/// the edits may affect, or too many lines changed.
pub(crate) fn begin_detours<M: MapRead>(
    update: &MapUpdate<'_, M>,
    found: &[usize],
    detours: &mut Detours,
) -> Result<(), AllocError>
    ensures { OnOk result (0 < length found.now → AreReadyIfFew M.map M.node_slot update.now detours.new) }
{
    if found.is_empty() || !are_few(update.touched) {
        return Ok(());
    }
    let (alloc, map) = (update.alloc, update.map);
    let changed = update.touched.changed.as_slice();
    begin_at(alloc, map, Direction::Against, changed, &mut detours.before)?;
    begin_at(alloc, map, Direction::Along, changed, &mut detours.after)
}

/// A length in decimetres that no route to the node in this slot is shorter than: its distance, or more than the limit to
/// which the search is settled.
fn at_least(search: &Dijkstra, slot: u32) -> u32
    ensures { (M : Map) (node_slot : ℕ → ℕ) (direction : _) (from : List (ℕ × ℕ)) (v e : ℕ)
        → IsSearch M node_slot direction from search.now → IsTrue (has_node M v) → node_slot v ≡ slot
        → Leads M direction from v e → result ≤ e }
{
    match search.dist_at(slot) {
        Some(dist) => dist,
        None => search.limit().saturating_add(1),
    }
}

/// Settles both searches half as far as `within`. Only if one of them finds its node, the other goes on to what is left.
fn settle_both<M: MapRead>(
    update: &MapUpdate<'_, M>,
    detours: &mut Detours,
    from: u32,
    to: u32,
    within: u32,
) -> Result<(), AllocError>
    requires short { within ≤ GREATEST_LIMIT }
    requires searches { AreReady M.map M.node_slot update.now detours.old }
    ensures { OnOk result (AreReady M.map M.node_slot update.now detours.new) }
{
    let map = update.map;
    detours.before.settle_to(map, within / 2)?;
    detours.after.settle_to(map, within / 2)?;
    match (detours.before.dist_at(from), detours.after.dist_at(to)) {
        (Some(there), None) => detours.after.settle_to(map, within.saturating_sub(there)),
        (None, Some(back)) => detours.before.settle_to(map, within.saturating_sub(back)),
        _ => Ok(()),
    }
}

/// True only if no detour over the changed lines, from the node in the slot `from` to the node in the slot `to`, is at
/// most `within` decimetres long.
fn are_longer(detours: &Detours, from: u32, to: u32, within: u32) -> bool
    ensures { IsTrue result → (N : Map) (slot : ℕ → ℕ) (t : Touched) (v w : ℕ) → IsMap N → AreDetours N slot t detours.now
        → IsTrue (has_node N v) → slot v ≡ from → IsTrue (has_node N w) → slot w ≡ to
        → ¬ Detour N (changed_of t) v w within }
{
    let there = u64::from(at_least(&detours.before, from));
    let back = u64::from(at_least(&detours.after, to));
    there + back > u64::from(within)
}

/// True only if no detour over the changed lines is as short as the coverage query. The searches go no farther than the
/// test needs.
fn is_clear<M: MapRead>(
    update: &MapUpdate<'_, M>,
    detours: &mut Detours,
    query: &CoverageQuery,
) -> Result<bool, AllocError>
    requires { AreReady M.map M.node_slot update.now detours.old }
    ensures clear { IfOk result
        (λ clear. IsTrue clear → IsClear (M.map update.now.map.now) (changed_of update.now.touched.now) query.now) }
    ensures detours { OnOk result (AreReady M.map M.node_slot update.now detours.new) }
{
    if query.within > GREATEST_LIMIT {
        return Ok(false);
    }
    let Some(from) = update.map.slot_of(query.from) else {
        return Ok(false);
    };
    let Some(to) = update.map.slot_of(query.to) else {
        return Ok(false);
    };
    settle_both(update, detours, from, to, query.within)?;
    Ok(are_longer(detours, from, to, query.within))
}

/// True only if each coverage query is clear.
pub(crate) fn are_clear<M: MapRead>(
    update: &MapUpdate<'_, M>,
    detours: &mut Detours,
    queries: &[CoverageQuery],
) -> Result<bool, AllocError>
    requires { AreReady M.map M.node_slot update.now detours.old }
    ensures clear { IfOk result (λ clear. IsTrue clear
        → All (IsClear (M.map update.now.map.now) (changed_of update.now.touched.now)) queries.now) }
    ensures detours { OnOk result (AreReady M.map M.node_slot update.now detours.new) }
{
    for query in queries {
        if !is_clear(update, detours, query)? {
            return Ok(false);
        }
    }
    Ok(true)
}

/// Those of the coverage queries along a path's own lines that are clear of the changed lines; none if too many lines
/// changed.
pub(crate) fn clear_known<M: MapRead>(
    update: &MapUpdate<'_, M>,
    detours: &mut Detours,
    known: &[KnownQuery],
) -> Result<Vec<KnownQuery>, AllocError>
    requires { AreReadyIfFew M.map M.node_slot update.now detours.old }
    ensures clear { IfOk result (λ clear. StayKnown (M.map update.now.map.now) (changed_of update.now.touched.now)
        known.now clear.items) }
    ensures detours { OnOk result (AreReadyIfFew M.map M.node_slot update.now detours.new) }
{
    let mut clear = Vec::new(update.alloc);
    if !are_few(update.touched) {
        return Ok(clear);
    }
    for one in known {
        if is_clear(update, detours, &one.query)? {
            clear.push(*one)?;
        }
    }
    Ok(clear)
}
