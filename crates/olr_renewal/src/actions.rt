//! Which action a renewal takes for a path.
ghost use Rattle.std.specs.Prelude.{IsTrue, IsFalse, IfOk, OnOk};
ghost use Rattle.olr_paths.specs.Views.{shown_item};
ghost use Rattle.olr_paths.specs.Origins.{BeginsIn};
ghost use Rattle.olr_renewal.specs.Updates.{Searched, AreReadyIfFew, Skips, Names, IsAction};

use crate::affected::{is_path_touched, is_query_touched};
use crate::detours::{Detours, are_clear, are_few, clear_known};
use crate::update::MapUpdate;
use olr_answers::KnownQuery;
use olr_model::MapRead;
use olr_paths::PathView;
use olr_search::Dijkstra;
use std::alloc::AllocError;

/// The action for a path.
#[derive(Drop)]
pub(crate) enum Action {
    /// It isn't affected.
    Skip,
    /// It is affected, and its answer is retained.
    Retain,
    /// It is encoded again. These of its coverage queries along its own lines are still right.
    Encode(Vec<KnownQuery>),
}

/// Whether a path is not encoded yet, or the edits affect it.
pub(crate) fn is_affected<M: MapRead>(
    update: &MapUpdate<'_, M>,
    near: &Dijkstra,
    shown: PathView<'_>,
) -> bool
    requires { Searched M.map M.node_slot update.now near.now (BeginsIn (shown_item shown).results) }
    ensures stays { IsFalse result → Skips M.map update.now (shown_item shown.entry) }
    ensures affected { IsTrue result → Names M.map update.now (shown_item shown.entry) }
{
    let Some(published) = shown.published else {
        return true;
    };
    is_path_touched(update.touched, shown.path, published)
        || is_query_touched(update, near, published.queries())
}

/// The action for a path. The searches for detours go no farther than it needs.
pub(crate) fn decide<M: MapRead>(
    update: &MapUpdate<'_, M>,
    near: &Dijkstra,
    detours: &mut Detours,
    shown: PathView<'_>,
) -> Result<Action, AllocError>
    requires searched { Searched M.map M.node_slot update.now near.now (BeginsIn (shown_item shown).results) }
    requires detours { AreReadyIfFew M.map M.node_slot update.now detours.old }
    ensures action { IfOk result (IsAction M.map update.now (shown_item shown.entry)) }
    ensures detours { OnOk result (AreReadyIfFew M.map M.node_slot update.now detours.new) }
{
    let Some(published) = shown.published else {
        return Ok(Action::Encode(Vec::new(update.alloc)));
    };
    if is_path_touched(update.touched, shown.path, published) {
        let known = clear_known(update, detours, published.known())?;
        return Ok(Action::Encode(known));
    }
    if !is_query_touched(update, near, published.queries()) {
        return Ok(Action::Skip);
    }
    if are_few(update.touched) && are_clear(update, detours, published.queries())? {
        return Ok(Action::Retain);
    }
    let known = clear_known(update, detours, published.known())?;
    Ok(Action::Encode(known))
}
