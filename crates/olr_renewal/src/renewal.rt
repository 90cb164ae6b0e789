//! Encodes again the paths whose answer a change of the map may have changed.
ghost use Rattle.std.specs.Prelude.{◌≡◌, ◌<◌, Some, map as list_map, true, length, IfOk, OnOk, []};
ghost use Rattle.olr_spec.specs.Map.{Map};
ghost use Rattle.olr_spec.specs.Queries.{AreKnownWith};
ghost use Rattle.olr_commands.specs.Words.{entry_of};
ghost use Rattle.olr_paths.specs.Items.{results_of, items};
ghost use Rattle.olr_paths.specs.Views.{shown_items, shown_item};
ghost use Rattle.olr_paths.specs.Changes.{to_renew};
ghost use Rattle.olr_renewal.specs.Changes.{Follows};
ghost use Rattle.olr_renewal.specs.Reencoded.{after_renewal, ReportsIfOther, IsEncodedAt, IsStep, IsGiven, WasBefore};
ghost use Rattle.olr_renewal.specs.Reencoded.{IsRenewal, IsRenewable, CanRenewOver, IsRenewed};
ghost use Rattle.olr_renewal.specs.Updates.{AreReadyIfFew, FindsCandidates};
ghost use Rattle.olr_renewal.specs.declared.change_set.ChangeSet.{ChangeSet as Touched};

use crate::actions::{Action, decide};
use crate::affected::find_candidates;
use crate::detours::{Detours, begin_detours};
use crate::encoding::encode;
use crate::searches::Searches;
use crate::update::MapUpdate;
use olr_answers::KnownQuery;
use olr_commands::Entry;
use olr_model::MapRead;
use olr_paths::{NamedPath, OverlaidList, PathList, PathView, Published};
use olr_refs::CoverageQuery;
use olr_search::{Dijkstra, Work};
use std::alloc::{AllocError, Global};

/// Appends the entry of a path, if its answer differs from that of its name in an earlier list.
pub(crate) fn push_if_changed(
    alloc: Global,
    before: &PathList,
    name: &str,
    published: &Published,
    entries: &mut Vec<Entry>,
) -> Result<(), AllocError>
    ensures { OnOk result (ReportsIfOther (items before.now) name.now (results_of published.now).answer
        (list_map entry_of entries.old.items) (list_map entry_of entries.new.items)) }
{
    if let Some(earlier) = before.published_of(name)
        && earlier.has_answer_of(published)
    {
        return Ok(());
    }
    entries.push(published.entry(alloc, name)?)?;
    Ok(())
}

/// What the renewal of a list reports and counts.
#[derive(Drop)]
pub struct Renewed {
    /// The paths whose answer differs from the earlier one of their name.
    pub entries: Vec<Entry>,
    /// The work: each affected path counts as an encoding, also if it retains its answer.
    pub work: Work,
    /// The coverage queries of what was encoded.
    pub queries: Vec<CoverageQuery>,
    /// How many nodes the search from touched nodes labelled, if it found no affected path; otherwise 0.
    pub wasted_labels: usize,
}

/// The renewal of a list, before its results are put in the list.
#[derive(Drop)]
pub struct Renewal {
    /// The paths that were encoded again, each with its position in the list.
    pub(crate) fresh: Vec<(usize, NamedPath)>,
    /// What is reported and counted.
    pub renewed: Renewed,
}

impl Renewal {
    ghost use Rattle.olr_search.specs.Counts.{no_work};

    /// Of a list without affected paths. Takes no memory.
    pub(crate) fn none(alloc: Global) -> Renewal
        ensures fresh { result.fresh.items ≡ [] }
        ensures entries { result.renewed.entries.items ≡ [] }
        ensures work { result.renewed.work ≡ no_work }
    {
        Renewal {
            fresh: Vec::new(alloc),
            renewed: Renewed {
                entries: Vec::new(alloc),
                work: Work::none(),
                queries: Vec::new(alloc),
                wasted_labels: 0,
            },
        }
    }

    /// Encodes the path at that position again, and reports it if its answer differs from the earlier one of its name.
    fn encode_at<M: MapRead>(
        &mut self,
        update: &MapUpdate<'_, M>,
        before: &PathList,
        position: usize,
        shown: PathView<'_>,
        known: &[KnownQuery],
        query: &mut Dijkstra,
    ) -> Result<(), AllocError>
        requires { AreKnownWith update.now.margin (M.map update.now.map.now) (shown_item shown).path.lines known.now }
        ensures { OnOk result (IsEncodedAt update.now.margin (M.map update.now.map.now) (items before.now)
            (shown_item shown.entry) position self.old self.new) }
    {
        let alloc = update.alloc;
        let published = encode(alloc, update.map, shown.path, update.margin, known, query)?;
        let entries = &mut self.renewed.entries;
        push_if_changed(alloc, before, shown.name, &published, entries)?;
        let path = shown.path.clone()?;
        let published = Some(published);
        self.fresh.push((position, NamedPath { path, published }))?;
        self.renewed.work = self.renewed.work.encoded();
        Ok(())
    }

    /// Takes the action for the path at that position: leaves it, or counts it as retained, or encodes it again.
    #[inline(never)]
    fn advance<M: MapRead>(
        &mut self,
        update: &MapUpdate<'_, M>,
        before: &PathList,
        position: usize,
        shown: PathView<'_>,
        action: Action,
        query: &mut Dijkstra,
    ) -> Result<(), AllocError>
        requires { IsGiven (M.map update.now.map.now) update.now.margin (shown_item shown).path.lines action }
        ensures { OnOk result (IsStep update.now.margin (M.map update.now.map.now) (items before.now)
            (shown_item shown.entry) position action self.old self.new) }
    {
        match action {
            Action::Skip => (),
            Action::Retain => {
                self.renewed.work = self.renewed.work.encoded();
            }
            Action::Encode(known) => {
                self.encode_at(update, before, position, shown, &known, query)?;
            }
        }
        Ok(())
    }
}

/// The renewal of a list under changes, whose candidates are found, and for which the searches for detours have begun.
fn renewal_by<M: MapRead>(
    update: &MapUpdate<'_, M>,
    overlaid: OverlaidList<'_>,
    positions: &[usize],
    near: &Dijkstra,
    detours: &mut Detours,
    query: &mut Dijkstra,
) -> Result<Renewal, AllocError>
    requires candidates { FindsCandidates M.map M.node_slot update.now near.now (shown_items overlaid) positions.now }
    requires detours { 0 < length positions.now → AreReadyIfFew M.map M.node_slot update.now detours.old }
    requires follows { Follows (items overlaid.before.now) (shown_items overlaid) }
    requires before { (L : Map) × WasBefore update.now.margin L (M.map update.now.map.now) update.now.touched.now
        (shown_items overlaid) }
    ensures { IfOk result (λ r. IsRenewal update.now.margin (M.map update.now.map.now) update.now.touched.now
        (items overlaid.entry.before.now) (shown_items overlaid.entry) (after_renewal r (shown_items overlaid.entry))
        r.renewed) }
{
    let mut renewal = Renewal::none(update.alloc);
    for position in positions {
        let Some(shown) = overlaid.at(*position) else {
            continue;
        };
        let action = decide(update, near, detours, shown)?;
        renewal.advance(update, overlaid.before, *position, shown, action, query)?;
    }
    Ok(renewal)
}

/// The renewal of a list under changes, each of whose paths is encoded again, without known coverage queries.
#[inline(never)]
fn renewal_of_all<M: MapRead>(
    update: &MapUpdate<'_, M>,
    overlaid: OverlaidList<'_>,
    query: &mut Dijkstra,
) -> Result<Renewal, AllocError>
    ensures { IfOk result (λ r. (L : Map) (t : Touched)
        → WasBefore update.now.margin L (M.map update.now.map.now) t (to_renew true (shown_items overlaid.entry))
        → IsRenewal update.now.margin (M.map update.now.map.now) t (items overlaid.entry.before.now)
        (to_renew true (shown_items overlaid.entry)) (after_renewal r (to_renew true (shown_items overlaid.entry))) r.renewed) }
{
    let mut renewal = Renewal::none(update.alloc);
    for position in 0..overlaid.len() {
        let Some(shown) = overlaid.at(position) else {
            unreachable!()
        };
        let action = Action::Encode(Vec::new(update.alloc));
        renewal.advance(update, overlaid.before, position, shown, action, query)?;
    }
    Ok(renewal)
}

/// The renewal of a list under changes, of which the edits may have changed some answers.
fn renewal_of_some<M: MapRead>(
    update: &MapUpdate<'_, M>,
    overlaid: OverlaidList<'_>,
    searches: &mut Searches,
) -> Result<Renewal, AllocError>
    requires { IsRenewable update.now.margin (M.map update.now.map.now) (M.node_slot update.now.map.now)
        update.now.touched.now searches.old.bounds (items overlaid.before.now) (shown_items overlaid) }
    ensures renewed { IfOk result (λ r. IsRenewal update.now.margin (M.map update.now.map.now) update.now.touched.now
        (items overlaid.entry.before.now) (shown_items overlaid.entry) (after_renewal r (shown_items overlaid.entry))
        r.renewed) }
    ensures bounds { searches.new.bounds ≡ searches.old.bounds }
{
    let found = find_candidates(update, overlaid, &searches.bounds, &mut searches.near)?;
    begin_detours(update, &found, &mut searches.detours)?;
    let mut renewal = renewal_by(
        update,
        overlaid,
        &found,
        &searches.near,
        &mut searches.detours,
        &mut searches.query,
    )?;
    if overlaid.len() > 0 && renewal.renewed.work.encodings == 0 {
        renewal.renewed.wasted_labels = searches.near.labelled_slots().len();
    }
    Ok(renewal)
}

/// The renewal of a list under changes. If the margin was set, each path is encoded again; otherwise those of which the
/// edits may have changed the answer.
pub(crate) fn renewal_of<M: MapRead>(
    update: &MapUpdate<'_, M>,
    overlaid: OverlaidList<'_>,
    searches: &mut Searches,
) -> Result<Renewal, AllocError>
    requires { CanRenewOver M.map M.node_slot update.now searches.old.bounds (items overlaid.before.now)
        (shown_items overlaid) }
    ensures renewed { IfOk result
        (IsRenewed M.map update.now (items overlaid.entry.before.now) (shown_items overlaid.entry)) }
    ensures bounds { searches.new.bounds ≡ searches.old.bounds }
{
    if update.sets_margin {
        return renewal_of_all(update, overlaid, &mut searches.query);
    }
    renewal_of_some(update, overlaid, searches)
}
