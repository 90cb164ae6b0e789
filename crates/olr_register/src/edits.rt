//! Edits of the map that are made at once, outside a batch.
ghost use Rattle.std.specs.Prelude.{◌≡◌, ◌≢◌, ℕ, [], length, None, Ok, IfOk, OnOk, OnErr};
ghost use Rattle.olr_map.specs.EditPlans.{IsEditPlan};
ghost use Rattle.olr_map.specs.RoadMaps.{map_of, slot_of};
ghost use Rattle.olr_model.specs.Edits.{edit_of};
ghost use Rattle.olr_paths.specs.Items.{items};
ghost use Rattle.olr_renewal.specs.Reencoded.{IsRenewal};
ghost use Rattle.olr_renewal.specs.declared.change_set.ChangeSet.{ChangeSet as Touched};
ghost use Rattle.olr_spec.specs.Map.{Map, Edit as EditRecord, edited};
ghost use Rattle.olr_register.specs.Contents.{HasBounds, IsStateRight};
ghost use Rattle.olr_register.specs.JudgedEdits.{IsTouchedBy};

use crate::bounds::renew;
use crate::register::Register;
use olr_commands::{CommandFault, Reply};
use olr_map::{Edit, EditPlan, RoadMap, judge};
use olr_paths::{Overlay, PathList};
use olr_refs::Margin;
use olr_renewal::{ChangeSet, MapUpdate, Renewed, Searches, is_unaffected};
use std::alloc::{AllocError, Global};

/// What a judged edit touches.
fn touched_by(alloc: Global, plan: &EditPlan) -> Result<ChangeSet, AllocError>
    ensures { IfOk result (λ t. (M : Map) (slot : ℕ → ℕ) (e : EditRecord) → IsEditPlan M slot e plan.now
        → IsTouchedBy M e t) }
{
    let mut touched = ChangeSet::new(alloc);
    touched.reserve()?;
    touched.add(plan.nodes, plan.line, plan.changed);
    Ok(touched)
}

/// Makes an edit that was judged on this map, and encodes the affected paths of the list again. If an allocation fails, map
/// and list are as they were.
#[inline(never)]
fn make_and_renew(
    alloc: Global,
    roads: &mut RoadMap,
    paths: &mut PathList,
    margin: Margin,
    searches: &mut Searches,
    edit: Edit,
    plan: &EditPlan,
) -> Result<Renewed, AllocError>
    requires plan { IsEditPlan (map_of roads.old) (slot_of roads.old) (edit_of edit) plan.now }
    requires right { IsStateRight margin roads.old (items paths.old) None searches.old.bounds }
    ensures done { OnOk result (edited (map_of roads.old) (edit_of edit) ≡ Ok (map_of roads.new)) }
    ensures renewed { IfOk result (λ r. (t : Touched) × IsTouchedBy (map_of roads.old) (edit_of edit) t
        × IsRenewal margin (map_of roads.new) t (items paths.old) (items paths.old) (items paths.new) r) }
    ensures map { OnErr result (map_of roads.new ≡ map_of roads.old) }
    ensures list { OnErr result (items paths.new ≡ items paths.old) }
    ensures bounded { HasBounds roads.new [] (items paths.new) searches.new.bounds }
{
    let touched = touched_by(alloc, plan)?;
    let undo = roads.make(edit, plan)?;
    let none = Overlay::new(alloc);
    let update = MapUpdate {
        alloc,
        map: &*roads,
        margin,
        sets_margin: false,
        touched: &touched,
    };
    match renew(&update, paths, &none, searches) {
        Ok(renewed) => {
            roads.keep(undo);
            Ok(renewed)
        }
        Err(error) => {
            roads.undo(undo);
            Err(error)
        }
    }
}

impl Register {
    ghost use Rattle.olr_commands.specs.State.{Make, On_map};
    ghost use Rattle.olr_register.specs.Answered.{Answered};

    /// Makes an edit of the map and encodes the affected paths again. Faults of the map take precedence over `Memory`.
    /// If there are no paths, nothing but the map takes memory, and the distance bounds are cleared.
    #[inline(always)]
    pub(crate) fn edit_now(&mut self, edit: Edit) -> Result<Reply, CommandFault>
        requires { self.old.state.batch ≡ None }
        ensures { Answered self.old (Make (On_map (edit_of edit))) result self.new }
    {
        if self.len() > 0 {
            return self.edit_among_paths(edit);
        }
        let plan = match judge(&self.roads, &edit) {
            Ok(plan) => plan,
            Err(fault) => return Err(CommandFault::Map(fault)),
        };
        self.roads.make_kept(edit, &plan)?;
        self.searches.bounds.clear();
        Ok(Reply::Paths(Vec::new(self.alloc)))
    }

    /// The same, where there are paths. If it is known without a search that none is affected, little more is done than to
    /// make the edit. It is not inlined into what edits run through while a map is read.
    #[inline(never)]
    fn edit_among_paths(&mut self, edit: Edit) -> Result<Reply, CommandFault>
        requires open { self.old.state.batch ≡ None }
        requires some { length self.old.state.content.paths ≢ 0 }
        ensures { Answered self.old (Make (On_map (edit_of edit))) result self.new }
    {
        let judged = match judge(&self.roads, &edit) {
            Ok(plan) => plan,
            Err(fault) => return Err(CommandFault::Map(fault)),
        };
        let plan = &judged;
        let nodes = [plan.nodes.0, plan.nodes.1];
        let lines = plan.line.as_slice();
        let (alloc, margin) = (self.alloc, self.margin);
        let (roads, paths) = (&mut self.roads, &mut self.paths);
        let searches = &mut self.searches;
        if is_unaffected(paths, roads, &nodes, lines, &searches.bounds) {
            roads.make_kept(edit, plan)?;
            return Ok(Reply::Paths(Vec::new(alloc)));
        }
        let renewed = make_and_renew(alloc, roads, paths, margin, searches, edit, plan)?;
        self.work = self.work.plus(renewed.work);
        Ok(Reply::Paths(renewed.entries))
    }
}
