//! An open batch, and the changes that it holds.

use crate::change::{Change, path_unless};
use olr_commands::{CommandFault, Reply};
use olr_map::{Edit, RoadMap, UndoLog, judge};
use olr_paths::{Overlay, PathList};
use olr_refs::Margin;
use olr_renewal::ChangeSet;
use std::alloc::Global;

/// The greatest number of changes in a batch.
const FULL: u32 = 100_000;

/// The result of the changes that an open batch holds.
#[derive(Drop)]
pub struct Batch {
    /// Restores the map from before the batch.
    pub(crate) log: UndoLog,
    /// The batch's changes over the register's paths; the paths that it added or replaced are not encoded yet.
    pub(crate) overlay: Overlay,
    /// The margin after its changes.
    pub(crate) margin: Margin,
    /// Whether one of them sets the margin: then each path is encoded again.
    pub(crate) all: bool,
    /// The number of changes that it holds.
    pub(crate) count: u32,
    /// What its edits touched.
    pub(crate) touched: ChangeSet,
}

impl Batch {
    ghost use Rattle.std.specs.Prelude.{◌≡◌, List, nat_le};
    ghost use Rattle.olr_commands.specs.State.{On_map, full};
    ghost use Rattle.olr_map.specs.RoadMaps.{CanUndoAll};
    ghost use Rattle.olr_model.specs.Edits.{edit_of};
    ghost use Rattle.olr_paths.specs.Items.{Item, items};
    ghost use Rattle.olr_register.specs.Contents.{IsHeld};
    ghost use Rattle.olr_register.specs.BatchChanges.{Makes, HoldsChange, change_of};

    /// Whether it holds the greatest number of changes.
    fn is_full(&self) -> bool
        ensures { result ≡ nat_le full self.now.count }
    {
        self.count >= FULL
    }

    /// Makes an edit of its map. After a fault, map and batch are unchanged.
    fn edit(&mut self, roads: &mut RoadMap, edit: Edit) -> Result<(), CommandFault>
        requires { CanUndoAll roads.old self.old.log }
        ensures { (is : List Item) → Makes roads.old roads.new is self.old self.new (On_map (edit_of edit)) result }
    {
        let plan = match judge(roads, &edit) {
            Ok(plan) => plan,
            Err(fault) => return Err(CommandFault::Map(fault)),
        };
        self.touched.reserve()?;
        roads.make_into(edit, &plan, &mut self.log)?;
        self.touched.add(plan.nodes, plan.line, plan.changed);
        Ok(())
    }

    /// Makes a change. After a fault, map and batch are unchanged.
    fn make(
        &mut self,
        alloc: Global,
        roads: &mut RoadMap,
        list: &PathList,
        change: Change,
    ) -> Result<(), CommandFault>
        requires { IsHeld roads.old (items list.now) self.old }
        ensures { Makes roads.old roads.new (items list.now) self.old self.new (change_of change) result }
    {
        match change {
            Change::Edit(edit) => return self.edit(roads, edit),
            Change::AddPath(name, parts) => {
                let taken = self.overlay.has(list, &name);
                let path = path_unless(alloc, taken, CommandFault::PathExists, parts)?;
                self.overlay.hold(alloc, name, path)?;
            }
            Change::SetPath(name, parts) => {
                let missing = !self.overlay.has(list, &name);
                let path = path_unless(alloc, missing, CommandFault::NoPath, parts)?;
                self.overlay.hold_other(alloc, &name, path)?;
            }
            Change::DropPath(name) => {
                if !self.overlay.has(list, &name) {
                    return Err(CommandFault::NoPath);
                }
                self.overlay.drop_path(alloc, &name)?;
            }
            Change::SetMargin(margin) => {
                // For the proof alone: the margin is in range.
                let _routes = margin.routes();
                self.margin = margin;
                self.all = true;
            }
        }
        Ok(())
    }

    /// Makes a change and holds it. After a fault, map and batch are unchanged.
    pub(crate) fn hold(
        &mut self,
        alloc: Global,
        roads: &mut RoadMap,
        list: &PathList,
        change: Change,
    ) -> Result<Reply, CommandFault>
        requires { IsHeld roads.old (items list.now) self.old }
        ensures { HoldsChange roads.old roads.new (items list.now) self.old self.new (change_of change) result }
    {
        if self.is_full() {
            return Err(CommandFault::BatchFull);
        }
        self.make(alloc, roads, list, change)?;
        self.count += 1;
        Ok(Reply::Held(self.count))
    }
}
