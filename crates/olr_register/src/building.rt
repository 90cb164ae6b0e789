//! A register that is built from changes, and encodes its paths at the end.

use crate::bounds::renew;
use crate::change::{PathParts, path_unless};
use crate::register::Register;
use olr_commands::{Command, CommandFault};
use olr_map::{Edit, RoadMap, judge};
use olr_paths::{Overlay, PathList};
use olr_refs::Margin;
use olr_renewal::{ChangeSet, MapUpdate, Renewed, Searches};
use std::alloc::{AllocError, Global};
use std::marker::Model;

/// A road map and named paths on their way to a register. Changes are made as they come, and no path is encoded before
/// `finish`.
pub struct Building {
    alloc: Global,
    roads: RoadMap,
    /// Not encoded yet.
    paths: PathList,
    margin: Margin,
}

impl Model for Building {
    ghost use Rattle.olr_commands.specs.State.{Content, IsContent};
    ghost use Rattle.olr_paths.specs.Items.{items};
    ghost use Rattle.olr_map.specs.RoadMaps.{map_of};
    ghost use Rattle.olr_register.specs.Contents.{content_on};
    ghost use Rattle.olr_register.specs.RegisterState.{coded_content};

    ghost Value = { Content };

    ghost coded = { coded_content };

    ghost view = { λ b. content_on b.margin (map_of b.roads) (items b.paths) };

    ghost invariant = { λ b. IsContent (content_on b.margin (map_of b.roads) (items b.paths)) };
}

// Written out: a derived drop is proved again in each crate that ends a building.
impl Drop for Building {
    fn drop(self) {
        let Building {
            alloc: _,
            roads,
            paths,
            margin: _,
        } = self;
        drop(roads);
        drop(paths);
    }
}

impl Building {
    ghost use Rattle.std.specs.Prelude.{◌≡◌, string_bytes, None, IfOk, IfErr, OnOk, OnErr};
    ghost use Rattle.olr_commands.specs.State.{no_content, Make, On_map, Add_path, Set_path, Drop_path, Set_margin};
    ghost use Rattle.olr_commands.specs.Words.{command_of, command_fault_of};
    ghost use Rattle.olr_model.specs.Edits.{edit_of};
    ghost use Rattle.olr_register.specs.BatchChanges.{path_by};
    ghost use Rattle.olr_register.specs.Built.{IsChange, Changes, Refuses, Builds, EncodedOnce};

    /// The empty map and no paths. Takes no memory.
    pub fn new(alloc: Global) -> Building
        ensures { result ≡ no_content }
    {
        Building {
            alloc,
            roads: RoadMap::new(alloc),
            paths: PathList::new(alloc),
            margin: Margin::none(),
        }
    }

    /// Makes an edit of the map. Faults of the map take precedence over `Memory`.
    fn edit(&mut self, edit: Edit) -> Result<(), CommandFault>
        ensures { Builds self.old (Make (On_map (edit_of edit))) result self.new }
    {
        let plan = match judge(&self.roads, &edit) {
            Ok(plan) => plan,
            Err(fault) => return Err(CommandFault::Map(fault)),
        };
        self.roads.make_kept(edit, &plan)?;
        Ok(())
    }

    /// Appends a path. The faults are `PathExists`, `BadPath` and `Memory`, in this order of precedence.
    fn add_path(&mut self, name: String, parts: PathParts) -> Result<(), CommandFault>
        ensures { Builds self.old (Make (Add_path (string_bytes name) (path_by parts))) result self.new }
    {
        let taken = self.paths.has(&name);
        let path = path_unless(self.alloc, taken, CommandFault::PathExists, parts)?;
        self.paths.hold(self.alloc, name, path)?;
        Ok(())
    }

    /// Replaces the path of a name. The faults are `NoPath`, `BadPath` and `Memory`, in this order of precedence.
    fn set_path(&mut self, name: &str, parts: PathParts) -> Result<(), CommandFault>
        ensures { Builds self.old (Make (Set_path name.now (path_by parts))) result self.new }
    {
        let missing = !self.paths.has(name);
        let path = path_unless(self.alloc, missing, CommandFault::NoPath, parts)?;
        self.paths.hold_other(self.alloc, name, path)?;
        Ok(())
    }

    /// Removes a path; the paths after it move up. Takes no memory.
    fn drop_path(&mut self, name: &str) -> Result<(), CommandFault>
        ensures { Builds self.old (Make (Drop_path name.now)) result self.new }
    {
        if !self.paths.has(name) {
            return Err(CommandFault::NoPath);
        }
        self.paths.drop_path(name);
        Ok(())
    }

    /// Sets the margin. Takes no memory.
    fn set_margin(&mut self, margin: Margin) -> Result<(), CommandFault>
        ensures { Builds self.old (Make (Set_margin margin)) result self.new }
    {
        // For the proof alone: the margin is in range.
        let _routes = margin.routes();
        self.margin = margin;
        Ok(())
    }

    /// Makes the change of a command, at once and without encoding a path. After a fault nothing has changed. `Memory` is
    /// returned only if no fault takes precedence over it.
    pub fn change(&mut self, command: Command) -> Result<(), CommandFault>
        requires { IsChange (command_of command) }
        ensures made { OnOk result (Changes self.old (command_of command) self.new) }
        ensures refused { IfErr result (λ f. Refuses self.old (command_of command) (command_fault_of f)) }
        ensures unchanged { OnErr result (self.new ≡ self.old) }
    {
        match command {
            Command::Edit(edit) => self.edit(edit),
            Command::AddPath(name, lines, pos, neg) => {
                self.add_path(name, PathParts { lines, pos, neg })
            }
            Command::SetPath(name, lines, pos, neg) => {
                self.set_path(&name, PathParts { lines, pos, neg })
            }
            Command::DropPath(name) => self.drop_path(&name),
            Command::SetMargin(margin) => self.set_margin(margin),
            _ => unreachable!(),
        }
    }

    /// Encodes each path, once, and returns the register, in which no batch is open.
    pub fn finish(self) -> Result<Register, AllocError>
        ensures state { IfOk result (λ r. r.state ≡ record { content = self; batch = None }) }
        ensures counted { IfOk result (λ r. EncodedOnce r) }
    {
        let Building {
            alloc,
            roads,
            mut paths,
            margin,
        } = self;
        let none = Overlay::new(alloc);
        let touched = ChangeSet::new(alloc);
        let mut searches = Searches::new(alloc);
        let update = MapUpdate {
            alloc,
            map: &roads,
            margin,
            sets_margin: true,
            touched: &touched,
        };
        let Renewed {
            entries,
            work,
            queries,
            wasted_labels: _,
        } = renew(&update, &mut paths, &none, &mut searches)?;
        drop(entries);
        drop(queries);
        drop(none);
        Ok(Register {
            alloc,
            roads,
            paths,
            margin,
            searches,
            work,
            batch: None,
        })
    }
}
