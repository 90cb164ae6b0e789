//! Paths that are added, replaced or dropped at once, outside a batch.
ghost use Rattle.olr_register.specs.BatchChanges.{path_by};

use crate::bounds::renew_bounds;
use crate::change::{PathParts, path_unless};
use crate::register::Register;
use olr_commands::{CommandFault, Reply};
use olr_renewal::{add, set};

impl Register {
    ghost use Rattle.std.specs.Prelude.{◌≡◌, None, string_bytes};
    ghost use Rattle.olr_commands.specs.State.{Make, Add_path, Set_path, Drop_path};
    ghost use Rattle.olr_register.specs.Answered.{Answered};

    /// Encodes a new path and appends it. The faults are `PathExists`, `BadPath` and `Memory`, in this order of
    /// precedence.
    #[inline(never)]
    pub(crate) fn add_now(&mut self, name: String, parts: PathParts) -> Result<Reply, CommandFault>
        requires { self.old.state.batch ≡ None }
        ensures { Answered self.old (Make (Add_path (string_bytes name) (path_by parts))) result
            self.new }
    {
        let taken = self.paths.has(&name);
        let path = path_unless(self.alloc, taken, CommandFault::PathExists, parts)?;
        let (alloc, margin) = (self.alloc, self.margin);
        let paths = &mut self.paths;
        let query = &mut self.searches.query;
        let renewed = add(paths, alloc, name, path, &self.roads, margin, query)?;
        renew_bounds(self.alloc, &mut self.searches.bounds, &self.paths, &renewed);
        self.work = self.work.plus(renewed.work);
        Ok(Reply::Paths(renewed.entries))
    }

    /// Encodes another path for a name. The faults are `NoPath`, `BadPath` and `Memory`, in this order of precedence.
    #[inline(never)]
    pub(crate) fn set_now(&mut self, name: &str, parts: PathParts) -> Result<Reply, CommandFault>
        requires { self.old.state.batch ≡ None }
        ensures { Answered self.old (Make (Set_path name.now (path_by parts))) result self.new }
    {
        let missing = !self.paths.has(name);
        let path = path_unless(self.alloc, missing, CommandFault::NoPath, parts)?;
        let (alloc, margin) = (self.alloc, self.margin);
        let paths = &mut self.paths;
        let query = &mut self.searches.query;
        let renewed = set(paths, alloc, name, path, &self.roads, margin, query)?;
        renew_bounds(self.alloc, &mut self.searches.bounds, &self.paths, &renewed);
        self.work = self.work.plus(renewed.work);
        Ok(Reply::Paths(renewed.entries))
    }

    /// Removes a path; the paths after it move up. Takes no memory.
    pub(crate) fn drop_now(&mut self, name: &str) -> Result<Reply, CommandFault>
        requires { self.old.state.batch ≡ None }
        ensures { Answered self.old (Make (Drop_path name.now)) result self.new }
    {
        if !self.paths.has(name) {
            return Err(CommandFault::NoPath);
        }
        self.paths.drop_path(name);
        Ok(Reply::Paths(Vec::new(self.alloc)))
    }
}
