//! The margin with which the paths are encoded.

use crate::bounds::renew;
use crate::register::Register;
use olr_commands::{CommandFault, Dump, Reply, push_margin_record};
use olr_paths::Overlay;
use olr_refs::Margin;
use olr_renewal::{ChangeSet, MapUpdate};

impl Register {
    ghost use Rattle.std.specs.Prelude.{◌≡◌, None};
    ghost use Rattle.olr_commands.specs.State.{Make, Set_margin, Show_margin};
    ghost use Rattle.olr_register.specs.Answered.{Answered};

    /// Sets the margin, and encodes each path again. All answers are made before anything is stored: if an allocation
    /// fails, nothing changes but the distance bounds, which are invalid then.
    #[inline(never)]
    pub(crate) fn set_margin_now(&mut self, margin: Margin) -> Result<Reply, CommandFault>
        requires { self.old.state.batch ≡ None }
        ensures { Answered self.old (Make (Set_margin margin)) result self.new }
    {
        // For the proof alone: the margin is in range.
        let _routes = margin.routes();
        let touched = ChangeSet::new(self.alloc);
        let none = Overlay::new(self.alloc);
        let update = MapUpdate {
            alloc: self.alloc,
            map: &self.roads,
            margin,
            sets_margin: true,
            touched: &touched,
        };
        let renewed = renew(&update, &mut self.paths, &none, &mut self.searches)?;
        self.margin = margin;
        self.work = self.work.plus(renewed.work);
        Ok(Reply::Paths(renewed.entries))
    }

    /// The record that sets the margin, also if it adds nothing. That of an open batch is ignored.
    #[inline(never)]
    pub fn show_margin(&self) -> Result<Reply, CommandFault>
        ensures { Answered self.now Show_margin result self.now }
    {
        let mut text = Vec::new(self.alloc);
        push_margin_record(&mut text, self.margin)?;
        Ok(Reply::Records(Dump { count: 1, text }))
    }
}
