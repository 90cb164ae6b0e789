//! Batches: opening one, commit and abort.
ghost use Rattle.olr_commands.specs.State.{Begin, Preview, Commit, Abort};

use crate::batch::Batch;
use crate::bounds::{preview, renew, undo_edits};
use crate::register::Register;
use olr_commands::{CommandFault, Reply};
use olr_map::UndoLog;
use olr_paths::Overlay;
use olr_renewal::{ChangeSet, MapUpdate};

impl Register {
    ghost use Rattle.olr_register.specs.Answered.{Answered};

    /// Opens a batch, which holds the changes that follow. Takes no memory.
    #[inline(never)]
    pub(crate) fn begin(&mut self) -> Result<Reply, CommandFault>
        ensures { Answered self.old Begin result self.new }
    {
        if self.batch.is_some() {
            return Err(CommandFault::BatchOpen);
        }
        let batch = Batch {
            log: UndoLog::new(self.alloc),
            overlay: Overlay::new(self.alloc),
            margin: self.margin,
            all: false,
            count: 0,
            touched: ChangeSet::new(self.alloc),
        };
        // Nothing is dropped: no batch is open.
        drop(self.batch.replace(batch));
        Ok(Reply::Paths(Vec::new(self.alloc)))
    }

    /// The reply that a commit of all held changes would have. The affected paths are encoded for it, which isn't counted; nothing
    /// changes.
    #[inline(never)]
    pub(crate) fn preview(&mut self) -> Result<Reply, CommandFault>
        ensures { Answered self.old Preview result self.new }
    {
        let Some(batch) = &self.batch else {
            return Err(CommandFault::NoBatch);
        };
        let update = MapUpdate {
            alloc: self.alloc,
            map: &self.roads,
            margin: batch.margin,
            sets_margin: batch.all,
            touched: &batch.touched,
        };
        let previewed = preview(&update, &self.paths, &batch.overlay, &mut self.searches)?;
        Ok(Reply::Paths(previewed.entries))
    }

    /// Accepts all held changes at once, if their number is `count`, and encodes the affected paths. After a fault the
    /// batch is still open, and unchanged.
    #[inline(never)]
    pub(crate) fn commit(&mut self, count: u32) -> Result<Reply, CommandFault>
        ensures { Answered self.old (Commit count) result self.new }
    {
        let Some(batch) = &self.batch else {
            return Err(CommandFault::NoBatch);
        };
        if batch.count != count {
            return Err(CommandFault::CountDiffers);
        }
        let margin = batch.margin;
        let update = MapUpdate {
            alloc: self.alloc,
            map: &self.roads,
            margin,
            sets_margin: batch.all,
            touched: &batch.touched,
        };
        let paths = &mut self.paths;
        let renewed = renew(&update, paths, &batch.overlay, &mut self.searches)?;
        // The log is dropped with the batch: its edits are permanent.
        drop(self.batch.take());
        self.margin = margin;
        self.work = self.work.plus(renewed.work);
        Ok(Reply::Paths(renewed.entries))
    }

    /// Drops all held changes: the map is again the one before the batch. Never out of memory: if the nodes that the
    /// batch touched can't be reopened, the distance bounds are invalid.
    #[inline(never)]
    pub(crate) fn abort(&mut self) -> Result<Reply, CommandFault>
        ensures { Answered self.old Abort result self.new }
    {
        let Some(batch) = self.batch.take() else {
            return Err(CommandFault::NoBatch);
        };
        let bounds = &mut self.searches.bounds;
        undo_edits(&mut self.roads, bounds, batch.log, &batch.touched);
        Ok(Reply::Paths(Vec::new(self.alloc)))
    }
}
