//! The entries of replies.
ghost use Rattle.std.specs.Prelude.{◌≢◌, [], map, length, IfOk, OnErr};
ghost use Rattle.olr_commands.specs.Words.{entry_of};

use crate::path_list::PathList;
use olr_commands::Entry;
use std::alloc::{AllocError, Global};

impl PathList {
    ghost use Rattle.olr_paths.specs.Items.{items};
    ghost use Rattle.olr_paths.specs.Changes.{AreEncoded, Reported};

    /// The entries of all paths, in order. Each of them was encoded. Takes no memory if there are none.
    pub fn entries(&self, alloc: Global) -> Result<Vec<Entry>, AllocError>
        requires encoded { AreEncoded (items self.now) }
        ensures reported { IfOk result (λ es. Reported [] (items self.now) (map entry_of es.items)) }
        ensures lacks { OnErr result (length (items self.now) ≢ 0) }
    {
        let mut entries = Vec::with_capacity(alloc, self.paths.len())?;
        for (name, named) in &self.paths {
            let published = named.published().unwrap();
            entries.push_reserved(published.entry(alloc, name.as_str())?);
        }
        Ok(entries)
    }
}
