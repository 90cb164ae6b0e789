//! The register.

use crate::batch::Batch;
use olr_map::RoadMap;
use olr_paths::{Iter, PathList};
use olr_refs::{Answer, Margin};
use olr_renewal::Searches;
use olr_search::Work;
use std::alloc::Global;
use std::marker::Model;

/// A road map and named paths with what is published of them, and an open batch if there is one.
pub struct Register {
    pub(crate) alloc: Global,
    /// The map, or that of the open batch.
    pub(crate) roads: RoadMap,
    pub(crate) paths: PathList,
    /// The margin with which the paths are encoded.
    pub(crate) margin: Margin,
    /// The distance bounds, which show that no coverage query begins near an edit, and the searches of renewals. The bounds
    /// are settled when an edit or a commit needs them; what the edits of an open batch touched is reopened then.
    pub(crate) searches: Searches,
    pub(crate) work: Work,
    pub(crate) batch: Option<Batch>,
}

impl Model for Register {
    ghost use Rattle.olr_paths.specs.Items.{items};
    ghost use Rattle.olr_register.specs.Registered.{Registered, coded_registered};
    ghost use Rattle.olr_register.specs.Contents.{state_of, IsStateRight};

    ghost Value = { Registered };

    ghost coded = { coded_registered };

    ghost view = { λ r. record { state = state_of r.margin r.roads (items r.paths) r.batch; work = r.work } };

    ghost invariant = { λ r. IsStateRight r.margin r.roads (items r.paths) r.batch r.searches.bounds };
}

// Written out: a derived drop is proved again in each crate that ends a register.
impl Drop for Register {
    fn drop(self) {
        let Register {
            alloc: _,
            roads,
            paths,
            margin: _,
            searches,
            work: _,
            batch,
        } = self;
        drop(roads);
        drop(paths);
        drop(searches);
        drop(batch);
    }
}

impl Register {
    ghost use Rattle.std.specs.Prelude.{◌≡◌, ◌↔◌, length, map, option_map, is_some, slice_get, IsTrue};
    ghost use Rattle.olr_commands.specs.Reply.{Published, PublishedText};
    ghost use Rattle.olr_answers.specs.Answers.{answer_of};
    ghost use Rattle.olr_paths.specs.Items.{left};
    ghost use Rattle.olr_register.specs.Registered.{AllPublished, nothing_registered};

    /// The register of an empty map and no paths. Takes no memory.
    pub fn new(alloc: Global) -> Register
        ensures { result ≡ nothing_registered }
    {
        Register {
            alloc,
            roads: RoadMap::new(alloc),
            paths: PathList::new(alloc),
            margin: Margin::none(),
            searches: Searches::new(alloc),
            work: Work::none(),
            batch: None,
        }
    }

    /// What is published of the path of that name. None if no path has the name. An open batch is ignored.
    pub fn answer(&self, name: &str) -> Option<&Answer>
        ensures { Published self.now.state.content name.now (option_map (λ a. answer_of a.now) result) }
    {
        let published = self.paths.published_of(name)?;
        Some(published.answer())
    }

    /// The text of that path's reference. None if no path has the name, or if the path is not encodable.
    pub fn text(&self, name: &str) -> Option<&str>
        ensures { PublishedText self.now.state.content name.now (option_map (λ t. t.now) result) }
    {
        let shown = self.paths.published_of(name)?;
        shown.text()
    }

    /// The number of paths, without those of an open batch.
    pub fn len(&self) -> usize
        ensures { result ≡ length self.now.state.content.paths }
    {
        self.paths.len()
    }

    /// Whether there is no path; those of an open batch are ignored.
    pub fn is_empty(&self) -> bool
        ensures { IsTrue result ↔ (length self.now.state.content.paths ≡ 0) }
    {
        self.len() == 0
    }

    /// The name of path k, counted from 0. None past the last.
    pub fn name_at(&self, k: usize) -> Option<&str>
        ensures { option_map (λ n. n.now) result
            ≡ slice_get (map (λ p. p.name) self.now.state.content.paths) k }
    {
        self.paths.name_at(k)
    }

    /// The names of all paths in the order of their registration, each with what is published of it. An open batch is
    /// ignored.
    pub fn iter(&self) -> Iter<'_>
        ensures { AllPublished self.now.state.content (left result) }
    {
        self.paths.iter()
    }

    /// The margin with which the paths are encoded, without that of an open batch.
    pub fn margin(&self) -> Margin
        ensures { result ≡ self.now.state.content.margin }
    {
        self.margin
    }

    /// Whether a batch is open.
    pub fn is_open(&self) -> bool
        ensures { result ≡ is_some self.now.state.batch }
    {
        self.batch.is_some()
    }

    /// The work that was done for accepted commands.
    pub fn work(&self) -> Work
        ensures { result ≡ self.now.work }
    {
        self.work
    }
}
