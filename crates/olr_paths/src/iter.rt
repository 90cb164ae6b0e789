//! The paths of a list, one after another, each with what is published of it.
ghost use Rattle.std.specs.Prelude.{IsTrue, is_some, Some, ◌≡◌, map};
ghost use Rattle.std.specs.List.{list_all};

use crate::path_list::{NamedPath, PathList};
use crate::published::Published;
use indexmap::map;
use std::iter::FusedIterator;

/// An iterator over the names of paths in order, each with what is published of it.
#[derive(Drop)]
pub struct Iter<'a> {
    pub(crate) entries: map::Iter<'a, String, NamedPath>,
    ghost encoded: { IsTrue (list_all (λ e. is_some e.1.published) entries) },
}

impl<'a> Iterator for Iter<'a> {
    ghost use Rattle.std.specs.Iterator.{YieldsFirstBy, item_count};
    ghost use Rattle.olr_paths.specs.Items.{results_of, left};

    type Item = (&'a str, &'a Published);

    ghost next_gives = { YieldsFirstBy (λ item. (item.0.now, Some (results_of item.1.now))) left };

    ghost remaining = { item_count left };

    fn next(&mut self) -> Option<(&'a str, &'a Published)> {
        let (name, named) = self.entries.next()?;
        Some((name.as_str(), named.published().unwrap()))
    }

    fn size_hint(&self) -> (usize, Option<usize>) {
        self.entries.size_hint()
    }
}

impl<'a> ExactSizeIterator for Iter<'a> {
    fn len(&self) -> usize {
        self.entries.len()
    }
}

impl<'a> FusedIterator for Iter<'a> {}

impl PathList {
    ghost use Rattle.olr_paths.specs.Items.{items, left};
    ghost use Rattle.olr_paths.specs.Changes.{AreEncoded};

    /// The paths in order, each with what is published of it. All of them were encoded.
    pub fn iter(&self) -> Iter<'_>
        requires encoded { AreEncoded (items self.now) }
        ensures { left result ≡ map (λ i. (i.name, i.results)) (items self.now) }
    {
        Iter {
            entries: self.paths.iter(),
        }
    }
}
