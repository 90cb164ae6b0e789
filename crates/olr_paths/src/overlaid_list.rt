//! A list under changes, read in place.
ghost use Rattle.std.proofs.Props.{props};
ghost use Rattle.olr_paths.specs.Overlaid.{RemovesNone, overlay_changes};

use crate::overlay::Overlay;
use crate::path_list::PathList;
use crate::view::{PathView, show, show_under};

/// A list, and changes over it that remove none of its paths. A path has the same position as in the list; the new
/// paths follow.
#[derive(Clone, Copy)]
pub struct OverlaidList<'a> {
    /// The list.
    pub list: &'a PathList,
    /// The changes.
    pub overlay: &'a Overlay,
    /// The list that has the earlier answers.
    pub before: &'a PathList,
    ghost none_removed: { RemovesNone (overlay_changes overlay.now) } by { Prim.hlevel props },
}

impl<'a> OverlaidList<'a> {
    ghost use Rattle.std.specs.Prelude.{◌≡◌, ◌+◌, ◌<◌, ◌^◌, length, slice_get, option_map, IsSome};
    ghost use Rattle.olr_paths.specs.Views.{shown_items, shown_item};

    /// The number of paths.
    pub fn len(self) -> usize
        ensures { result ≡ length (shown_items self.entry) }
    {
        self.list.paths.len() + self.overlay.added.paths.len()
    }

    /// The path at a position, counted from 0. None past the last.
    pub fn at(self, position: usize) -> Option<PathView<'a>>
        ensures shown { slice_get (shown_items self.entry) position ≡ option_map shown_item result }
        ensures small { IsSome result → position + 1 < 2 ^ 64 }
    {
        let count = self.list.paths.len();
        // For the proof alone: a list has fewer than 2^64 paths.
        let _few = self.overlay.added.paths.len();
        if let Some((name, named)) = self.list.paths.get_index(position) {
            return Some(show_under(&self.overlay.changes, name.as_str(), named));
        }
        let (name, named) = self.overlay.added.paths.get_index(position - count)?;
        Some(show(name.as_str(), named))
    }
}
