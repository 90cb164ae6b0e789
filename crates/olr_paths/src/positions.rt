//! Storing results at the positions of their paths.
ghost use Rattle.std.specs.Prelude.{◌≡◌, ◌+◌, ◌≤◌, ◌++◌, IfOk, OnOk, OnErr, take, length, vec_len, vec_capacity};
ghost use Rattle.olr_commands.specs.State.{NamesDiffer};
ghost use Rattle.olr_paths.specs.Items.{items, all_named};
ghost use Rattle.olr_paths.specs.Finders.{AreNotedAt, AreNoted};
ghost use Rattle.olr_paths.specs.Stored.{all_put, puts_of};

use crate::finder::Finder;
use crate::keys::Keys;
use crate::overlay::{Overlay, extend};
use crate::path_list::{NamedPath, PathList};
use std::alloc::{AllocError, Global};
use std::mem;

/// Stores each result at its position, and appends the replaced ones to `before`, which has the capacity. Takes no
/// memory.
fn place(
    list: &mut PathList,
    mut fresh: Vec<(usize, NamedPath)>,
    before: &mut Vec<(usize, NamedPath)>,
)
    requires room { vec_len before.old + vec_len fresh ≤ vec_capacity before.old }
    requires noted { AreNotedAt list.old.path_ids.items list.old.finder fresh.items }
    ensures { items list.new ≡ all_put (items list.old) (puts_of fresh.items) }
{
    list.held = true;
    while let Some((position, named)) = fresh.pop() {
        let Some(place) = list.paths.get_index_mut(position) else {
            continue;
        };
        let earlier = mem::replace(place, named);
        before.push_reserved((position, earlier));
    }
}

/// Removes the index entries of replaced or abandoned paths at these positions, except for those of the paths that are
/// there now. Takes no memory.
fn tidy(list: &mut PathList, earlier: &[(usize, NamedPath)])
    ensures { items list.new ≡ items list.old }
{
    for (position, named) in earlier {
        let Some((_, now)) = list.paths.get_index(*position) else {
            continue;
        };
        let path_id = list.path_ids[*position];
        list.finder.forget(path_id, named.keys(), now.keys());
    }
}

impl PathList {
    /// The index entries of all paths.
    #[inline(never)]
    fn all_noted(&self, alloc: Global) -> Result<Finder, AllocError>
        ensures { IfOk result (λ finder. AreNoted self.now.paths.entries self.now.path_ids.items finder) }
    {
        let mut finder = Finder::new(alloc);
        for (k, path_id) in self.path_ids.iter().enumerate() {
            let Some((_, named)) = self.paths.get_index(k) else {
                continue;
            };
            finder.note(*path_id, named.keys(), Keys::none())?;
        }
        Ok(finder)
    }

    /// Adds the index entries of all paths, unless they are there. If an allocation fails, there are none, and each
    /// edit is tested against all paths.
    pub fn index(&mut self, alloc: Global)
        ensures { items self.new ≡ items self.old }
    {
        if self.finder.indexed {
            return;
        }
        if let Ok(finder) = self.all_noted(alloc) {
            self.finder = finder;
        }
    }
}

/// Adds the index entries of results, under the ids of their positions. If an allocation fails, some are added.
fn note_all(list: &mut PathList, fresh: &[(usize, NamedPath)]) -> Result<(), AllocError>
    ensures noted { OnOk result (AreNotedAt list.new.path_ids.items list.new.finder fresh.now) }
    ensures same { items list.new ≡ items list.old }
{
    for (position, named) in fresh {
        let Some((_, current)) = list.paths.get_index(*position) else {
            continue;
        };
        let path_id = list.path_ids[*position];
        list.finder.note(path_id, named.keys(), current.keys())?;
    }
    Ok(())
}

/// Appends the new paths of changes, not encoded yet, and adds the index entries of results under the ids of their
/// positions. If an allocation fails, only some paths are appended.
fn make_room(
    alloc: Global,
    list: &mut PathList,
    overlay: &Overlay,
    fresh: &[(usize, NamedPath)],
) -> Result<(), AllocError>
    requires { NamesDiffer (all_named (items list.old ++ items overlay.now.added)) }
    ensures put { OnOk result (items list.new ≡ items list.old ++ items overlay.now.added) }
    ensures noted { OnOk result (AreNotedAt list.new.path_ids.items list.new.finder fresh.now) }
    ensures before { take (length (items list.old)) (items list.new) ≡ items list.old }
{
    extend(alloc, &overlay.added, list)?;
    if let Err(error) = note_all(list, fresh) {
        tidy(list, fresh);
        return Err(error);
    }
    Ok(())
}

/// Appends the new paths of changes, and stores each result at its position. If an allocation fails, the list is
/// unchanged.
pub fn put_in(
    alloc: Global,
    list: &mut PathList,
    overlay: &Overlay,
    fresh: Vec<(usize, NamedPath)>,
) -> Result<(), AllocError>
    requires { NamesDiffer (all_named (items list.old ++ items overlay.now.added)) }
    ensures ok { OnOk result
        (items list.new ≡ all_put (items list.old ++ items overlay.now.added) (puts_of fresh.items)) }
    ensures err { OnErr result (items list.new ≡ items list.old) }
{
    let mut before = Vec::with_capacity(alloc, fresh.len())?;
    let count = list.len();
    let held = list.held;
    if let Err(error) = make_room(alloc, list, overlay, &fresh) {
        list.truncate(count);
        list.held = held;
        return Err(error);
    }
    place(list, fresh, &mut before);
    tidy(list, &before);
    Ok(())
}
