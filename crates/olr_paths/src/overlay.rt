//! Changes of a list of named paths, held until all of them are made at once.
ghost use Rattle.std.specs.Prelude.{◌≡◌, List, [], ◌∷◌, ◌++◌, map, take, length, false, is_some, IsFalse, IfOk, OnOk, OnErr};
ghost use Rattle.olr_commands.specs.State.{NamesDiffer, path_named, same_name};
ghost use Rattle.olr_paths.specs.Items.{Item, items, item_of, all_named};
ghost use Rattle.olr_paths.specs.Overlaid.{RemovesNone, changes_in, overlay_changes, change_at, under_change};
ghost use Rattle.olr_paths.specs.Overlaid.{under_changes, under_overlay};

use crate::path_list::{NamedPath, PathList};
use indexmap::IndexMap;
use olr_answers::Path;
use std::alloc::{AllocError, Global};
use std::rc::Rc;

/// Changes over a list of named paths: replaced paths, removed paths, and new paths at the end. A name that is removed
/// and added again is both in `changes` and in `added`.
pub struct Overlay {
    /// The changes of the list's paths: a replacement, or None if the path is removed.
    pub changes: IndexMap<String, Option<Rc<Path>>>,
    /// New paths, not encoded yet.
    pub added: PathList,
}

/// Appends a path of a list, under the changes, to another list. If an allocation fails, that list is unchanged.
#[tactic(auto, using(crate::proofs::Overlaying::change_found))]
fn push_under(
    alloc: Global,
    changes: &IndexMap<String, Option<Rc<Path>>>,
    name: &str,
    named: &NamedPath,
    to: &mut PathList,
) -> Result<(), AllocError>
    requires { (j : Item) → under_change (change_at (changes_in changes.now.entries) name.now)
        (item_of name.now named.now) ≡ j ∷ []
        → is_some (path_named (all_named (items to.old)) name.now) ≡ false }
    ensures ok { OnOk result (items to.new ≡ items to.old
        ++ under_change (change_at (changes_in changes.now.entries) name.now) (item_of name.now named.now)) }
    ensures err { OnErr result (items to.new ≡ items to.old) }
{
    let Some(change) = changes.get(name) else {
        return to.push(String::from_str(alloc, name)?, named.share()?);
    };
    let Some(path) = change else {
        return Ok(());
    };
    let named = NamedPath {
        path: path.clone()?,
        published: None,
    };
    to.push(String::from_str(alloc, name)?, named)
}

/// Appends a list, under changes, to another. The lists share paths and answers. If an allocation fails, only some
/// paths are appended.
fn extend_under(
    alloc: Global,
    changes: &IndexMap<String, Option<Rc<Path>>>,
    list: &PathList,
    to: &mut PathList,
) -> Result<(), AllocError>
    requires { NamesDiffer (all_named (items to.old
        ++ under_changes (changes_in changes.now.entries) (items list.now))) }
    ensures put { OnOk result (items to.new ≡ items to.old
        ++ under_changes (changes_in changes.now.entries) (items list.now)) }
    ensures before { take (length (items to.old)) (items to.new) ≡ items to.old }
{
    for (name, named) in &list.paths {
        push_under(alloc, changes, name.as_str(), named, to)?;
    }
    Ok(())
}

/// Appends a list to another. The lists share paths and answers. If an allocation fails, only some paths are appended.
#[tactic(auto, using(crate::proofs::Overlaying::behind_none))]
pub(crate) fn extend(alloc: Global, list: &PathList, to: &mut PathList) -> Result<(), AllocError>
    requires { NamesDiffer (all_named (items to.old ++ items list.now)) }
    ensures put { OnOk result (items to.new ≡ items to.old ++ items list.now) }
    ensures before { take (length (items to.old)) (items to.new) ≡ items to.old }
{
    if list.paths.is_empty() {
        return Ok(());
    }
    extend_under(alloc, &IndexMap::new(alloc), list, to)
}

// Written out: a derived drop is proved again in each crate that ends an overlay.
impl Drop for Overlay {
    fn drop(self) {
        let Overlay { changes, added } = self;
        drop(changes);
        drop(added);
    }
}

impl Overlay {
    ghost use Rattle.std.specs.Prelude.{filter, not, true, None, string_bytes};
    ghost use Rattle.olr_paths.specs.Changes.{set_item};

    /// No changes. Takes no memory.
    #[tactic(auto, using(crate::proofs::Overlaying::no_changes))]
    pub fn new(alloc: Global) -> Overlay
        ensures { (is : List Item) → under_overlay is result ≡ is }
    {
        Overlay {
            changes: IndexMap::new(alloc),
            added: PathList::new(alloc),
        }
    }

    /// Whether a path is removed.
    pub fn removes_some(&self) -> bool
        ensures { IsFalse result → RemovesNone (overlay_changes self.now) }
    {
        self.changes.values().any(|change| change.is_none())
    }

    /// Whether a path of the list under these changes has the name.
    #[tactic(auto, using(crate::proofs::Overlaying::has_under))]
    pub fn has(&self, list: &PathList, name: &str) -> bool
        ensures { result ≡ is_some (path_named (all_named (under_overlay (items list.now) self.now)) name.now) }
    {
        let removed = matches!(self.changes.get(name), Some(None));
        self.added.has(name) || (!removed && list.has(name))
    }

    /// Appends a new path. If an allocation fails, nothing changes.
    #[tactic(auto, using(crate::proofs::Overlaying::both_have))]
    pub fn hold(&mut self, alloc: Global, name: String, path: Path) -> Result<(), AllocError>
        requires { (is : List Item)
            × (is_some (path_named (all_named (under_overlay is self.old)) (string_bytes name)) ≡ false) }
        ensures ok { OnOk result ((is : List Item) → under_overlay is self.new ≡ under_overlay is self.old
            ++ record { name = string_bytes name; path = path; results = None } ∷ []) }
        ensures err { OnErr result ((is : List Item) → under_overlay is self.new ≡ under_overlay is self.old) }
    {
        self.added.hold(alloc, name, path)
    }

    /// Replaces the path of a name. It keeps its position. If an allocation fails, nothing changes.
    pub fn hold_other(&mut self, alloc: Global, name: &str, path: Path) -> Result<(), AllocError>
        ensures ok { OnOk result ((is : List Item) → NamesDiffer (all_named (under_overlay is self.old))
            → is_some (path_named (all_named (under_overlay is self.old)) name.now) ≡ true
            → under_overlay is self.new ≡ map (set_item name.now path None) (under_overlay is self.old)) }
        ensures err { OnErr result ((is : List Item) → under_overlay is self.new ≡ under_overlay is self.old) }
    {
        if self.added.has(name) {
            self.added.hold_other(alloc, name, path)?;
            return Ok(());
        }
        let other = Rc::new(alloc, path)?;
        self.changes
            .insert(String::from_str(alloc, name)?, Some(other))?;
        Ok(())
    }

    /// Removes the path of that name; the paths after it move up. If an allocation fails, nothing changes.
    pub fn drop_path(&mut self, alloc: Global, name: &str) -> Result<(), AllocError>
        ensures ok { OnOk result ((is : List Item) → NamesDiffer (all_named (under_overlay is self.old))
            → under_overlay is self.new ≡ filter (λ i. not (same_name i.name name.now)) (under_overlay is self.old)) }
        ensures err { OnErr result ((is : List Item) → under_overlay is self.new ≡ under_overlay is self.old) }
    {
        if self.added.has(name) {
            self.added.drop_path(name);
            return Ok(());
        }
        self.changes.insert(String::from_str(alloc, name)?, None)?;
        Ok(())
    }

    /// The list under these changes, without index entries. It shares paths and answers with the list.
    #[tactic(auto, using(crate::proofs::Overlaying::first_differ))]
    #[inline(never)]
    pub fn overlaid_copy(&self, alloc: Global, list: &PathList) -> Result<PathList, AllocError>
        requires { NamesDiffer (all_named (under_overlay (items list.now) self.now)) }
        ensures { IfOk result (λ l. items l ≡ under_overlay (items list.now) self.now) }
    {
        let mut overlaid = PathList::new(alloc);
        overlaid.finder.indexed = false;
        if extend_under(alloc, &self.changes, list, &mut overlaid).is_err()
            || extend(alloc, &self.added, &mut overlaid).is_err()
        {
            drop(overlaid);
            return Err(AllocError);
        }
        Ok(overlaid)
    }
}
