//! A relation between numbers and path ids: which path ids a number has is found by the number.
ghost use Rattle.std.specs.Prelude.{◌≡◌, ◌<◌, ◌||◌, ◌==◌, ◌&&◌, not, ℕ, None, nat_eq, OnOk, OnErr, [], IsTrue};
ghost use Rattle.std.specs.HashMap.{get};
ghost use Rattle.std.specs.List.Sorted.{IsStrictlyIncreasing};
ghost use Rattle.olr_spec.specs.Map.{has};
ghost use Rattle.olr_paths.specs.Listed.{path_ids_in};

use olr_model::NumberHasher;
use smallvec::SmallVec;
use std::alloc::{AllocError, Global};
use std::collections::HashMap;
use std::hash::BuildHasherDefault;

/// The path ids of a number: most numbers have one, which is stored without an allocation.
type PathIds = SmallVec<u64, 1>;

/// Numbers and their path ids. Each number has each path id at most once, and a number without path ids has no entry.
pub struct Index {
    path_ids: HashMap<u32, PathIds, BuildHasherDefault<NumberHasher>>,
    /// No greater number has an entry: such a number isn't looked up.
    greatest: u32,
    alloc: Global,
    ghost ascend: { (number : ℕ) → IsStrictlyIncreasing (path_ids_in path_ids number) },
    ghost none_above: { (number : ℕ) → greatest < number → get nat_eq path_ids number ≡ None },
}

// Written out: a derived drop is proved again in each crate that ends an index.
impl Drop for Index {
    fn drop(self) {
        let Index {
            path_ids,
            greatest: _,
            alloc: _,
        } = self;
        drop(path_ids);
    }
}

impl Index {
    ghost use Rattle.olr_paths.specs.PathIds.{path_ids_of, holds};

    /// An index in which no number has a path id. Allocates nothing.
    pub fn new(alloc: Global) -> Index
        ensures { (number : ℕ) → path_ids_of result number ≡ [] }
    {
        Index {
            path_ids: HashMap::with_hasher(alloc, BuildHasherDefault::new()),
            greatest: 0,
            alloc,
        }
    }

    /// The path ids of a number, in ascending order, without duplicates.
    pub fn of(&self, number: u32) -> &[u64]
        ensures path_ids { result.now ≡ path_ids_of self.now number }
        ensures ascending { IsStrictlyIncreasing result.now }
    {
        if number > self.greatest {
            return &[];
        }
        match self.path_ids.get(&number) {
            Some(path_ids) => path_ids.as_slice(),
            None => &[],
        }
    }

    /// Whether it is known that no number has a path id.
    pub fn is_empty(&self) -> bool
        ensures { IsTrue result → (number : ℕ) → path_ids_of self.now number ≡ [] }
    {
        self.path_ids.is_empty()
    }

    /// Adds a path id to a number, unless the number has it. If an allocation fails, the path ids of all numbers are
    /// unchanged.
    pub fn add(&mut self, number: u32, path_id: u64) -> Result<(), AllocError>
        ensures ok { OnOk result ((n m : ℕ) → holds self.new n m
            ≡ (holds self.old n m || ((number == n) && (path_id == m)))) }
        ensures err { OnErr result ((n m : ℕ) → holds self.new n m ≡ holds self.old n m) }
    {
        self.greatest = self.greatest.max(number);
        let path_ids = self
            .path_ids
            .entry(number)?
            .or_insert(SmallVec::new(self.alloc));
        put(path_ids, path_id)
    }

    /// Removes a path id from a number, if the number has it. Allocates nothing.
    pub fn remove(&mut self, number: u32, path_id: u64)
        ensures { (n m : ℕ) → holds self.new n m
            ≡ (holds self.old n m && not ((number == n) && (path_id == m))) }
    {
        let Some(path_ids) = self.path_ids.get_mut(&number) else {
            return;
        };
        take_out(path_ids, path_id);
        if path_ids.is_empty() {
            self.path_ids.remove(&number);
        }
    }
}

/// Inserts a path id into a list in ascending order, unless the list has it. If an allocation fails, the list is
/// unchanged.
fn put(path_ids: &mut PathIds, path_id: u64) -> Result<(), AllocError>
    requires { IsStrictlyIncreasing path_ids.old.items }
    ensures ascend { IsStrictlyIncreasing path_ids.new.items }
    ensures ok { OnOk result ((m : ℕ) → has path_ids.new.items m ≡ (has path_ids.old.items m || (path_id == m))) }
    ensures err { OnErr result (path_ids.new.items ≡ path_ids.old.items) }
{
    if let Err(place) = path_ids.binary_search(&path_id) {
        path_ids.insert(place, path_id)?;
    }
    Ok(())
}

/// Removes a path id from a list in ascending order, if the list has it. Allocates nothing.
fn take_out(path_ids: &mut PathIds, path_id: u64)
    requires { IsStrictlyIncreasing path_ids.old.items }
    ensures ascend { IsStrictlyIncreasing path_ids.new.items }
    ensures holds { (m : ℕ) → has path_ids.new.items m ≡ (has path_ids.old.items m && not (path_id == m)) }
{
    if let Ok(place) = path_ids.binary_search(&path_id) {
        path_ids.remove(place);
    }
}
