//! Which paths have a node or a line, found by its number.
ghost use Rattle.std.specs.Prelude.{◌≡◌, Contains, IsTrue, OnOk, OnErr};

use crate::index::Index;
use crate::keys::Keys;
use crate::numbered::Numbered;
use olr_answers::CoverageQuery;
use olr_model::{LineId, NodeId};
use std::alloc::{AllocError, Global};

/// The path ids by the numbers of traversed nodes, of nodes where coverage queries begin, and of lines. It may have
/// more entries than the paths need.
#[derive(Drop)]
pub struct Finder {
    /// By the numbers of traversed nodes.
    pub traversed: Index,
    /// By the numbers of nodes where coverage queries begin.
    pub by_query_origin: Index,
    /// By the numbers of lines.
    pub lines: Index,
    /// Whether it has the entries of the paths. If not, it has no entry at all.
    pub indexed: bool,
}

impl Finder {
    ghost use Rattle.olr_paths.specs.Finders.{IsNoted, Grows, Spares, keys_in};

    /// A finder without entries. Takes no memory.
    pub(crate) fn new(alloc: Global) -> Finder {
        Finder {
            traversed: Index::new(alloc),
            by_query_origin: Index::new(alloc),
            lines: Index::new(alloc),
            indexed: true,
        }
    }

    /// Adds the id of a path to its keys, where it has those of the path before: what is the same at the same position
    /// is not looked up again. If an allocation fails, some of the keys have it.
    pub(crate) fn note(
        &mut self,
        path_id: u64,
        keys: Keys<'_>,
        before: Keys<'_>,
    ) -> Result<(), AllocError>
        requires { IsNoted self.old path_id (keys_in before) }
        ensures noted { OnOk result (IsNoted self.new path_id (keys_in keys.entry)) }
        ensures grows { Grows self.old self.new }
        ensures spares { Spares path_id self.old self.new }
    {
        if !self.indexed {
            return Ok(());
        }
        self.traversed
            .note_each(path_id, keys.traversed, before.traversed)?;
        self.by_query_origin
            .note_each(path_id, keys.queries, before.queries)?;
        self.lines.note_each(path_id, keys.lines, before.lines)
    }

    /// Removes the id of a path from the keys of an earlier one, except from those that it has now. Takes no memory.
    pub(crate) fn forget(&mut self, path_id: u64, earlier: Keys<'_>, current: Keys<'_>)
        ensures stays { IsNoted self.old path_id (keys_in current.entry) → IsNoted self.new path_id (keys_in current.entry) }
        ensures spares { Spares path_id self.old self.new }
    {
        self.traversed
            .forget_nodes(path_id, earlier.traversed, current.traversed);
        self.by_query_origin
            .forget_each(path_id, earlier.queries, current.queries);
        self.lines
            .forget_each(path_id, earlier.lines, current.lines);
    }

    /// Adds the id of a path to its keys, and removes it from those of the path before. If an allocation fails, those of
    /// the path before have it.
    pub(crate) fn replace(
        &mut self,
        path_id: u64,
        before: Keys<'_>,
        after: Keys<'_>,
    ) -> Result<(), AllocError>
        requires { IsNoted self.old path_id (keys_in before) }
        ensures noted { OnOk result (IsNoted self.new path_id (keys_in after.entry)) }
        ensures err { OnErr result (IsNoted self.new path_id (keys_in before.entry)) }
        ensures spares { Spares path_id self.old self.new }
    {
        if let Err(error) = self.note(path_id, after, before) {
            self.forget(path_id, after, before);
            return Err(error);
        }
        self.forget(path_id, before, after);
        Ok(())
    }
}

/// Whether the item at a position is there and has this number.
fn is_at<T: Numbered>(items: &[T], k: usize, number: u32) -> bool
    ensures { IsTrue result → (x : _) × Contains items.now x × (T.number_of x ≡ number) }
{
    match items.get(k) {
        Some(item) => item.index_number() == number,
        None => false,
    }
}

/// Whether one of the items has this number.
fn is_among<T: Numbered>(items: &[T], number: u32) -> bool
    ensures { (x : _) → Contains items.now x → T.number_of x ≡ number → IsTrue result }
{
    items.iter().any(|item| item.index_number() == number)
}

impl Index {
    ghost use Rattle.std.specs.List.Sorted.{IsStrictlyIncreasing};
    ghost use Rattle.olr_paths.specs.Finders.{AllNoted, AddsOnly, ChangesOnly};

    /// Adds a path id to the numbers of these, where it has those of the path before: if the item at the same position has
    /// the same number, that isn't looked up. If an allocation fails, some of them have it.
    fn note_each<T: Numbered>(
        &mut self,
        path_id: u64,
        items: &[T],
        before: &[T],
    ) -> Result<(), AllocError>
        requires { AllNoted T.number_of self.old path_id before.now }
        ensures noted { OnOk result (AllNoted T.number_of self.new path_id items.now) }
        ensures grows { AddsOnly self.old self.new }
        ensures spares { ChangesOnly path_id self.old self.new }
    {
        for (k, item) in items.iter().enumerate() {
            let number = item.index_number();
            if is_at(before, k, number) {
                continue;
            }
            self.add(number, path_id)?;
        }
        Ok(())
    }

    /// Removes a path id from the numbers of earlier items, except from those of the items now. Takes no memory.
    fn forget_each<T: Numbered>(&mut self, path_id: u64, earlier: &[T], current: &[T])
        ensures stays { AllNoted T.number_of self.old path_id current.now
            → AllNoted T.number_of self.new path_id current.now }
        ensures spares { ChangesOnly path_id self.old self.new }
    {
        for (k, item) in earlier.iter().enumerate() {
            let number = item.index_number();
            if is_at(current, k, number) || is_among(current, number) {
                continue;
            }
            self.remove(number, path_id);
        }
    }

    /// Removes a path id from earlier nodes, except from the nodes now, which are searched by bisection. Takes no memory.
    fn forget_nodes(&mut self, path_id: u64, earlier: &[NodeId], current: &[NodeId])
        requires { IsStrictlyIncreasing current.now }
        ensures stays { AllNoted (λ v. v) self.old path_id current.now → AllNoted (λ v. v) self.new path_id current.now }
        ensures spares { ChangesOnly path_id self.old self.new }
    {
        for (k, node) in earlier.iter().enumerate() {
            if is_at(current, k, node.index_number()) {
                continue;
            }
            if current.binary_search(node).is_ok() {
                continue;
            }
            self.remove(node.number(), path_id);
        }
    }
}
