//! The lines that leave a node, or those that enter it, each with its far end.
ghost use Rattle.std.specs.Prelude.{◌≡◌, ◌+◌, ◌<◌, ◌≤◌, [], None, length, insert, remove, set, take, IfOk, OnOk, IsFalse};
ghost use Rattle.std.specs.List.Sorted.{IsStrictlyIncreasing, IsBinarySearchResult, IsSearchInRange};
ghost use Rattle.std.specs.Ordering.{nat_cmp};
ghost use Rattle.std.specs.Vec.{vec_capacity};
ghost use Rattle.olr_spec.specs.Map.{has};

use crate::inline::{INLINE, Inline};
use olr_model::{LineEnd, LineId, NodeLines};
use std::alloc::{AllocError, Global};

/// The numbers of lines in ascending order, and the far end of each.
#[derive(Drop)]
pub enum Links {
    /// At most four lines, in the value itself.
    Inline(Inline),
    /// A list that needs, or needed, capacity for more than four lines.
    Spilled(Box<Spilled>),
}

/// The memory of an empty list of lines: its vectors, if it has any.
pub type EmptyLinks = Option<Box<Spilled>>;

/// The numbers of lines, and the far end of each, in vectors.
#[derive(Drop)]
pub struct Spilled {
    pub lines: Vec<LineId>,
    pub ends: Vec<LineEnd>,
    ghost beside: { length ends.items ≡ length lines.items },
}

impl Links {
    ghost use Rattle.olr_map.specs.Linked.{lines_on, ends_on, links_room, lines_kept, room_kept, IsBare, IsPut, IsRoomier};

    /// The empty list in this memory.
    pub fn in_empty(spare: EmptyLinks) -> Links
        ensures { IsBare result spare }
    {
        match spare {
            None => Links::Inline(Inline::new()),
            Some(spilled) => Links::Spilled(spilled),
        }
    }

    /// The memory of an empty list.
    pub fn into_empty(self) -> EmptyLinks
        requires { lines_on self ≡ [] }
        ensures lines { lines_kept result ≡ [] }
        ensures room { room_kept result ≡ links_room self }
    {
        match self {
            Links::Inline(_) => None,
            Links::Spilled(spilled) => Some(spilled),
        }
    }

    /// The lines, with their far ends.
    pub fn as_slices(&self) -> NodeLines<'_>
        ensures lines { result.lines.now ≡ lines_on self.now }
        ensures ends { result.ends.now ≡ ends_on self.now }
    {
        match self {
            Links::Inline(inline) => inline.as_slices(),
            Links::Spilled(spilled) => NodeLines {
                lines: spilled.lines.as_slice(),
                ends: spilled.ends.as_slice(),
            },
        }
    }

    /// These lines, with capacity for as many again.
    fn in_vectors(alloc: Global, inline: &Inline) -> Result<Links, AllocError>
        ensures lines { IfOk result (λ l. lines_on l ≡ take inline.now.count inline.now.lines) }
        ensures ends { IfOk result (λ l. ends_on l ≡ take inline.now.count inline.now.ends) }
        ensures room { IfOk result (λ l. 8 ≤ links_room l) }
    {
        let inline = inline.as_slices();
        let lines = copied(alloc, inline.lines)?;
        let ends = copied(alloc, inline.ends)?;
        Ok(Links::Spilled(Box::new(alloc, Spilled { lines, ends })?))
    }

    /// Reserves capacity for one more line.
    pub fn reserve(&mut self, alloc: Global) -> Result<(), AllocError>
        ensures same { IsRoomier self.old self.new }
        ensures room { OnOk result (length (lines_on self.new) < links_room self.new) }
    {
        match self {
            Links::Inline(inline) => {
                if inline.count as usize == INLINE {
                    *self = Links::in_vectors(alloc, inline)?;
                }
                Ok(())
            }
            Links::Spilled(spilled) => {
                spilled.lines.reserve(1)?;
                spilled.ends.reserve(1)
            }
        }
    }

    /// Sets the far end of a line, which is inserted if it is not in the list, or removes the line. Capacity for a new
    /// line is reserved, and remains after a removal.
    #[tactic(auto, using(crate::proofs::Listing::reset, crate::proofs::Listing::removed))]
    pub fn put(&mut self, id: LineId, end: Option<LineEnd>)
        requires ascending { IsStrictlyIncreasing (lines_on self.old) }
        requires room { IsFalse (has (lines_on self.old) id) → length (lines_on self.old) < links_room self.old }
        ensures { IsPut self.old self.new id end }
    {
        match (position_of(self.as_slices().lines, id), end) {
            (Ok(at), Some(end)) => self.set_at(at, end),
            (Ok(at), None) => self.remove(at),
            (Err(at), Some(end)) => self.insert(at, id, end),
            (Err(_), None) => {}
        }
    }

    /// Inserts a line at this position. Capacity for it is reserved.
    fn insert(&mut self, at: usize, id: LineId, end: LineEnd)
        requires within { at ≤ length (lines_on self.old) }
        requires room { length (lines_on self.old) < links_room self.old }
        ensures lines { lines_on self.new ≡ insert (lines_on self.old) at id }
        ensures ends { ends_on self.new ≡ insert (ends_on self.old) at end }
        ensures room { links_room self.new ≡ links_room self.old }
    {
        match self {
            Links::Inline(inline) => inline.insert(at, id, end),
            Links::Spilled(spilled) => {
                let vectors = &mut **spilled;
                let lines: Result<_, _> = vectors.lines.insert(at, id);
                let ends: Result<_, _> = vectors.ends.insert(at, end);
                lines.unwrap();
                ends.unwrap();
            }
        }
    }

    /// Removes the line at this position.
    fn remove(&mut self, at: usize)
        requires { at < length (lines_on self.old) }
        ensures lines { lines_on self.new ≡ remove (lines_on self.old) at }
        ensures ends { ends_on self.new ≡ remove (ends_on self.old) at }
        ensures room { links_room self.new ≡ links_room self.old }
        ensures free { length (lines_on self.new) < links_room self.new }
    {
        match self {
            Links::Inline(inline) => inline.remove(at),
            Links::Spilled(spilled) => {
                let vectors = &mut **spilled;
                let _ = vectors.lines.remove(at);
                let _ = vectors.ends.remove(at);
            }
        }
    }

    /// Sets another far end for the line at this position.
    fn set_at(&mut self, at: usize, end: LineEnd)
        requires { at < length (lines_on self.old) }
        ensures lines { lines_on self.new ≡ lines_on self.old }
        ensures ends { ends_on self.new ≡ set (ends_on self.old) at end }
        ensures room { links_room self.new ≡ links_room self.old }
    {
        match self {
            Links::Inline(inline) => inline.ends[at] = end,
            Links::Spilled(spilled) => spilled.ends[at] = end,
        }
    }
}

/// The position of a line among ascending numbers, or the one at which it is to be inserted. Most new lines have the
/// greatest number so far, and are not searched for.
fn position_of(lines: &[LineId], id: LineId) -> Result<usize, usize>
    ensures bound { IsSearchInRange result (length lines.now) }
    ensures position { IsBinarySearchResult (λ y. nat_cmp y id) lines.now result }
{
    let count = lines.len();
    if count > 0 && lines[count - 1] < id {
        return Err(count);
    }
    lines.binary_search(&id)
}

/// These values, with capacity for as many as a list in vectors has at first.
fn copied<T: Copy>(alloc: Global, values: &[T]) -> Result<Vec<T>, AllocError>
    ensures items { IfOk result (λ m. m.items ≡ values.now) }
    ensures room { IfOk result (λ m. 8 ≤ vec_capacity m) }
{
    let mut copies = Vec::with_capacity(alloc, 2 * INLINE)?;
    copies.extend_from_slice(values)?;
    Ok(copies)
}
