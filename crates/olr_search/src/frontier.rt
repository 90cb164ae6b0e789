//! The state of a search: labels by slot, the slots of the labelled nodes, and the queue of slots to continue from.
ghost use Rattle.std.specs.Prelude.{◌≡◌, ◌<◌, OnErr, OnOk};
ghost use Rattle.olr_search.specs.Notes.{AreAllReached, NotesOnce};
ghost use Rattle.olr_search.specs.Queues.{IsPopped, LowLabels};

use crate::queue::Queue;
use olr_model::{MapRead, NodeId};
use std::alloc::{AllocError, Global};

/// The greatest distance of two location reference points, in decimetres.
pub const LEG_LIMIT: u32 = 150_000;

/// The greatest limit of a search, in decimetres: lines count at most twice their length, and one more where a search
/// begins at 1.
pub const GREATEST_LIMIT: u32 = 300_001;

/// The entry of the table for no label. Each label is less than it.
pub const UNREACHED: u32 = 300_002;

/// The labels by slot, in decimetres, the slots of the labelled nodes, and the queue of slots to continue from.
#[derive(Drop)]
pub struct Frontier {
    table: Vec<u32>,
    reached: Vec<u32>,
    queue: Queue,
    /// A running total of the lines at queued slots, modulo 2^64. Its only use is that these lines are read, and so are in
    /// the processor's cache, some time before the search follows them.
    lines_ahead: u64,
    ghost noted: { AreAllReached table.items reached.items },
    ghost low: { LowLabels table.items queue },
}

/// Records the slot of a node that has no label yet.
fn note(reached: &mut Vec<u32>, label: u32, slot: u32) -> Result<(), AllocError>
    ensures noted { OnOk result (NotesOnce reached.old.items reached.new.items label slot) }
    ensures unchanged { OnErr result (reached.new.items ≡ reached.old.items) }
{
    if label > GREATEST_LIMIT {
        reached.push(slot)?;
    }
    Ok(())
}

impl Frontier {
    ghost use Rattle.std.specs.Prelude.{◌≤◌, ◌++◌, ◌∷◌, ℕ, [], cond, IsTrue, IfOk, IfSome, IfNone, nat_le};
    ghost use Rattle.std.specs.List.{filter};
    ghost use Rattle.olr_spec.specs.Map.{has_node};
    ghost use Rattle.olr_search.specs.Notes.{AreFilled, AreNodesIn};
    ghost use Rattle.olr_search.specs.Frontiers.{label_of, frontier_len, IsAlike, IsRelaxed, IsEmpty, IsQueued};

    /// No labels. Does not allocate.
    pub fn new(alloc: Global) -> Frontier
        ensures { IsEmpty result }
    {
        Frontier {
            table: Vec::new(alloc),
            reached: Vec::new(alloc),
            queue: Queue::new(alloc),
            lines_ahead: 0,
        }
    }

    /// The label in a slot; `UNREACHED` if there is none.
    pub fn label(&self, slot: u32) -> u32
        ensures { result ≡ label_of self.now slot }
    {
        self.table.get(slot as usize).copied().unwrap_or(UNREACHED)
    }

    /// The slots of the labelled nodes, each once.
    pub fn labelled_slots(&self) -> &[u32]
        ensures { result.now ≡ self.now.reached.items }
    {
        &self.reached
    }

    /// Appends the node in a slot, if the label there is at most `limit`.
    fn push_within<M: MapRead>(
        &self,
        map: &M,
        slot: u32,
        limit: u32,
        nodes: &mut Vec<NodeId>,
    ) -> Result<(), AllocError>
        ensures { OnOk result ((v : ℕ) → IsTrue (has_node (M.map map.now) v) → M.node_slot map.now v ≡ slot
            → nodes.new.items ≡ nodes.old.items ++ cond (nat_le (label_of self.now slot) limit) (v ∷ []) []) }
    {
        if self.label(slot) > limit {
            return Ok(());
        }
        if let Some(node) = map.node_at(slot) {
            nodes.push(node)?;
        }
        Ok(())
    }

    /// The nodes whose labels are at most `limit`, in no particular order.
    #[tactic(auto, using(crate::proofs::DistinctLemmas::no_nodes))]
    pub fn nodes_within<M: MapRead>(
        &self,
        alloc: Global,
        map: &M,
        limit: u32,
    ) -> Result<Vec<NodeId>, AllocError>
        ensures { IfOk result (λ nodes. AreFilled (M.map map.now) (M.node_slot map.now) self.now.reached.items
            → AreNodesIn (M.map map.now) (M.node_slot map.now)
            (filter (λ p. nat_le (label_of self.now p) limit) self.now.reached.items) nodes.items) }
    {
        let mut nodes = Vec::with_capacity(alloc, self.reached.len())?;
        for slot in &self.reached {
            self.push_within(map, *slot, limit, &mut nodes)?;
        }
        Ok(nodes)
    }

    /// Removes all labels. Takes time proportional to their number.
    #[tactic(auto, using(crate::proofs::NoteLemmas::none_queued, crate::proofs::NoteLemmas::noted_less, crate::proofs::NoteLemmas::noted_past))]
    pub fn clear(&mut self)
        ensures { IsEmpty self.new }
    {
        self.queue.clear();
        while let Some(reached) = self.reached.pop() {
            let slot = reached as usize;
            if slot < self.table.len() {
                self.table[slot] = UNREACHED;
            }
        }
    }

    /// Makes the table long enough for `count` slots.
    pub fn make_room(&mut self, count: usize) -> Result<(), AllocError>
        ensures room { OnOk result (count ≤ frontier_len self.new) }
        ensures empty { IsEmpty self.old → IsEmpty self.new }
        ensures labels { (p : ℕ) → label_of self.new p ≡ label_of self.old p }
        ensures reached { self.new.reached.items ≡ self.old.reached.items }
        ensures queue { self.new.queue ≡ self.old.queue }
    {
        if self.table.len() < count {
            self.table.resize(count, UNREACHED)?;
        }
        Ok(())
    }

    /// Lowers a node's label to a length in decimetres and queues its slot, from where the search will follow this many
    /// lines. No effect if the label is no greater.
    #[tactic(auto, using(crate::proofs::NoteLemmas::read_label, crate::proofs::NoteLemmas::noted_more))]
    pub fn relax(&mut self, slot: u32, dist: u32, lines: usize) -> Result<(), AllocError>
        requires { slot < frontier_len self.old }
        ensures { OnOk result (IsRelaxed self.old self.new slot dist) }
    {
        let label = self.table[slot as usize];
        if dist < label {
            note(&mut self.reached, label, slot)?;
            self.queue.push(dist, slot)?;
            self.table[slot as usize] = dist;
            self.lines_ahead = self.lines_ahead.wrapping_add(lines as u64);
        }
        Ok(())
    }

    /// Removes the least queued length, and returns it with its slot. None if no queued length is at most `limit`.
    pub fn pop_within(&mut self, limit: u32) -> Option<(u32, u32)>
        ensures alike { IsAlike self.old self.new }
        ensures popped { IfSome result (IsPopped self.old.queue self.new.queue limit) }
        ensures fewer { (d p : ℕ) → IsQueued self.new d p → IsQueued self.old d p }
        ensures far { IfNone result ((d p : ℕ) → IsQueued self.new d p → limit < d) }
        ensures same { IfNone result ((d p : ℕ) → IsQueued self.old d p → IsQueued self.new d p) }
    {
        self.queue.pop_within(limit)
    }
}
