//! The slots from which a search continues, the nearest first.
ghost use Rattle.std.proofs.Props.{props};
ghost use Rattle.std.specs.BinaryHeap.{IsHeap, heap_items};
ghost use Rattle.std.specs.List.{IsDistinct};
ghost use Rattle.olr_search.specs.Entries.{entry_cmp, entry_eq};

use std::alloc::{AllocError, Global};
use std::cmp::Reverse;
use std::collections::BinaryHeap;

/// How many slots there may be.
const SLOTS: u64 = 4_294_967_296;

/// Lengths, and the slots of the nodes that routes of these lengths reach, each pair once and as one number. Keeps its
/// capacity when it is cleared.
#[derive(Drop)]
pub struct Queue {
    heap: BinaryHeap<Reverse<u64>>,
    ghost ordered: { IsHeap entry_cmp (heap_items heap) } by { Prim.hlevel props },
    ghost once: { IsDistinct entry_eq (heap_items heap) } by { Prim.hlevel props },
}

impl Queue {
    ghost use Rattle.std.specs.Prelude.{◌≡◌, ◌<◌, ◌+◌, ◌⊎◌, ℕ, OnOk, OnErr, IfSome, IfNone};
    ghost use Rattle.olr_search.specs.Queues.{Queued, IsPopped, queue_len};

    /// The empty queue. Does not allocate.
    #[tactic(auto, using(crate::proofs::HeapLemmas::none_once))]
    pub fn new(alloc: Global) -> Queue
        ensures { queue_len result ≡ 0 }
    {
        Queue {
            heap: BinaryHeap::new(alloc),
        }
    }

    /// Removes all entries.
    #[tactic(auto, using(crate::proofs::HeapLemmas::none_once))]
    pub fn clear(&mut self)
        ensures { queue_len self.new ≡ 0 }
    {
        self.heap.clear();
    }

    /// Adds a slot, at a length in decimetres at which it is not queued.
    #[tactic(auto, using(crate::proofs::HeapLemmas::pushed_there, crate::proofs::HeapLemmas::pushed_kept, crate::proofs::HeapLemmas::pushed_added))]
    pub fn push(&mut self, dist: u32, slot: u32) -> Result<(), AllocError>
        requires { ¬ Queued self.old dist slot }
        ensures there { OnOk result (Queued self.new dist slot) }
        ensures kept { OnOk result ((d p : ℕ) → Queued self.old d p → Queued self.new d p) }
        ensures added { OnOk result ((d p : ℕ) → Queued self.new d p → Queued self.old d p
            ⊎ ((d ≡ dist) × (p ≡ slot))) }
        ensures unchanged { OnErr result ((d p : ℕ) → Queued self.new d p → Queued self.old d p) }
        ensures len { OnOk result (queue_len self.new ≡ queue_len self.old + 1) }
    {
        let entry = u64::from(dist) * SLOTS + u64::from(slot);
        self.heap.push(Reverse(entry))?;
        Ok(())
    }

    /// Removes the least length, and returns it with its slot. None if no length is at most `limit`.
    pub fn pop_within(&mut self, limit: u32) -> Option<(u32, u32)>
        ensures popped { IfSome result (IsPopped self.old self.new limit) }
        ensures fewer { (d p : ℕ) → Queued self.new d p → Queued self.old d p }
        ensures far { IfNone result ((d p : ℕ) → Queued self.new d p → limit < d) }
        ensures same { IfNone result (self.new ≡ self.old) }
    {
        let Reverse(next) = *self.heap.peek()?;
        if next / SLOTS > u64::from(limit) {
            return None;
        }
        let Reverse(nearest) = self.heap.pop()?;
        Some(((nearest / SLOTS) as u32, (nearest % SLOTS) as u32))
    }
}
