//! Values in slots. A value keeps its slot until it is removed.
ghost use Rattle.std.specs.Prelude.{◌≡◌, ◌<◌, ◌≤◌, ◌+◌, [], length, IsSome, OnOk};
ghost use Rattle.std.specs.Vec.{vec_capacity};
ghost use Rattle.olr_map.specs.Slotted.{IsSlotted, IsSlotted-prop};

use std::alloc::{AllocError, Global};
use std::mem;

/// The greatest number of slots, so that slot + 1 fits in a `u32`.
const MOST_SLOTS: usize = 0xffff_ffff;

/// The values by slot, and the free slots.
#[derive(Drop)]
pub struct Slab<V> {
    pub entries: Vec<Option<V>>,
    pub free: Vec<u32>,
    pub ghost slotted: { IsSlotted entries.items free.items (vec_capacity free) } by { IsSlotted-prop entries.items free.items (vec_capacity free) },
}

impl<V: Drop> Slab<V> {
    ghost use Rattle.olr_map.specs.Slotted.{at, IsInserted, IsRemoved};
    ghost use Rattle.olr_map.specs.Slabs.{slots_of, free_in, room_in, Fills};

    /// No slots. Does not allocate.
    pub fn new(alloc: Global) -> Slab<V>
        ensures { slots_of result ≡ [] }
    {
        Slab {
            entries: Vec::new(alloc),
            free: Vec::new(alloc),
        }
    }

    /// Reserves capacity for `additional` more values.
    pub fn reserve(&mut self, additional: usize) -> Result<(), AllocError>
        ensures same { slots_of self.new ≡ slots_of self.old }
        ensures free { free_in self.new ≡ free_in self.old }
        ensures more { room_in self.old ≤ room_in self.new }
        ensures room { OnOk result (additional ≤ room_in self.new) }
    {
        let free = self.free.len();
        if additional <= free {
            return Ok(());
        }
        let added = additional - free;
        let count = self.entries.len();
        if added > MOST_SLOTS - count {
            return Err(AllocError);
        }
        self.free.reserve((count + added).saturating_sub(free))?;
        self.entries.reserve(added)
    }

    /// Stores a value in a free slot, and returns the slot.
    #[tactic(auto, using(crate::proofs::SlotLemmas::push_none))]
    pub fn put(&mut self, entry: V) -> u32
        requires { 0 < room_in self.old }
        ensures inserts { IsInserted (slots_of self.old) (slots_of self.new) result entry }
        ensures fills { Fills self.old self.new result }
        ensures room { room_in self.old ≤ room_in self.new + 1 }
    {
        match self.free.pop() {
            Some(slot) => {
                self.entries[slot as usize] = Some(entry);
                slot
            }
            None => {
                let slot = self.entries.len();
                self.entries.push_reserved(Some(entry));
                slot as u32
            }
        }
    }

    /// Removes the value in a slot, and returns it. The slot is then free.
    pub fn take(&mut self, slot: u32) -> V
        requires { IsSome (at (slots_of self.old) slot) }
        ensures removes { IsRemoved (slots_of self.old) (slots_of self.new) slot result }
        ensures count { length (slots_of self.new) ≡ length (slots_of self.old) }
        ensures free { free_in self.new ≡ free_in self.old + 1 }
        ensures room { room_in self.old + 1 ≤ room_in self.new }
    {
        let entry = mem::replace(&mut self.entries[slot as usize], None);
        self.free.push_reserved(slot);
        entry.unwrap()
    }
}
