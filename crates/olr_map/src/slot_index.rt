//! Slots by number: an array for low numbers, and a table for the others.
ghost use Rattle.std.specs.Prelude.{◌≡◌, ◌<◌, ℕ, None, length};
ghost use Rattle.olr_map.specs.NumberTables.{held, IsSetAt};

use crate::number_table::NumberTable;
use std::alloc::{AllocError, Global};

/// The array may have this many numbers in any case, and `reserve` reserves capacity for as many more.
const LEAST: usize = 64;

/// Slots by number. The array gets no longer than four times the count of numbers that have slots, or `LEAST`. So if numbers
/// ascend from 1, as on most maps, each is found there, and numbers with large gaps between them take no memory for it.
#[derive(Drop)]
pub struct SlotIndex {
    /// For each number below its length the slot plus one, or 0.
    pub dense: Vec<u32>,
    /// The slots of the other numbers.
    pub sparse: NumberTable<u32>,
    /// How many numbers have slots. It only decides how long the array may be.
    count: usize,
    ghost apart: { (k : ℕ) → k < length dense.items → held sparse k ≡ None },
}

impl SlotIndex {
    ghost use Rattle.std.specs.Prelude.{◌+◌, ◌^◌, ◌≤◌, ◌↔◌, [], IsSome, IsTrue, Some, OnOk};
    ghost use Rattle.olr_map.specs.SlotIndexes.{slot_by, spare_of, pairs_of};

    /// No slots. Does not allocate.
    pub fn new(alloc: Global) -> SlotIndex
        ensures { pairs_of result ≡ [] }
    {
        SlotIndex {
            dense: Vec::new(alloc),
            sparse: NumberTable::new(alloc),
            count: 0,
        }
    }

    /// The slot of this number.
    #[tactic(auto, using(crate::proofs::SlotsByNumber::slot_of_either, crate::proofs::SlotsByNumber::or_none))]
    pub fn get(&self, number: u32) -> Option<u32>
        ensures { result ≡ slot_by self.now number }
    {
        match self.dense.get(number as usize) {
            Some(slot) => slot.checked_sub(1),
            None => self.slot_beyond(number),
        }
    }

    /// The slot of this number in the table. Not inlined, so that a look-up in the array is.
    #[inline(never)]
    fn slot_beyond(&self, number: u32) -> Option<u32>
        ensures { result ≡ held self.now.sparse number }
    {
        self.sparse.get(number).copied()
    }

    /// Reserves capacity for `additional` more numbers.
    #[tactic(auto, using(crate::proofs::SlotsByNumber::slot_of_either))]
    pub fn reserve(&mut self, additional: usize) -> Result<(), AllocError>
        ensures same { (k : ℕ) → slot_by self.new k ≡ slot_by self.old k }
        ensures more { spare_of self.old ≤ spare_of self.new }
        ensures room { OnOk result (additional ≤ spare_of self.new) }
    {
        self.dense.reserve(LEAST)?;
        self.sparse.reserve(additional)
    }

    /// Makes the array longer, up to this number, as far as it may be and has capacity. Returns whether the number is in it.
    #[tactic(auto, using(crate::proofs::SlotsByNumber::lengthened))]
    fn cover(&mut self, number: u32) -> bool
        ensures slots { (k : ℕ) → slot_by self.new k ≡ slot_by self.old k }
        ensures sparse { self.new.sparse ≡ self.old.sparse }
        ensures covered { IsTrue result ↔ (number < length self.new.dense.items) }
    {
        let number = number as usize;
        if number < self.count.saturating_mul(4).max(LEAST) {
            while self.dense.len() <= number
                && self.dense.len() < self.dense.capacity()
                && self.sparse.get(self.dense.len() as u32).is_none()
            {
                self.dense.push_reserved(0);
            }
        }
        number < self.dense.len()
    }

    /// Stores the slot of a number that has none. Capacity for it is reserved.
    #[tactic(auto, using(crate::proofs::SlotsByNumber::changed_there, crate::proofs::SlotsByNumber::changed_beyond))]
    pub fn put(&mut self, number: u32, slot: u32)
        requires fits { slot + 1 < 2 ^ 32 }
        requires room { 0 < spare_of self.old }
        ensures put { IsSetAt (slot_by self.old) (slot_by self.new) number (Some slot) }
        ensures spare { spare_of self.old ≤ spare_of self.new + 1 }
    {
        self.count = self.count.saturating_add(1);
        if self.cover(number) {
            self.dense[number as usize] = slot + 1;
        } else {
            self.sparse.put(number, slot);
        }
    }

    /// Removes the slot of a number, and returns it.
    #[tactic(auto, using(crate::proofs::SlotsByNumber::slot_of_either, crate::proofs::SlotsByNumber::beyond, crate::proofs::SlotsByNumber::changed_there, crate::proofs::SlotsByNumber::changed_beyond))]
    pub fn take(&mut self, number: u32) -> u32
        requires { IsSome (slot_by self.old number) }
        ensures was { slot_by self.old number ≡ Some result }
        ensures taken { IsSetAt (slot_by self.old) (slot_by self.new) number None }
        ensures spare { spare_of self.old ≤ spare_of self.new }
    {
        self.count = self.count.saturating_sub(1);
        let place = number as usize;
        if place < self.dense.len() {
            let next = self.dense[place];
            self.dense[place] = 0;
            next - 1
        } else {
            self.sparse.take(number)
        }
    }
}
