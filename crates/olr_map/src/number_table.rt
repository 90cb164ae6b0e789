//! Values by number, found by hash.
ghost use Rattle.std.specs.Prelude.{◌≡◌, ◌+◌, ◌≤◌, ◌<◌, ℕ, [], length, nat_eq, Some, None, IsSome, OnOk};
ghost use Rattle.std.specs.HashMap.{get};
ghost use Rattle.std.specs.Option.{option_copied};

use olr_model::NumberHasher;
use std::alloc::{AllocError, Global};
use std::collections::HashMap;
use std::hash::BuildHasherDefault;
use std::mem;

/// Values by number, at most one for each.
#[derive(Drop)]
pub struct NumberTable<V> {
    pub by_number: HashMap<u32, V, BuildHasherDefault<NumberHasher>>,
    /// No greater number has a value: such a number isn't looked up.
    greatest: u32,
    ghost none_above: { (number : ℕ) → greatest < number → get nat_eq by_number number ≡ None },
}

impl<V: Drop> NumberTable<V> {
    ghost use Rattle.olr_map.specs.NumberTables.{held, spare_numbers, IsSetAt};

    /// No values. Does not allocate.
    pub fn new(alloc: Global) -> NumberTable<V>
        ensures { result.by_number.entries ≡ [] }
    {
        NumberTable {
            by_number: HashMap::with_hasher(alloc, BuildHasherDefault::new()),
            greatest: 0,
        }
    }

    /// The value with this number.
    pub fn get(&self, number: u32) -> Option<&V>
        ensures { option_copied result ≡ held self.now number }
    {
        if number > self.greatest {
            return None;
        }
        self.by_number.get(&number)
    }

    /// The number of values.
    pub fn len(&self) -> usize
        ensures { result ≡ length self.now.by_number.entries }
    {
        self.by_number.len()
    }

    /// Reserves capacity for `additional` more values.
    pub fn reserve(&mut self, additional: usize) -> Result<(), AllocError>
        ensures room { OnOk result (additional ≤ spare_numbers self.new) }
        ensures more { spare_numbers self.old ≤ spare_numbers self.new }
        ensures same { (k : ℕ) → held self.new k ≡ held self.old k }
    {
        self.by_number.reserve(additional)
    }

    /// Stores the value of a number. Capacity for it is reserved.
    pub fn put(&mut self, number: u32, value: V)
        requires { 0 < spare_numbers self.old }
        ensures put { IsSetAt (held self.old) (held self.new) number (Some value) }
        ensures spare { spare_numbers self.old ≤ spare_numbers self.new + 1 }
    {
        self.greatest = self.greatest.max(number);
        let inserted: Result<_, _> = self.by_number.insert(number, value);
        inserted.unwrap();
    }

    /// Replaces the value with this number, and returns the previous one.
    pub fn replace(&mut self, number: u32, value: V) -> V
        requires { IsSome (held self.old number) }
        ensures was { held self.old number ≡ Some result }
        ensures put { IsSetAt (held self.old) (held self.new) number (Some value) }
        ensures spare { spare_numbers self.old ≤ spare_numbers self.new }
    {
        mem::replace(self.by_number.get_mut(&number).unwrap(), value)
    }

    /// Removes the value with this number, and returns it.
    pub fn take(&mut self, number: u32) -> V
        requires { IsSome (held self.old number) }
        ensures was { held self.old number ≡ Some result }
        ensures taken { IsSetAt (held self.old) (held self.new) number None }
        ensures spare { spare_numbers self.old ≤ spare_numbers self.new }
    {
        self.by_number.remove(&number).unwrap()
    }
}
