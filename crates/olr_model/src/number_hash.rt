//! The hash of node and line numbers. Neighbouring numbers share a position of the hash table, and the next ones are at
//! the next position, so that a map with consecutive numbers is read with few cache misses, and each position has equally
//! many of them; other patterns of numbers are spread.
ghost use Rattle.std.specs.Prelude.{◌≡◌};
ghost use Rattle.olr_model.specs.Hashing.{number_write, number_hash};

use std::hash::Hasher;

/// How many neighbours share a position.
const NEIGHBOURS: u32 = 4;
/// How many blocks of neighbours follow each other without a gap.
const RUN: u64 = 1 << 7;
/// The gap after them, so that numbers at steps of a power of two spread.
const GAP: u64 = 3;
/// How many blocks there are up to a further gap.
const LONG_RUN: u64 = 1 << 18;
/// The further gap.
const LONG_GAP: u64 = 37;
/// An odd number without pattern: 2^32 divided by the golden ratio.
const SPREAD: u64 = 0x9e37_79b1;
/// The lowest of the bits of a hash that distinguish numbers at one position: first two for the neighbours of a block.
const TAG_SHIFT: u32 = 24;
/// The lowest of those that distinguish blocks.
const BLOCK_TAG: u64 = 1 << 26;

/// Hashes a number by the block of neighbours that contains it.
#[derive(Clone, Copy, Default)]
pub struct NumberHasher {
    number: u32,
}

impl NumberHasher {
    /// The last four bytes as a number, the lowest first.
    fn last_four(self) -> u32
        ensures { result ≡ self.number }
    {
        self.number
    }
}

impl Hasher for NumberHasher {
    ghost write = { number_write };

    ghost finish = { number_hash };

    fn finish(&self) -> u64 {
        let block = u64::from(self.number / NEIGHBOURS);
        let place = block + GAP * (block / RUN) + LONG_GAP * (block / LONG_RUN);
        let tag = block * SPREAD % (1 << 32) / BLOCK_TAG * BLOCK_TAG;
        place ^ tag ^ u64::from((self.number % NEIGHBOURS) << TAG_SHIFT)
    }

    /// The four bytes of a number are taken at once.
    fn write(&mut self, bytes: &[u8]) {
        let mut number = self.last_four();
        if let [first, second, third, fourth] = bytes {
            self.number = u32::from_le_bytes([*first, *second, *third, *fourth]);
            return;
        }
        for byte in bytes {
            number = number / 256 + (u32::from(*byte) << TAG_SHIFT);
        }
        self.number = number;
    }
}
