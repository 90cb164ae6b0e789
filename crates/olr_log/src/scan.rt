//! The end of the whole records of a text that is read in blocks.

ghost use Rattle.std.specs.Prelude.{◌≡◌, ◌+◌, ◌^◌, ◌<◌, ◌≤◌, [], ◌∷◌, ◌++◌, List, ℕ, length, IfOk, OnOk};

use crate::whole::stays_open;
use std::alloc::{AllocError, Global};

/// How many bytes of a line tell what it is.
const MOST_BEGUN: usize = 8;

/// What is known of the text so far.
#[derive(Drop)]
pub struct Scan {
    /// The first bytes of the line that has begun.
    begun: Vec<u8>,
    is_open: bool,
    /// A carriage return was met.
    is_over: bool,
    at: usize,
    /// The end of the whole records.
    pub found: usize,
    /// The end of what isn't a carriage return.
    pub last: usize,
    ghost ordered: { (found ≤ at) × (last ≤ at) },
}

impl Scan {
    ghost use Rattle.olr_log.specs.Scanning.{Scanned};

    /// Before the first byte.
    pub fn new(alloc: Global) -> Result<Scan, AllocError>
        ensures { IfOk result (λ scan. Scanned scan []) }
    {
        Ok(Scan {
            begun: Vec::with_capacity(alloc, MOST_BEGUN)?,
            is_open: false,
            is_over: false,
            at: 0,
            found: 0,
            last: 0,
        })
    }

    /// Takes the next bytes.
    pub fn take(&mut self, bytes: &[u8]) -> Result<(), AllocError>
        requires { self.old.at + length bytes.now < 2 ^ 64 }
        ensures at { OnOk result (self.new.at ≡ self.old.at + length bytes.now) }
        ensures text { (text : List ℕ) → Scanned self.old text → OnOk result (Scanned self.new (text ++ bytes.now)) }
    {
        for byte in bytes {
            self.take_one(*byte)?;
        }
        Ok(())
    }

    /// Takes the next byte.
    fn take_one(&mut self, byte: u8) -> Result<(), AllocError>
        requires { self.old.at + 1 < 2 ^ 64 }
        ensures at { OnOk result (self.new.at ≡ self.old.at + 1) }
        ensures text { (text : List ℕ) → Scanned self.old text → OnOk result (Scanned self.new (text ++ byte ∷ [])) }
    {
        self.at += 1;
        if byte == b'\r' {
            self.is_over = true;
            return Ok(());
        }
        self.last = self.at;
        if self.is_over {
            return Ok(());
        }
        if byte != b'\n' {
            if self.begun.len() < MOST_BEGUN {
                self.begun.push(byte)?;
            }
            return Ok(());
        }
        self.is_open = stays_open(self.is_open, &self.begun);
        if !self.is_open && !self.begun.is_empty() {
            self.found = self.at;
        }
        self.begun.clear();
        Ok(())
    }
}
