//! The blocks of an input.

ghost use Rattle.std.specs.Prelude.{◌≡◌, ◌≤◌, ◌<◌, ◌+◌, ◌-◌, ◌^◌, ◌||◌, [], length, take, drop, min, false, not, nat_lt, IfOk, OnOk, OnErr};
ghost use Rattle.olr_input.specs.Lines.{HasLinesUpTo};

use crate::lines::{begins_with_line, last_plain_end};
use std::alloc::{AllocError, Global};
use std::io::{self, Read};

/// The most bytes that are read at once, 256 KB.
const BLOCK: usize = 1 << 18;

/// An input, and the block of it that was read last.
#[derive(Drop)]
pub struct Blocks<R: Drop> {
    input: R,
    bytes: Vec<u8>,
    /// Where what is left of the block starts.
    start: usize,
    end: usize,
    /// The index of the last byte that ends a line before the first quote.
    last_plain_end: usize,
    /// How many bytes were given.
    given: u64,
    ghost order: { start ≤ end },
    ghost within: { end ≤ length bytes.items },
    ghost some: { 0 < length bytes.items },
    ghost lines: { HasLinesUpTo last_plain_end (take end bytes.items) },
}

impl<R: Read + Drop> Blocks<R> {
    ghost use Rattle.std.specs.Io.KnownBytes.{Keeps, IsAtEnd};
    ghost use Rattle.olr_input.specs.Blocks.{block_of, bytes_from, input_left};
    ghost use Rattle.olr_input.specs.Lines.{IsWhole, has_line};

    /// An input of which no block was read.
    #[tactic(auto, using(crate::proofs::WholeLines::none_up_to))]
    pub(crate) fn new(alloc: Global, input: R) -> Result<Blocks<R>, AllocError>
        ensures block { IfOk result (λ b. block_of b ≡ []) }
        ensures input { IfOk result (λ b. b.input ≡ input) }
        ensures left { IfOk result (λ b. input_left R.remaining b ≡ R.remaining input) }
        ensures none { IfOk result (λ b. b.given ≡ 0) }
    {
        Ok(Blocks {
            input,
            bytes: vec![in alloc; 0; BLOCK]?,
            start: 0,
            end: 0,
            last_plain_end: 0,
            given: 0,
        })
    }

    /// What is left of the block.
    pub(crate) fn block(&self) -> &[u8]
        ensures { result.now ≡ block_of self.now }
    {
        &self.bytes.as_slice()[self.start..self.end]
    }

    /// Reads a block if nothing is left of the last one.
    #[tactic(auto, using(crate::proofs::BlockLemmas::block_read, crate::proofs::BlockLemmas::block_lost, crate::proofs::BlockLemmas::none_behind, crate::proofs::BlockLemmas::keeps_self, crate::proofs::WholeLines::none_up_to))]
    pub(crate) fn fill(&mut self) -> io::Result<()>
        ensures keeps { Keeps (input_left R.remaining self.old) (input_left R.remaining self.new) }
        ensures end { OnOk result (block_of self.new ≡ [] → IsAtEnd (input_left R.remaining self.new)) }
        ensures given { self.new.given ≡ self.old.given }
    {
        if self.start < self.end {
            return Ok(());
        }
        self.start = 0;
        self.end = 0;
        self.last_plain_end = 0;
        self.end = self.input.read(self.bytes.as_mut_slice())?;
        self.last_plain_end = last_plain_end(&self.bytes.as_slice()[..self.end]);
        Ok(())
    }

    /// Goes on after the first bytes of the block, which were given.
    #[tactic(auto, using(crate::proofs::BlockLemmas::block_after))]
    pub(crate) fn consume(&mut self, count: usize)
        requires { count ≤ length (block_of self.old) }
        ensures block { block_of self.new ≡ drop count (block_of self.old) }
        ensures input { self.new.input ≡ self.old.input }
        ensures given { self.new.given ≡ min (self.old.given + count) (2 ^ 64 - 1) }
    {
        self.start += count;
        self.given = self.given.saturating_add(count as u64);
    }

    /// Whether the next record may need a read of the input, which may wait. `position` is how many bytes a csv reader has
    /// taken in, of those that were given to it.
    #[tactic(auto, using(crate::proofs::WholeLines::whole_line))]
    pub(crate) fn may_wait(&self, position: u64) -> bool
        ensures is { result ≡ (nat_lt self.now.start (self.now.given - position)
            || not (has_line false (bytes_from position self.now))) }
        ensures whole { result ≡ false → IsWhole (bytes_from position self.now) }
    {
        let behind = self.given.saturating_sub(position);
        if behind > self.start as u64 {
            return true;
        }
        let start = self.start - behind as usize;
        !begins_with_line(
            &self.bytes.as_slice()[..self.end],
            start,
            self.last_plain_end,
        )
    }
}

impl<R: Read + Drop> Read for Blocks<R> {
    ghost use Rattle.std.specs.Io.{ReadsAtMost};
    ghost use Rattle.std.specs.Io.KnownBytes.{ReadConsumes};
    ghost use Rattle.olr_input.specs.Blocks.{input_left};

    ghost remaining = { input_left R.remaining };

    /// Reads no block before all of the last one is given.
    #[tactic(auto, using(crate::proofs::BlockLemmas::consumes_stored))]
    fn read(&mut self, bytes: &mut [u8]) -> io::Result<usize>
        ensures bound { ReadsAtMost result bytes.new }
        ensures bytes { ReadConsumes (input_left R.remaining self.old) (input_left R.remaining self.new) result bytes.new }
        ensures given { IfOk result (λ n. self.new.given ≡ min (self.old.given + n) (2 ^ 64 - 1)) }
        ensures err { OnErr result (self.new.given ≡ self.old.given) }
    {
        self.fill()?;
        let block = self.block();
        let count = block.len().min(bytes.len());
        bytes[..count].copy_from_slice(&block[..count]);
        self.consume(count);
        Ok(count)
    }
}
