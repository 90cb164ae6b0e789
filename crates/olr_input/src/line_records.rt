//! The records of an input, one for each line of it that isn't empty.

ghost use Rattle.std.specs.Prelude.{◌≡◌, ◌<◌, ◌+◌, ◌⊎◌, ◌++◌, ◌∷◌, ℕ, List, [], length, take, map, true, if◌then◌else◌, slice_index, IfOk, IfErr, OnOk, MatchOption};
ghost use Rattle.csv.specs.Records.{fields_of};
ghost use Rattle.olr_input.specs.LineRecords.{HasNoEnd, if_any, line_record, most_in_line, unmarked};
ghost use Rattle.olr_input.specs.Lines.{is_line_end};

use crate::blocks::Blocks;
use crate::ends::RunFault;
use crate::lines::ends_any;
use crate::machine::{State, ends_open, first_record, without_mark};
use crate::sources::Source;
use csv::ByteRecord;
use memchr::memchr2;
use std::alloc::{AllocError, Global};
use std::io::Read;

/// The most bytes of a line, 16 MB.
const MOST_IN_LINE: usize = 1 << 24;

/// Of a line with more bytes, the others are left out: it is too long, even after a byte order mark.
const MOST_KEPT: usize = MOST_IN_LINE + 3;

/// Adds bytes to a line, unless it is too long already.
fn keep(line: &mut Vec<u8>, bytes: &[u8]) -> Result<(), AllocError>
    ensures { OnOk result ((line.new.items ≡ line.old.items ++ bytes.now)
        ⊎ ((line.new.items ≡ line.old.items) × (most_in_line + 3 < length line.old.items))) }
{
    if line.len() > MOST_KEPT {
        return Ok(());
    }
    line.extend_from_slice(bytes)
}

/// The bytes of a line. Those of the first one come after a byte order mark, if there is one.
fn line_bytes(line: &[u8], is_first: bool) -> &[u8]
    ensures { result.now ≡ unmarked is_first line.now }
{
    if is_first { without_mark(line) } else { line }
}

/// Reads the record of a line, if it isn't empty.
#[tactic(auto, using(crate::proofs::LineRecords::rejected_record, crate::proofs::LineRecords::record_is, crate::proofs::LineRecords::reads_some, crate::proofs::LinesRead::no_end_unmarked, crate::proofs::LinesRead::finds_one))]
fn read_line(
    line: &[u8],
    is_first: bool,
    row: &mut ByteRecord,
    field: &mut Vec<u8>,
) -> Result<bool, AllocError>
    requires { HasNoEnd line.now }
    ensures { IfOk result (λ found. map line_record (if_any (unmarked is_first line.now))
        ≡ (if found then fields_of row.new ∷ [] else [])) }
{
    let line = line_bytes(line, is_first);
    if line.is_empty() {
        return Ok(false);
    }
    if line.len() > MOST_IN_LINE || ends_open(line) {
        row.clear();
        row.push_field(b"!")?;
        return Ok(true);
    }
    first_record(line, State::StartRecord, row, field)?;
    Ok(true)
}

/// Reads the record of a line, if it isn't empty, of which this is the last part. The line isn't copied if it is in one part.
fn read_end(
    line: &mut Vec<u8>,
    part: &[u8],
    is_first: bool,
    row: &mut ByteRecord,
    field: &mut Vec<u8>,
) -> Result<bool, AllocError>
    requires line { HasNoEnd line.old.items }
    requires part { HasNoEnd part.now }
    ensures { IfOk result (λ found. (kept : List ℕ) × ((kept ≡ line.old.items ++ part.now)
        ⊎ ((kept ≡ line.old.items) × (most_in_line + 3 < length line.old.items)))
        × (map line_record (if_any (unmarked is_first kept)) ≡ (if found then fields_of row.new ∷ [] else []))) }
{
    if line.is_empty() {
        return read_line(part, is_first, row, field);
    }
    keep(line, part)?;
    read_line(line.as_slice(), is_first, row, field)
}

/// The index of the first byte that ends a line.
#[tactic(auto, using(crate::proofs::LineRecords::none_pass, crate::proofs::LineRecords::no_pass))]
fn first_end(bytes: &[u8]) -> Option<usize>
    ensures { MatchOption result (HasNoEnd bytes.now) (λ i. (i < length bytes.now)
        × HasNoEnd (take i bytes.now) × (is_line_end (slice_index bytes.now i) ≡ true)) }
{
    memchr2(b'\n', b'\r', bytes)
}

/// The records of the lines of an input. A line that ends with an open quote, or has more than 16 MB, gives a record that no
/// command has.
#[derive(Drop)]
pub struct LineRecords<R: Drop> {
    source: Blocks<R>,
    /// Whether no line has ended yet.
    is_first: bool,
    /// The first bytes of a line, if it is in more than one block.
    line: Vec<u8>,
    /// A buffer for a field.
    field: Vec<u8>,
    failed: bool,
}

impl<R: Read + Drop> LineRecords<R> {
    ghost use Rattle.std.specs.Prelude.{Some, None, IfSome};
    ghost use Rattle.std.specs.Io.KnownBytes.{IsAtEnd};
    ghost use Rattle.olr_input.specs.Blocks.{block_of, input_left};
    ghost use Rattle.olr_input.specs.LineRecords.{line_records, lines_left, Steps};
    ghost use Rattle.olr_input.specs.Sessions.{IsOfTaking};

    /// The records of an input.
    pub(crate) fn new(alloc: Global, input: R) -> Result<LineRecords<R>, AllocError>
        ensures { IfOk result (λ s. IfSome (R.remaining input) (λ bytes. lines_left R.remaining s (line_records bytes))) }
    {
        Ok(LineRecords {
            source: Blocks::new(alloc, input)?,
            is_first: true,
            line: Vec::new(alloc),
            field: Vec::new(alloc),
            failed: false,
        })
    }

    /// Reads the last line, at the end of the input.
    fn end_input(&mut self, row: &mut ByteRecord) -> Result<bool, AllocError>
        requires one { HasNoEnd self.old.line.items }
        requires end { IsAtEnd (input_left R.remaining self.old.source) }
        ensures { IfOk result (λ found. Steps R.remaining self.old self.new (Some found) (fields_of row.new)) }
    {
        let found = read_line(self.line.as_slice(), self.is_first, row, &mut self.field)?;
        self.line.clear();
        self.is_first = false;
        Ok(found)
    }

    /// Keeps a block, in which the line doesn't end.
    fn keep_block(&mut self) -> Result<(), AllocError>
        requires one { HasNoEnd self.old.line.items }
        requires block { HasNoEnd (block_of self.old.source) }
        ensures { OnOk result (Steps R.remaining self.old self.new None []) }
    {
        let block = self.source.block();
        let count = block.len();
        keep(&mut self.line, block)?;
        self.source.consume(count);
        Ok(())
    }

    /// Reads the line that ends at this index of the block, if it isn't empty.
    fn end_line(&mut self, end: usize, row: &mut ByteRecord) -> Result<bool, AllocError>
        requires one { HasNoEnd self.old.line.items }
        requires within { end < length (block_of self.old.source) }
        requires part { HasNoEnd (take end (block_of self.old.source)) }
        requires end { is_line_end (slice_index (block_of self.old.source) end) ≡ true }
        ensures { IfOk result (λ found. Steps R.remaining self.old self.new (if found then Some true else None)
            (fields_of row.new)) }
    {
        let part = &self.source.block()[..end];
        let found = read_end(&mut self.line, part, self.is_first, row, &mut self.field)?;
        self.line.clear();
        self.is_first = false;
        self.source.consume(end + 1);
        Ok(found)
    }

    /// Goes on to the end of a line, or of a block. None if there is no record yet.
    fn step(&mut self, row: &mut ByteRecord) -> Result<Option<bool>, RunFault>
        requires { HasNoEnd self.old.line.items }
        ensures steps { IfOk result (λ r. Steps R.remaining self.old self.new r (fields_of row.new)) }
        ensures fault { IfErr result (λ e. IsOfTaking e) }
    {
        if self.source.fill().is_err() {
            return Err(RunFault::Read);
        }
        let block = self.source.block();
        if block.is_empty() {
            return Ok(Some(self.end_input(row)?));
        }
        let Some(end) = first_end(block) else {
            self.keep_block()?;
            return Ok(None);
        };
        let found = self.end_line(end, row)?;
        Ok(if found { Some(true) } else { None })
    }

    /// Takes the next record. Returns false if there is none. Not inlined: it would take room in each call of `next`, whatever
    /// the input.
    #[inline(never)]
    fn take(&mut self, row: &mut ByteRecord) -> Result<bool, RunFault>
        requires { HasNoEnd self.old.line.items }
        ensures steps { IfOk result (λ found. Steps R.remaining self.old self.new (Some found) (fields_of row.new)) }
        ensures fault { IfErr result (λ e. IsOfTaking e) }
    {
        for _ in 0..u64::MAX {
            if let Some(found) = self.step(row)? {
                return Ok(found);
            }
        }
        Err(RunFault::Read)
    }
}

impl<R: Read + Drop> Source for LineRecords<R> {
    ghost use Rattle.olr_input.specs.LineRecords.{lines_left};

    ghost left = { lines_left R.remaining };

    ghost failed = { λ s. s.failed };

    fn next(&mut self, row: &mut ByteRecord) -> Result<bool, RunFault> {
        if self.failed {
            return Ok(false);
        }
        self.line.clear();
        let taken = self.take(row);
        self.failed = taken.is_err();
        taken
    }

    /// False exactly if a line that isn't empty ends in the block.
    fn may_wait(&self) -> bool {
        !ends_any(self.source.block())
    }
}
