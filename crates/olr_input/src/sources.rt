//! Sources of records, and the records of an input as `csv` reads them.

ghost use Rattle.std.specs.Prelude.{Bool, ℕ, List, IfOk, IfSome};
ghost use Rattle.csv.specs.Reading.{has_failed};
ghost use Rattle.csv.specs.Records.{fields_of};
ghost use Rattle.olr_input.specs.Sessions.{StaysPlain, TakesLeft, csv_left};

use crate::blocks::Blocks;
use crate::ends::RunFault;
use csv::{ByteRecord, ErrorKind, Reader, ReaderBuilder};
use std::alloc::{AllocError, Global};
use std::io::Read;

/// A source of records.
pub trait Source {
    /// The records that are left are these; after a fault there are none. If the bytes of an input are not known, no list
    /// has the records that are left.
    ghost left: { Self → List (List (List ℕ)) → Type 0 };

    /// Whether a reader or an allocation failed.
    ghost failed: { Self → Bool };

    /// Takes the next record, which is then in `fields`. Returns false if there is none.
    fn next(&mut self, fields: &mut ByteRecord) -> Result<bool, RunFault>
        ensures { TakesLeft (left self.old) (left self.new) (failed self.new) result (fields_of fields.new) };

    /// Whether the next record may need a read of an input, which may wait.
    fn may_wait(&self) -> bool;
}

/// The records of an input, as `csv` reads them with its defaults: the first one is no header, and each may have any number
/// of fields.
#[derive(Drop)]
pub struct Records<R: Drop> {
    reader: Reader<Blocks<R>>,
    ghost plain: { StaysPlain reader },
}

impl<R: Read + Drop> Records<R> {
    ghost use Rattle.olr_input.specs.Blocks.{input_left};
    ghost use Rattle.olr_input.specs.Sessions.{csv_records};

    /// The records of an input.
    pub fn new(alloc: Global, input: R) -> Result<Records<R>, AllocError>
        ensures { IfOk result (λ s. IfSome (R.remaining input)
            (λ bytes. csv_left (input_left R.remaining) s.reader (csv_records bytes))) }
    {
        let blocks = Blocks::new(alloc, input)?;
        let reader = ReaderBuilder::new()
            .has_headers(false)
            .flexible(true)
            .from_reader(alloc, blocks);
        Ok(Records { reader })
    }
}

impl<R: Read + Drop> Source for Records<R> {
    ghost use Rattle.olr_input.specs.Blocks.{input_left};

    ghost left = { λ s. csv_left (input_left R.remaining) s.reader };

    ghost failed = { λ s. has_failed s.reader };

    #[tactic(auto, using(crate::proofs::SessionLemmas::stopped))]
    fn next(&mut self, fields: &mut ByteRecord) -> Result<bool, RunFault> {
        match self.reader.read_byte_record(fields) {
            Ok(found) => Ok(found),
            Err(error) => Err(match error.kind() {
                ErrorKind::OutOfMemory => RunFault::Memory,
                _ => RunFault::Read,
            }),
        }
    }

    fn may_wait(&self) -> bool {
        self.reader
            .get_ref()
            .may_wait(self.reader.position().byte())
    }
}
