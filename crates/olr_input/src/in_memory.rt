//! The records of bytes in memory.

ghost use Rattle.std.specs.Prelude.{◌≡◌, [], length, true, false, IfOk};
ghost use Rattle.csv.specs.Records.{fields_of};
ghost use Rattle.csv.specs.Reading.{default_config, strip_bom};
ghost use Rattle.olr_input.specs.Machine.{csv_state};

use crate::ends::RunFault;
use crate::machine::{State, first_record, without_mark};
use crate::sources::Source;
use csv::ByteRecord;
use std::alloc::Global;

/// The records that are left of bytes in memory.
#[derive(Drop)]
pub struct InMemory<'a> {
    rest: &'a [u8],
    state: State,
    field: Vec<u8>,
    failed: bool,
}

impl<'a> InMemory<'a> {
    ghost use Rattle.olr_input.specs.InMemory.{left_of};
    ghost use Rattle.olr_input.specs.Sessions.{csv_records};

    /// The records of these bytes.
    pub fn new(alloc: Global, bytes: &'a [u8]) -> InMemory<'a>
        ensures rest { result.rest.now ≡ strip_bom bytes.now }
        ensures state { result.state ≡ State.StartRecord }
        ensures fresh { result.failed ≡ false }
        ensures left { left_of result (csv_records bytes.now) }
    {
        InMemory {
            rest: without_mark(bytes),
            state: State::StartRecord,
            field: Vec::new(alloc),
            failed: false,
        }
    }

    /// How many bytes are left.
    pub fn left(&self) -> usize
        ensures { result ≡ length self.now.rest.now }
    {
        self.rest.len()
    }
}

impl<'a> Source for InMemory<'a> {
    ghost use Rattle.std.specs.Prelude.{Some};
    ghost use Rattle.csv.specs.Machine.{next_record};
    ghost use Rattle.olr_input.specs.InMemory.{left_of};
    ghost use Rattle.olr_input.specs.Sessions.{TakesLeft};

    ghost left = { left_of };

    ghost failed = { λ m. m.failed };

    fn next(&mut self, row: &mut ByteRecord) -> Result<bool, RunFault>
        ensures takes { TakesLeft (left_of self.old) (left_of self.new) self.new.failed result (fields_of row.new) }
        ensures after { IfOk result (λ found. found ≡ true → next_record default_config (csv_state self.old.state) [] []
            self.old.rest.now ≡ Some (fields_of row.new, csv_state self.new.state, self.new.rest.now)) }
    {
        if self.failed {
            return Ok(false);
        }
        match first_record(self.rest, self.state, row, &mut self.field) {
            Ok(Some((end, state))) => {
                self.rest = &self.rest[end..];
                self.state = state;
                Ok(true)
            }
            Ok(None) => Ok(false),
            Err(_error) => {
                self.failed = true;
                Err(RunFault::Memory)
            }
        }
    }

    fn may_wait(&self) -> bool {
        false
    }
}
