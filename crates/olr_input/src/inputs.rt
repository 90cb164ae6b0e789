//! The records of an input: as `csv` reads them, or one for each line.

ghost use Rattle.std.specs.Prelude.{IfOk, IfSome};

use crate::ends::RunFault;
use crate::line_records::LineRecords;
use crate::sources::{Records, Source};
use csv::ByteRecord;
use std::alloc::{AllocError, Global};
use std::io::Read;

/// The records of an input.
#[derive(Drop)]
pub enum Input<R: Drop> {
    /// As `csv` reads them.
    Csv(Records<R>),
    /// One for each line that isn't empty.
    Lines(LineRecords<R>),
}

impl<R: Read + Drop> Input<R> {
    ghost use Rattle.olr_input.specs.Inputs.{InputLeft, input_records};

    /// The records of an input, one for each line or as `csv` reads them.
    #[tactic(auto, using(crate::proofs::SessionLemmas::known_left))]
    pub fn new(alloc: Global, input: R, single: bool) -> Result<Input<R>, AllocError>
        ensures { IfOk result (λ i. IfSome (input_records single (R.remaining input)) (InputLeft R.remaining i)) }
    {
        if single {
            return Ok(Input::Lines(LineRecords::new(alloc, input)?));
        }
        Ok(Input::Csv(Records::new(alloc, input)?))
    }
}

impl<R: Read + Drop> Source for Input<R> {
    ghost use Rattle.olr_input.specs.Inputs.{InputLeft, input_failed};

    ghost left = { InputLeft R.remaining };

    ghost failed = { input_failed };

    fn next(&mut self, row: &mut ByteRecord) -> Result<bool, RunFault> {
        match self {
            Input::Csv(records) => records.next(row),
            Input::Lines(records) => records.next(row),
        }
    }

    fn may_wait(&self) -> bool {
        match self {
            Input::Csv(records) => records.may_wait(),
            Input::Lines(records) => records.may_wait(),
        }
    }
}
