//! The inputs of a run.

ghost use Rattle.std.specs.Prelude.{IfOk, IfSome};
ghost use Rattle.olr_run.specs.Runs.{file_bytes, records_read};
ghost use Rattle.olr_input.specs.Inputs.{InputLeft};
ghost use Rattle.olr_input.specs.Sessions.{JoinedLeft};

use olr_input::{Input, Joined};
use std::alloc::{AllocError, Global};
use std::io::Read;

/// The records of a file, if there is one, and then those of an input. A batch that the file leaves open stays open.
pub(crate) fn both_sources<F: Read + Drop, R: Read + Drop>(
    alloc: Global,
    file: Option<F>,
    input: R,
    single: bool,
) -> Result<Joined<Input<F>, Input<R>>, AllocError>
    ensures { IfOk result (λ s. IfSome (records_read single (file_bytes F.remaining file) (R.remaining input))
        (JoinedLeft (InputLeft F.remaining) (InputLeft R.remaining) s.first s.second)) }
{
    let first = match file {
        Some(file) => Some(Input::new(alloc, file, single)?),
        None => None,
    };
    let second = Input::new(alloc, input, single)?;
    Ok(Joined::new(first, second))
}
