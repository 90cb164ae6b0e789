//! Writing all bytes.

ghost use Rattle.std.specs.Io.{WritesAtMost};
ghost use Rattle.std.specs.Io.KnownBytes.{Appends, WriteAppends};
ghost use Rattle.olr_input.specs.Sessions.{AllOrFront};

use crate::ends::RunFault;
use std::io;
use std::io::Write;

/// Writes bytes, and returns how many the writer took. A writer that takes none is flushed once, for it may be full.
fn write_some<W: Write>(output: &mut W, bytes: &[u8]) -> io::Result<usize>
    ensures bound { WritesAtMost result bytes.now }
    ensures bytes { WriteAppends (W.contents output.old) (W.contents output.new) result bytes.now }
{
    let taken = output.write(bytes)?;
    if taken > 0 {
        return Ok(taken);
    }
    output.flush()?;
    output.write(bytes)
}

/// Writes all of the bytes, in as many calls as the writer needs; it is flushed when it is full. `Write` is the fault if
/// the writer fails, or takes nothing even then.
#[tactic(auto, using(crate::proofs::Writing::written_more))]
pub fn write_all<W: Write>(output: &mut W, bytes: &[u8]) -> Result<(), RunFault>
    ensures { AllOrFront (Appends (W.contents output.old) (W.contents output.new)) bytes.now result }
{
    let mut written = 0;
    while written < bytes.len() {
        match write_some(output, &bytes[written..]) {
            Ok(taken) if taken > 0 => written += taken,
            _ => return Err(RunFault::Write),
        }
    }
    Ok(())
}
