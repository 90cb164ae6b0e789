//! Why the arguments gave no options: help, the version or a fault is written.

ghost use Rattle.std.specs.Prelude.{◌≡◌, ◌≤◌, [], OnOk};
ghost use Rattle.olr_input.specs.Buffers.{pending, written};
ghost use Rattle.olr_run.specs.Explains.{ExplainsFault, Shows};

use crate::arguments::OptionsFault;
use crate::statuses::{WRONG_ARGUMENTS, report_fault};
use olr_input::{Buffered, RunFault, write_all};
use std::alloc::Global;
use std::fmt::Display;
use std::io::Write;

/// Writes a text as it is, help or the version, and sends it.
fn show<D: Display, W: Write + Drop>(
    alloc: Global,
    shown: &D,
    output: &mut Buffered<W>,
) -> Result<(), RunFault>
    ensures shows { Shows (D.output shown.now) (written W.contents output.old) (written W.contents output.new) result }
    ensures sent { OnOk result (pending output.new ≡ []) }
{
    let text = format!(in alloc; "{shown}")?;
    write_all(output, text.as_bytes())?;
    match output.flush() {
        Ok(()) => Ok(()),
        Err(_error) => Err(RunFault::Write),
    }
}

/// Writes why the arguments gave no options, and returns the exit status: help and the version are no fault. What is
/// written to `output` is the text of the error; with status 0 it has been sent. The status is 4 only if an allocation
/// failed, in `clap` or for the text.
pub fn explain<D: Display + Drop, W: Write + Drop, E: Write>(
    alloc: Global,
    fault: &OptionsFault<D>,
    output: &mut Buffered<W>,
    errors: &mut E,
) -> u8
    ensures bounded { result ≤ 4 }
    ensures explains { ExplainsFault D.output fault.now (written W.contents output.old) (written W.contents output.new)
        result }
    ensures sent { result ≤ 1 → pending output.new ≡ [] }
    ensures quiet { result ≤ 1 → errors.new ≡ errors.old }
{
    match fault {
        OptionsFault::Memory => report_fault(RunFault::Memory, errors),
        OptionsFault::Wrong(error) => {
            let _ = write!(errors, "{error}");
            WRONG_ARGUMENTS
        }
        OptionsFault::Help(error) => match show(alloc, error, output) {
            Ok(()) => 0,
            Err(fault) => report_fault(fault, errors),
        },
    }
}
