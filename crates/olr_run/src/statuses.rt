//! How a run ends, and the exit statuses of the program.

ghost use Rattle.std.specs.Prelude.{◌≡◌, ◌≤◌};
ghost use Rattle.olr_run.specs.Statuses as statuses;

use olr_input::RunFault;
use std::io::Write;

/// The arguments are invalid.
pub const WRONG_ARGUMENTS: u8 = 2;

/// The command file or the log can't be used.
pub(crate) const UNUSABLE: u8 = 3;

/// A record of the log is rejected.
pub(crate) const REJECTED: u8 = 5;

/// The input ended in a batch.
pub(crate) const OPEN_BATCH: u8 = 6;

/// Another process uses the log.
pub(crate) const IN_USE: u8 = 7;

/// How a run ended that was not cut off.
#[derive(Clone, Copy, Debug, PartialEq, Eq)]
pub enum Status {
    /// Every command was accepted.
    AllAccepted,
    /// Some command was rejected.
    SomeRefused,
    /// It stopped at the first rejected command, as requested.
    Stopped,
}

/// The exit status after a run: 0 if every command was accepted, 1 if some command was rejected, 3 if reading or
/// writing failed or there were too many records, and 4 if an allocation failed.
pub fn exit_code(ended: &Result<Status, RunFault>) -> u8
    ensures { result ≡ statuses.exit_code ended.now }
{
    match ended {
        Ok(Status::AllAccepted) => 0,
        Ok(Status::SomeRefused | Status::Stopped) => 1,
        Err(RunFault::Read | RunFault::Write | RunFault::TooMany) => 3,
        Err(RunFault::Memory) => 4,
    }
}

/// Writes why the program can't continue, and returns its exit status.
pub fn report_fault<E: Write>(fault: RunFault, errors: &mut E) -> u8
    ensures { result ≡ statuses.exit_code (Err fault) }
{
    let _ = writeln!(errors, "olr-keep: {fault}");
    exit_code(&Err(fault))
}

/// The exit status after a run. If it was cut off, writes why.
pub(crate) fn end_status<E: Write>(ended: Result<Status, RunFault>, errors: &mut E) -> u8
    ensures code { result ≡ statuses.exit_code ended }
    ensures bounded { result ≤ 4 }
    ensures quiet { result ≤ 1 → errors.new ≡ errors.old }
{
    match ended {
        Ok(_) => exit_code(&ended),
        Err(fault) => report_fault(fault, errors),
    }
}
