//! The program with a log.

ghost use Rattle.std.specs.Prelude.{◌≡◌, ◌≤◌, ◌⊎◌, ℕ, Bool, List, [], true, length, IfSome, is_ok};
ghost use Rattle.olr_log.specs.declared.unopened.OpenError.{OpenError};
ghost use Rattle.olr_log.specs.Logs.{stored_of, left_of};
ghost use Rattle.olr_run.specs.LogEnds.{is_rejected};
ghost use Rattle.olr_run.specs.Ends.{LeftAfter, OpensLog, UnbegunCode, UnopenedCode, WithLog, run_code};
ghost use Rattle.olr_run.specs.Runs.{Records};
ghost use Rattle.olr_input.specs.Buffers.{pending};
ghost use Rattle.olr_input.specs.Sessions.{most_pending};

use crate::loader::RestoreFault;
use crate::logged::run_with_log;
use crate::starts::{StartFault, begin_with};
use crate::statuses::{
    IN_USE, OPEN_BATCH, REJECTED, Status, UNUSABLE, WRONG_ARGUMENTS, end_status, report_fault,
};
use olr_input::{Buffered, RunFault, Source};
use olr_log::{Folder, Gate, LogFault, LogFile, OpenError};
use sqlite_disk::Disk;
use std::alloc::Global;
use std::io::{self, Write};
use std::mem;

/// What is said of a log whose last run was cut off.
const CUT_OFF: &str =
    "; its last run was cut off, and replies may be missing: report has all answers";

/// Reports why a log can't be opened, and returns the exit status.
fn report_unopened<E: Write>(name: &str, error: OpenError, errors: &mut E) -> u8
    ensures { UnopenedCode error result }
{
    match error {
        OpenError::Missing => {
            let _ = writeln!(errors, "olr-keep: {name} is missing: --new makes it");
            WRONG_ARGUMENTS
        }
        OpenError::Exists => {
            let _ = writeln!(errors, "olr-keep: {name} exists: --new is for a new log");
            WRONG_ARGUMENTS
        }
        OpenError::InUse(Some(process)) => {
            let _ = writeln!(errors, "olr-keep: {name} is in use by process {process}");
            IN_USE
        }
        OpenError::InUse(None) => {
            let _ = writeln!(errors, "olr-keep: {name} is in use by another process");
            IN_USE
        }
        OpenError::Lock(error) => {
            let _ = writeln!(errors, "olr-keep: the lock file of {name}: {error}");
            UNUSABLE
        }
        OpenError::Io(error) => report_unusable(name, error, errors),
    }
}

/// Reports why a log can't be used, and returns the exit status.
fn report_unusable<E: Write>(name: &str, error: io::Error, errors: &mut E) -> u8
    ensures { (result ≡ 3) ⊎ (result ≡ 4) }
{
    if error.kind() == io::ErrorKind::OutOfMemory {
        return report_fault(RunFault::Memory, errors);
    }
    let _ = writeln!(errors, "olr-keep: {name}: {error}");
    UNUSABLE
}

/// Reports why a run can't begin with a log, and returns the exit status. The line of a rejected record's fault has its own
/// end.
fn report_start<E: Write>(name: &str, fault: StartFault, errors: &mut E) -> u8
    ensures { UnbegunCode (is_rejected fault) result }
{
    let (fault, record, line) = match fault {
        StartFault::Unusable(error) => return report_unusable(name, error, errors),
        StartFault::Records {
            fault,
            record,
            line,
        } => (fault, record, line),
    };
    let _ = match fault {
        RestoreFault::Rejected(fault) => write!(
            errors,
            "olr-keep: record {record} of {name}, line {line}, is rejected: {fault}"
        ),
        RestoreFault::NoChange => writeln!(
            errors,
            "olr-keep: record {record} of {name}, line {line}, is no change, begin or commit"
        ),
        RestoreFault::Open => writeln!(errors, "olr-keep: {name} ends in a batch"),
        RestoreFault::TooMany => return report_fault(RunFault::TooMany, errors),
        RestoreFault::Memory => return report_fault(RunFault::Memory, errors),
    };
    REJECTED
}

/// The exit status after a run with a log. Reports why it was cut off, or that it ended in a batch.
fn log_status<E: Write>(
    name: &str,
    ended: Result<Status, RunFault>,
    fault: Option<LogFault>,
    in_batch: bool,
    errors: &mut E,
) -> u8
    ensures code { result ≡ run_code ended in_batch }
    ensures whole { (result ≤ 1) ⊎ (result ≡ 6) → is_ok ended ≡ true }
    ensures bounded { result ≤ 7 }
{
    if let (Err(_), Some(fault)) = (ended, fault) {
        let _ = writeln!(errors, "olr-keep: {name}: {fault}");
    }
    if ended.is_ok() && in_batch {
        let _ = errors.write_all(
            b"olr-keep: the input ended within a batch, whose changes are dropped\n",
        );
        return OPEN_BATCH;
    }
    end_status(ended, errors)
}

/// The ending of a noun after a number.
fn plural(count: u64) -> &'static str {
    if count == 1 { "" } else { "s" }
}

/// Says with how many records and paths a run begins, and whether replies of the run before may be missing.
fn report_begun<E: Write>(
    name: &str,
    records: u64,
    paths: usize,
    was_cut_off: bool,
    errors: &mut E,
) {
    let more_records = plural(records);
    let more_paths = plural(paths as u64);
    let missing = if was_cut_off { CUT_OFF } else { "" };
    let _ = writeln!(
        errors,
        "olr-keep: {name} has {records} record{more_records} and {paths} path{more_paths}{missing}"
    );
}

/// A run with a log, as the options have it.
#[derive(Clone, Copy)]
pub(crate) struct LogRun<'a> {
    /// The log.
    pub(crate) name: &'a str,
    /// Whether to stop at the first rejected record.
    pub(crate) stop: bool,
    /// The least length of the log that is replaced by the records of the register.
    pub(crate) from: usize,
}

/// The log of a run. Its padding is cut off after a run that was not cut off. If that fails, the next start does without it.
fn close_log<D: Disk + Drop, G: Folder<D>>(
    ended: &Result<Status, RunFault>,
    gate: Gate<LogFile<D, G>>,
) -> LogFile<D, G>
    ensures { LeftAfter gate ended.now result }
{
    let mut log = gate.into_journal();
    if ended.is_ok() {
        let _ = log.close();
    }
    log
}

/// A way to open a log.
pub trait OpenLog<D: Disk, G: Folder<D>> {
    /// A log of a name, opened or made, may be the program's own or not, store this text, and leave these texts after a crash.
    ghost may_be: { Self → List ℕ → Bool → Bool → List ℕ → (List ℕ → Type 0) → Type 0 };

    /// Why a log of a name may not be opened or made.
    ghost refuses: { Self → List ℕ → Bool → OpenError → Type 0 };

    /// Opens the log of this name, or makes it.
    fn open(&self, name: &str, is_new: bool) -> Result<LogFile<D, G>, OpenError>
        ensures { OpensLog (may_be self.now) (refuses self.now) name.now is_new result };
}

/// Runs the records of a source from a log that was opened, in which each accepted change is stored before its answer is sent.
/// Returns the exit status, and the log as it was left.
pub(crate) fn with_log<D: Disk + Drop, G: Folder<D>, S: Source + Drop, W: Write + Drop, E: Write>(
    alloc: Global,
    run: &LogRun<'_>,
    opened: Result<LogFile<D, G>, OpenError>,
    source: S,
    output: &mut Buffered<W>,
    errors: &mut E,
) -> (u8, Option<LogFile<D, G>>)
    ensures ends { (records : Records) → IfSome records (S.left source) →
        WithLog W.contents opened result.1 run.now.from run.now.stop records output.old output.new result.0 }
    ensures bounded { result.0 ≤ 7 }
    ensures sent { (result.0 ≤ 1) ⊎ (result.0 ≡ 6) → pending output.new ≡ [] }
    ensures lacks { length (pending output.new) ≤ most_pending }
{
    let mut log = match opened {
        Ok(log) => log,
        Err(error) => return (report_unopened(run.name, error, errors), None),
    };
    let was_cut_off = log.is_padded();
    let (mut register, records) = match begin_with(alloc, &mut log, run.from) {
        Ok(begun) => begun,
        Err(fault) => return (report_start(run.name, fault, errors), Some(log)),
    };
    report_begun(run.name, records, register.len(), was_cut_off, errors);
    let (ended, gate) = run_with_log(
        alloc,
        &mut register,
        source,
        log,
        run.from,
        output,
        run.stop,
    );
    let fault = gate.fault();
    let in_batch = register.is_open();
    mem::forget(register);
    let log = close_log(&ended, gate);
    let status = log_status(run.name, ended, fault, in_batch, errors);
    (status, Some(log))
}
