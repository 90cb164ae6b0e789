//! A start from a log in a file.

ghost use Rattle.std.specs.Prelude.{◌≡◌, ◌⊎◌, ◌<◌, true, false, ℕ, List, length, IfOk, IfErr, OnOk};
ghost use Rattle.olr_log.specs.Logs.{stored_of, left_of, is_native_of, is_clean};
ghost use Rattle.olr_run.specs.LogEnds.{AreRecordsOf, BegunFrom, Unbegun, is_oversized, is_rejected};
ghost use Rattle.olr_run.specs.Output.{records_of};
ghost use Rattle.olr_run.specs.Restored.{HasContentOf, LeadsNowhere, most_log_records};
ghost use Rattle.olr_log.specs.Journals.{Only};

use crate::answers::records_text;
use crate::loader::{Progress, RestoreFault, restore};
use olr_log::{Folder, Journal, LogFile, is_whole};
use olr_register::Register;
use sqlite_disk::Disk;
use std::alloc::Global;
use std::io;

/// Why a run can't begin with a log.
#[derive(Clone, Copy)]
pub enum StartFault {
    /// The log can't be read or written, or there is no memory.
    Unusable(io::Error),
    /// Its records can't be carried out.
    Records {
        /// Why not.
        fault: RestoreFault,
        /// The number of the last record that was taken.
        record: u64,
        /// The number of the line of the file on which it begins.
        line: u64,
    },
}

/// The number of lines that end before the record that follows the first bytes of a text, and the empty lines behind them.
fn lines_before(text: &[u8], start: usize) -> u64 {
    let mut count: u64 = 0;
    let mut before = 0;
    for i in 0..text.len() {
        let byte = text[i];
        if i >= start && byte != b'\n' && byte != b'\r' {
            return count;
        }
        if byte == b'\r' || (byte == b'\n' && before != b'\r') {
            count = count.saturating_add(1);
        }
        before = byte;
    }
    count
}

/// The register with the content of a log that was opened, and the number of the log's records.
fn read_log<D: Disk + Drop, G: Folder<D>>(
    alloc: Global,
    log: &mut LogFile<D, G>,
) -> Result<(Register, u64), StartFault>
    ensures content { IfOk result (λ r. is_clean log.new ≡ true → HasContentOf (stored_of log.old) r.0) }
    ensures refused { IfErr result (λ e. is_rejected e ≡ true → is_clean log.new ≡ true → LeadsNowhere (stored_of log.old)) }
    ensures many { IfErr result (λ e. is_oversized e ≡ true → is_clean log.new ≡ true
        → most_log_records < length (records_of (stored_of log.old))) }
    ensures stored { stored_of log.new ≡ stored_of log.old }
    ensures kind { is_native_of log.new ≡ is_native_of log.old }
    ensures less { (t : List ℕ) → left_of log.new t → left_of log.old t }
{
    let text = match log.text(alloc) {
        Ok(text) => text,
        Err(error) => return Err(StartFault::Unusable(error)),
    };
    let mut progress = Progress::default();
    match restore(alloc, text.as_slice(), &mut progress) {
        Ok(register) => Ok((register, progress.taken)),
        Err(fault) => {
            let start = text.len().saturating_sub(progress.left);
            let first = 1 + u64::from(log.is_native());
            let line = lines_before(text.as_slice(), start).saturating_add(first);
            Err(StartFault::Records {
                fault,
                record: progress.taken,
                line,
            })
        }
    }
}

/// Puts the records of the register in the place of a log. Returns false if that failed, and the log is as it was.
fn put_records<D: Disk + Drop, G: Folder<D>>(
    log: &mut LogFile<D, G>,
    register: &Register,
) -> Result<bool, StartFault>
    ensures stored { IfOk result (λ done. done ≡ true → AreRecordsOf register.now (stored_of log.new)) }
    ensures left { IfOk result (λ done. done ≡ false → stored_of log.new ≡ stored_of log.old) }
    ensures kind { IfOk result (λ done. done ≡ false → is_native_of log.new ≡ is_native_of log.old) }
    ensures durable { Only (stored_of log.old) (left_of log.old) → OnOk result (Only (stored_of log.new) (left_of log.new)) }
    ensures cut { (t : List ℕ) → left_of log.new t → left_of log.old t ⊎ AreRecordsOf register.now t }
    ensures fails { IfErr result (λ e. (is_rejected e ≡ false) × (is_oversized e ≡ false)) }
{
    let Ok(text) = records_text(register) else {
        return Ok(false);
    };
    if !is_whole(text.as_slice()) {
        return Ok(false);
    }
    match log.replace(text.as_slice()) {
        Ok(done) => Ok(done),
        Err(error) => Err(StartFault::Unusable(error)),
    }
}

/// Brings a log, from which the register was read, into the form in which records can be stored: what stands behind the
/// program's own text is overwritten; that text is replaced by the records of the register if it has the length from which on
/// it is compacted, and so is another file. If a native log that is due can't be replaced, that is said, and it is used as it is.
fn prepare_log<D: Disk + Drop, G: Folder<D>>(
    log: &mut LogFile<D, G>,
    register: &Register,
    from: usize,
) -> Result<(), StartFault>
    ensures kind { OnOk result (is_native_of log.old ≡ true → is_clean log.new ≡ true
        → (stored_of log.new ≡ stored_of log.old) ⊎ AreRecordsOf register.now (stored_of log.new)) }
    ensures foreign { OnOk result (is_native_of log.old ≡ false → AreRecordsOf register.now (stored_of log.new)) }
    ensures durable { Only (stored_of log.old) (left_of log.old) → OnOk result (Only (stored_of log.new) (left_of log.new)) }
    ensures cut { (t : List ℕ) → left_of log.new t
        → left_of log.old t ⊎ (t ≡ stored_of log.old) ⊎ AreRecordsOf register.now t }
    ensures fails { IfErr result (λ e. (is_rejected e ≡ false) × (is_oversized e ≡ false)) }
{
    let is_native = log.is_native();
    if is_native && log.len() < from {
        return log.wipe_rest().map_err(StartFault::Unusable);
    }
    let is_done = put_records(log, register)?;
    if is_done {
        return Ok(());
    }
    if is_native {
        log.report_unreplaced(log.refusal().is_some());
        return log.wipe_rest().map_err(StartFault::Unusable);
    }
    let error = log.refusal();
    Err(StartFault::Unusable(error.unwrap_or(io::ErrorKind::OutOfMemory.into())))
}

/// Begins with a log that was opened. Returns the register with the log's content, and the number of the log's records. From
/// then on records can be stored in the log, which has been compacted if it had the length `from`.
pub fn begin_with<D: Disk + Drop, G: Folder<D>>(
    alloc: Global,
    log: &mut LogFile<D, G>,
    from: usize,
) -> Result<(Register, u64), StartFault>
    ensures begun { IfOk result (λ r. BegunFrom log.old log.new r.0) }
    ensures unbegun { IfErr result (λ e. Unbegun log.old log.new (is_rejected e) (is_oversized e)) }
{
    let (register, records) = read_log(alloc, log)?;
    register.is_sound();
    prepare_log(log, &register, from)?;
    Ok((register, records))
}
