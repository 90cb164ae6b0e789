//! The program, over any streams and any way to open its files.

ghost use Rattle.std.specs.Prelude.{◌≡◌, ◌≤◌, ◌⊎◌, [], length, map, None, Some, IfOk, IfErr, IfSome};
ghost use Rattle.olr_run.specs.Opens.{IsFile, Opens};
ghost use Rattle.olr_run.specs.Options.{options, options_of};
ghost use Rattle.olr_run.specs.Ends.{Ends, NoSources, OpensLog, WithoutLog};
ghost use Rattle.olr_run.specs.Runs.{Records, records_read};
ghost use Rattle.olr_run.specs.Sizes.{IsLength};
ghost use Rattle.olr_input.specs.Buffers.{pending, written};
ghost use Rattle.olr_input.specs.Inputs.{InputLeft};
ghost use Rattle.olr_input.specs.Sessions.{JoinedLeft, Known, most_pending};

use crate::arguments::Options;
use crate::command_line::options;
use crate::explaining::explain;
use crate::files::open_file;
use crate::from_log::{LogRun, OpenLog, with_log};
use crate::inputs::both_sources;
use crate::logged::end_sent;
use crate::records::{Scratch, run_source};
use crate::sizes::compaction_length;
use crate::statuses::{UNUSABLE, WRONG_ARGUMENTS, end_status, report_fault};
use olr_input::{Buffered, Input, Joined, RunFault, Source};
use olr_log::{Folder, LogFile};
use olr_register::Register;
use sqlite_disk::Disk;
use std::alloc::Global;
use std::convert::AsStr;
use std::io::{Read, Write};
use std::{io, mem};

/// Runs the records of a source on an empty register, sends the answers, and returns the exit status. The register is not
/// dropped: its memory is left to the end of the process.
fn without_log<S: Source + Drop, W: Write + Drop, E: Write>(
    alloc: Global,
    source: S,
    stop: bool,
    output: &mut Buffered<W>,
    errors: &mut E,
) -> u8
    ensures ends { (records : Records) → IfSome records (S.left source) →
        WithoutLog stop records (written W.contents output.old) (written W.contents output.new) result }
    ensures bounded { result ≤ 4 }
    ensures sent { result ≤ 1 → pending output.new ≡ [] }
    ensures lacks { length (pending output.new) ≤ most_pending }
    ensures quiet { result ≤ 1 → errors.new ≡ errors.old }
{
    let mut register = Register::new(alloc);
    let mut scratch = Scratch::new(alloc);
    let ended = run_source(alloc, &mut register, source, output, stop, &mut scratch);
    mem::forget(register);
    let sent = output.send_all();
    end_status(end_sent(ended, sent), errors)
}

/// Opens the command file, if the arguments name one. Returns its records followed by those of the input, and the least length
/// of a log that is compacted; or the exit status, if that is reported to be impossible.
fn sources<F: Read + Drop, O: FnOnce(&str) -> io::Result<F>, R: Read + Drop, E: Write>(
    alloc: Global,
    options: &Options<'_>,
    open_records: O,
    input: R,
    errors: &mut E,
) -> Result<(Joined<Input<F>, Input<R>>, usize), u8>
    requires { O.IsAlwaysCallable open_records }
    ensures left { IfOk result (λ r. (file : Known)
        × IsFile (options_of options.now).file (Opens O.FnOnce F.remaining open_records) file
        × IfSome (records_read options.now.lines file (R.remaining input))
        (JoinedLeft (InputLeft F.remaining) (InputLeft R.remaining) r.0.first r.0.second)
        × IsLength (options_of options.now).compact_at (Some r.1)) }
    ensures refused { IfErr result (NoSources (Opens O.FnOnce F.remaining open_records) (options_of options.now)) }
    ensures status { IfErr result (λ code. (2 ≤ code) × (code ≤ 4)) }
    ensures quiet { IfOk result (λ _. errors.new ≡ errors.old) }
{
    let lacks_log = options.log.is_none() && (options.new || options.compact_at.is_some());
    if lacks_log {
        let _ = errors.write_all(b"olr-keep: --new and --compact-at need -l LOG\n");
        return Err(WRONG_ARGUMENTS);
    }
    let file = match open_file(open_records, options.file) {
        Ok(file) => file,
        Err(error) => {
            let name = options.file.unwrap_or("");
            let _ = writeln!(
                errors,
                "olr-keep: cannot open the command file {name}: {error}"
            );
            return Err(UNUSABLE);
        }
    };
    let Some(from) = compaction_length(options.compact_at) else {
        let _ = errors.write_all(
            b"olr-keep: --compact-at takes bytes, or a number with K, M or G, as 500M\n",
        );
        return Err(WRONG_ARGUMENTS);
    };
    match both_sources(alloc, file, input, options.lines) {
        Ok(source) => Ok((source, from)),
        Err(_) => Err(report_fault(RunFault::Memory, errors)),
    }
}

/// Reads the arguments, opens the command file if they name one, and then the log if they name one, carries out the commands of
/// the file and then those of the input, and returns the exit status. With `--lines`, each line of both is one record. Without
/// a log it begins with an empty register; with one it begins with what the log says, and stores each accepted change there
/// before the answer is sent. If the arguments can't be carried out, no log is returned. `open_log` opens the log of a
/// name, or makes it if the options say so. Replies, and help if it is wanted, are written to `output`, and all of them have been sent
/// if the status is 0, 1 or 6; otherwise the last ones may still be pending, at most 64 KB. Messages are written to `errors`.
/// Returns also the log as it was left. The register is not dropped: its memory is left to the end of the process.
pub fn program<
    S: AsStr,
    F: Read + Drop,
    O: FnOnce(&str) -> io::Result<F>,
    D: Disk + Drop,
    G: Folder<D>,
    L: OpenLog<D, G>,
    R: Read + Drop,
    W: Write + Drop,
    E: Write,
>(
    alloc: Global,
    arguments: &[S],
    open_records: O,
    open_log: &L,
    input: R,
    output: &mut Buffered<W>,
    errors: &mut E,
) -> (u8, Option<LogFile<D, G>>)
    requires { O.IsAlwaysCallable open_records }
    ensures ends { Ends W.contents (Opens O.FnOnce F.remaining open_records)
        (OpensLog (L.may_be open_log.now) (L.refuses open_log.now)) (R.remaining input) output.old output.new result.1 result.0 (map S.text arguments.now) }
    ensures bounded { result.0 ≤ 7 }
    ensures sent { (result.0 ≤ 1) ⊎ (result.0 ≡ 6) → pending output.new ≡ [] }
    ensures lacks { length (pending output.new) ≤ most_pending }
    ensures quiet { (options (map S.text arguments.now)).log ≡ None → result.0 ≤ 1 → errors.new ≡ errors.old }
{
    let options = match options(alloc, arguments) {
        Ok(options) => options,
        Err(fault) => return (explain(alloc, &fault, output, errors), None),
    };
    let (source, from) = match sources(alloc, &options, open_records, input, errors) {
        Ok(sources) => sources,
        Err(status) => return (status, None),
    };
    let Some(name) = options.log else {
        return (
            without_log(alloc, source, options.stop, output, errors),
            None,
        );
    };
    let opened = open_log.open(name, options.new);
    let run = LogRun {
        name,
        stop: options.stop,
        from,
    };
    with_log(alloc, &run, opened, source, output, errors)
}
