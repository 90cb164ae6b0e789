//! Runs whose accepted changes are stored in a log before their answers are sent.

ghost use Rattle.std.specs.Prelude.{◌≡◌, [], IfSome, OnOk};
ghost use Rattle.olr_run.specs.Logs.{Lasts, LastsWhole, RanThrough};
ghost use Rattle.olr_run.specs.Runs.{once_sent, EndedOn, Records};
ghost use Rattle.olr_input.specs.Buffers.{pending, written};
ghost use Rattle.olr_log.specs.Gates.{compaction};

use crate::records::{Scratch, run_session};
use crate::statuses::Status;
use olr_input::{Buffered, RunFault, Source};
use olr_log::{Gate, Journal, Logged};
use olr_register::Register;
use std::alloc::Global;
use std::io::Write;

/// The end of a run once its answers were sent, or could not be.
pub(crate) fn end_sent(
    ended: Result<Status, RunFault>,
    sent: Result<(), RunFault>,
) -> Result<Status, RunFault>
    ensures { result ≡ once_sent ended sent }
{
    let status = ended?;
    sent?;
    Ok(status)
}

/// Runs the records of a source, as `run_source` does, with a log that leads to the content of the register. Each accepted
/// change is stored in the log before its answer is sent, a batch as a whole at its commit; rejected records, questions and
/// dropped batches are not stored. Where no batch is open, a log that has the length `from`, and twice as many bytes as after
/// the last time, is replaced by the records of the register, and so is one of any length when a record asks for it. So
/// whenever the run ends, and for whatever reason, what is left of the log leads to the content after the records up to some
/// record, and of the answers to later ones nothing was sent. After a run that was not cut off the log leads to the content at
/// its end. The answers are sent at the end, if the log and the output can still be written; the gate, which has the log, says
/// what went wrong with it.
pub fn run_with_log<S: Source + Drop, W: Write + Drop, J: Journal + Drop>(
    alloc: Global,
    register: &mut Register,
    source: S,
    journal: J,
    from: usize,
    output: &mut Buffered<W>,
    stop: bool,
) -> (Result<Status, RunFault>, Gate<J>)
    ensures ended { (records : Records) → IfSome records (S.left source) →
        EndedOn (LastsWhole J.stored J.may_leave W.contents journal output.old result.1 output.new)
        (Lasts J.stored J.may_leave W.contents journal output.old (J.may_leave result.1.journal) output.new) stop
        register.old records (written W.contents output.old) register.new (written W.contents output.new) result.0 }
    ensures sent { OnOk result.0 (pending output.new ≡ []) }
    ensures length { (compaction result.1).compacted_from ≡ from }
    ensures through { RanThrough W.contents J.Journal stop register.old journal from output.old register.new result.1 output.new result.0 }
{
    register.is_sound();
    let gate = Gate::new(alloc, journal, from);
    let mut session = Logged::new(source, gate);
    let mut scratch = Scratch::new(alloc);
    let ended = run_session(alloc, register, &mut session, output, stop, &mut scratch);
    let mut gate = session.into_gate();
    let sent = gate.send(output);
    (end_sent(ended, sent), gate)
}
