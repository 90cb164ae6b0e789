//! A whole run: the records of an input, one after another, each answered before the next is taken.

ghost use Rattle.std.specs.Prelude.{Some, false, IfOk, IfErr, IfSome};
ghost use Rattle.olr_run.specs.Output.{Claims, records_of};
ghost use Rattle.olr_input.specs.Inputs.{input_records};
ghost use Rattle.olr_run.specs.Runs.{RanIn, CutIn, EndedOn, Records};

use crate::answers::{compact_log, write_outcome};
use crate::statuses::Status;
use olr_input::{InMemory, Input, Plain, Record, RunFault, Session, Source};
use olr_register::Register;
use std::alloc::Global;
use std::io::{Read, Write};

/// The greatest number of records in one run, 2^41: of a file and of an input, 2^40 each.
const MOST_RECORDS: u64 = 1 << 41;

/// Buffers for a record and for the text of its answer, reused from record to record.
#[derive(Drop)]
pub struct Scratch {
    record: Record,
    text: Vec<u8>,
}

impl Scratch {
    /// Empty buffers. Takes no memory.
    pub fn new(alloc: Global) -> Scratch {
        Scratch {
            record: Record::new(alloc),
            text: Vec::new(alloc),
        }
    }
}

/// Takes the records of a session, and writes the text of each answer before it takes the next record: the history of
/// the session is a record, its answer, a record, its answer, to the end. If the session wants the records of all that is
/// accepted, they are given to it after an answer, while no batch is open. If `stop` is set, it takes no record after the
/// first rejected one. If a record can't be taken, all records before it have been answered. For the commands that the
/// records decode to: each path's published answer is that of a full encoding from scratch on the map of the accepted
/// commands; the routes of its reference join; each reply to a change names the paths whose answer changed; and a
/// rejected command changed nothing. The buffers of `scratch` may have been used by earlier runs.
pub fn run_session<W, S: Session<W>>(
    alloc: Global,
    register: &mut Register,
    session: &mut S,
    output: &mut W,
    stop: bool,
    scratch: &mut Scratch,
) -> Result<Status, RunFault>
    ensures ran { IfOk result (RanIn S.happens stop register.old (session.old, output.old) register.new
        (session.new, output.new)) }
    ensures cut { IfErr result (CutIn S.happens stop register.old (session.old, output.old) register.new
        (session.new, output.new)) }
{
    register.is_sound();
    let mut status = Status::AllAccepted;
    let mut answered: u64 = 0;
    'records: while session.take(output, &mut scratch.record)? {
        if answered == MOST_RECORDS {
            return Err(RunFault::TooMany);
        }
        answered += 1;
        let accepted = write_outcome(
            alloc,
            register,
            &scratch.record,
            &mut scratch.text,
            session,
            output,
        )?;
        compact_log(register, session);
        if !accepted {
            if stop {
                return Ok(Status::Stopped);
            }
            status = Status::SomeRefused;
        }
    }
    Ok(status)
}

/// Runs the records of a source in a session whose answers are written to the output, and stored nowhere. An output that holds
/// bytes back is flushed before the run may wait for an input, and where a text doesn't fit; what it holds at the end is left
/// to the caller. After a fault the register has the state after the answered records. After a fault of reading, all of their
/// texts are written, and none of them stops the run. After a fault of writing, or out of memory for a text, the last text is
/// missing, or only its first bytes are written; or all texts are written, and the output could not be flushed. The buffers of
/// `scratch` may have been used by earlier runs.
pub fn run_source<S: Source + Drop, W: Write>(
    alloc: Global,
    register: &mut Register,
    source: S,
    output: &mut W,
    stop: bool,
    scratch: &mut Scratch,
) -> Result<Status, RunFault>
    ensures ended { (records : Records) → IfSome records (S.left source) → EndedOn Claims Claims stop register.old records
        (W.contents output.old) register.new (W.contents output.new) result }
{
    register.is_sound();
    let mut session = Plain::new(source);
    run_session(alloc, register, &mut session, output, stop, scratch)
}

/// Runs the records of the input, as `csv` reads them, as `run_source` does.
pub fn run<R: Read + Drop, W: Write>(
    alloc: Global,
    register: &mut Register,
    input: R,
    output: &mut W,
    stop: bool,
) -> Result<Status, RunFault>
    ensures ended { EndedOn Claims Claims stop register.old (input_records false (R.remaining input))
        (W.contents output.old) register.new (W.contents output.new) result }
{
    register.is_sound();
    let source = Input::new(alloc, input, false)?;
    let mut scratch = Scratch::new(alloc);
    run_source(alloc, register, source, output, stop, &mut scratch)
}

/// Runs the records of bytes in memory, with the same contract as `run`. `scratch` can be reused by later runs.
pub fn run_bytes<W: Write>(
    alloc: Global,
    register: &mut Register,
    bytes: &[u8],
    output: &mut W,
    stop: bool,
    scratch: &mut Scratch,
) -> Result<Status, RunFault>
    ensures ended { EndedOn Claims Claims stop register.old (Some (records_of bytes.now)) (W.contents output.old)
        register.new (W.contents output.new) result }
{
    run_source(
        alloc,
        register,
        InMemory::new(alloc, bytes),
        output,
        stop,
        scratch,
    )
}
