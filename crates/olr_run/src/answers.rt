//! The answer to one record.

ghost use Rattle.std.specs.Prelude.{◌≡◌, ◌≢◌, ◌++◌, length, true, Ok, IfOk, IfErr, OnOk, is_ok};
ghost use Rattle.csv.specs.Records.{fields_of};
ghost use Rattle.olr_commands.specs.State.{Report};
ghost use Rattle.olr_commands.specs.Words.{command_fault_of, outcome_of, reply_of};
ghost use Rattle.olr_records.specs.Records.{read};
ghost use Rattle.olr_records.specs.ReplyText.{reply_text};
ghost use Rattle.olr_input.specs.Sessions.{Given};
ghost use Rattle.olr_run.specs.Runs.{CarriedOut, IsAnswer, IsReport, answer_text, WritesText, AnswersRecord, AreReplacement, HaveNoRecords, CompactsFrom};

use olr_commands::{CommandFault, Reply};
use olr_input::{Record, RunFault, Session};
use olr_records::{
    append_count, append_entry, append_reply, dump_text, fault_text, is_report, read_fault_text,
    read_record, text_to_explain,
};
use olr_register::Register;
use std::alloc::{AllocError, Global};

/// The reply to a command, or the line of its fault.
fn reply_or_line(answer: Result<Reply, CommandFault>) -> Result<Reply, &'static str>
    ensures { IsAnswer result (outcome_of answer) }
{
    match answer {
        Ok(reply) => Ok(reply),
        Err(fault) => Err(fault_text(fault)),
    }
}

/// Carries out the command of a record, and doesn't copy the text of `explain`. Returns the reply, or the line of the fault.
fn carry_out(alloc: Global, register: &mut Register, row: &Record) -> Result<Reply, &'static str>
    ensures { CarriedOut register.old (fields_of row.now.fields) register.new (IsAnswer result) }
{
    if let Some(text) = text_to_explain(row) {
        register.is_sound();
        return reply_or_line(register.explain(text));
    }
    match read_record(alloc, row) {
        Ok(command) => reply_or_line(register.apply(command)),
        Err(fault) => Err(read_fault_text(fault)),
    }
}

/// Writes the text of an answer. Returns whether it accepts the command.
fn write_text<W, S: Session<W>>(
    text: &[u8],
    accepts: bool,
    session: &mut S,
    output: &mut W,
) -> Result<bool, RunFault>
    ensures { WritesText S.happens (session.old, output.old) text.now (session.new, output.new) result accepts }
{
    session.answer(output, text, accepts)?;
    Ok(accepts)
}

/// Writes the text of a reply, which is made in `text`, whose buffer is reused.
fn write_reply<W, S: Session<W>>(
    reply: &Reply,
    text: &mut Vec<u8>,
    session: &mut S,
    output: &mut W,
) -> Result<bool, RunFault>
    ensures { WritesText S.happens (session.old, output.old) (reply_text (reply_of reply.now)) (session.new, output.new) result
        true }
{
    text.clear();
    append_reply(text, reply)?;
    write_text(text.as_slice(), true, session, output)
}

/// Writes an answer. The text of a dump is made in the dump's own buffer. Returns whether the answer accepts the command.
fn write_answer<W, S: Session<W>>(
    alloc: Global,
    answer: Result<Reply, &'static str>,
    text: &mut Vec<u8>,
    session: &mut S,
    output: &mut W,
) -> Result<bool, RunFault>
    ensures { WritesText S.happens (session.old, output.old) (answer_text answer.entry) (session.new, output.new) result
        (is_ok answer.entry) }
{
    match answer {
        Ok(Reply::Dump(dump)) => {
            let lines = dump_text(alloc, dump)?;
            write_text(&lines, true, session, output)
        }
        Ok(reply) => write_reply(&reply, text, session, output),
        Err(line) => write_text(line.as_bytes(), false, session, output),
    }
}

/// Appends the reply to `report`, path by path: no name and no string is copied but to the text.
fn append_report(text: &mut Vec<u8>, register: &Register) -> Result<(), AllocError>
    ensures { OnOk result (IsReport register.now (λ lines. text.new.items ≡ text.old.items ++ lines)) }
{
    append_count(text, register.len())?;
    for (name, published) in register.iter() {
        append_entry(text, name, published.string())?;
    }
    Ok(())
}

/// Answers a record that decodes to the command `report`, of some paths. If there is no memory for the text, the command is
/// rejected.
fn write_report<W, S: Session<W>>(
    register: &Register,
    row: &Record,
    text: &mut Vec<u8>,
    session: &mut S,
    output: &mut W,
) -> Result<bool, RunFault>
    requires report { read (fields_of row.now.fields) ≡ Ok Report }
    requires some { length register.now.state.content.paths ≢ 0 }
    ensures { AnswersRecord S.happens register.now (fields_of row.now.fields) register.now (session.old, output.old)
        (session.new, output.new) result }
{
    text.clear();
    match append_report(text, register) {
        Ok(()) => write_text(text.as_slice(), true, session, output),
        Err(_) => {
            let line = fault_text(CommandFault::Memory);
            write_text(line.as_bytes(), false, session, output)
        }
    }
}

/// The records of the register, as a text. The faults are `BatchOpen`, `NotARecord` and `Memory`, in this order of precedence.
pub fn records_text(register: &Register) -> Result<Vec<u8>, CommandFault>
    ensures records { IfOk result (λ text. AreReplacement register.now (Given text.items)) }
    ensures refused { IfErr result (λ e. HaveNoRecords register.now (command_fault_of e)) }
{
    match register.dump()? {
        Reply::Dump(dump) => Ok(dump.text),
        _ => Err(CommandFault::NotARecord),
    }
}

/// Gives the records of the register to a session that asks for them. If they can't be made, the session says so.
pub fn compact_log<W, S: Session<W>>(register: &Register, session: &mut S)
    ensures { CompactsFrom S.happens register.now session.old session.new }
{
    if !session.wants_records() {
        return;
    }
    match records_text(register) {
        Ok(text) => session.compact_log(text.as_slice()),
        Err(_fault) => session.lack_records(),
    }
}

/// Carries out the command of a record and writes the answer, whose text is made in `text`. Returns whether the command
/// was accepted.
pub fn write_outcome<W, S: Session<W>>(
    alloc: Global,
    register: &mut Register,
    row: &Record,
    text: &mut Vec<u8>,
    session: &mut S,
    output: &mut W,
) -> Result<bool, RunFault>
    ensures { AnswersRecord S.happens register.old (fields_of row.now.fields) register.new (session.old, output.old)
        (session.new, output.new) result }
{
    if is_report(row) && !register.is_empty() {
        return write_report(register, row, text, session, output);
    }
    let answer = carry_out(alloc, register, row);
    write_answer(alloc, answer, text, session, output)
}
