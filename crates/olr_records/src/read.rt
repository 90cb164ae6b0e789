//! Commands, decoded from records.
ghost use Rattle.std.specs.Prelude.{◌≡◌, ◌↔◌, ℕ, List, drop, false, IsTrue, IfSome, IfNone, Ok};
ghost use Rattle.csv.specs.Records.{fields_of};
ghost use Rattle.olr_input.specs.RecordWords.{is_edit};
ghost use Rattle.olr_commands.specs.State.{Explain, Report, Commit};
ghost use Rattle.olr_commands.specs.Words.{command_of};
ghost use Rattle.olr_records.specs.Records as records;
ghost use Rattle.olr_records.specs.Words.{IsRead};

use crate::edits::{add_line, add_node, drop_line, drop_node, move_node, set_line};
use crate::faults::ReadFault;
use crate::fields::{amount, only_field};
use crate::paths::{add_path, drop_path, margin, set_path, show};
use crate::questions::{ambiguous, depends, show_line, show_node};
use csv::ByteRecord;
use olr_commands::Command;
use olr_input::{Record, Word, field, word_of};
use std::alloc::Global;

/// The command that a record decodes to. `Syntax`: the record has the form of no command. `Range`: it has the form of a
/// command, and a value is out of range; `Syntax` takes precedence, whatever the order of the fields. `Memory`: only
/// for a record that decodes to a command with a name, nodes, a non-empty text or shape points.
#[tactic(auto, using(crate::proofs::ReadLemmas::read_is))]
pub fn read_command(alloc: Global, fields: &ByteRecord) -> Result<Command, ReadFault>
    ensures { IsRead (records.read (fields_of fields.now)) result }
{
    read_as(alloc, word_of(fields), fields)
}

/// The command that a record decodes to, as `read_command` has it, by the word that is known.
#[tactic(auto, using(crate::proofs::ReadLemmas::read_is))]
pub fn read_record(alloc: Global, row: &Record) -> Result<Command, ReadFault>
    ensures { IsRead (records.read (fields_of row.now.fields)) result }
{
    read_as(alloc, row.word(), row.fields())
}

/// The text of a record that decodes to the command `explain`, which isn't copied. None of any other record.
#[tactic(auto, using(crate::proofs::ReadLemmas::explain_record, crate::proofs::ReadLemmas::explain_is))]
pub fn text_to_explain(row: &Record) -> Option<&[u8]>
    ensures some { IfSome result (λ text. records.read (fields_of row.now.fields) ≡ Ok (Explain text.now)) }
    ensures none { IfNone result ((text : List ℕ) → ¬ (records.read (fields_of row.now.fields) ≡ Ok (Explain text))) }
{
    match row.word() {
        Word::Explain if row.fields().len() == 2 => Some(field(row.fields(), 1)),
        _ => None,
    }
}

/// Whether a record decodes to the command `report`.
#[tactic(auto, using(crate::proofs::ReadLemmas::report_record, crate::proofs::ReadLemmas::report_is))]
pub fn is_report(row: &Record) -> bool
    ensures { IsTrue result ↔ (records.read (fields_of row.now.fields) ≡ Ok Report) }
{
    matches!(row.word(), Word::Report) && row.fields().len() == 1
}

/// The command of a record with this word. Edits, which are the most frequent, are read here, and the rest out of line: a function
/// takes room at its start for each value in it.
fn read_as(alloc: Global, word: Word, fields: &ByteRecord) -> Result<Command, ReadFault>
    ensures { IsRead (records.read_as word (drop 1 (fields_of fields.now))) result }
{
    match word {
        Word::Line => add_line(alloc, fields),
        Word::Node => add_node(fields),
        Word::SetLine => set_line(alloc, fields),
        Word::Move => move_node(fields),
        Word::DropLine => drop_line(fields),
        Word::DropNode => drop_node(fields),
        _ => read_rarer(alloc, word, fields),
    }
}

/// The same, for a word that is of no edit, so that the last arm is that of `Unknown` alone.
#[inline(never)]
fn read_rarer(alloc: Global, word: Word, fields: &ByteRecord) -> Result<Command, ReadFault>
    requires { is_edit word ≡ false }
    ensures { IsRead (records.read_as word (drop 1 (fields_of fields.now))) result }
{
    match word {
        Word::Path => add_path(alloc, fields),
        Word::Explain => explain(alloc, fields),
        Word::Begin => single_word(fields, Command::Begin),
        Word::Abort => single_word(fields, Command::Abort),
        Word::SetPath => set_path(alloc, fields),
        Word::Commit => commit(fields),
        Word::DropPath => drop_path(alloc, fields),
        Word::Show => show(alloc, fields),
        Word::ShowNode => show_node(fields),
        Word::ShowLine => show_line(fields),
        Word::Depends => depends(alloc, fields),
        Word::Report => single_word(fields, Command::Report),
        Word::Dump => single_word(fields, Command::Dump),
        Word::Compact => single_word(fields, Command::Compact),
        Word::Preview => single_word(fields, Command::Preview),
        Word::Ambiguous => ambiguous(alloc, fields),
        Word::SetMargin => margin(fields),
        Word::ShowMargin => single_word(fields, Command::ShowMargin),
        _ => Err(ReadFault::Syntax),
    }
}

/// A command whose record is one word.
fn single_word(fields: &ByteRecord, command: Command) -> Result<Command, ReadFault>
    ensures { IsRead (records.none (command_of command) (drop 1 (fields_of fields.now))) result }
{
    if fields.len() > 1 {
        return Err(ReadFault::Syntax);
    }
    Ok(command)
}

/// `explain,TEXT`
fn explain(alloc: Global, fields: &ByteRecord) -> Result<Command, ReadFault>
    ensures { IsRead (records.one Explain (λ f. Ok f) (drop 1 (fields_of fields.now))) result }
{
    let field = only_field(fields)?;
    let mut text = Vec::new(alloc);
    text.extend_from_slice(field).or(Err(ReadFault::Memory))?;
    Ok(Command::Explain(text))
}

/// `commit,COUNT`
fn commit(fields: &ByteRecord) -> Result<Command, ReadFault>
    ensures { IsRead (records.one Commit records.amount (drop 1 (fields_of fields.now))) result }
{
    let count = amount(only_field(fields)?)?;
    Ok(Command::Commit(count))
}
