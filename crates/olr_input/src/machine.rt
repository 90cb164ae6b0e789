//! The machine that reads a record from bytes at hand, with csv's defaults.

ghost use Rattle.std.specs.Prelude.{◌≡◌, ◌++◌, ◌∷◌, [], true, false, IfOk, OnOk};
ghost use Rattle.csv.specs.Machine.{step, ends_at_end};
ghost use Rattle.csv.specs.Records.{fields_of, partial_of};
ghost use Rattle.csv.specs.declared.parser.State.TheVariants as st;
ghost use Rattle.csv.specs.Reading.{default_config, strip_bom};
ghost use Rattle.olr_input.specs.Machine.{csv_action, csv_state, is_quoted, state_after, IsFirst};

use crate::lines::ends_line;
use csv::ByteRecord;
use memchr::memchr;
use std::alloc::{AllocError, Global};

/// Where in a record a byte is.
#[derive(Clone, Copy)]
pub enum State {
    /// Before its first byte.
    StartRecord,
    /// Before a field.
    StartField,
    /// In a field.
    InField,
    /// Between quotes.
    InQuoted,
    /// After a quote that may be the last one.
    AfterQuote,
    /// After a carriage return that ended a record.
    AfterCr,
}

/// The effect of a byte.
#[derive(Clone, Copy)]
pub enum Action {
    /// Nothing.
    Skip,
    /// It belongs to the field.
    Copy,
    /// It ends a field.
    EndField,
    /// It ends the record.
    EndRecord,
}

/// The next state and the action of a byte in or after a field.
fn in_field(byte: u8) -> (State, Action)
    ensures { (csv_state result.0, csv_action result.1) ≡ step default_config (st.InField) byte }
{
    match byte {
        b',' => (State::StartField, Action::EndField),
        b'\n' => (State::StartRecord, Action::EndRecord),
        b'\r' => (State::AfterCr, Action::EndRecord),
        _ => (State::InField, Action::Copy),
    }
}

/// The next state and the action of a byte.
fn next(state: State, byte: u8) -> (State, Action)
    ensures { (csv_state result.0, csv_action result.1) ≡ step default_config (csv_state state) byte }
{
    match state {
        State::InQuoted if byte == b'"' => (State::AfterQuote, Action::Skip),
        State::InQuoted => (State::InQuoted, Action::Copy),
        State::AfterQuote if byte == b'"' => (State::InQuoted, Action::Copy),
        State::AfterQuote | State::InField => in_field(byte),
        _ if byte == b'"' => (State::InQuoted, Action::Skip),
        State::StartField => in_field(byte),
        _ if ends_line(byte) => (State::StartRecord, Action::Skip),
        _ => in_field(byte),
    }
}

/// Whether the end of the bytes ends a record.
fn ends_record(state: State) -> bool
    ensures { result ≡ ends_at_end (csv_state state) }
{
    !matches!(state, State::StartRecord | State::AfterCr)
}

/// Ends a field, which has the bytes of `field` and then these. `field` is empty afterwards.
fn end_field(row: &mut ByteRecord, field: &mut Vec<u8>, bytes: &[u8]) -> Result<(), AllocError>
    ensures fields { OnOk result (fields_of row.new ≡ fields_of row.old
        ++ (partial_of row.old ++ field.old.items ++ bytes.now) ∷ []) }
    ensures partial { OnOk result (partial_of row.new ≡ []) }
    ensures field { OnOk result (field.new.items ≡ []) }
{
    if field.is_empty() {
        return row.push_field(bytes);
    }
    field.extend_from_slice(bytes)?;
    row.push_field(field.as_slice())?;
    field.clear();
    Ok(())
}

/// Takes the first record of a text, read from a state. Returns the index and the state after it, or None if there is
/// no record.
pub(crate) fn first_record(
    text: &[u8],
    state: State,
    row: &mut ByteRecord,
    field: &mut Vec<u8>,
) -> Result<Option<(usize, State)>, AllocError>
    ensures { IfOk result (λ end. IsFirst text.now state (fields_of row.new) end) }
{
    row.clear();
    field.clear();
    let mut state = state;
    let mut start = 0;
    'bytes: for i in 0..text.len() {
        let (to, action) = next(state, text[i]);
        state = to;
        match action {
            Action::Copy => {}
            Action::Skip => {
                field.extend_from_slice(&text[start..i])?;
                start = i + 1;
            }
            Action::EndField => {
                end_field(row, field, &text[start..i])?;
                start = i + 1;
            }
            Action::EndRecord => {
                end_field(row, field, &text[start..i])?;
                return Ok(Some((i + 1, to)));
            }
        }
    }
    if !ends_record(state) {
        return Ok(None);
    }
    end_field(row, field, &text[start..])?;
    Ok(Some((text.len(), State::StartRecord)))
}

/// The state after all bytes of a line.
fn state_after_line(line: &[u8]) -> State
    ensures { csv_state result ≡ state_after (st.StartRecord) line.now }
{
    let mut state = State::StartRecord;
    for i in 0..line.len() {
        state = next(state, line[i]).0;
    }
    state
}

/// Whether a line ends between quotes.
#[tactic(auto, using(crate::proofs::LineRecords::unquoted_line))]
pub(crate) fn ends_open(line: &[u8]) -> bool
    ensures { result ≡ is_quoted (state_after (st.StartRecord) line.now) }
{
    match memchr(b'"', line) {
        Some(_) => matches!(state_after_line(line), State::InQuoted),
        None => false,
    }
}

/// The bytes of a text after its byte order mark, if it has one.
pub(crate) fn without_mark(text: &[u8]) -> &[u8]
    ensures { result.now ≡ strip_bom text.now }
{
    text.strip_prefix(b"\xEF\xBB\xBF".as_slice())
        .unwrap_or(text)
}
