//! Lines of accepted commands that a log doesn't store yet.

ghost use Rattle.std.specs.Prelude.{◌≡◌, ◌≤◌, ◌<◌, ◌⊎◌, ◌+◌, ◌++◌, ◌∷◌, take, length, vec_len, vec_capacity, IfOk, ℕ, List, [], true, false, IsTrue, Ok, OnOk, OnErr, if◌then◌else◌, slice_index_or};
ghost use Rattle.std.specs.List.{join_with_byte};
ghost use Rattle.csv.specs.Records.{fields_of};
ghost use Rattle.olr_log.specs.StoredLines as lines;
ghost use Rattle.olr_log.specs.StoredLines.{AreLines};

use csv::ByteRecord;
use olr_input::{Effect, Record, ends_line, field, remove_front};
use std::alloc::{AllocError, Global};
use std::mem;

/// Whether an effect is stored as a line.
fn has_line(effect: Effect) -> bool
    ensures { result ≡ lines.has_line effect }
{
    matches!(effect, Effect::Change | Effect::Begin | Effect::Commit)
}

/// Adds a comma, for which there is room, unless a field is the first.
fn push_comma(mut text: Vec<u8>, is_first: bool) -> Vec<u8>
    requires { is_first ≡ false → vec_len text < vec_capacity text }
    ensures { result.items ≡ text.items ++ (if is_first then [] else 44 ∷ []) }
{
    if !is_first {
        text.push_reserved(b',');
    }
    text
}

/// Adds bytes, for which there is room, up to the first that ends a line. Returns whether none does.
fn push_bytes(mut text: Vec<u8>, bytes: &[u8]) -> (Vec<u8>, bool)
    requires { vec_len text + length bytes.now ≤ vec_capacity text }
    ensures front { take (vec_len text) result.0.items ≡ text.items }
    ensures items { result.1 ≡ true → result.0.items ≡ text.items ++ bytes.now }
    ensures capacity { vec_capacity result.0 ≡ vec_capacity text }
    ensures clean { result.1 ≡ lines.is_clean bytes.now }
{
    for i in 0..bytes.len() {
        let byte = bytes[i];
        if byte <= b'\r' && ends_line(byte) {
            return (text, false);
        }
        text.push_reserved(byte);
    }
    (text, true)
}

/// Adds the line of a record. Returns false if a field holds a line end. Then, and if there isn't enough room, it adds a part
/// of the line. The vector comes by value, so that its length can be in a register.
fn push_line(mut text: Vec<u8>, fields: &ByteRecord) -> (Vec<u8>, Result<bool, AllocError>)
    requires { 0 < length (fields_of fields.now) }
    ensures front { take (vec_len text) result.0.items ≡ text.items }
    ensures line { result.1 ≡ Ok true → result.0.items ≡ text.items ++ lines.line_of (fields_of fields.now) }
    ensures clean { IfOk result.1 (λ clean. clean ≡ lines.is_clean (join_with_byte 44 (fields_of fields.now))) }
{
    for i in 0..fields.len() {
        text = push_comma(text, i == 0);
        let field = field(fields, i);
        if text.capacity() - text.len() <= field.len() {
            return (text, Err(AllocError));
        }
        let (longer, is_clean) = push_bytes(text, field);
        text = longer;
        if !is_clean {
            return (text, Ok(false));
        }
    }
    text.push_reserved(b'\n');
    (text, Ok(true))
}

/// Adds the line of a record. Returns false, and adds nothing, if a field holds a line end.
fn add_line(text: &mut Vec<u8>, fields: &ByteRecord) -> Result<bool, AllocError>
    requires { 0 < length (fields_of fields.now) }
    ensures line { IfOk result (λ added. text.new.items ≡ text.old.items ++ lines.line_if added (lines.line_of (fields_of fields.now))) }
    ensures clean { IfOk result (λ added. added ≡ lines.is_clean (join_with_byte 44 (fields_of fields.now))) }
    ensures nothing { OnErr result (text.new.items ≡ text.old.items) }
{
    let len = text.len();
    let alloc = *text.allocator();
    text.reserve(fields.as_slice().len().saturating_add(fields.len()))?;
    let (longer, is_clean) = push_line(mem::replace(text, Vec::new(alloc)), fields);
    *text = longer;
    match is_clean {
        Ok(true) => {}
        _ => text.truncate(len),
    }
    is_clean
}

/// Lines of accepted commands that a log doesn't store yet: first those that are ready to be stored, then those of the open
/// batch, then the line of a record that isn't answered yet.
#[derive(Drop)]
pub struct Unstored {
    lines: Vec<u8>,
    /// How many bytes are ready to be stored.
    ready: usize,
    /// How many bytes are those and the open batch's.
    held: usize,
    /// What the record that isn't answered yet does, if it is accepted.
    effect: Effect,
    ghost right: { AreLines lines.items ready held effect },
}

impl Unstored {
    ghost use Rattle.std.specs.Prelude.{not};
    ghost use Rattle.olr_input.specs.Buffers.{is_empty};
    ghost use Rattle.olr_log.specs.Journals.{IsFront, is_whole};
    ghost use Rattle.olr_log.specs.StoredLines.{has_line, concluded};
    ghost use Rattle.olr_log.specs.Unstored.{waiting, next_line};

    /// No lines. Takes no memory.
    pub fn new(alloc: Global) -> Unstored
        ensures waiting { waiting result ≡ record { ready = []; batch = [] } }
    {
        Unstored {
            lines: Vec::new(alloc),
            ready: 0,
            held: 0,
            effect: Effect::Nothing,
        }
    }

    /// So many bytes are ready to be stored from now on, and so many are those and the open batch's. The others are dropped.
    fn keep(&mut self, ready: usize, held: usize)
        requires { AreLines (take held self.old.lines.items) ready held Effect.Nothing }
        ensures lines { self.new.lines.items ≡ take held self.old.lines.items }
        ensures lengths { (self.new.ready ≡ ready) × (self.new.held ≡ held) }
        ensures effect { self.new.effect ≡ Effect.Nothing }
    {
        self.lines.truncate(held);
        self.ready = ready;
        self.held = held;
        self.effect = Effect::Nothing;
    }

    /// Takes the line of a record that will be answered next, in the place of the last one that wasn't. After a failed
    /// allocation it has no line.
    pub fn take(&mut self, row: &Record) -> Result<(), AllocError>
        ensures waiting { waiting self.new ≡ waiting self.old }
        ensures effect { OnOk result (self.new.effect ≡ lines.effect_of (fields_of row.now.fields)) }
        ensures line { OnOk result (next_line self.new ≡ lines.stored_line (fields_of row.now.fields)) }
    {
        self.keep(self.ready, self.held);
        let effect = row.effect();
        if !has_line(effect) {
            self.effect = effect;
            return Ok(());
        }
        if add_line(&mut self.lines, row.fields())? {
            self.effect = effect;
        }
        Ok(())
    }

    /// The record whose line was taken last is accepted or rejected.
    pub fn conclude(&mut self, accepted: bool)
        ensures waiting { waiting self.new ≡ (if accepted then concluded self.old.effect (next_line self.old) (waiting self.old)
            else waiting self.old) }
        ensures fronts { (front : List ℕ) → IsFront (waiting self.new).ready front
            → IsFront (waiting self.old).ready front ⊎ (front ≡ (waiting self.new).ready) }
    {
        let len = self.lines.len();
        match self.effect {
            _ if !accepted => self.keep(self.ready, self.held),
            Effect::Nothing | Effect::Compact => self.keep(self.ready, self.held),
            Effect::Begin => self.keep(self.ready, len),
            Effect::Change if self.ready < self.held => self.keep(self.ready, len),
            Effect::Change => self.keep(len, len),
            Effect::Commit => self.keep(len, len),
            Effect::Abort => self.keep(self.ready, self.ready),
        }
    }

    /// Whether the record whose line was taken last lets the log be replaced.
    pub fn is_compact(&self) -> bool
        ensures { result ≡ lines.is_compact self.now.effect }
    {
        matches!(self.effect, Effect::Compact)
    }

    /// Whether a batch is open.
    pub fn is_in_batch(&self) -> bool
        ensures { result ≡ not (is_empty (waiting self.now).batch) }
    {
        self.ready < self.held
    }

    /// The lines that are ready to be stored: they are whole.
    pub fn ready(&self) -> &[u8]
        ensures lines { result.now ≡ (waiting self.now).ready }
        ensures whole { IsTrue (is_whole result.now) }
    {
        &self.lines[..self.ready]
    }

    /// Drops the lines that were ready, which are stored now.
    pub fn forget_ready(&mut self)
        ensures waiting { waiting self.new ≡ record { ready = []; batch = (waiting self.old).batch } }
        ensures effect { self.new.effect ≡ self.old.effect }
        ensures line { next_line self.new ≡ next_line self.old }
    {
        remove_front(&mut self.lines, self.ready);
        self.held -= self.ready;
        self.ready = 0;
    }
}
