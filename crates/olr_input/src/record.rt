//! A record, the command that it names, and what it does to a log.

ghost use Rattle.std.specs.Prelude.{◌≡◌, [], slice_index_or};
ghost use Rattle.std.specs.Str.{bytes_eq};
ghost use Rattle.csv.specs.Records.{fields_of};
ghost use Rattle.olr_input.specs.RecordWords as words;
ghost use Rattle.olr_input.specs.Sessions.{TakesLeft};

use crate::ends::RunFault;
use crate::sources::Source;
use csv::ByteRecord;
use std::alloc::Global;

/// Which command a record names, by its first field. What the command asks for is only known once the other fields are read.
#[derive(Clone, Copy)]
pub enum Word {
    /// `line`: adds a line.
    Line,
    /// `node`: adds a node.
    Node,
    /// `explain`: asks for the fields of a string.
    Explain,
    /// `set-line`: gives a line other attributes.
    SetLine,
    /// `move`: moves a node.
    Move,
    /// `drop-line`: drops a line.
    DropLine,
    /// `drop-node`: drops a node.
    DropNode,
    /// `path`: adds a path.
    Path,
    /// `begin`: opens a batch.
    Begin,
    /// `abort`: drops the open batch.
    Abort,
    /// `repath`: gives a name another path.
    SetPath,
    /// `commit`: accepts the open batch.
    Commit,
    /// `drop-path`: drops a path.
    DropPath,
    /// `show`: asks for a path's answer.
    Show,
    /// `show-node`: asks for a node.
    ShowNode,
    /// `show-line`: asks for a line.
    ShowLine,
    /// `depends`: asks which paths depend on nodes.
    Depends,
    /// `report`: asks for all answers.
    Report,
    /// `dump`: asks for all records.
    Dump,
    /// `compact`: has the log replaced by the records of what is accepted.
    Compact,
    /// `preview`: asks what a commit would answer.
    Preview,
    /// `ambiguous`: asks for ambiguities.
    Ambiguous,
    /// `margin`: sets the margin.
    SetMargin,
    /// `show-margin`: asks for the margin.
    ShowMargin,
    /// That of no command, or no field at all.
    Unknown,
}

/// What a record does to a log, if it is accepted.
#[derive(Clone, Copy, PartialEq, Eq)]
pub enum Effect {
    /// Nothing: it is a question, or no command has its form.
    Nothing,
    /// It changes the map, the paths or the margin, at once or in the open batch.
    Change,
    /// It opens a batch.
    Begin,
    /// It accepts the changes of the batch.
    Commit,
    /// It drops them.
    Abort,
    /// The log is to be replaced.
    Compact,
}

/// Whether a field is this text, byte by byte: words are short, and `==` of slices is made for longer ones. With equal lengths no
/// byte needs a test for the end.
fn is(field: &[u8], text: &[u8]) -> bool
    ensures { result ≡ bytes_eq field.now text.now }
{
    field.len() == text.len() && field.iter().eq(text)
}

/// The word of the first text that a field is.
macro_rules! word_among {
    ($field:ident, $($text:literal => $word:expr,)*) => {
        $(if is($field, $text) { $word } else)* { Word::Unknown }
    };
}

/// The word that a field is. `line` and `node`, the most frequent, are tried first; then `explain`, whose answer takes so little
/// time that finding its word counts.
fn word_in(field: &[u8]) -> Word
    ensures { result ≡ words.word_in words.words field.now }
{
    word_among!(
        field,
        b"line" => Word::Line,
        b"node" => Word::Node,
        b"explain" => Word::Explain,
        b"set-line" => Word::SetLine,
        b"move" => Word::Move,
        b"drop-line" => Word::DropLine,
        b"drop-node" => Word::DropNode,
        b"path" => Word::Path,
        b"begin" => Word::Begin,
        b"abort" => Word::Abort,
        b"repath" => Word::SetPath,
        b"commit" => Word::Commit,
        b"drop-path" => Word::DropPath,
        b"show" => Word::Show,
        b"show-node" => Word::ShowNode,
        b"show-line" => Word::ShowLine,
        b"depends" => Word::Depends,
        b"report" => Word::Report,
        b"dump" => Word::Dump,
        b"compact" => Word::Compact,
        b"preview" => Word::Preview,
        b"ambiguous" => Word::Ambiguous,
        b"margin" => Word::SetMargin,
        b"show-margin" => Word::ShowMargin,
    )
}

/// The field of a record at index `k`, or no bytes past the last one.
#[tactic(auto, using(crate::proofs::RecordWords::field_is))]
pub fn field(fields: &ByteRecord, k: usize) -> &[u8]
    ensures { result.now ≡ slice_index_or (fields_of fields.now) k [] }
{
    fields.get(k).unwrap_or(&[])
}

/// The word of a record.
#[inline(always)]
pub fn word_of(fields: &ByteRecord) -> Word
    ensures { result ≡ words.word_of (fields_of fields.now) }
{
    word_in(field(fields, 0))
}

/// Whether a word is that of a record that changes the map, the paths or the margin.
fn is_change(word: Word) -> bool
    ensures { result ≡ words.is_change word }
{
    matches!(
        word,
        Word::Line
            | Word::Node
            | Word::SetLine
            | Word::Move
            | Word::DropNode
            | Word::DropLine
            | Word::Path
            | Word::SetPath
            | Word::DropPath
            | Word::SetMargin
    )
}

/// A record with its word, which is found once.
#[derive(Drop)]
pub struct Record {
    fields: ByteRecord,
    word: Word,
    ghost right: { word ≡ words.word_of (fields_of fields) },
}

impl Record {
    /// A record without fields. Takes no memory.
    pub fn new(alloc: Global) -> Record
        ensures { fields_of result.fields ≡ [] }
    {
        Record {
            fields: ByteRecord::new(alloc),
            word: Word::Unknown,
        }
    }

    /// Its fields, the first of which is its word.
    pub fn fields(&self) -> &ByteRecord
        ensures { result.now ≡ self.now.fields }
    {
        &self.fields
    }

    /// Which command it names.
    pub fn word(&self) -> Word
        ensures { result ≡ words.word_of (fields_of self.now.fields) }
    {
        self.word
    }

    /// What it does to a log, if it is accepted, by its word and whether that stands alone.
    pub fn effect(&self) -> Effect
        ensures { result ≡ words.word_effect (fields_of self.now.fields) }
    {
        let alone = self.fields.len() == 1;
        match self.word {
            Word::Begin if alone => Effect::Begin,
            Word::Commit if !alone => Effect::Commit,
            Word::Abort => Effect::Abort,
            Word::Compact if alone => Effect::Compact,
            word if is_change(word) => Effect::Change,
            _ => Effect::Nothing,
        }
    }

    /// Takes the next record of a source. Returns false if there is none. After a fault it may have any fields.
    #[inline(always)]
    pub fn take_from<S: Source>(&mut self, source: &mut S) -> Result<bool, RunFault>
        ensures { TakesLeft (S.left source.old) (S.left source.new) (S.failed source.new) result (fields_of self.new.fields) }
    {
        let taken = source.next(&mut self.fields);
        self.word = word_of(&self.fields);
        taken
    }
}
