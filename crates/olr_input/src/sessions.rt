//! Sessions: the two ends of a run, the source of its records and the output of its answers.

ghost use Rattle.std.specs.Prelude.{◌≡◌, Bool, ℕ, List, IfErr, false, true};
ghost use Rattle.std.specs.Io.KnownBytes.{Keeps};
ghost use Rattle.csv.specs.Records.{fields_of};
ghost use Rattle.olr_input.specs.Sessions.{Event, Given, Lacking, Compacted, Unasked, TakesNext, Writes, PlainHappens};

use crate::ends::RunFault;
use crate::output::write_all;
use crate::record::Record;
use crate::sources::Source;
use std::io::Write;

/// The source of the records of a run, with the output of their answers. What happens at the two ends, and in which
/// order, is known to a caller only from the contracts of these calls.
pub trait Session<W> {
    /// The relation of an event with the values of both ends before and after it.
    ghost happens: { Self × W → Event → Self × W → Type 0 };

    /// Whether the records of all that is accepted so far are asked for.
    ghost asks: { Self → Bool };

    /// Takes the next record, which is then in `row`. Returns false if there is none. An output that holds answers
    /// back sends them first, if the source may wait for its input.
    fn take(&mut self, output: &mut W, row: &mut Record) -> Result<bool, RunFault>
        ensures { TakesNext happens (self.old, output.old) (self.new, output.new) result (fields_of row.new.fields) };

    /// Writes the text of an answer, which accepts the record that was taken last or rejects it.
    fn answer(&mut self, output: &mut W, text: &[u8], accepted: bool) -> Result<(), RunFault>
        ensures { Writes happens (self.old, output.old) text.now accepted (self.new, output.new) result };

    /// Whether the records of all that is accepted so far are asked for, to be stored in the place of a log.
    fn wants_records(&self) -> bool
        ensures asked { result ≡ asks self.now }
        ensures unasked { result ≡ false → (output : W) → happens (self.now, output) (Compacted Unasked) (self.now, output) };

    /// Keeps these records in the place of a log, if it can. If they were not asked for, nothing changes.
    fn compact_log(&mut self, records: &[u8])
        ensures asked { asks self.old ≡ true → (output : W) → happens (self.old, output) (Compacted (Given records.now)) (self.new, output) }
        ensures unasked { asks self.old ≡ false → self.new ≡ self.old };

    /// Says that the records could not be made. If they were not asked for, nothing changes.
    fn lack_records(&mut self)
        ensures asked { asks self.old ≡ true → (output : W) → happens (self.old, output) (Compacted Lacking) (self.new, output) }
        ensures unasked { asks self.old ≡ false → self.new ≡ self.old };
}

/// The records of a source, whose answers are written at once and stored nowhere.
#[derive(Drop)]
pub struct Plain<S: Drop> {
    source: S,
}

impl<S: Source + Drop> Plain<S> {
    /// The records of this source.
    pub fn new(source: S) -> Plain<S>
        ensures { result.source ≡ source }
    {
        Plain { source }
    }
}

impl<S: Source + Drop, W: Write> Session<W> for Plain<S> {
    ghost happens = { λ a e b. PlainHappens S.left S.failed a.0.source b.0.source (W.contents a.1) (W.contents b.1) e };

    ghost asks = { λ _. false };

    fn take(&mut self, output: &mut W, row: &mut Record) -> Result<bool, RunFault> {
        if self.source.may_wait() && output.flush().is_err() {
            return Err(RunFault::Write);
        }
        row.take_from(&mut self.source)
    }

    fn answer(&mut self, output: &mut W, text: &[u8], _accepted: bool) -> Result<(), RunFault> {
        write_all(output, text)
    }

    fn wants_records(&self) -> bool {
        false
    }

    fn compact_log(&mut self, _records: &[u8]) {}

    fn lack_records(&mut self) {}
}
