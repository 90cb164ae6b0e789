//! The gate through which the answers of a run with a log leave.

ghost use Rattle.std.specs.Prelude.{◌≡◌, ℕ, List, [], None, IfErr, OnOk, IsTrue, false, true};
ghost use Rattle.csv.specs.Records.{fields_of};
ghost use Rattle.olr_log.specs.Gates.{Storing, Passes, PassesSome, Untouched, SameBatch, ConcludedBy, Closes, Compacts};
ghost use Rattle.olr_log.specs.Gates.{PutsOff, is_closed, ready, batch, compaction, asks, first_from, concluded_compaction};
ghost use Rattle.olr_log.specs.Gates as gates;
ghost use Rattle.olr_log.specs.Journals as journals;
ghost use Rattle.olr_input.specs.declared.record.Effect.TheVariants as effect;
ghost use Rattle.olr_log.specs.StoredLines.{effect_of, stored_line};
ghost use Rattle.olr_log.specs.Unstored.{waiting, next_line};
ghost use Rattle.olr_input.specs.Buffers.{pending};
ghost use Rattle.olr_input.specs.Sessions.{AllOrFront};

use crate::journal::Journal;
use crate::unstored::Unstored;
use crate::whole::is_whole;
use olr_input::{Buffered, Record, RunFault};
use std::alloc::{AllocError, Global};
use std::io::{self, Write};
use thiserror::Error;

/// What went wrong with a log.
#[derive(Clone, Copy, Debug, Error)]
pub enum LogFault {
    /// It could not be written or synced.
    #[error("the log can't be written: {0}")]
    Unwritten(io::Error),
    /// Its name leads to another file or to none, or its length is not the one that was written.
    #[error("the log was moved or changed by another")]
    Moved,
}

/// A log with the lines that it doesn't store yet. The answers of a run are sent through it: none leaves before each change
/// that was accepted before it is stored, and none at all once the log has failed.
#[derive(Drop)]
pub struct Gate<J: Drop> {
    journal: J,
    unstored: Unstored,
    fault: Option<LogFault>,
    /// The least length of a log that is replaced by the records of what is accepted.
    compacted_from: usize,
    /// The length from which on it is replaced the next time.
    next_from: usize,
    /// It should be replaced as soon as no batch is open.
    is_wanted: bool,
}

impl<J: Journal + Drop> Gate<J> {
    /// A gate with this log, before the first record. A log of so many bytes is replaced by the records of what is accepted. One
    /// that has them already was replaced at the start, or could not be: it is replaced once it has twice its length.
    pub fn new(alloc: Global, journal: J, compacted_from: usize) -> Gate<J>
        ensures journal { result.journal ≡ journal }
        ensures waiting { waiting result.unstored ≡ record { ready = []; batch = [] } }
        ensures open { result.fault ≡ None }
        ensures due { compaction result
            ≡ record { is_wanted = false; next_from = first_from (J.size journal) compacted_from; compacted_from = compacted_from } }
    {
        let len = journal.len();
        let next_from = if len < compacted_from {
            compacted_from
        } else {
            twice(len, compacted_from)
        };
        Gate {
            journal,
            unstored: Unstored::new(alloc),
            fault: None,
            compacted_from,
            next_from,
            is_wanted: false,
        }
    }

    /// The log, as far as it was stored.
    pub fn get_ref(&self) -> &J
        ensures { result.now ≡ self.now.journal }
    {
        &self.journal
    }

    /// The log, as far as it was stored. Lines that it doesn't store yet are dropped.
    pub fn into_journal(self) -> J
        ensures { result ≡ self.journal }
    {
        let Gate { journal, .. } = self;
        journal
    }

    /// What went wrong with the log, if something did.
    pub fn fault(&self) -> Option<LogFault>
        ensures { result ≡ self.now.fault }
    {
        self.fault
    }

    /// Takes the line of a record that will be answered next.
    pub fn take(&mut self, row: &Record) -> Result<(), AllocError>
        ensures untouched { Untouched self.old self.new }
        ensures waiting { waiting self.new.unstored ≡ waiting self.old.unstored }
        ensures effect { OnOk result (self.new.unstored.effect ≡ effect_of (fields_of row.now.fields)) }
        ensures line { OnOk result (next_line self.new.unstored ≡ stored_line (fields_of row.now.fields)) }
        ensures due { compaction self.new ≡ compaction self.old }
    {
        self.unstored.take(row)
    }

    /// The log is not replaced before it has twice its length.
    fn put_off(&mut self)
        ensures { PutsOff J.Journal self.old self.new }
    {
        self.is_wanted = false;
        self.next_from = twice(self.journal.len(), self.compacted_from);
    }

    /// Whether the records of all that is accepted are wanted, to be stored in the place of the log.
    pub fn wants_records(&self) -> bool
        ensures { result ≡ asks self.now }
    {
        self.is_wanted && self.fault.is_none() && !self.unstored.is_in_batch()
    }

    /// Keeps whole records, which were asked for, in the place of the log. It is left as it was if they aren't whole, or if
    /// they could not be written, which is said. If it isn't known what it holds, the gate is closed.
    #[tactic(auto, using(crate::proofs::Compacting::compacts_on))]
    pub fn compact_log(&mut self, records: &[u8])
        requires { asks self.old ≡ true }
        ensures compacts { Compacts J.Journal self.old records.now self.new }
        ensures due { compaction self.new ≡ gates.put_off (J.size self.new.journal) (compaction self.old) }
    {
        self.replace_if(records);
        self.put_off();
    }

    /// Says that the records, which were asked for, could not be made, out of memory.
    pub fn lack_records(&mut self)
        ensures { PutsOff J.Journal self.old self.new }
    {
        self.journal.report_unreplaced(false);
        self.put_off();
    }

    /// Keeps records in the place of the log, if it is where it was and they are whole.
    fn replace_if(&mut self, records: &[u8])
        requires { asks self.old ≡ true }
        ensures compacts { Compacts J.Journal self.old records.now self.new }
        ensures due { compaction self.new ≡ compaction self.old }
    {
        if self.is_in_place() && is_whole(records) {
            match self.journal.replace(records) {
                Ok(true) => self.unstored.forget_ready(),
                Ok(false) => self.journal.report_unreplaced(true),
                Err(error) => self.fault = Some(LogFault::Unwritten(error)),
            }
        }
    }

    /// The record whose line was taken last is accepted or rejected.
    pub fn conclude(&mut self, accepted: bool)
        ensures untouched { Untouched self.old self.new }
        ensures concluded { ConcludedBy self.old.unstored accepted self.new.unstored }
        ensures wanted { IsTrue accepted → self.old.unstored.effect ≡ effect.Compact → IsTrue self.new.is_wanted }
        ensures still { IsTrue self.old.is_wanted → IsTrue self.new.is_wanted }
        ensures due { compaction self.new
            ≡ concluded_compaction (J.size self.old.journal) accepted self.old.unstored.effect (compaction self.old) }
    {
        self.is_wanted = self.is_wanted
            || (accepted && self.unstored.is_compact())
            || self.journal.len() >= self.next_from;
        self.unstored.conclude(accepted);
    }

    /// Whether the log is where it was, as it was last written. Closes the gate if it isn't.
    fn is_in_place(&mut self) -> bool
        ensures untouched { result ≡ true → self.new ≡ self.old }
        ensures closed { result ≡ false → is_closed self.new ≡ true }
        ensures lost { result ≡ false → J.is_lost self.old.journal }
        ensures rest { self.new ≡ record self.old { fault = self.new.fault } }
    {
        let is_there = self.journal.is_in_place();
        if !is_there {
            self.fault = Some(LogFault::Moved);
        }
        is_there
    }

    /// Keeps what is ready, and returns once it is on the disk. Returns false, and closes the gate, if the log failed. Another
    /// process's change is looked for before this one writes, which would hide it, and again before answers leave.
    fn store(&mut self) -> bool
        ensures storing { (sent : List ℕ) → (result ≡ false → sent ≡ [])
            → Storing J.stored J.may_leave self.old self.new sent }
        ensures stored { result ≡ true → (ready self.new ≡ []) × (is_closed self.new ≡ false) }
        ensures closes { Closes J.Journal self.old self.new }
        ensures others { SameBatch self.old self.new }
        ensures due { compaction self.new ≡ compaction self.old }
    {
        if self.fault.is_some() || !self.is_in_place() {
            return false;
        }
        if self.unstored.ready().is_empty() {
            return true;
        }
        if let Err(error) = self.journal.store(self.unstored.ready()) {
            self.fault = Some(LogFault::Unwritten(error));
            return false;
        }
        self.unstored.forget_ready();
        self.is_in_place()
    }

    /// Keeps what is ready, and then sends what the output holds back. `Write` is the fault if either fails; nothing is
    /// sent once the log has failed.
    pub fn send<W: Write + Drop>(&mut self, output: &mut Buffered<W>) -> Result<(), RunFault>
        ensures passes { Passes J.stored J.may_leave W.contents self.old output.old self.new output.new [] }
        ensures closes { Closes J.Journal self.old self.new }
        ensures sent { OnOk result (pending output.new ≡ []) }
        ensures stored { OnOk result ((ready self.new ≡ []) × (is_closed self.new ≡ false)) }
        ensures fault { IfErr result (λ e. e ≡ RunFault.Write) }
    {
        if !self.store() {
            return Err(RunFault::Write);
        }
        output.send_all()
    }

    /// The same, if the source of the records may wait.
    pub fn send_before<W: Write + Drop>(
        &mut self,
        waits: bool,
        output: &mut Buffered<W>,
    ) -> Result<(), RunFault>
        ensures passes { Passes J.stored J.may_leave W.contents self.old output.old self.new output.new [] }
        ensures closes { Closes J.Journal self.old self.new }
        ensures sent { OnOk result (IsTrue waits → pending output.new ≡ []) }
        ensures stored { OnOk result (IsTrue waits → (ready self.new ≡ []) × (is_closed self.new ≡ false)) }
        ensures fault { IfErr result (λ e. e ≡ RunFault.Write) }
    {
        if !waits {
            return Ok(());
        }
        self.send(output)
    }

    /// Holds back bytes of a text, and returns how many. An output that is full is sent first.
    fn write_some<W: Write + Drop>(
        &mut self,
        output: &mut Buffered<W>,
        text: &[u8],
    ) -> Result<usize, RunFault>
        ensures passes { PassesSome J.stored J.may_leave W.contents self.old output.old self.new output.new text.now result }
        ensures closes { Closes J.Journal self.old self.new }
    {
        let taken = output.hold(text)?;
        if taken > 0 {
            return Ok(taken);
        }
        self.send(output)?;
        output.hold(text)
    }

    /// Holds back a text, or what is left of it once its first part was sent. `Write` is the fault if it can't be sent.
    pub fn write<W: Write + Drop>(
        &mut self,
        output: &mut Buffered<W>,
        text: &[u8],
    ) -> Result<(), RunFault>
        ensures passes { AllOrFront (Passes J.stored J.may_leave W.contents self.old output.old self.new output.new) text.now result }
        ensures closes { Closes J.Journal self.old self.new }
    {
        let mut written = 0;
        while written < text.len() {
            match self.write_some(output, &text[written..]) {
                Ok(taken) if taken > 0 => written += taken,
                _ => return Err(RunFault::Write),
            }
        }
        Ok(())
    }
}

/// Twice a length, and this length at least.
fn twice(len: usize, least: usize) -> usize
    ensures { result ≡ gates.twice len least }
{
    len.saturating_mul(2).max(least)
}
