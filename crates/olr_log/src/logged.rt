//! A session whose accepted changes are stored in a log.

ghost use Rattle.std.specs.Prelude.{◌≡◌};
ghost use Rattle.olr_log.specs.Gates as gates;
ghost use Rattle.olr_log.specs.LoggedRuns.{LogHappens};

use crate::gate::Gate;
use crate::journal::Journal;
use olr_input::{Buffered, Record, RunFault, Session, Source};
use std::io::Write;

/// The records of a source, whose accepted changes are stored in a log before their answers are sent.
#[derive(Drop)]
pub struct Logged<S: Drop, J: Drop> {
    source: S,
    gate: Gate<J>,
}

impl<S: Source + Drop, J: Journal + Drop> Logged<S, J> {
    /// The records of this source, with this gate.
    pub fn new(source: S, gate: Gate<J>) -> Logged<S, J>
        ensures source { result.source ≡ source }
        ensures gate { result.gate ≡ gate }
    {
        Logged { source, gate }
    }

    /// The gate, which may go on with the records of another source.
    pub fn into_gate(self) -> Gate<J>
        ensures { result ≡ self.gate }
    {
        let Logged { gate, .. } = self;
        gate
    }
}

impl<S: Source + Drop, W: Write + Drop, J: Journal + Drop> Session<Buffered<W>> for Logged<S, J> {
    ghost happens = { λ a e b. LogHappens S.left W.contents J.Journal a.0 a.1 b.0 b.1 e };

    ghost asks = { λ s. gates.asks s.gate };

    fn take(&mut self, output: &mut Buffered<W>, row: &mut Record) -> Result<bool, RunFault> {
        self.gate.send_before(self.source.may_wait(), output)?;
        if !row.take_from(&mut self.source)? {
            return Ok(false);
        }
        self.gate.take(row)?;
        Ok(true)
    }

    fn answer(
        &mut self,
        output: &mut Buffered<W>,
        text: &[u8],
        accepted: bool,
    ) -> Result<(), RunFault> {
        self.gate.conclude(accepted);
        self.gate.write(output, text)
    }

    fn wants_records(&self) -> bool {
        self.gate.wants_records()
    }

    fn compact_log(&mut self, records: &[u8]) {
        if self.gate.wants_records() {
            self.gate.compact_log(records);
        }
    }

    fn lack_records(&mut self) {
        if self.gate.wants_records() {
            self.gate.lack_records();
        }
    }
}
