//! A start from a log.

ghost use Rattle.std.specs.Prelude.{◌≡◌, ◌<◌, true, false, length, IfOk, IfErr, OnOk};
ghost use Rattle.csv.specs.Records.{fields_of};
ghost use Rattle.olr_commands.specs.State as state;
ghost use Rattle.olr_commands.specs.State.{start_state, Content, Begin, Commit};
ghost use Rattle.olr_commands.specs.Words.{command_of, command_fault_of};
ghost use Rattle.olr_register.specs.Built.{EncodedOnce, IsChange};
ghost use Rattle.olr_register.specs.RegisterState.{Represents};
ghost use Rattle.olr_run.specs.Logged.{closed, IsLogged, Leads};
ghost use Rattle.olr_run.specs.Restored.{HasContentOf, LeadsNowhere, Loaded, Loads, LoadsRecord, Refuses, RefusesRecord, is_rejection, is_too_many};
ghost use Rattle.olr_run.specs.Restored.{most_log_records};
ghost use Rattle.olr_run.specs.Output.{records_of};
ghost use Rattle.olr_run.specs.declared.loader.RestoreFault.TheVariants as restore;

use csv::ByteRecord;
use olr_binary::{TextFault, V3Fault};
use olr_commands::{Command, CommandFault};
use olr_input::{InMemory, RunFault, Source};
use olr_model::EditFault;
use olr_records::{ReadFault, fault_text, read_command, read_fault_text};
use olr_register::{Building, Register};
use std::alloc::Global;
use thiserror::Error;

/// The greatest number of changes in a batch.
const FULL: u32 = 100_000;

/// The greatest number of records of a log, 2^40.
const MOST_RECORDS: u64 = 1 << 40;

/// Why the records of a log can't be carried out.
#[derive(Clone, Copy, Debug, PartialEq, Eq, Error)]
pub enum RestoreFault {
    /// Out of memory.
    #[error("no memory")]
    Memory,
    /// A record is rejected. The line of its fault.
    #[error("a record of the log is rejected")]
    Rejected(&'static str),
    /// A record is no change, `begin` or `commit`.
    #[error("a record of the log is no change")]
    NoChange,
    /// The last batch has no commit.
    #[error("the log ends in a batch")]
    Open,
    /// There are more than 2^40 records.
    #[error("too many records")]
    TooMany,
}

impl From<RunFault> for RestoreFault {
    ghost from_gives = { λ _ e. e ≡ restore.Memory };

    /// Bytes in memory can only lack memory.
    fn from(_fault: RunFault) -> RestoreFault {
        RestoreFault::Memory
    }
}

/// A register on its way to the content of a log. The changes of the log's batches are made as they come, too: a log that
/// ends in a batch gives no register.
#[derive(Drop)]
pub struct Loader {
    building: Building,
    /// Whether a batch of the log is open.
    in_batch: bool,
    /// How many changes it holds.
    count: u32,
}

/// The fault of a rejected command of a log.
fn restore_fault(fault: CommandFault) -> RestoreFault
    ensures memory { is_rejection result ≡ true → command_fault_of fault ≡ state.Memory → ⊥ }
    ensures few { is_too_many result ≡ false }
{
    match fault {
        CommandFault::Memory
        | CommandFault::Map(EditFault::Memory)
        | CommandFault::NotAReference(TextFault::Bytes(V3Fault::Memory)) => RestoreFault::Memory,
        rejected => RestoreFault::Rejected(fault_text(rejected)),
    }
}

impl Loader {
    /// Before the first record. Takes no memory.
    fn new(alloc: Global) -> Loader
        ensures { Loads result start_state }
    {
        Loader {
            building: Building::new(alloc),
            in_batch: false,
            count: 0,
        }
    }

    /// Makes a change, which the log's batch has to have room for, if one is open.
    #[tactic(auto, using(crate::proofs::Refusing::change_full))]
    fn change(&mut self, command: Command) -> Result<(), RestoreFault>
        requires { IsChange (command_of command) }
        ensures loaded { OnOk result (Loaded self.old (command_of command) self.new) }
        ensures refused { IfErr result (λ e. is_rejection e ≡ true → Refuses self.old (command_of command)) }
        ensures few { IfErr result (λ e. is_too_many e ≡ false) }
    {
        if self.in_batch && self.count >= FULL {
            return Err(restore_fault(CommandFault::BatchFull));
        }
        if let Err(fault) = self.building.change(command) {
            return Err(restore_fault(fault));
        }
        if self.in_batch {
            self.count += 1;
        }
        Ok(())
    }

    /// A batch of the log begins.
    #[tactic(auto, using(crate::proofs::Refusing::begin_inside))]
    fn begin(&mut self) -> Result<(), RestoreFault>
        ensures loaded { OnOk result (Loaded self.old Begin self.new) }
        ensures refused { IfErr result (λ e. is_rejection e ≡ true → Refuses self.old Begin) }
        ensures few { IfErr result (λ e. is_too_many e ≡ false) }
    {
        if self.in_batch {
            return Err(restore_fault(CommandFault::BatchOpen));
        }
        self.in_batch = true;
        self.count = 0;
        Ok(())
    }

    /// A batch of the log ends.
    #[tactic(auto, using(crate::proofs::Refusing::commit_differs, crate::proofs::Refusing::commit_outside))]
    fn commit(&mut self, count: u32) -> Result<(), RestoreFault>
        ensures loaded { OnOk result (Loaded self.old (Commit count) self.new) }
        ensures refused { IfErr result (λ e. is_rejection e ≡ true → Refuses self.old (Commit count)) }
        ensures few { IfErr result (λ e. is_too_many e ≡ false) }
    {
        if !self.in_batch {
            return Err(restore_fault(CommandFault::NoBatch));
        }
        if count != self.count {
            return Err(restore_fault(CommandFault::CountDiffers));
        }
        self.in_batch = false;
        Ok(())
    }

    /// Carries out a command of a log.
    fn carry_out(&mut self, command: Command) -> Result<(), RestoreFault>
        ensures loaded { OnOk result (IsLogged (command_of command) × Loaded self.old (command_of command) self.new) }
        ensures refused { IfErr result (λ e. is_rejection e ≡ true
            → IsLogged (command_of command) → Refuses self.old (command_of command)) }
        ensures few { IfErr result (λ e. is_too_many e ≡ false) }
    {
        match command {
            Command::Edit(_) => self.change(command),
            Command::AddPath(..) => self.change(command),
            Command::SetPath(..) => self.change(command),
            Command::DropPath(_) => self.change(command),
            Command::SetMargin(_) => self.change(command),
            Command::Begin => self.begin(),
            Command::Commit(count) => self.commit(count),
            _ => Err(RestoreFault::NoChange),
        }
    }

    /// Carries out the command of a record.
    fn take(&mut self, alloc: Global, fields: &ByteRecord) -> Result<(), RestoreFault>
        ensures loads { OnOk result (LoadsRecord self.old (fields_of fields.now) self.new) }
        ensures refused { IfErr result (λ e. is_rejection e ≡ true → RefusesRecord self.old (fields_of fields.now)) }
        ensures few { IfErr result (λ e. is_too_many e ≡ false) }
    {
        match read_command(alloc, fields) {
            Ok(command) => self.carry_out(command),
            Err(ReadFault::Memory) => Err(RestoreFault::Memory),
            Err(fault) => Err(RestoreFault::Rejected(read_fault_text(fault))),
        }
    }

    /// The register, once all records were taken.
    #[tactic(auto, using(crate::proofs::Refusing::outside_closed))]
    fn finish(self) -> Result<Register, RestoreFault>
        ensures finished { IfOk result (λ r. (s : state.State) → Loads self s
            → (c : Content) × (s ≡ closed c) × Represents r.state (closed c)) }
        ensures counted { IfOk result (λ r. EncodedOnce r) }
        ensures refused { IfErr result (λ e. is_rejection e ≡ true
            → (s : state.State) → Loads self s → (c : Content) → s ≡ closed c → ⊥) }
        ensures few { IfErr result (λ e. is_too_many e ≡ false) }
    {
        if self.in_batch {
            return Err(RestoreFault::Open);
        }
        match self.building.finish() {
            Ok(register) => Ok(register),
            Err(_) => Err(RestoreFault::Memory),
        }
    }
}

/// How far the records of a log were carried out.
#[derive(Clone, Copy, Default)]
pub struct Progress {
    /// The number of records that were taken.
    pub taken: u64,
    /// How many bytes of the text come after those that were carried out.
    pub left: usize,
}

/// The register with the content of a log: that to which its records lead from the empty register, each accepted, with no
/// batch open at the end. Each of its paths is encoded once. A log holds changes, `begin` and `commit`, and no other records.
/// One that leads to a content is rejected only out of memory, or if it has more than 2^40 records. After a fault, `progress`
/// is at the record that is rejected.
pub fn restore(
    alloc: Global,
    text: &[u8],
    progress: &mut Progress,
) -> Result<Register, RestoreFault>
    ensures content { IfOk result (HasContentOf text.now) }
    ensures leads { IfOk result (λ r. (c : Content) → Leads text.now c → Represents r.state (closed c)) }
    ensures counted { IfOk result (λ r. EncodedOnce r) }
    ensures refused { IfErr result (λ e. is_rejection e ≡ true → LeadsNowhere text.now) }
    ensures many { IfErr result (λ e. is_too_many e ≡ true → most_log_records < length (records_of text.now)) }
{
    let mut loader = Loader::new(alloc);
    let mut records = InMemory::new(alloc, text);
    let mut fields = ByteRecord::new(alloc);
    *progress = Progress {
        taken: 0,
        left: records.left(),
    };
    'records: while records.next(&mut fields)? {
        if progress.taken == MOST_RECORDS {
            return Err(RestoreFault::TooMany);
        }
        progress.taken += 1;
        loader.take(alloc, &fields)?;
        progress.left = records.left();
    }
    loader.finish()
}
