//! Commands that ask and change nothing.
ghost use Rattle.std.specs.Prelude.{◌≡◌};
ghost use Rattle.olr_commands.specs.Words.{command_fault_of, text_fault_of};

use crate::register::Register;
use olr_binary::{TextFault, V3Fault, from_text};
use olr_commands::{CommandFault, Reply};

/// The fault of a text that encodes no reference, or `Memory` if the text was not decoded because an allocation failed.
fn text_fault(fault: TextFault) -> CommandFault
    ensures { command_fault_of result ≡ text_fault_of fault }
{
    match fault {
        TextFault::Bytes(V3Fault::Memory) => CommandFault::Memory,
        _ => CommandFault::NotAReference(fault),
    }
}

impl Register {
    ghost use Rattle.olr_commands.specs.State.{Show, Report, Compact, Explain};
    ghost use Rattle.olr_register.specs.Answered.{Answered};

    /// What is published of one path. `NoPath` takes precedence over `Memory`.
    #[inline(never)]
    pub fn show(&self, name: &str) -> Result<Reply, CommandFault>
        ensures { Answered self.now (Show name.now) result self.now }
    {
        let Some(published) = self.paths.published_of(name) else {
            return Err(CommandFault::NoPath);
        };
        Ok(Reply::Paths(published.entry_alone(self.alloc, name)?))
    }

    /// What is published of every path, in order.
    #[inline(never)]
    pub fn report(&self) -> Result<Reply, CommandFault>
        ensures { Answered self.now Report result self.now }
    {
        Ok(Reply::Paths(self.paths.entries(self.alloc)?))
    }

    /// The reply where there is no log to replace. `BatchOpen` if a batch is open. Takes no memory.
    #[inline(never)]
    pub fn compact(&self) -> Result<Reply, CommandFault>
        ensures { Answered self.now Compact result self.now }
    {
        if self.batch.is_some() {
            return Err(CommandFault::BatchOpen);
        }
        Ok(Reply::Paths(Vec::new(self.alloc)))
    }

    /// The fields of the reference that this text encodes. If it encodes none, the fault says why; `Memory` if an
    /// allocation fails.
    #[inline(never)]
    pub fn explain(&self, text: &[u8]) -> Result<Reply, CommandFault>
        ensures { Answered self.now (Explain text.now) result self.now }
    {
        match from_text(self.alloc, text) {
            Ok(reference) => Ok(Reply::Fields(reference)),
            Err(fault) => Err(text_fault(fault)),
        }
    }
}
