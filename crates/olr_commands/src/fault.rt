//! Why a command is rejected.

ghost use Rattle.std.specs.Prelude.{◌≡◌};
ghost use Rattle.olr_commands.specs.declared.fault.CommandFault.TheVariants.{Memory};

use olr_binary::{TextFault, V3Fault};
use olr_model::EditFault;
use std::alloc::AllocError;
use thiserror::Error;

/// Why a command is rejected. The register, its answers, its counts and an open batch are unchanged then.
#[derive(Clone, Copy, Debug, PartialEq, Eq, Error)]
pub enum CommandFault {
    /// The map rejects the edit, or is out of memory.
    #[error(transparent)]
    Map(EditFault),
    /// A path with this name exists already.
    #[error("PathExists")]
    PathExists,
    /// No path has this name.
    #[error("NoPath")]
    NoPath,
    /// A path has 1 to 10,000 lines, and none of them twice.
    #[error("BadPath")]
    BadPath,
    /// The text encodes no reference. Out of memory is reported as `Memory` instead.
    #[error("NotAReference")]
    NotAReference(TextFault),
    /// Out of memory.
    #[error("Memory")]
    Memory,
    /// A batch is open already.
    #[error("BatchOpen")]
    BatchOpen,
    /// No batch is open.
    #[error("NoBatch")]
    NoBatch,
    /// The batch holds another number of commands than `commit` names. It stays open.
    #[error("CountDiffers")]
    CountDiffers,
    /// The batch holds 100,000 commands already.
    #[error("BatchFull")]
    BatchFull,
    /// The register has something that no record can write: a coordinate that is not a whole number of 10^-7 degrees, or
    /// a name that is not 1 to 64 letters, digits, `-`, `_` and `.`. A register that only records filled has none.
    #[error("NotARecord")]
    NotARecord,
}

impl From<AllocError> for CommandFault {
    ghost from_gives = { λ _ fault. fault ≡ Memory };

    fn from(_error: AllocError) -> CommandFault {
        CommandFault::Memory
    }
}
