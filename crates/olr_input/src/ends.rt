//! Why a run is cut off.

ghost use Rattle.std.specs.Prelude.{◌≡◌};
ghost use Rattle.olr_input.specs.declared.ends.RunFault.TheVariants.{Memory};

use std::alloc::AllocError;
use thiserror::Error;

/// Why a run was cut off.
#[derive(Clone, Copy, Debug, PartialEq, Eq, Error)]
pub enum RunFault {
    /// The reader failed.
    #[error("read fault")]
    Read,
    /// The writer failed, or wrote nothing.
    #[error("write fault")]
    Write,
    /// Out of memory for the reader's buffer, a record or a reply's text.
    #[error("no memory")]
    Memory,
    /// There were more than 2^41 records.
    #[error("too many records")]
    TooMany,
}

impl From<AllocError> for RunFault {
    ghost from_gives = { λ _ e. e ≡ Memory };

    fn from(_error: AllocError) -> RunFault {
        RunFault::Memory
    }
}
