//! Why a log was not opened.

ghost use Rattle.std.specs.Prelude.{◌≡◌, None};
ghost use Rattle.std.specs.IoError.{error_kind};
ghost use Rattle.std.specs.declared.fs.locks.TryLockError.TheVariants as lock;
ghost use Rattle.std.specs.declared.io.Error.{Error};
ghost use Rattle.std.specs.declared.io.ErrorKind.TheVariants.{OutOfMemory};
ghost use Rattle.olr_log.specs.declared.unopened.OpenError.TheVariants as unopened;

use std::alloc::AllocError;
use std::{fs, io};

/// Why a log can't be opened.
#[derive(Clone, Copy, Debug)]
pub enum OpenError {
    /// There is no such file.
    Missing,
    /// The log was to be a new one, and the file is there.
    Exists,
    /// Another process uses the log. Its id, if it is known.
    InUse(Option<u32>),
    /// The file beside it that is locked can't be opened or made.
    Lock(io::Error),
    Io(io::Error),
}

impl From<io::Error> for OpenError {
    ghost from_gives = { λ error opened. opened ≡ unopened.Io error };

    fn from(error: io::Error) -> OpenError {
        OpenError::Io(error)
    }
}

/// Of a lock that another process holds, whose id isn't known.
impl From<fs::TryLockError> for OpenError {
    ghost from_gives = { λ error opened. (error ≡ lock.WouldBlock → opened ≡ unopened.InUse None)
        × ((cause : Error) → error ≡ lock.Error cause → opened ≡ unopened.Io cause) };

    fn from(error: fs::TryLockError) -> OpenError {
        match error {
            fs::TryLockError::WouldBlock => OpenError::InUse(None),
            fs::TryLockError::Error(error) => OpenError::Io(error),
        }
    }
}

impl From<AllocError> for OpenError {
    ghost from_gives = { λ _ opened. (error : Error) × (opened ≡ unopened.Io error) × (error_kind error ≡ OutOfMemory) };

    fn from(_error: AllocError) -> OpenError {
        OpenError::Io(io::ErrorKind::OutOfMemory.into())
    }
}
