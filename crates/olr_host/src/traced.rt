//! The calls that were made on a file or a folder, of which only clauses speak. Nothing of them is in memory.

ghost use Rattle.std.specs.Prelude.{◌≡◌, List, [], ◌∷◌};
ghost use Rattle.std.specs.Borrow.{ftrue};
ghost use Rattle.sqlite_disk.specs.Events.{Event};
ghost use Rattle.olr_host.specs.Tracing.{event_of};

use std::io;
use std::marker::{Model, PhantomData};

/// A call of the system on a file or a folder, with its answer: of bytes the offset, these bytes, and how many of them were read or
/// written.
#[derive(Clone, Copy)]
pub enum Call<'a> {
    /// It was synced as it was opened, and has this number.
    Settled(u64),
    Measured(&'a io::Result<usize>),
    Read(usize, &'a [u8], &'a io::Result<usize>),
    /// The same, behind a key and the digest under this key against which the bytes will be tested.
    ReadUnder(u64, u64, usize, &'a [u8], &'a io::Result<usize>),
    Written(usize, &'a [u8], &'a io::Result<usize>),
    /// To this length.
    Resized(usize, &'a io::Result<()>),
    Synced(&'a io::Result<()>),
    /// The file of this number was given the log's name. Whether it is known that it has not got it.
    Renamed(u64, bool, &'a io::Result<()>),
    SyncedFolder(&'a io::Result<()>),
}

#[derive(Drop)]
pub struct Traced {
    marker: PhantomData<u8>,
    pub ghost events: { List Event },
}

impl Model for Traced {
    ghost also_owns = { λ _. ftrue };
}

impl Traced {
    pub(crate) fn none() -> Traced
        ensures { result.events ≡ [] }
    {
        Traced {
            marker: PhantomData,
        }
    }

    /// One call more.
    pub(crate) fn add(&mut self, _call: &Call<'_>)
        ensures { self.new.events ≡ event_of _call.now ∷ self.old.events }
    {}
}
