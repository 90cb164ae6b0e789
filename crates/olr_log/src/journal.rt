//! A log in which the accepted changes of a run are stored.

ghost use Rattle.std.specs.Prelude.{◌≡◌, ◌⊎◌, ℕ, List, ◌++◌, length, false, if◌then◌else◌, IsTrue, IfOk, OnOk, OnErr};
ghost use Rattle.olr_log.specs.Journals.{MayHaveStored, Only, is_whole};

use std::io;

/// A log of records. The next run begins with what this one leaves of it.
pub trait Journal {
    /// The text that is stored.
    ghost stored: { Self → List ℕ };

    /// How many bytes are stored, as the log counts them: exactly, once records were stored or put in the place of all.
    ghost size: { Self → ℕ };

    /// The texts with which the next run may begin, if this one is cut off now.
    ghost may_leave: { Self → List ℕ → Type 0 };

    /// What kept these records from being stored: what a call on the disk met, or that they can't be stored there.
    ghost fails: { Self → List ℕ → Self → Type 0 };

    /// What kept them from replacing the log, which is as it was.
    ghost refuses: { Self → List ℕ → Self → Type 0 };

    /// Why it isn't known whether they replaced it.
    ghost doubts: { Self → List ℕ → Self → Type 0 };

    /// Its name was found to lead elsewhere, or its file to have changed.
    ghost is_lost: { Self → Type 0 };

    /// Appends whole records, and returns once they are on the disk. If it fails, the log holds what it held, or beside it
    /// a whole front of the records, and nothing more can be stored.
    fn store(&mut self, records: &[u8]) -> io::Result<()>
        requires { IsTrue (is_whole records.now) }
        ensures stored { OnOk result (stored self.new ≡ stored self.old ++ records.now) }
        ensures counted { OnOk result (size self.new ≡ length (stored self.new)) }
        ensures durable { OnOk result (Only (stored self.new) (may_leave self.new)) }
        ensures failed { OnErr result (fails self.old records.now self.new) }
        ensures cut { MayHaveStored stored may_leave self.old records.now self.new };

    /// Puts whole records in the place of all that is stored. Returns false if that failed and the log is as it was. After an
    /// error it is what it was, or these records, and nothing more can be stored.
    fn replace(&mut self, records: &[u8]) -> io::Result<bool>
        requires { IsTrue (is_whole records.now) }
        ensures stored { IfOk result (λ done. stored self.new ≡ if done then records.now else stored self.old) }
        ensures counted { IfOk result (λ done. size self.new ≡ if done then length records.now else size self.old) }
        ensures refused { IfOk result (λ done. done ≡ false → refuses self.old records.now self.new) }
        ensures doubted { OnErr result (doubts self.old records.now self.new) }
        ensures durable { Only (stored self.old) (may_leave self.old) → OnOk result (Only (stored self.new) (may_leave self.new)) }
        ensures cut { (c : List ℕ) → may_leave self.new c → may_leave self.old c ⊎ (c ≡ records.now) };

    /// Says why records that were to be put in the place of what is stored are not there: they could not be made, out of memory,
    /// or `replace` returned false.
    fn report_unreplaced(&self, are_made: bool);

    /// How many bytes are stored.
    fn len(&self) -> usize
        ensures { result ≡ size self.now };

    /// Whether the name of the log still leads to the file that is open, with the length that was written.
    fn is_in_place(&self) -> bool
        ensures { result ≡ false → is_lost self.now };
}
