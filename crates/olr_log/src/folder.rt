//! The folder of a log, and the file beside it.

ghost use Rattle.std.specs.Prelude.{◌≡◌, ◌<◌, ◌≤◌, ◌⊎◌, ℕ, false, IsTrue, IsSome, IfOk, OnErr, MatchOption, MatchResult};

use sqlite_disk::Disk;
use std::io;

/// The folder in which a log lies. A file is written beside the log, and then put in its place. Each file has a number, which is the
/// key of its disk (`key_of`), so that no write changes it.
pub trait Folder<D: Disk>: Drop {
    /// The numbers of the files to which the name of the log may lead after a crash at this moment.
    ghost may_lead: { Self → ℕ → Type 0 };

    /// The number of the file that was made last.
    ghost last: { Self → ℕ };

    /// A call on it failed between these two.
    ghost fails: { Self → Self → Type 0 };

    /// The log was not found in its place, with so many bytes, as it was written last.
    ghost is_lost: { Self → ℕ → Type 0 };

    /// An empty file beside the log, with a number that no file has had. One that an earlier run left there is removed.
    fn create_beside(&mut self) -> io::Result<D>
        ensures usable { IfOk result (λ disk. IsTrue (D.Disk.is_usable disk)) }
        ensures number { IfOk result (λ disk. (last self.old < D.Disk.key_of disk) × (D.Disk.key_of disk ≡ last self.new)) }
        ensures rises { last self.old ≤ last self.new }
        ensures failed { OnErr result (fails self.old self.new) }
        ensures name { (n : ℕ) → may_lead self.new n → may_lead self.old n };

    /// Removes the file beside the log, if it can.
    fn remove_beside(&mut self)
        ensures last { last self.new ≡ last self.old }
        ensures name { (n : ℕ) → may_lead self.new n → may_lead self.old n };

    /// Gives the file beside the log, which was made last, its name. Returns why not, if the name leads where it did. After an error
    /// it leads there, or to this file.
    fn put_in_place(&mut self) -> io::Result<Option<io::Error>>
        ensures last { last self.new ≡ last self.old }
        ensures done { IfOk result (λ refusal. (n : ℕ) → may_lead self.new n → MatchOption refusal (n ≡ last self.old) (λ _. may_lead self.old n)) }
        ensures failed { MatchResult result (λ refusal. IsSome refusal → fails self.old self.new) (λ _. fails self.old self.new) }
        ensures either { (n : ℕ) → may_lead self.new n → may_lead self.old n ⊎ (n ≡ last self.old) };

    /// Says that the log was not replaced, and why not. None if there was no memory for its records.
    fn report_unreplaced(&self, error: Option<io::Error>);

    /// Whether the name of the log leads to the file that was put there last, it has so many bytes, and it was not changed since
    /// `note_written`, as far as the clock of the file system shows.
    fn is_in_place(&self, len: usize) -> bool
        ensures { result ≡ false → is_lost self.now len };

    /// Notes when the file was last changed, after this process has changed it.
    fn note_written(&self);

    /// The name leads to some file.
    ghost leads: { (folder : Self) → (n : ℕ) × may_lead folder n };
}
