//! A log in a file: text, and carriage returns behind it.

ghost use Rattle.std.specs.Prelude.{◌≡◌, ◌⊎◌, ◌+◌, ℕ, List, ◌++◌, length, true, false, if◌then◌else◌, IsTrue, IfOk, OnOk, OnErr, IsErr, IsNone, IsSome, Option, None, Some};
ghost use Rattle.sqlite_disk.specs.Disk.{Only};
ghost use Rattle.olr_log.specs.Journals.{MayHaveStored, is_whole};
ghost use Rattle.olr_log.specs.Failures.{FolderFailed, NotMade, NotWritten};
ghost use Rattle.olr_log.specs.Texts.{counts, ends_blank};
ghost use Rattle.olr_log.specs.Files.{text_in};
ghost use Rattle.olr_log.specs.States.{Stands, Stands-prop, is_broken_in, is_ready_in, stored_in, size_in, file_size_in};
ghost use Rattle.olr_log.specs.Outcomes.{MayLeave, LeavesText};

use crate::changes::append;
use crate::folder::Folder;
use crate::journal::Journal;
use crate::state::State;
use crate::writes::{fill, is_blank_at_end};
use sqlite_disk::Disk;
use std::io;

/// A log in a file, which begins with an empty line. Behind its text the file is padded with carriage returns, over which
/// records are written.
#[derive(Drop)]
pub struct LogFile<D: Disk, F: Folder<D>> {
    pub(crate) disk: D,
    pub(crate) folder: F,
    /// The file that was put in its place, if it isn't known to which of both the name of the log leads.
    pub(crate) rival: Option<D>,
    pub(crate) state: State,
    /// Why it was not replaced, the last time.
    pub(crate) refusal: Option<io::Error>,
    ghost stands: { Stands D.Disk disk state } by { Stands-prop D.Disk disk state },
    ghost led: { is_broken_in state ≡ false → (n : ℕ) → F.Folder.may_lead folder n → n ≡ D.Disk.key_of disk },
    ghost alone: { is_broken_in state ≡ false → rival ≡ None },
}

/// A file that was written beside the log and put in its place.
#[derive(Drop)]
struct Made<D: Disk> {
    disk: D,
    len: usize,
    /// Why it isn't known whether the name of the log leads to it.
    doubt: Option<io::Error>,
}

/// Writes a file beside the log, with this text. Returns its length too.
fn write_beside<D: Disk + Drop, F: Folder<D>>(folder: &mut F, text: &[u8]) -> io::Result<(D, usize)>
    requires counts { counts text.now ≡ true }
    ensures stands { IfOk result (λ made. Stands D.Disk made.0 (State.Ready (length text.now) made.1)) }
    ensures stored { IfOk result (λ made. text_in (length text.now) (D.Disk.seen made.0) ≡ text.now) }
    ensures number { IfOk result (λ made. D.Disk.key_of made.0 ≡ F.Folder.last folder.new) }
    ensures failed { OnErr result (NotMade D.Disk F.Folder folder.old text.now) }
    ensures name { (n : ℕ) → F.Folder.may_lead folder.new n → F.Folder.may_lead folder.old n }
{
    let mut disk = folder.create_beside()?;
    match fill(&mut disk, text) {
        Ok(len) => Ok((disk, len)),
        Err(error) => {
            folder.remove_beside();
            Err(error)
        }
    }
}

/// Writes records beside the log, and puts them in its place. After an error the name of the log leads where it did.
fn write_in_place<D: Disk + Drop, F: Folder<D>>(
    folder: &mut F,
    records: &[u8],
) -> io::Result<Made<D>>
    requires whole { IsTrue (is_whole records.now) }
    ensures stands { IfOk result (λ made. Stands D.Disk made.disk (State.Ready (length records.now) made.len)) }
    ensures stored { IfOk result (λ made. text_in (length records.now) (D.Disk.seen made.disk) ≡ records.now) }
    ensures refused { OnErr result ((n : ℕ) → F.Folder.may_lead folder.new n → F.Folder.may_lead folder.old n) }
    ensures failed { OnErr result ((ends_blank records.now ≡ true) ⊎ NotMade D.Disk F.Folder folder.old records.now) }
    ensures doubted { IfOk result (λ made. IsSome made.doubt → FolderFailed D.Disk F.Folder) }
    ensures placed { IfOk result (λ made. IsNone made.doubt → (n : ℕ) → F.Folder.may_lead folder.new n → n ≡ D.Disk.key_of made.disk) }
    ensures either { IfOk result (λ made. (n : ℕ) → F.Folder.may_lead folder.new n → F.Folder.may_lead folder.old n ⊎ (n ≡ D.Disk.key_of made.disk)) }
{
    if is_blank_at_end(records) {
        return Err(io::ErrorKind::InvalidInput.into());
    }
    let (disk, len) = write_beside(folder, records)?;
    let doubt = match folder.put_in_place() {
        Ok(None) => None,
        Ok(Some(error)) => {
            folder.remove_beside();
            return Err(error);
        }
        Err(error) => Some(error),
    };
    Ok(Made { disk, len, doubt })
}

impl<D: Disk + Drop, F: Folder<D>> Journal for LogFile<D, F> {
    ghost use Rattle.olr_log.specs.Logs.{stored_of, left_of, is_native_of, is_ready, is_clean};
    ghost use Rattle.olr_log.specs.Logs.{fails_of, refuses_of, doubts_of, is_lost_of};

    ghost stored = { λ j. stored_in j.state (D.Disk.seen j.disk) };

    ghost size = { λ j. size_in j.state };

    ghost fails = { λ old records new. (is_ready_in old.state ≡ false) ⊎ NotWritten D.Disk (size_in old.state + 1) records old.disk new.disk };

    ghost refuses = { λ old records new. IsSome new.refusal × ((ends_blank records ≡ true) ⊎ NotMade D.Disk F.Folder old.folder records) };

    ghost doubts = { λ old _ _. (is_broken_in old.state ≡ true) ⊎ FolderFailed D.Disk F.Folder };

    ghost is_lost = { λ j. (is_broken_in j.state ≡ true) ⊎ ((n : ℕ) × (file_size_in j.state ≡ Some n) × F.Folder.is_lost j.folder n) };

    ghost may_leave = { λ j. MayLeave D.Disk (F.Folder.may_lead j.folder) j.disk j.rival };

    fn store(&mut self, records: &[u8]) -> io::Result<()>
        requires { IsTrue (is_whole records.now) }
        ensures stored { OnOk result (stored_of self.new ≡ stored_of self.old ++ records.now) }
        ensures counted { OnOk result (size_in self.new.state ≡ length (stored_of self.new)) }
        ensures durable { OnOk result (Only (stored_of self.new) (left_of self.new)) }
        ensures cut { MayHaveStored stored_of left_of self.old records.now self.new }
        ensures failed { OnErr result (fails_of self.old records.now self.new) }
        ensures ready { OnOk result (is_ready self.new ≡ true) }
        ensures broken { OnErr result (is_broken_in self.new.state ≡ true) }
        ensures unready { is_ready self.old ≡ false → IsErr result }
    {
        let state = self.state;
        self.state = State::Broken;
        let State::Ready { text_len, len } = state else {
            return Err(io::ErrorKind::InvalidInput.into());
        };
        let len = append(&mut self.disk, text_len, len, records)?;
        self.folder.note_written();
        self.state = State::Ready {
            text_len: text_len + records.len(),
            len,
        };
        Ok(())
    }

    fn replace(&mut self, records: &[u8]) -> io::Result<bool>
        requires { IsTrue (is_whole records.now) }
        ensures stored { IfOk result (λ done. stored_of self.new ≡ if done then records.now else stored_of self.old) }
        ensures counted { IfOk result (λ done. size_in self.new.state
            ≡ if done then length records.now else size_in self.old.state) }
        ensures durable { Only (stored_of self.old) (left_of self.old) → OnOk result (Only (stored_of self.new) (left_of self.new)) }
        ensures cut { (c : List ℕ) → left_of self.new c → left_of self.old c ⊎ (c ≡ records.now) }
        ensures ready { IfOk result (λ done. done ≡ true → is_ready self.new ≡ true) }
        ensures kind { IfOk result (λ done. is_native_of self.new ≡ if done then true else is_native_of self.old) }
        ensures unready { IfOk result (λ done. done ≡ false → is_ready self.new ≡ is_ready self.old) }
        ensures refused { IfOk result (λ done. done ≡ false → refuses_of self.old records.now self.new) }
        ensures doubted { OnErr result (doubts_of self.old records.now self.new) }
        ensures broken { OnErr result (is_broken_in self.new.state ≡ true) }
        ensures again { is_broken_in self.old.state ≡ true → IsErr result }
    {
        if self.state.is_broken() {
            return Err(io::ErrorKind::InvalidInput.into());
        }
        let made = match write_in_place(&mut self.folder, records) {
            Ok(made) => made,
            Err(error) => {
                self.refusal = Some(error);
                return Ok(false);
            }
        };
        if let Some(error) = made.doubt {
            self.state = State::Broken;
            self.rival = Some(made.disk);
            return Err(error);
        }
        self.folder.note_written();
        self.disk = made.disk;
        self.rival = None;
        self.state = State::Ready {
            text_len: records.len(),
            len: made.len,
        };
        Ok(true)
    }

    fn report_unreplaced(&self, are_made: bool) {
        let error = if are_made { self.refusal } else { None };
        self.folder.report_unreplaced(error);
    }

    fn len(&self) -> usize
        ensures counted { result ≡ size_in self.now.state }
        ensures ready { is_ready self.now ≡ true → result ≡ length (stored_of self.now) }
        ensures opened { is_broken_in self.now.state ≡ false → is_clean self.now ≡ true → result ≡ length (stored_of self.now) }
    {
        self.state.text_len()
    }

    fn is_in_place(&self) -> bool
        ensures { result ≡ false → is_lost_of self.now }
    {
        match self.state.file_len() {
            Some(len) => self.folder.is_in_place(len),
            None => false,
        }
    }
}
