//! Opening a log, and closing it.

ghost use Rattle.std.specs.Prelude.{◌≡◌, ◌⊎◌, ◌+◌, true, false, ℕ, List, ◌∷◌, length, IsTrue, IfOk, IfErr, IsOk, IsErr, OnOk, OnErr};
ghost use Rattle.std.specs.Io.KnownBytes.{Appends};
ghost use Rattle.std.specs.IoError.{error_kind};
ghost use Rattle.std.specs.declared.io.ErrorKind.TheVariants.{OutOfMemory};
ghost use Rattle.olr_log.specs.Journals.{Only};
ghost use Rattle.olr_log.specs.Failures.{HasFailed};
ghost use Rattle.olr_log.specs.Texts.{text_of, is_native, left_behind};
ghost use Rattle.olr_log.specs.Files.{IsPaddedText};
ghost use Rattle.olr_log.specs.States.{is_broken_in};

use crate::changes::{cut_off, wipe};
use crate::folder::Folder;
use crate::log_file::LogFile;
use crate::reads::{examine, read_exact};
use crate::state::State;
use sqlite_disk::Disk;
use std::alloc::Global;
use std::io;
use std::io::Write;

impl<D: Disk + Drop, F: Folder<D>> LogFile<D, F> {
    ghost use Rattle.olr_log.specs.Logs.{stored_of, is_native_of, is_ready};
    ghost use Rattle.olr_log.specs.Logs.{left_over_of, left_of, is_clean, is_padded_of};

    /// Syncs the file and finds the end of its text. It changes nothing.
    pub fn open(alloc: Global, disk: D, folder: F) -> io::Result<LogFile<D, F>>
        requires usable { IsTrue (D.Disk.is_usable disk) }
        requires named { (n : ℕ) → F.Folder.may_lead folder n → n ≡ D.Disk.key_of disk }
        ensures text { IfOk result (λ log. is_clean log ≡ true → stored_of log ≡ text_of (D.Disk.seen disk)) }
        ensures kind { IfOk result (λ log. is_clean log ≡ true → is_native_of log ≡ is_native (D.Disk.seen disk)) }
        ensures rest { IfOk result (λ log. is_clean log ≡ true → left_over_of log ≡ left_behind (D.Disk.seen disk)) }
        ensures same { IfOk result (λ log. D.Disk.seen log.disk ≡ D.Disk.seen disk) }
        ensures unready { IfOk result (λ log. is_ready log ≡ false) }
        ensures unbroken { IfOk result (λ log. is_broken_in log.state ≡ false) }
        ensures folder { IfOk result (λ log. log.folder ≡ folder) }
        ensures durable { IfOk result (λ log. Only (stored_of log) (left_of log)) }
    {
        let mut disk = disk;
        let state = examine(alloc, &mut disk)?;
        Ok(LogFile {
            disk,
            folder,
            rival: None,
            state,
            refusal: None,
        })
    }

    /// The folder of the log.
    pub fn folder(&self) -> &F
        ensures { result.now ≡ self.now.folder }
    {
        &self.folder
    }

    /// Whether the file begins with the empty line of the program's own files. If not, all of it is its text, and `replace` has
    /// to give it its own form before anything is stored.
    pub fn is_native(&self) -> bool
        ensures { result ≡ is_native_of self.now }
    {
        self.state.is_native()
    }

    /// Whether an opened file has padding behind its text: the run before was cut off.
    pub fn is_padded(&self) -> bool
        ensures { is_clean self.now ≡ true → result ≡ is_padded_of self.now }
    {
        match self.state {
            State::Opened { text_len, len, .. } => len > text_len.saturating_add(1),
            _ => false,
        }
    }

    /// How many bytes stand behind the text, up to the last that isn't a carriage return. They were never answered.
    pub fn left_over(&self) -> usize
        ensures { is_clean self.now ≡ true → result ≡ length (left_over_of self.now) }
    {
        match self.state {
            State::Opened { text_len, last, .. } => last.saturating_sub(text_len),
            _ => 0,
        }
    }

    /// Writes these bytes.
    pub fn copy_left_over<W: Write>(&mut self, alloc: Global, to: &mut W) -> io::Result<()>
        ensures none { is_ready self.old ≡ true → IsOk result }
        ensures foreign { is_native_of self.old ≡ false → IsOk result }
        ensures copied { OnOk result (is_clean self.new ≡ true → Appends (W.contents to.old) (W.contents to.new) (left_over_of self.old)) }
        ensures stored { stored_of self.new ≡ stored_of self.old }
        ensures kind { is_native_of self.new ≡ is_native_of self.old }
        ensures ready { is_ready self.new ≡ is_ready self.old }
        ensures less { (c : List ℕ) → left_of self.new c → left_of self.old c }
    {
        match self.state {
            State::Opened { text_len, last, .. } => {
                let at = text_len.checked_add(1).ok_or(io::ErrorKind::FileTooLarge)?;
                let n = last.saturating_sub(text_len);
                let block = read_exact(alloc, &mut self.disk, at, n)?;
                to.write_all(&block)
            }
            State::Broken => Err(io::ErrorKind::InvalidInput.into()),
            _ => Ok(()),
        }
    }

    /// Why the text was not replaced, the last time.
    pub fn refusal(&self) -> Option<io::Error>
        ensures { result ≡ self.now.refusal }
    {
        self.refusal
    }

    /// Overwrites what stands behind the text by carriage returns, and syncs. From then on records can be stored.
    pub fn wipe_rest(&mut self) -> io::Result<()>
        ensures stored { OnOk result (is_clean self.new ≡ true → stored_of self.new ≡ stored_of self.old) }
        ensures ready { OnOk result (is_ready self.new ≡ true) }
        ensures again { is_ready self.old ≡ true → IsOk result }
        ensures foreign { is_native_of self.old ≡ false → IsErr result }
        ensures broken { is_broken_in self.old.state ≡ true → IsErr result }
        ensures padded { OnOk result (is_clean self.new ≡ true
            → IsPaddedText (stored_of self.old) (D.Disk.seen self.new.disk)) }
        ensures durable { OnOk result (Only (stored_of self.new) (left_of self.new)) }
        ensures cut { (c : List ℕ) → left_of self.new c → left_of self.old c ⊎ (c ≡ stored_of self.old) }
    {
        if let State::Ready { .. } = self.state {
            return Ok(());
        }
        let State::Opened {
            text_len,
            last,
            len,
        } = self.state
        else {
            return Err(io::ErrorKind::InvalidInput.into());
        };
        self.state = State::Broken;
        let len = wipe(&mut self.disk, text_len, last, len)?;
        self.folder.note_written();
        self.state = State::Ready { text_len, len };
        Ok(())
    }

    /// The text.
    pub fn text(&mut self, alloc: Global) -> io::Result<Vec<u8>>
        ensures broken { is_broken_in self.old.state ≡ true → IsErr result }
        ensures failed { IfErr result (λ error. (is_broken_in self.old.state ≡ true) ⊎ (error_kind error ≡ OutOfMemory)
            ⊎ HasFailed D.Disk self.old.disk self.new.disk) }
        ensures text { IfOk result (λ text. is_clean self.new ≡ true → text.items ≡ stored_of self.old) }
        ensures stored { stored_of self.new ≡ stored_of self.old }
        ensures kind { is_native_of self.new ≡ is_native_of self.old }
        ensures ready { is_ready self.new ≡ is_ready self.old }
        ensures less { (c : List ℕ) → left_of self.new c → left_of self.old c }
    {
        if self.state.is_broken() {
            return Err(io::ErrorKind::InvalidInput.into());
        }
        let at = usize::from(self.state.is_native());
        read_exact(alloc, &mut self.disk, at, self.state.text_len())
    }

    /// Cuts the padding off. Nothing more can be stored. A log of which this wasn't done stays as it is.
    pub fn close(&mut self) -> io::Result<()>
        ensures closed { OnOk result (is_ready self.old ≡ true → is_clean self.new ≡ true
            → D.Disk.seen self.new.disk ≡ 10 ∷ stored_of self.old) }
        ensures durable { OnOk result (is_ready self.old ≡ true → Only (stored_of self.old) (left_of self.new)) }
        ensures same { is_ready self.old ≡ false → D.Disk.seen self.new.disk ≡ D.Disk.seen self.old.disk }
        ensures unready { is_ready self.new ≡ false }
        ensures again { is_ready self.old ≡ false → IsOk result }
        ensures broken { OnErr result (is_broken_in self.new.state ≡ true) }
        ensures failed { OnErr result (HasFailed D.Disk self.old.disk self.new.disk) }
        ensures cut { (c : List ℕ) → left_of self.new c → left_of self.old c ⊎ (c ≡ stored_of self.old) }
    {
        let State::Ready { text_len, len } = self.state else {
            return Ok(());
        };
        self.state = State::Broken;
        cut_off(&mut self.disk, text_len, len)
    }
}
