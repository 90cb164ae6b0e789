//! Where a log lies: its name, its folder, and the lock that one process holds. Read, and not proved, but for its names.

ghost use Rattle.std.specs.Prelude.{◌≡◌, ℕ, List, [], ◌∷◌, true, false, is_ok, IsTrue, IsNone, IfOk, ⊤};
ghost use Rattle.olr_log.specs.Logs.{stored_of, left_of, left_over_of, is_native_of, is_ready, is_clean};
ghost use Rattle.olr_host.specs.Names.{renamed, folder_synced, newest, newest_leads};
ghost use Rattle.olr_host.specs.Places.{disk_is_usable, disk_number, IsFreshDisk, folder_may_lead};

use crate::file::HostFile;
use crate::traced::{Call, Traced};
use olr_log::{Folder, LogFile, OpenError};
use sqlite_disk::{Modelled, Start};
use std::cell::Cell;
use std::fs::OpenOptions;
use std::io::{self, Read, Write};
use std::os::fd::AsRawFd;
use std::os::unix::fs::{MetadataExt, OpenOptionsExt, PermissionsExt, fchown};
use std::path::{Path, PathBuf};
use std::{fs, process};

/// The number of an input or output error (`EIO`).
const IO_ERROR: i32 = 5;

/// A file of the operating system that held what `S` says.
pub type HostDisk<S> = Modelled<HostFile, S>;

/// The folder of a log, with the log's name and its lock.
#[derive(Drop)]
pub struct LogFolder<'a> {
    rt: &'a HostRuntime,
    folder: fs::File,
    /// Held until it is dropped.
    lock: fs::File,
    log: PathBuf,
    beside: String,
    /// The device and the inode of the file that has the name.
    node: (u64, u64),
    /// The number of the file that was made last, its device and its inode.
    last: u64,
    last_node: (u64, u64),
    /// When the file of that name was last changed, if this process changed it last.
    written: Cell<Option<(i64, i64)>>,
    calls: Traced,
}

fn node_of(file: &fs::File) -> io::Result<(u64, u64)> {
    let found = file.metadata()?;
    Ok((found.dev(), found.ino()))
}

/// When a file was last changed: seconds, and nanoseconds of a second.
fn time_of(found: &fs::Metadata) -> (i64, i64) {
    (found.mtime(), found.mtime_nsec())
}

/// Opens a file, or makes it with this mode. Where a descriptor of a standard stream is free, the file gets another one, so that no
/// answer lands in it.
fn open_file(rt: &HostRuntime, name: &str, is_new: bool, mode: u32) -> io::Result<fs::File> {
    let file = OpenOptions::new()
        .read(true)
        .write(true)
        .create_new(is_new)
        .mode(mode)
        .open(rt, name)?;
    if file.as_raw_fd() <= 2 {
        return file.try_clone();
    }
    Ok(file)
}

/// An outcome, unless it is an error of this kind.
fn unless(kind: io::ErrorKind, outcome: io::Result<()>) -> io::Result<()> {
    match outcome {
        Err(error) if error.kind() == kind => Ok(()),
        other => other,
    }
}

impl LogFolder<'_> {
    /// Makes a file beside the log and locks it, with the log's mode, and its group and owner where this process may set them.
    fn make_beside(&self) -> io::Result<fs::File> {
        unless(
            io::ErrorKind::NotFound,
            fs::remove_file(self.rt, self.beside.as_str()),
        )?;
        let old = fs::metadata(self.rt, self.log.as_str())?;
        let file = open_file(self.rt, self.beside.as_str(), true, 0o600)?;
        file.try_lock()?;
        for (user, group) in [(None, Some(old.gid())), (Some(old.uid()), None)] {
            unless(io::ErrorKind::PermissionDenied, fchown(&file, user, group))?;
        }
        file.set_permissions(fs::Permissions::from_mode(old.mode() & 0o7777))?;
        Ok(file)
    }

    /// Gives the file beside the log the log's name. Also returns whether it is known that it has not got it: the system says so by
    /// each error but that of a device.
    fn rename(&mut self) -> (io::Result<()>, bool)
        ensures calls { self.new.calls.events ≡ renamed self.old.last (is_ok result.0) result.1 ∷ self.old.calls.events }
        ensures refused { result.1 ≡ true → is_ok result.0 ≡ false }
        ensures last { self.new.last ≡ self.old.last }
    {
        let answer = fs::rename(self.rt, self.beside.as_str(), self.log.as_str());
        let is_refused = match &answer {
            Ok(()) => false,
            Err(error) => error.raw_os_error() != Some(IO_ERROR),
        };
        self.calls
            .add(&Call::Renamed(self.last, is_refused, &answer));
        (answer, is_refused)
    }

    /// Syncs the folder: the log's name stays where it leads.
    fn sync(&mut self) -> io::Result<()>
        ensures calls { self.new.calls.events ≡ folder_synced (is_ok result) ∷ self.old.calls.events }
        ensures last { self.new.last ≡ self.old.last }
    {
        let answer = self.folder.sync_all();
        self.calls.add(&Call::SyncedFolder(&answer));
        answer
    }

    /// Makes a file for what stands behind the text of the log, under a name that nothing has. Also returns that name.
    fn make_aside(&self) -> io::Result<(fs::File, String)> {
        for n in 0..1000u32 {
            let name = if n == 0 {
                format!(in self.rt.alloc(); "{}.dropped", self.log.as_str())?
            } else {
                format!(in self.rt.alloc(); "{}.dropped.{n}", self.log.as_str())?
            };
            match open_file(self.rt, name.as_str(), true, 0o600) {
                Ok(file) => return Ok((file, name)),
                Err(error) if error.kind() == io::ErrorKind::AlreadyExists => {}
                Err(error) => return Err(error),
            }
        }
        Err(io::ErrorKind::AlreadyExists.into())
    }
}

impl<S: Start> Folder<HostDisk<S>> for LogFolder<'_> {
    ghost may_lead = { folder_may_lead };

    ghost last = { λ folder. folder.last };

    ghost fails = { λ _ _. ⊤ };

    ghost is_lost = { λ _ _. ⊤ };

    ghost leads = { λ folder. (newest folder.calls.events, newest_leads folder.calls.events) };

    fn create_beside(&mut self) -> io::Result<HostDisk<S>> {
        self.last = self.last.checked_add(1).ok_or(io::ErrorKind::Other)?;
        let file = self.make_beside()?;
        self.last_node = node_of(&file)?;
        let host = HostFile::settle(file, &self.folder, self.last)?;
        Ok(Modelled::new(host, false, self.last))
    }

    fn remove_beside(&mut self) {
        let _ = fs::remove_file(self.rt, self.beside.as_str());
    }

    fn put_in_place(&mut self) -> io::Result<Option<io::Error>> {
        let (renamed, is_refused) = self.rename();
        if is_refused {
            return Ok(renamed.err());
        }
        renamed?;
        self.sync()?;
        self.node = self.last_node;
        Ok(None)
    }

    fn report_unreplaced(&self, error: Option<io::Error>) {
        let log = self.log.as_str();
        let no_memory = io::Error::new(io::ErrorKind::OutOfMemory, "no memory");
        let error = error.unwrap_or(no_memory);
        let _ = eprintln!(self.rt;
            "olr-keep: {log} is not compacted, and is used as it is: {error}"
        );
    }

    fn is_in_place(&self, len: usize) -> bool {
        let Ok(found) = fs::metadata(self.rt, self.log.as_str()) else {
            return false;
        };
        (found.dev(), found.ino()) == self.node
            && found.len() == len as u64
            && self.written.get().unwrap_or(time_of(&found)) == time_of(&found)
    }

    fn note_written(&self) {
        let found = fs::metadata(self.rt, self.log.as_str());
        self.written.set(found.ok().map(|it| time_of(&it)));
    }
}

/// The path of a log with no link in it.
fn resolve(rt: &HostRuntime, path: &str, is_new: bool) -> Result<PathBuf, OpenError> {
    match fs::canonicalize(rt, path) {
        Ok(_) if is_new => Err(OpenError::Exists),
        Ok(found) => Ok(found),
        Err(error) if error.kind() != io::ErrorKind::NotFound => Err(OpenError::Io(error)),
        Err(_) if !is_new => Err(OpenError::Missing),
        Err(error) => {
            let given = Path::new(path);
            let name = given.file_name().ok_or(error)?;
            let folder = match given.parent() {
                Some(folder) if !folder.as_str().is_empty() => folder.as_str(),
                _ => ".",
            };
            Ok(fs::canonicalize(rt, folder)?.join(rt.alloc(), name)?)
        }
    }
}

/// The number in the first line of a text.
fn first_number(text: &[u8]) -> Option<u32> {
    let digits = text.split(|b| *b == b'\n').next()?;
    std::str::from_utf8(digits).ok()?.parse().ok()
}

/// The number that a lock file holds.
fn holder(lock: &mut fs::File) -> Option<u32> {
    let mut text = [0u8; 16];
    let n = lock.read(&mut text).ok()?;
    first_number(&text[..n])
}

/// Opens a lock file. What has its name and is no file is refused and stays as it is, also if it is a link that was put there
/// meanwhile.
fn open_made(rt: &HostRuntime, name: &str) -> io::Result<fs::File> {
    let other = io::Error::new(io::ErrorKind::InvalidInput, "it is a link, or no file");
    if !fs::symlink_metadata(rt, name)?.is_file() {
        return Err(other);
    }
    let file = open_file(rt, name, false, 0o666)?;
    let named = fs::symlink_metadata(rt, name)?;
    if node_of(&file)? != (named.dev(), named.ino()) {
        return Err(other);
    }
    Ok(file)
}

/// Opens the lock file of a log, or makes it.
fn open_lock(rt: &HostRuntime, name: &str) -> io::Result<fs::File> {
    match open_file(rt, name, true, 0o666) {
        Err(error) if error.kind() == io::ErrorKind::AlreadyExists => open_made(rt, name),
        made => made,
    }
}

/// Writes the process id to a lock file.
fn note_holder(rt: &HostRuntime, lock: &mut fs::File) -> io::Result<()> {
    lock.set_len(0)?;
    let text = format!(in rt.alloc(); "{}\n", process::id(rt.process()))?;
    lock.write_all(text.as_str().as_bytes())
}

/// Locks the lock file of a log, and writes the process id to it.
fn lock(rt: &HostRuntime, log: &str) -> Result<fs::File, OpenError> {
    let name = format!(in rt.alloc(); "{log}.lock")?;
    let mut lock = open_lock(rt, name.as_str()).map_err(OpenError::Lock)?;
    match lock.try_lock() {
        Err(fs::TryLockError::WouldBlock) => return Err(OpenError::InUse(holder(&mut lock))),
        taken => taken?,
    }
    note_holder(rt, &mut lock)?;
    Ok(lock)
}

/// Opens the file of a log, or makes it, and locks it too: another name or a mount may lead to it beside another lock file.
fn open_log(rt: &HostRuntime, log: &str, is_new: bool) -> Result<fs::File, OpenError> {
    let file = open_file(rt, log, is_new, 0o666)?;
    if !file.metadata()?.is_file() {
        return Err(OpenError::Io(io::ErrorKind::Unsupported.into()));
    }
    file.try_lock()?;
    Ok(file)
}

/// The name of the file beside a log. One that an earlier run left there is removed.
fn free_beside(rt: &HostRuntime, log: &str) -> io::Result<String> {
    let beside = format!(in rt.alloc(); "{log}.compacting")?;
    unless(
        io::ErrorKind::NotFound,
        fs::remove_file(rt, beside.as_str()),
    )?;
    Ok(beside)
}

/// Opens the folder in which a log lies.
fn open_parent(rt: &HostRuntime, log: &str) -> io::Result<fs::File> {
    let parent = Path::new(log).parent().ok_or(io::ErrorKind::Unsupported)?;
    fs::open(rt, parent.as_str())
}

/// Opens a log and its folder.
fn open_folder<'a>(
    rt: &'a HostRuntime,
    path: &str,
    is_new: bool,
) -> Result<(fs::File, LogFolder<'a>), OpenError>
    ensures { IfOk result (λ place. (n : ℕ) → folder_may_lead place.1 n → n ≡ 0) }
{
    let log = resolve(rt, path, is_new)?;
    let lock = lock(rt, log.as_str())?;
    let file = open_log(rt, log.as_str(), is_new)?;
    let beside = free_beside(rt, log.as_str())?;
    let folder = open_parent(rt, log.as_str())?;
    let node = node_of(&file)?;
    let folder = LogFolder {
        rt,
        folder,
        lock,
        log,
        beside,
        node,
        last: 0,
        last_node: node,
        written: Cell::new(None),
        calls: Traced::none(),
    };
    Ok((file, folder))
}

/// Opens the file of a log, or makes it, and locks it. Links are followed now, and not later.
pub fn open_place<'a, S: Start>(
    rt: &'a HostRuntime,
    path: &str,
    is_new: bool,
    _start: S,
) -> Result<(HostDisk<S>, LogFolder<'a>), OpenError>
    ensures usable { IfOk result (λ place. IsTrue (disk_is_usable S.Start place.0)) }
    ensures fresh { IfOk result (λ place. IsFreshDisk place.0) }
    ensures named { IfOk result (λ place. (n : ℕ) → folder_may_lead place.1 n → n ≡ disk_number S.Start place.0) }
{
    let (file, folder) = open_folder(rt, path, is_new)?;
    let host = HostFile::settle(file, &folder.folder, 0)?;
    Ok((Modelled::new(host, true, 0), folder))
}

/// Copies what stands behind the text of a log to a file of its own beside it, and syncs that. Returns its name, if there was any.
pub fn set_aside<S: Start>(
    log: &mut LogFile<HostDisk<S>, LogFolder<'_>>,
) -> io::Result<Option<String>>
    ensures none { IfOk result (λ name. IsNone name → is_clean log.old ≡ true → left_over_of log.old ≡ []) }
    ensures stored { stored_of log.new ≡ stored_of log.old }
    ensures kind { is_native_of log.new ≡ is_native_of log.old }
    ensures ready { is_ready log.new ≡ is_ready log.old }
    ensures less { (c : List ℕ) → left_of log.new c → left_of log.old c }
{
    if log.left_over() == 0 {
        return Ok(None);
    }
    let folder = log.folder();
    let (mut file, name) = folder.make_aside()?;
    let alloc = folder.rt.alloc();
    log.copy_left_over(alloc, &mut file)?;
    file.sync_all()?;
    log.folder().folder.sync_all()?;
    Ok(Some(name))
}
