//! A file of the operating system. Each method makes one call of the system and adds it with its answer, whatever that is: this
//! is read, and not proved.

ghost use Rattle.std.specs.Prelude.{◌≡◌, ◌<◌, ◌≤◌, ◌^◌, [], ◌∷◌, length, IfOk};
ghost use Rattle.sqlite_disk.specs.Events.{settled};

use crate::traced::{Call, Traced};
use olr_log::BLOCK;
use sqlite_disk::Calls;
use std::os::unix::fs::FileExt;
use std::{fs, io};

/// What the system takes for an offset.
const MOST: usize = (1 << 63) - 1;

/// An open file.
#[derive(Drop)]
pub struct HostFile {
    file: fs::File,
    calls: Traced,
}

impl HostFile {
    /// Writes what a file holds once more, and syncs it and its folder: after a sync that failed in an earlier process the kernel's
    /// pages may differ from the disk, and no later sync would write them. It has this number from then on.
    pub(crate) fn settle(file: fs::File, folder: &fs::File, number: u64) -> io::Result<HostFile>
        ensures { IfOk result (λ host. host.calls.events ≡ settled number ∷ []) }
    {
        write_back(&file)?;
        file.sync_all()?;
        folder.sync_all()?;
        let mut calls = Traced::none();
        calls.add(&Call::Settled(number));
        Ok(HostFile { file, calls })
    }
}

/// Reads a file and writes each block where it stands.
fn write_back(file: &fs::File) -> io::Result<()> {
    let mut block = [0u8; BLOCK];
    for k in 0..file.metadata()?.len().div_ceil(BLOCK as u64) {
        let at = k * BLOCK as u64;
        let n = file.read_at(&mut block, at)?;
        file.write_all_at(&block[..n], at)?;
    }
    Ok(())
}

/// This number of bytes, or the error if it is 0.
fn some(count: usize, none: io::ErrorKind) -> io::Result<usize>
    ensures { IfOk result (λ n. (n ≡ count) × (0 < n)) }
{
    match count {
        0 => Err(none.into()),
        n => Ok(n),
    }
}

fn read(file: &fs::File, at: usize, buf: &mut [u8]) -> io::Result<usize>
    ensures { IfOk result (λ n. (0 < n) × (n ≤ length buf.old) × (at < 2 ^ 63)) }
{
    if at > MOST {
        return Err(io::ErrorKind::InvalidInput.into());
    }
    some(file.read_at(buf, at as u64)?, io::ErrorKind::UnexpectedEof)
}

fn write(file: &fs::File, at: usize, bytes: &[u8]) -> io::Result<usize>
    ensures { IfOk result (λ n. (0 < n) × (n ≤ length bytes.now) × (at < 2 ^ 63)) }
{
    if at > MOST {
        return Err(io::ErrorKind::FileTooLarge.into());
    }
    some(file.write_at(bytes, at as u64)?, io::ErrorKind::WriteZero)
}

impl Calls for HostFile {
    ghost history = { λ host. host.calls.events };

    fn len(&mut self) -> io::Result<usize> {
        let answer = self.file.metadata().map(|found| found.len() as usize);
        self.calls.add(&Call::Measured(&answer));
        answer
    }

    fn read_some(&mut self, at: usize, buf: &mut [u8]) -> io::Result<usize> {
        let answer = read(&self.file, at, buf);
        self.calls.add(&Call::Read(at, buf, &answer));
        answer
    }

    fn read_under(&mut self, key: u64, want: u64, at: usize, buf: &mut [u8]) -> io::Result<usize> {
        let answer = read(&self.file, at, buf);
        self.calls
            .add(&Call::ReadUnder(key, want, at, buf, &answer));
        answer
    }

    fn write_some(&mut self, at: usize, bytes: &[u8]) -> io::Result<usize> {
        let answer = write(&self.file, at, bytes);
        self.calls.add(&Call::Written(at, bytes, &answer));
        answer
    }

    fn resize(&mut self, len: usize) -> io::Result<()> {
        let answer = self.file.set_len(len as u64);
        self.calls.add(&Call::Resized(len, &answer));
        answer
    }

    fn sync(&mut self) -> io::Result<()> {
        let answer = self.file.sync_data();
        self.calls.add(&Call::Synced(&answer));
        answer
    }
}
