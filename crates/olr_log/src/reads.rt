//! Reads of a log that was opened.

ghost use Rattle.std.specs.Prelude.{◌≡◌, ◌+◌, ◌^◌, ◌<◌, true, false, length, take, drop, IsTrue, IfOk, IfErr, OnOk};
ghost use Rattle.olr_log.specs.Texts.{is_native};
ghost use Rattle.olr_log.specs.States.{Stands, is_broken_in, is_ready_in};
ghost use Rattle.olr_log.specs.Failures.{NotRead};
ghost use Rattle.olr_log.specs.Reads.{OnlyReads};
ghost use Rattle.olr_log.specs.Scanning.{Scanned};

use crate::scan::Scan;
use crate::state::State;
use crate::writes::BLOCK;
use sqlite_disk::Disk;
use std::alloc::Global;
use std::io;

/// Whether a file of so many bytes begins with an empty line.
pub fn begins_native<D: Disk>(disk: &mut D, len: usize) -> io::Result<bool>
    requires { IsTrue (D.Disk.is_usable disk.old) }
    ensures reads { OnlyReads D.Disk disk.old disk.new }
    ensures some { IfOk result (λ b. b ≡ true → 0 < len) }
    ensures kind { IfOk result (λ b. D.Disk.is_clean disk.new ≡ true → length (D.Disk.seen disk.old) ≡ len → b ≡ is_native (D.Disk.seen disk.old)) }
{
    if len == 0 {
        return Ok(false);
    }
    let mut first = [0u8];
    disk.read_at(0, &mut first)?;
    Ok(first[0] == b'\n')
}

/// Reads the next `n` bytes for a scan.
fn scan_next<D: Disk>(
    alloc: Global,
    disk: &mut D,
    at: usize,
    n: usize,
    scan: &mut Scan,
) -> io::Result<()>
    requires usable { IsTrue (D.Disk.is_usable disk.old) }
    requires some { 0 < n }
    requires fits { at + n < 2 ^ 64 }
    requires place { at ≡ scan.old.at + 1 }
    ensures reads { OnlyReads D.Disk disk.old disk.new }
    ensures at { OnOk result (scan.new.at ≡ scan.old.at + n) }
    ensures text { OnOk result (Scanned scan.old (take scan.old.at (drop 1 (D.Disk.seen disk.old))) → D.Disk.is_clean disk.new ≡ true
        → Scanned scan.new (take scan.new.at (drop 1 (D.Disk.seen disk.old)))) }
{
    let block = read_exact(alloc, disk, at, n)?;
    scan.take(&block)?;
    Ok(())
}

/// Finds the end of the whole records of a file of so many bytes, behind its first line.
pub fn find_end<D: Disk>(alloc: Global, disk: &mut D, len: usize) -> io::Result<Scan>
    requires usable { IsTrue (D.Disk.is_usable disk.old) }
    requires some { 0 < len }
    ensures reads { OnlyReads D.Disk disk.old disk.new }
    ensures at { IfOk result (λ scan. scan.at + 1 ≡ len) }
    ensures text { IfOk result (λ scan. D.Disk.is_clean disk.new ≡ true → length (D.Disk.seen disk.old) ≡ len
        → Scanned scan (drop 1 (D.Disk.seen disk.old))) }
{
    let mut scan = Scan::new(alloc)?;
    let mut at = 1;
    while at < len {
        let n = BLOCK.min(len - at);
        scan_next(alloc, disk, at, n, &mut scan)?;
        at += n;
    }
    Ok(scan)
}

/// Syncs a file, and finds the end of its text.
pub fn examine<D: Disk>(alloc: Global, disk: &mut D) -> io::Result<State>
    requires { IsTrue (D.Disk.is_usable disk.old) }
    ensures seen { D.Disk.seen disk.new ≡ D.Disk.seen disk.old }
    ensures key { D.Disk.key_of disk.new ≡ D.Disk.key_of disk.old }
    ensures stands { IfOk result (λ state. Stands D.Disk disk.new state) }
    ensures unready { IfOk result (λ state. is_ready_in state ≡ false) }
    ensures unbroken { IfOk result (λ state. is_broken_in state ≡ false) }
{
    disk.sync()?;
    let len = disk.len()?;
    if !begins_native(disk, len)? {
        return Ok(State::Foreign { len });
    }
    let scan = find_end(alloc, disk, len)?;
    Ok(State::Opened {
        text_len: scan.found,
        last: scan.last,
        len,
    })
}

/// Reads so many bytes. If there are none, the disk isn't read.
pub fn read_exact<D: Disk>(alloc: Global, disk: &mut D, at: usize, n: usize) -> io::Result<Vec<u8>>
    requires { IsTrue (D.Disk.is_usable disk.old) }
    ensures reads { OnlyReads D.Disk disk.old disk.new }
    ensures failed { IfErr result (λ error. NotRead D.Disk at n error disk.old disk.new) }
    ensures len { IfOk result (λ bytes. length bytes.items ≡ n) }
    ensures bytes { IfOk result (λ bytes. D.Disk.is_clean disk.new ≡ true → bytes.items ≡ take n (drop at (D.Disk.seen disk.old))) }
{
    let mut bytes = vec![in alloc; 0u8; n]?;
    if n == 0 {
        return Ok(bytes);
    }
    disk.read_at(at, &mut bytes)?;
    Ok(bytes)
}
