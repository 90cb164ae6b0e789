//! How the file of a log is changed.

ghost use Rattle.std.specs.Prelude.{◌≡◌, ◌+◌, ℕ, List, ◌∷◌, ◌++◌, length, true, IsTrue, IfOk, OnOk, OnErr};
ghost use Rattle.sqlite_disk.specs.Disk.{Only};
ghost use Rattle.olr_log.specs.Journals.{IsFront, is_whole};
ghost use Rattle.olr_log.specs.Failures.{HasFailed, NotWritten};
ghost use Rattle.olr_log.specs.Files.{text_in};
ghost use Rattle.olr_log.specs.Outcomes.{LeavesText};
ghost use Rattle.olr_log.specs.States.{Stands};

use crate::state::State;
use crate::writes::{blank, cut, length_for, put};
use sqlite_disk::Disk;
use std::io;

/// Writes whole records behind the text of a file of `len` bytes, which is extended before if it is too short, and syncs. Returns
/// its length.
pub fn append<D: Disk>(
    disk: &mut D,
    text_len: usize,
    len: usize,
    records: &[u8],
) -> io::Result<usize>
    requires stands { Stands D.Disk disk.old (State.Ready text_len len) }
    requires whole { IsTrue (is_whole records.now) }
    ensures stands { IfOk result (λ n. Stands D.Disk disk.new (State.Ready (text_len + length records.now) n)) }
    ensures failed { OnErr result (NotWritten D.Disk (text_len + 1) records.now disk.old disk.new) }
    ensures stored { OnOk result (text_in (text_len + length records.now) (D.Disk.seen disk.new) ≡ text_in text_len (D.Disk.seen disk.old) ++ records.now) }
    ensures key { D.Disk.key_of disk.new ≡ D.Disk.key_of disk.old }
    ensures cut { (c : List ℕ) → LeavesText D.Disk.is_clean D.Disk.may_leave disk.new c
        → (front : List ℕ) × IsFront records.now front × (c ≡ text_in text_len (D.Disk.seen disk.old) ++ front) }
{
    let at = text_len + 1;
    let more = length_for(len, at, records)?;
    blank(disk, len, more)?;
    put(disk, at, records)?;
    Ok(more)
}

/// Overwrites what stands behind the text of a file of `len` bytes, up to the last byte that isn't a carriage return, and syncs:
/// first its first byte, behind which nothing counts then. Returns the length of the file.
pub fn wipe<D: Disk>(disk: &mut D, text_len: usize, last: usize, len: usize) -> io::Result<usize>
    requires stands { Stands D.Disk disk.old (State.Opened text_len last len) }
    ensures stands { IfOk result (λ n. Stands D.Disk disk.new (State.Ready text_len n)) }
    ensures stored { OnOk result (D.Disk.is_clean disk.new ≡ true → text_in text_len (D.Disk.seen disk.new) ≡ text_in text_len (D.Disk.seen disk.old)) }
    ensures key { D.Disk.key_of disk.new ≡ D.Disk.key_of disk.old }
    ensures cut { Only (text_in text_len (D.Disk.seen disk.old)) (LeavesText D.Disk.is_clean D.Disk.may_leave disk.new) }
{
    let from = text_len + 1;
    let rest = from.checked_add(1).ok_or(io::ErrorKind::FileTooLarge)?;
    let to = rest.max(last + 1);
    put(disk, from, b"\r")?;
    blank(disk, rest, to)?;
    Ok(len.max(to))
}

/// Cuts the padding of a file off: but for one carriage return first, behind which nothing counts meanwhile.
pub fn cut_off<D: Disk>(disk: &mut D, text_len: usize, _len: usize) -> io::Result<()>
    requires { Stands D.Disk disk.old (State.Ready text_len _len) }
    ensures failed { OnErr result (HasFailed D.Disk disk.old disk.new) }
    ensures closed { OnOk result (D.Disk.is_clean disk.new ≡ true → D.Disk.seen disk.new ≡ 10 ∷ text_in text_len (D.Disk.seen disk.old)) }
    ensures key { D.Disk.key_of disk.new ≡ D.Disk.key_of disk.old }
    ensures cut { Only (text_in text_len (D.Disk.seen disk.old)) (LeavesText D.Disk.is_clean D.Disk.may_leave disk.new) }
{
    let end = text_len + 1;
    cut(disk, end + 1)?;
    cut(disk, end)
}
