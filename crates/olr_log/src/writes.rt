//! Writes that are synced.

ghost use Rattle.std.specs.Prelude.{◌≡◌, ◌⊎◌, ◌+◌, ◌-◌, ◌^◌, ◌<◌, ◌≤◌, ◌∷◌, true, false, length, IsTrue, IfOk, OnOk, OnErr};
ghost use Rattle.sqlite_disk.specs.Disk.{Holds, Torn, Mixed, Cut, Follows, Only};
ghost use Rattle.olr_log.specs.Texts.{counts, ends_blank};
ghost use Rattle.olr_log.specs.Files.{KeepsFirst, IsBlank, text_in};
ghost use Rattle.olr_log.specs.Failures.{HasFailed, IsTooLong};
ghost use Rattle.olr_log.specs.States.{Stands};

use crate::state::State;
use sqlite_disk::Disk;
use std::io;

/// The bytes that are written or read at once, and the least by which a file is extended, 64 KB.
pub const BLOCK: usize = 1 << 16;

/// The most by which a file is extended, 1 MB, unless a tenth of it is more.
const MOST_ADDED: usize = 1 << 20;

/// Whether a text ends in an empty line.
#[tactic(auto, using(crate::proofs::Fronts::blank_by))]
pub fn is_blank_at_end(text: &[u8]) -> bool
    ensures { result ≡ ends_blank text.now }
{
    text == b"\n".as_slice() || text.ends_with(b"\n\n")
}

/// Writes bytes and syncs. The disk has to leave each byte old or new after a crash (`is_mixing`).
pub fn put<D: Disk>(disk: &mut D, at: usize, bytes: &[u8]) -> io::Result<()>
    requires usable { IsTrue (D.Disk.is_usable disk.old) }
    requires fits { at + length bytes.now < 2 ^ 64 }
    ensures usable { OnOk result (IsTrue (D.Disk.is_usable disk.new)) }
    ensures calm { D.Disk.is_clean disk.new ≡ D.Disk.is_clean disk.old }
    ensures key { D.Disk.key_of disk.new ≡ D.Disk.key_of disk.old }
    ensures failed { OnErr result ((D.Disk.is_mixing disk.new ≡ false) ⊎ HasFailed D.Disk disk.old disk.new) }
    ensures held { OnOk result (0 < length bytes.now → Holds (D.Disk.seen disk.new) at bytes.now) }
    ensures others { Torn at (length bytes.now) (D.Disk.seen disk.old) (D.Disk.seen disk.new) }
    ensures durable { OnOk result (Only (D.Disk.seen disk.new) (D.Disk.may_leave disk.new)) }
    ensures crash { Follows (Mixed at bytes.now) (D.Disk.may_leave disk.old) (D.Disk.may_leave disk.new) }
{
    if !disk.mixes() {
        return Err(io::ErrorKind::Unsupported.into());
    }
    disk.write_at(at, bytes)?;
    disk.sync()
}

/// The length that a file of `len` bytes gets to have room for records behind so many bytes, and for a carriage return behind them:
/// its own, or else more by as much as it has, within bounds. The records may not end in an empty line.
pub fn length_for(len: usize, at: usize, records: &[u8]) -> io::Result<usize>
    ensures fits { IfOk result (λ n. (at + length records.now < n) × (len ≤ n)) }
    ensures counts { OnOk result (ends_blank records.now ≡ false) }
    ensures failed { OnErr result ((ends_blank records.now ≡ true) ⊎ IsTooLong (at + length records.now)) }
{
    if is_blank_at_end(records) {
        return Err(io::ErrorKind::InvalidInput.into());
    }
    let needed = at
        .checked_add(records.len())
        .ok_or(io::ErrorKind::FileTooLarge)?;
    if needed < len {
        return Ok(len);
    }
    let added = len.clamp(BLOCK, MOST_ADDED).max(len / 10);
    Ok(
        needed
            .checked_add(added)
            .ok_or(io::ErrorKind::FileTooLarge)?,
    )
}

/// Overwrites a range by carriage returns, and syncs, unless it is empty. Not inlined: its buffer would be cleared in each
/// call of its callers.
#[inline(never)]
pub fn blank<D: Disk>(disk: &mut D, from: usize, to: usize) -> io::Result<()>
    requires usable { IsTrue (D.Disk.is_usable disk.old) }
    requires durable { Only (D.Disk.seen disk.old) (D.Disk.may_leave disk.old) }
    ensures usable { OnOk result (IsTrue (D.Disk.is_usable disk.new)) }
    ensures calm { D.Disk.is_clean disk.new ≡ D.Disk.is_clean disk.old }
    ensures key { D.Disk.key_of disk.new ≡ D.Disk.key_of disk.old }
    ensures steady { OnOk result (D.Disk.faults disk.new ≡ D.Disk.faults disk.old) }
    ensures failed { OnErr result (HasFailed D.Disk disk.old disk.new) }
    ensures blank { OnOk result (from < to → IsBlank from to (D.Disk.seen disk.new)) }
    ensures others { Torn from (to - from) (D.Disk.seen disk.old) (D.Disk.seen disk.new) }
    ensures durable { OnOk result (Only (D.Disk.seen disk.new) (D.Disk.may_leave disk.new)) }
    ensures crash { Follows (KeepsFirst from) (D.Disk.may_leave disk.old) (D.Disk.may_leave disk.new) }
{
    if to <= from {
        return Ok(());
    }
    let returns = [b'\r'; BLOCK];
    let mut at = from;
    while at < to {
        let n = BLOCK.min(to - at);
        disk.write_at(at, &returns[..n])?;
        at += n;
    }
    disk.sync()
}

/// Writes an empty line and a text, whatever the file held.
fn write_text<D: Disk>(disk: &mut D, text: &[u8]) -> io::Result<()>
    requires { IsTrue (D.Disk.is_usable disk.old) }
    ensures usable { OnOk result (IsTrue (D.Disk.is_usable disk.new)) }
    ensures seen { OnOk result (D.Disk.seen disk.new ≡ 10 ∷ text.now) }
    ensures steady { OnOk result (D.Disk.faults disk.new ≡ D.Disk.faults disk.old) }
    ensures failed { OnErr result (HasFailed D.Disk disk.old disk.new) }
    ensures key { D.Disk.key_of disk.new ≡ D.Disk.key_of disk.old }
{
    disk.set_len(0)?;
    disk.write_at(0, b"\n")?;
    disk.write_at(1, text)
}

/// Writes the program's own file with this text, whatever the file held, and syncs. Returns its length.
#[inline(never)]
pub fn fill<D: Disk>(disk: &mut D, text: &[u8]) -> io::Result<usize>
    requires usable { IsTrue (D.Disk.is_usable disk.old) }
    requires counts { counts text.now ≡ true }
    ensures stands { IfOk result (λ n. Stands D.Disk disk.new (State.Ready (length text.now) n)) }
    ensures stored { OnOk result (text_in (length text.now) (D.Disk.seen disk.new) ≡ text.now) }
    ensures failed { OnErr result (IsTooLong (length text.now) ⊎ HasFailed D.Disk disk.old disk.new) }
    ensures key { D.Disk.key_of disk.new ≡ D.Disk.key_of disk.old }
{
    let len = text
        .len()
        .checked_add(1 + BLOCK)
        .ok_or(io::ErrorKind::FileTooLarge)?;
    write_text(disk, text)?;
    disk.write_at(text.len() + 1, &[b'\r'; BLOCK])?;
    disk.sync()?;
    Ok(len)
}

/// Changes the length of a file, and syncs.
pub fn cut<D: Disk>(disk: &mut D, len: usize) -> io::Result<()>
    requires usable { IsTrue (D.Disk.is_usable disk.old) }
    ensures usable { OnOk result (IsTrue (D.Disk.is_usable disk.new)) }
    ensures calm { D.Disk.is_clean disk.new ≡ D.Disk.is_clean disk.old }
    ensures key { D.Disk.key_of disk.new ≡ D.Disk.key_of disk.old }
    ensures steady { OnOk result (D.Disk.faults disk.new ≡ D.Disk.faults disk.old) }
    ensures failed { OnErr result (HasFailed D.Disk disk.old disk.new) }
    ensures len { OnOk result (length (D.Disk.seen disk.new) ≡ len) }
    ensures others { Cut len (D.Disk.seen disk.old) (D.Disk.seen disk.new) }
    ensures durable { OnOk result (Only (D.Disk.seen disk.new) (D.Disk.may_leave disk.new)) }
    ensures crash { Follows (Cut len) (D.Disk.may_leave disk.old) (D.Disk.may_leave disk.new) }
{
    disk.set_len(len)?;
    disk.sync()
}
