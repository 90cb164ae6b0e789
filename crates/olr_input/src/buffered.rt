//! An output that holds bytes back until it is flushed.

ghost use Rattle.std.specs.Prelude.{◌≡◌, ◌≤◌, [], length, take, drop, vec_len, IfOk, OnOk};
ghost use Rattle.std.specs.Io.KnownBytes.{Appends, Keeps};
ghost use Rattle.olr_input.specs.Sessions.{most_pending};

use crate::ends::RunFault;
use std::alloc::{AllocError, Global};
use std::io::{self, ErrorKind, Write};

/// An output that holds back what is written, at most 64 KB of it, until it is flushed. It sends nothing by itself, not
/// even when it is dropped, and nothing more once its device has failed.
#[derive(Drop)]
pub struct Buffered<W: Drop> {
    device: W,
    pending: Vec<u8>,
    failed: bool,
    ghost bounded: { length pending.items ≤ most_pending },
}

/// Sends bytes to a device until all are sent or it fails. Returns how many were sent.
#[tactic(auto, using(crate::proofs::Writing::written_more))]
fn send<W: Write>(device: &mut W, bytes: &[u8]) -> usize
    ensures bound { result ≤ length bytes.now }
    ensures sent { Appends (W.contents device.old) (W.contents device.new) (take result bytes.now) }
{
    let mut sent = 0;
    while sent < bytes.len() {
        match device.write(&bytes[sent..]) {
            Ok(taken) if taken > 0 => sent += taken,
            _ => return sent,
        }
    }
    sent
}

/// Removes the first bytes.
pub fn remove_front(bytes: &mut Vec<u8>, count: usize)
    requires { count ≤ vec_len bytes.old }
    ensures { bytes.new.items ≡ drop count bytes.old.items }
{
    let len = bytes.len();
    bytes.as_mut_slice().copy_within(count..len, 0);
    bytes.truncate(len - count);
}

/// The most bytes that are held back, 64 KB.
const MOST_PENDING: usize = 1 << 16;

impl<W: Write + Drop> Buffered<W> {
    ghost use Rattle.std.specs.Prelude.{◌++◌, ◌||◌, not, is_ok, false, IsTrue, IfErr, OnErr};
    ghost use Rattle.olr_input.specs.Buffers.{is_empty, pending, written, Sends};

    /// An output to this device. Every byte that it will hold has its place from the start.
    pub fn new(alloc: Global, device: W) -> Result<Buffered<W>, AllocError>
        ensures device { IfOk result (λ b. b.device ≡ device) }
        ensures empty { IfOk result (λ b. pending b ≡ []) }
    {
        Ok(Buffered {
            device,
            pending: Vec::with_capacity(alloc, MOST_PENDING)?,
            failed: false,
        })
    }

    /// Holds bytes back, and returns how many. Takes nothing of a text for which there is no room beside others, so that
    /// texts leave whole if they are no longer than the room for all. `Write` is the fault if an allocation fails.
    pub fn hold(&mut self, bytes: &[u8]) -> Result<usize, RunFault>
        ensures bound { IfOk result (λ n. n ≤ length bytes.now) }
        ensures pending { IfOk result (λ n. pending self.new ≡ pending self.old ++ take n bytes.now) }
        ensures nothing { OnErr result (pending self.new ≡ pending self.old) }
        ensures fault { IfErr result (λ e. e ≡ RunFault.Write) }
        ensures device { self.new.device ≡ self.old.device }
    {
        let room = MOST_PENDING - self.pending.len();
        let taken = if bytes.len() <= room {
            bytes.len()
        } else if self.pending.is_empty() {
            room
        } else {
            0
        };
        if self.pending.extend_from_slice(&bytes[..taken]).is_err() {
            return Err(RunFault::Write);
        }
        Ok(taken)
    }

    /// Sends what is pending, from its front on. After a failure the rest is still pending, and nothing more is sent. `Write` is
    /// the fault if it can't be sent.
    pub fn send_all(&mut self) -> Result<(), RunFault>
        ensures bytes { Keeps (written W.contents self.old) (written W.contents self.new) }
        ensures device { Sends (W.contents self.old.device) (pending self.old) (W.contents self.new.device) (pending self.new) }
        ensures sent { OnOk result (pending self.new ≡ []) }
        ensures fault { IfErr result (λ e. e ≡ RunFault.Write) }
        ensures failed { self.new.failed ≡ (self.old.failed || not (is_empty (pending self.new))) }
        ensures closed { IsTrue self.old.failed → (self.new ≡ self.old) × (is_ok result ≡ false) }
    {
        if self.failed {
            return Err(RunFault::Write);
        }
        let sent = send(&mut self.device, self.pending.as_slice());
        remove_front(&mut self.pending, sent);
        if !self.pending.is_empty() {
            self.failed = true;
            return Err(RunFault::Write);
        }
        self.device.flush().map_err(|_| RunFault::Write)
    }

    /// The device, which has what was sent.
    pub fn get_ref(&self) -> &W
        ensures { result.now ≡ self.now.device }
    {
        &self.device
    }
}

impl<W: Write + Drop> Write for Buffered<W> {
    ghost use Rattle.olr_input.specs.Buffers.{pending, written};

    ghost contents = { λ b. written W.contents b };

    /// Holds bytes back, as many as `hold` takes.
    fn write(&mut self, bytes: &[u8]) -> io::Result<usize> {
        self.hold(bytes).map_err(|_| ErrorKind::OutOfMemory.into())
    }

    /// Sends what is pending.
    fn flush(&mut self) -> io::Result<()>
        ensures bytes { Keeps (written W.contents self.old) (written W.contents self.new) }
        ensures sent { OnOk result (pending self.new ≡ []) }
    {
        self.send_all().map_err(|_| ErrorKind::BrokenPipe.into())
    }
}
