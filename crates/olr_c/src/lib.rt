//! A library for C: registers behind handles, which take records and return replies.
#![tactic(auto)]

mod handle;
mod keep;
mod loose;
mod owned;

ghost use Rattle.std.specs.Prelude.{◌≡◌, ◌≢◌, ◌++◌, ◌≤◌, ◌<◌, length, take, drop, None, Some, IsSomeAnd, MatchOption};
ghost use Rattle.std.specs.Vec.{vec_ptr};
ghost use Rattle.olr_c.specs.Called.{CalledOf, IsNew};

use crate::handle::{Handle, put, taken};
use crate::keep::Keep;
use std::alloc::Global;

/// The call succeeded.
const DONE: u8 = 0;

/// The handle has no register.
const NO_REGISTER: u8 = 2;

/// The buffer is too short.
const TOO_SHORT: u8 = 3;

/// Out of memory.
const NO_MEMORY: u8 = 4;

/// Makes a register of an empty map and no paths. A register that the handle had is dropped.
#[unsafe(no_mangle)]
pub extern "C" fn olr_c_make(alloc: Global, handle: &mut Handle) -> u8
    ensures made { result ≡ 0 → IsSomeAnd handle.new.owned.keep IsNew }
    ensures failed { result ≢ 0 → (result ≡ 4) × (handle.new ≡ handle.old) }
{
    let Ok(new) = Box::new(alloc, Keep::new(alloc)) else {
        return NO_MEMORY;
    };
    let _old = taken(alloc, handle);
    *handle = put(new);
    DONE
}

/// Drops the register of a handle, if it has one.
#[unsafe(no_mangle)]
pub extern "C" fn olr_c_drop(alloc: Global, handle: &mut Handle)
    ensures { handle.new.owned.keep ≡ None }
{
    let _dropped = taken(alloc, handle);
}

/// Carries out records, usually one, with or without its line end.
#[unsafe(no_mangle)]
pub extern "C" fn olr_c_ask(alloc: Global, handle: &mut Handle, records: &[u8]) -> u8
    ensures { CalledOf handle.old.owned.keep records.now handle.new.owned.keep result }
{
    let Some(mut keep) = taken(alloc, handle) else {
        return NO_REGISTER;
    };
    let status = keep.ask(alloc, records);
    *handle = put(keep);
    status
}

/// The bytes of the last reply.
#[unsafe(no_mangle)]
pub extern "C" fn olr_c_length(alloc: Global, handle: &mut Handle) -> usize
    ensures length { MatchOption handle.old.owned.keep (result ≡ 0) (λ k. result ≡ length k.reply.items) }
    ensures unchanged { handle.new.owned.keep ≡ handle.old.owned.keep }
{
    let Some(keep) = taken(alloc, handle) else {
        return 0;
    };
    let length = keep.reply.len();
    *handle = put(keep);
    length
}

/// Writes where the bytes of the last reply are, until the next call that changes the register.
#[unsafe(no_mangle)]
pub extern "C" fn olr_c_at(alloc: Global, handle: &mut Handle, at: &mut *const u8) -> u8
    ensures at { MatchOption handle.old.owned.keep ((result ≡ 2) × (at.new ≡ at.old))
        (λ k. (result ≡ 0) × (at.new ≡ vec_ptr k.reply)) }
    ensures unchanged { handle.new.owned.keep ≡ handle.old.owned.keep }
{
    let Some(keep) = taken(alloc, handle) else {
        return NO_REGISTER;
    };
    *at = keep.reply.as_ptr();
    *handle = put(keep);
    DONE
}

/// Copies the last reply into a buffer.
#[unsafe(no_mangle)]
pub extern "C" fn olr_c_reply(alloc: Global, handle: &mut Handle, buffer: &mut [u8]) -> u8
    ensures copied { MatchOption handle.old.owned.keep ((result ≡ 2) × (buffer.new ≡ buffer.old))
        (λ k. (result ≡ 0 → buffer.new ≡ k.reply.items ++ drop (length k.reply.items) buffer.old)
        × (result ≢ 0 → (result ≡ 3) × (length buffer.old < length k.reply.items) × (buffer.new ≡ buffer.old))) }
    ensures unchanged { handle.new.owned.keep ≡ handle.old.owned.keep }
{
    let Some(keep) = taken(alloc, handle) else {
        return NO_REGISTER;
    };
    let status = copied(keep.reply.as_slice(), buffer);
    *handle = put(keep);
    status
}

/// Copies a text to the start of a buffer.
fn copied(text: &[u8], buffer: &mut [u8]) -> u8
    ensures done { result ≡ 0 → buffer.new ≡ text.now ++ drop (length text.now) buffer.old }
    ensures short { result ≢ 0
        → (result ≡ 3) × (length buffer.old < length text.now) × (buffer.new ≡ buffer.old) }
{
    if buffer.len() < text.len() {
        return TOO_SHORT;
    }
    buffer[..text.len()].copy_from_slice(text);
    DONE
}
