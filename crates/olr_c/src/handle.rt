//! The handle that C holds.

ghost use Rattle.std.specs.Prelude.{◌≡◌, option_map, is_some, None, Some};

use crate::keep::Keep;
use crate::loose::{apart, boxed};
use crate::owned::Owned;
use std::alloc::Global;
use std::mem;

/// A register, or none. In C a pointer and a flag.
#[repr(C)]
#[derive(Drop)]
pub struct Handle {
    pub owned: Owned,
    full: bool,
    ghost right: { full ≡ is_some owned.keep },
}

/// A handle of a register.
pub fn put(keep: Box<Keep>) -> Handle
    ensures { result.owned.keep ≡ Some keep.value }
{
    Handle {
        owned: Owned::of(apart(keep)),
        full: true,
    }
}

/// Takes the register out of a handle, which then has none.
pub fn taken(alloc: Global, handle: &mut Handle) -> Option<Box<Keep>>
    ensures value { option_map (λ b. b.value) result ≡ handle.old.owned.keep }
    ensures left { handle.new.owned.keep ≡ None }
{
    let empty = Handle {
        owned: Owned::none(alloc),
        full: false,
    };
    let Handle { owned, full } = mem::replace(handle, empty);
    if !full {
        return None;
    }
    Some(boxed(owned.into_loose()))
}
