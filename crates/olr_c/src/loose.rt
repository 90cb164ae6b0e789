//! A box as its pointer, its allocator and the value that they own.

ghost use Rattle.std.specs.Prelude.{◌≡◌};
ghost use Rattle.std.specs.Box.Ownership.{box_owns};

use std::alloc::Allocator;
use std::marker::Model;

/// A box taken apart.
pub struct Loose<T, A: Allocator> {
    pub at: *mut T,
    pub alloc: A,
    pub ghost value: { T },
}

impl<T, A: Allocator> Model for Loose<T, A> {
    ghost also_owns = { λ l. box_owns (A.dealloc_token l.alloc) T.row l.at l.value };
}

/// Takes a box apart.
pub fn apart<T: Drop, A: Allocator>(boxed: Box<T, A>) -> Loose<T, A>
    ensures { result.value ≡ boxed.value }
{
    let (at, alloc) = Box::into_raw_with_allocator(boxed);
    Loose { at, alloc }
}

/// Builds the box again.
pub fn boxed<T, A: Allocator>(loose: Loose<T, A>) -> Box<T, A>
    ensures { result.value ≡ loose.value }
{
    let Loose { at, alloc } = loose;
    unsafe { Box::from_raw(alloc, at) }
}
