//! A `Keep` as a pointer that C may hold.

ghost use Rattle.std.specs.Prelude.{◌≡◌, Option, Some, None, IsSome};
ghost use Rattle.olr_c.specs.Held.{coded_held, owns_keep};
ghost use Rattle.olr_c.specs.declared.keep.Keep.{Keep as Kept};

use crate::keep::Keep;
use crate::loose::Loose;
use std::alloc::Global;
use std::marker::Model;

#[repr(C)]
#[derive(Drop)]
pub struct Owned {
    at: *mut u8,
    alloc: Global,
    pub ghost keep: { Option Kept } by { coded_held },
}

impl Model for Owned {
    ghost also_owns = { λ o. owns_keep o.at o.alloc o.keep };
}

impl Owned {
    pub fn none(alloc: Global) -> Owned
        ensures { result.keep ≡ None }
    {
        Owned {
            at: std::ptr::null_mut(),
            alloc,
        }
    }

    pub fn of(loose: Loose<Keep, Global>) -> Owned
        ensures { result.keep ≡ Some loose.value }
    {
        let Loose { at, alloc } = loose;
        Owned {
            at: at.cast::<u8>(),
            alloc,
        }
    }

    pub fn into_loose(self) -> Loose<Keep, Global>
        requires { IsSome self.keep }
        ensures { self.keep ≡ Some result.value }
    {
        let Owned { at, alloc } = self;
        Loose {
            at: at.cast::<Keep>(),
            alloc,
        }
    }
}
