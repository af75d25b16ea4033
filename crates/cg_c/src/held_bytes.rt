//! The handle of bytes.

ghost use Rattle.std.specs.Prelude.{◌≡◌, ℕ, Option, Some, None};
ghost use Rattle.std.specs.declared.vec.Vec.{Vec};
ghost use Rattle.std.specs.declared.alloc.Global.{Global};
ghost use Rattle.cg_c.specs.Held.{in_box, in_loose};

use crate::loose::Loose;
use std::alloc::Global;
use std::marker::Model;
use std::ptr::null_mut;

/// A handle that holds bytes, or nothing. It is null if it holds nothing.
#[repr(C)]
pub struct HeldBytes {
    at: *mut u8,
    ghost value: { Option (Vec ℕ Global) },
}

impl Model for HeldBytes {
    ghost use Rattle.cg_c.specs.Held.{bytes_row};
    ghost use Rattle.cg_c.specs.Held.{held};

    ghost also_owns = { λ h. held bytes_row h.at h.value };
}

impl HeldBytes {
    /// A handle that holds nothing.
    pub(crate) fn empty() -> HeldBytes
        ensures { result.value ≡ None }
    {
        HeldBytes { at: null_mut() }
    }

    fn of_loose(loose: Loose<Vec<u8>, Global>) -> HeldBytes
        ensures { result.value ≡ Some loose.value }
    {
        let Loose { at, alloc: _ } = loose;
        HeldBytes { at: at as *mut u8 }
    }

    fn into_loose(self, alloc: Global) -> Option<Loose<Vec<u8>, Global>>
        ensures { in_loose result ≡ self.value }
    {
        let HeldBytes { at } = self;
        if at.is_null() {
            None
        } else {
            Some(Loose {
                at: at as *mut Vec<u8>,
                alloc,
            })
        }
    }

    /// A handle that holds the bytes of a box.
    pub(crate) fn of(bytes: Box<Vec<u8>>) -> HeldBytes
        ensures { result.value ≡ Some bytes.value }
    {
        HeldBytes::of_loose(Loose::of(bytes))
    }

    /// The box of the bytes that the handle holds, if it holds some.
    pub(crate) fn into_box(self, alloc: Global) -> Option<Box<Vec<u8>>>
        ensures { in_box result ≡ self.value }
    {
        match self.into_loose(alloc) {
            None => None,
            Some(loose) => Some(loose.into_box()),
        }
    }
}
