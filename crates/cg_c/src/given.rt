//! Bytes that C reads, and frees by one call.

ghost use Rattle.std.specs.Prelude.{◌≡◌, [], None, Some};
ghost use Rattle.cg_c.specs.Bytes.{held_items, items_length};

use crate::held_bytes::HeldBytes;
use std::alloc::Global;
use std::mem::replace;
use std::ptr::null;

/// Bytes. C may read `length` bytes at `start` until it lends these bytes to a call.
#[repr(C)]
pub struct Bytes {
    start: *const u8,
    length: usize,
    held: HeldBytes,
    ghost size: { length ≡ items_length held.value },
}

impl Bytes {
    // No bytes, which take no memory.
    fn empty() -> Bytes
        ensures { result.held.value ≡ None }
    {
        Bytes {
            start: null(),
            length: 0,
            held: HeldBytes::empty(),
        }
    }

    // The bytes of a box.
    fn of(bytes: Box<Vec<u8>>) -> Bytes
        ensures { result.held.value ≡ Some bytes.value }
    {
        Bytes {
            start: bytes.as_ptr(),
            length: bytes.len(),
            held: HeldBytes::of(bytes),
        }
    }

    /// Puts bytes in the place of those that were here, which are freed.
    pub(crate) fn put(&mut self, alloc: Global, bytes: Box<Vec<u8>>)
        ensures { held_items self.new.held.value ≡ bytes.value.items }
    {
        let before = replace(self, Bytes::of(bytes));
        before.free(alloc);
    }

    /// Frees the bytes, and leaves none.
    pub(crate) fn clear(&mut self, alloc: Global)
        ensures { held_items self.new.held.value ≡ [] }
    {
        let before = replace(self, Bytes::empty());
        before.free(alloc);
    }

    fn free(self, alloc: Global) {
        let Bytes {
            start: _,
            length: _,
            held,
        } = self;
        let _freed = held.into_box(alloc);
    }
}

/// Frees bytes that a call gave, and leaves none. At bytes that are none it does nothing.
#[unsafe(no_mangle)]
pub extern "C" fn cg_bytes_free(alloc: Global, bytes: &mut Bytes)
    ensures { held_items bytes.new.held.value ≡ [] }
{
    bytes.clear(alloc);
}
