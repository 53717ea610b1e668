//! What C keeps of a value on the heap: its address, or null.

ghost use Rattle.std.specs.Prelude.{◌≡◌, Some, None, IfSome, IfNone};
ghost use Rattle.pcml_cells.specs.Owned.{InHandle, handle_owns, kept_coded};

use crate::parts::Parts;
use cell_hand::Kept;
use std::alloc::Global;
use std::marker::Model;

/// The address of what is kept, or null. It lies in the caller's memory.
#[repr(C)]
pub struct Handle {
    at: *mut u8,
    alloc: Global,
    pub ghost kept: { InHandle } by { kept_coded },
}

impl Model for Handle {
    ghost also_owns = { λ h. handle_owns h.alloc h.at h.kept };
}

impl Handle {
    pub fn empty(alloc: Global) -> Handle
        ensures { result.kept ≡ None }
    {
        Handle {
            at: std::ptr::null_mut(),
            alloc,
        }
    }

    fn of_parts(parts: Parts<Kept, Global>) -> Handle
        ensures { result.kept ≡ Some parts.value }
    {
        let Parts { ptr, alloc } = parts;
        Handle {
            at: ptr as *mut u8,
            alloc,
        }
    }

    fn into_parts(self) -> Option<Parts<Kept, Global>>
        ensures { IfSome result (λ p. self.kept ≡ Some p.value) × IfNone result (self.kept ≡ None) }
    {
        let Handle { at, alloc } = self;
        if at == std::ptr::null_mut() {
            return None;
        }
        Some(Parts {
            ptr: at as *mut Kept,
            alloc,
        })
    }

    /// What is kept, if anything is. The handle is empty from then on.
    pub fn take(&mut self, alloc: Global) -> Option<Box<Kept, Global>>
        ensures empty { self.new.kept ≡ None }
        ensures some { IfSome result (λ b. self.old.kept ≡ Some b.value) }
        ensures none { IfNone result (self.old.kept ≡ None) }
    {
        match std::mem::replace(self, Handle::empty(alloc)).into_parts() {
            Some(parts) => Some(parts.into_box()),
            None => None,
        }
    }

    /// Keeps the box. What was kept before goes.
    pub fn keep(&mut self, value: Box<Kept, Global>)
        ensures { self.new.kept ≡ Some value.value }
    {
        *self = Handle::of_parts(Parts::of(value));
    }
}

impl Drop for Handle {
    fn drop(self) {
        if let Some(parts) = self.into_parts() {
            drop(parts.into_box());
        }
    }
}

// what it keeps may go to another thread, and nothing else is at its address
unsafe impl Send for Handle {}
