//! A bus behind a pointer, as C keeps it.

ghost use Rattle.std.specs.Prelude.{◌≡◌, Option, Some, None, MatchOption};
ghost use Rattle.pb_world.specs.declared.driven.Driven.{Driven};

use pb_world::DrivenBus;
use std::alloc::Global;
use std::marker::Model;
use std::ptr::null_mut;

/// A bus behind a pointer. It is empty where the pointer is null. The pointer is one to octets, since C may not see
/// what a bus is made of.
#[repr(C)]
pub struct BusHandle {
    at: *mut u8,
    pub ghost value: { Option Driven },
}

impl Model for BusHandle {
    ghost use Rattle.pbfdl.specs.Owned.{handle_owns};

    ghost also_owns = { λ h. handle_owns h.at h.value };
}

impl BusHandle {
    /// Takes the bus out, if there is one. The handle is empty then.
    pub fn take(&mut self, alloc: Global) -> Option<Box<DrivenBus>>
        ensures taken { MatchOption result (self.old.value ≡ None) (λ b. self.old.value ≡ Some b.value) }
        ensures left { self.new.value ≡ None }
    {
        let at = self.at;
        if at == null_mut() {
            return None;
        }
        self.at = null_mut();
        Some(unsafe { Box::from_raw(alloc, at as *mut DrivenBus) })
    }

    /// Puts a bus into an empty handle, the caller's condition.
    pub fn put(&mut self, bus: Box<DrivenBus>)
        requires { self.old.value ≡ None }
        ensures { self.new.value ≡ Some bus.value }
    {
        self.at = Box::into_raw(bus) as *mut u8;
    }
}
