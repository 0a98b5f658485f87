//! A monitor behind a pointer, as C keeps it.

ghost use Rattle.std.specs.Prelude.{◌≡◌, Option, Some, None, MatchOption};
ghost use Rattle.pbfdl.specs.Monitors.{Listened};

use crate::listeners::Listener;
use std::alloc::Global;
use std::marker::Model;
use std::ptr::null_mut;

/// A monitor behind a pointer. It is empty where the pointer is null. The pointer is one to octets, since C may not see
/// what a monitor is made of.
#[repr(C)]
pub struct MonitorHandle {
    at: *mut u8,
    pub ghost value: { Option Listened },
}

impl Model for MonitorHandle {
    ghost use Rattle.pbfdl.specs.MonitorOwned.{handle_owns};

    ghost also_owns = { λ h. handle_owns h.at h.value };
}

impl MonitorHandle {
    /// Takes the monitor out, if there is one. The handle is empty then.
    pub fn take(&mut self, alloc: Global) -> Option<Box<Listener>>
        ensures taken { MatchOption result (self.old.value ≡ None) (λ b. self.old.value ≡ Some b.value) }
        ensures left { self.new.value ≡ None }
    {
        let at = self.at;
        if at == null_mut() {
            return None;
        }
        self.at = null_mut();
        Some(unsafe { Box::from_raw(alloc, at as *mut Listener) })
    }

    /// Puts a monitor into an empty handle, the caller's condition.
    pub fn put(&mut self, monitor: Box<Listener>)
        requires { self.old.value ≡ None }
        ensures { self.new.value ≡ Some monitor.value }
    {
        self.at = Box::into_raw(monitor) as *mut u8;
    }
}
