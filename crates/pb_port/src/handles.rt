//! A port behind a pointer, as C keeps it.

ghost use Rattle.std.specs.Prelude.{◌≡◌, Option, Some, None, MatchOption};
ghost use Rattle.pb_port.specs.Ports.{PortView};

use crate::ports::Port;
use std::alloc::Global;
use std::marker::Model;
use std::ptr::null_mut;

/// A port behind a pointer. It is empty where the pointer is null. The pointer is one to octets, since C may not see
/// what a port is made of.
#[repr(C)]
pub struct Handle {
    at: *mut u8,
    pub ghost value: { Option PortView },
}

impl Model for Handle {
    ghost use Rattle.pb_port.specs.Owned.{handle_owns};

    ghost also_owns = { λ h. handle_owns h.at h.value };
}

impl Handle {
    /// Takes the port out, if there is one. The handle is empty then.
    pub fn take(&mut self, alloc: Global) -> Option<Box<Port>>
        ensures taken { MatchOption result (self.old.value ≡ None) (λ b. self.old.value ≡ Some b.value) }
        ensures left { self.new.value ≡ None }
    {
        let at = self.at;
        if at == null_mut() {
            return None;
        }
        self.at = null_mut();
        Some(unsafe { Box::from_raw(alloc, at as *mut Port) })
    }

    /// Puts a port into an empty handle, the caller's condition.
    pub fn put(&mut self, port: Box<Port>)
        requires { self.old.value ≡ None }
        ensures { self.new.value ≡ Some port.value }
    {
        self.at = Box::into_raw(port) as *mut u8;
    }
}
