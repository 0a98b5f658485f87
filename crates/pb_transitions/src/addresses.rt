//! The address of a station.

use std::marker::Model;

/// The address of a station, 0 to 126. In contracts it is a number.
#[derive(Clone, Copy, Debug, PartialEq, Eq)]
pub struct Address {
    number: u8,
}

impl Model for Address {
    ghost use Rattle.std.specs.Prelude.{◌≤◌, ℕ};

    ghost Value = { ℕ };

    ghost view = { λ a. a.number };

    ghost invariant = { λ a. a.number ≤ 126 };

    ghost inverse = { λ n. record { number = n } };
}

impl Address {
    ghost use Rattle.std.specs.Prelude.{◌≡◌, ◌≤◌};

    /// The address with this number. The caller ensures that it is at most 126.
    pub fn new(number: u8) -> Address
        requires { number ≤ 126 }
        ensures { result ≡ number }
    {
        Address { number }
    }

    /// The number of the address, 0 to 126.
    pub fn get(self) -> u8
        ensures value { result ≡ self }
        ensures bound { self ≤ 126 }
    {
        self.number
    }
}
