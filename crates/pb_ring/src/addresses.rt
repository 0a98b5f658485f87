//! Sets of station addresses.

ghost use Rattle.std.specs.Prelude.{◌≡◌, ◌<◌, [], List, ◌∷◌, filter, not, nat_le, ◌&&◌, IfSome, IsTrue, ◌↔◌};
ghost use Rattle.pb_ring.specs.AddressSets.{addresses, removes, is_member, with_address, without_address, is_between, is_same, first_of, last_of, from_behind, from_at};

use crate::words::{highest_set, is_set, lowest_set, set_removed};
use std::marker::Model;

/// A set of station addresses, 0 to 126.
#[derive(Clone, Copy, Debug, PartialEq, Eq)]
pub struct Addresses {
    bits: u128,
}

impl Model for Addresses {
    ghost use Rattle.std.specs.Prelude.{ℕ, List, ◌<◌, ◌^◌};
    ghost use Rattle.pb_ring.specs.Words.{listed, bits_of};
    ghost use Rattle.pb_ring.specs.SameWords.{bits_of-listed};

    ghost Value = { List ℕ };

    ghost view = { λ s. listed s.bits };

    ghost invariant = { λ s. s.bits < 2 ^ 127 };

    ghost inverse = { λ xs. record { bits = bits_of xs } };

    ghost inverse_ok = { λ s fits i. record { bits = bits_of-listed s.bits fits i } };
}

impl Addresses {
    /// The empty set.
    pub fn none() -> Addresses
        ensures { result ≡ [] }
    {
        Addresses { bits: 0 }
    }

    /// The set of one address.
    pub(crate) fn only(address: u8) -> Addresses
        requires { address < 127 }
        ensures { result ≡ address ∷ [] }
    {
        let mut set = Addresses::none();
        set.insert(address);
        set
    }

    /// The addresses strictly between two others, in cyclic order, up to a highest one. Between an address and itself
    /// are all others.
    pub(crate) fn between(from: u8, to: u8, highest: u8) -> Addresses
        requires { highest < 127 }
        ensures { result ≡ filter (λ x. is_between from to x && nat_le x highest) addresses }
    {
        Addresses {
            bits: set_removed(None, from, to, highest),
        }
    }

    /// Whether the address, 0 to 126, is in the set.
    pub fn contains(self, address: u8) -> bool
        requires { address < 127 }
        ensures { result ≡ is_member self address }
    {
        is_set(self.bits, address)
    }

    /// Inserts an address, 0 to 126.
    pub fn insert(&mut self, address: u8)
        requires { address < 127 }
        ensures { self.new ≡ with_address address self.old }
    {
        self.bits |= 1 << address;
    }

    /// Removes an address.
    pub(crate) fn remove(&mut self, address: u8)
        requires { address < 127 }
        ensures { self.new ≡ without_address address self.old }
    {
        self.bits &= !(1 << address);
    }

    /// The intersection with another set.
    pub(crate) fn common(self, other: Addresses) -> Addresses
        ensures { result ≡ filter (λ x. is_member other x) self }
    {
        Addresses {
            bits: self.bits & other.bits,
        }
    }

    /// The set without the addresses that a token from `sa` to `da` removes.
    pub(crate) fn without_removed(self, own: Option<u8>, sa: u8, da: u8) -> Addresses
        ensures { result ≡ filter (λ x. not (removes own sa da x)) self }
    {
        Addresses {
            bits: self.bits & !set_removed(own, sa, da, 126),
        }
    }

    /// Whether two sets are equal.
    pub fn equals(self, other: Addresses) -> bool
        ensures listed { result ≡ is_same self other }
        ensures same { IsTrue result ↔ (self ≡ other) }
    {
        self.bits == other.bits
    }

    /// The first address of the set after an address, 0 to 126, in cyclic order. The address itself comes last.
    pub fn first_behind(self, address: u8) -> Option<u8>
        requires { address < 127 }
        ensures value { result ≡ first_of (from_behind address self) }
        ensures station { IfSome result (λ first. first < 127) }
    {
        match lowest_set(self.bits, address + 1, 127) {
            Some(above) => Some(above),
            None => lowest_set(self.bits, 0, address + 1),
        }
    }

    /// The last address of the set before an address, 0 to 126, in cyclic order. The address itself comes first.
    pub fn last_before(self, address: u8) -> Option<u8>
        requires { address < 127 }
        ensures { result ≡ last_of (from_at address self) }
    {
        match highest_set(self.bits, 0, address) {
            Some(below) => Some(below),
            None => highest_set(self.bits, address, 127),
        }
    }
}
