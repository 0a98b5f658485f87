//! Sets of taps as the bits of a number.

/// A set of taps of one bus, at most 127, as the bits of a number.
#[derive(Clone, Copy, Debug)]
pub(crate) struct TapSet {
    bits: u128,
}

impl TapSet {
    ghost use Rattle.std.specs.Prelude.{◌≡◌, ◌≢◌, ◌<◌, ℕ, true, false};
    ghost use Rattle.pb_medium.specs.Receptions.{holds};

    /// The empty set.
    pub(crate) fn none() -> TapSet
        ensures { (tap : ℕ) → holds result tap ≡ false }
    {
        TapSet { bits: 0 }
    }

    /// Whether the set is empty.
    pub(crate) fn is_empty(self) -> bool
        ensures { result ≡ true → (tap : ℕ) → holds self tap ≡ false }
    {
        self.bits == 0
    }

    /// Whether a tap is in the set.
    pub(crate) fn contains(self, tap: usize) -> bool
        requires { tap < 127 }
        ensures { result ≡ holds self tap }
    {
        (self.bits >> tap) & 1 == 1
    }

    /// Inserts a tap.
    pub(crate) fn insert(&mut self, tap: usize)
        requires { tap < 127 }
        ensures new { holds self.new tap ≡ true }
        ensures others { (other : ℕ) → other ≢ tap → holds self.new other ≡ holds self.old other }
    {
        self.bits |= 1 << tap;
    }
}
