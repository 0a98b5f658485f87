//! Moments of the clock.

use std::marker::Model;
use thiserror::Error;

/// The last moment, in bit times: 2^62.
const LAST: u64 = 1 << 62;

/// The clock is full: the moment would be past 2^62 bit times.
#[derive(Clone, Copy, Debug, PartialEq, Eq, Error)]
#[error("ClockFull")]
pub struct ClockFull;

/// A moment, in bit times since the clock started, 0 to 2^62. In contracts it is a number. The limit is this profile's:
/// the sum of a moment and a `u32` fits in a `u64`.
#[derive(Clone, Copy, Debug, PartialEq, Eq, PartialOrd, Ord)]
pub struct Moment {
    bits: u64,
}

impl Model for Moment {
    ghost use Rattle.std.specs.Prelude.{◌≤◌, ℕ};
    ghost use Rattle.pb_timers.specs.Timers.{last_moment};

    ghost Value = { ℕ };

    ghost view = { λ m. m.bits };

    ghost invariant = { λ m. m.bits ≤ last_moment };

    ghost inverse = { λ n. record { bits = n } };
}

impl Moment {
    ghost use Rattle.std.specs.Prelude.{◌≡◌, ◌+◌, ◌≤◌, ◌<◌, max, MatchOption, MatchResult};
    ghost use Rattle.pb_timers.specs.Timers.{last_moment};

    /// The moment `bits` bit times after the clock started; `None` if that is past 2^62.
    pub fn new(bits: u64) -> Option<Moment>
        ensures { MatchOption result (last_moment < bits) (λ moment. (moment ≡ bits) × (bits ≤ last_moment)) }
    {
        if bits > LAST {
            return None;
        }
        Some(Moment { bits })
    }

    /// The moment `bits` bit times after the clock started. The caller ensures that `bits` is at most 2^62.
    pub fn at(bits: u64) -> Moment
        requires { bits ≤ last_moment }
        ensures { result ≡ bits }
    {
        Moment { bits }
    }

    /// The moment, in bit times since the clock started.
    pub fn get(self) -> u64
        ensures value { result ≡ self }
        ensures bound { self ≤ last_moment }
    {
        self.bits
    }

    /// The moment `bits` bit times later. No sum wraps.
    ///
    /// Fault: `ClockFull` if that is past 2^62.
    pub fn add(self, bits: u64) -> Result<Moment, ClockFull>
        ensures { MatchResult result (λ later. (later ≡ self + bits) × (later ≤ last_moment))
            (λ fault. last_moment < self + bits) }
    {
        self.get()
            .checked_add(bits)
            .and_then(Moment::new)
            .ok_or(ClockFull)
    }
    /// The moment `bits` bit times later. The caller ensures that it is at most 2^62; [`Moment::add`] tests it.
    pub fn after(self, bits: u64) -> Moment
        requires { self + bits ≤ last_moment }
        ensures { result ≡ self + bits }
    {
        Moment::at(self.get() + bits)
    }

    /// The later of two moments.
    pub fn later(self, other: Moment) -> Moment
        ensures { result ≡ max self other }
    {
        if self.get() < other.get() {
            other
        } else {
            self
        }
    }
}
