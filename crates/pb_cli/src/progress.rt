//! How far a stream is: for those who look on, and in words.

ghost use Rattle.std.specs.Prelude.{◌≡◌};
ghost use Rattle.pb_cli.specs.Progress as progress;

use std::fmt;
use std::fmt::{Display, Formatter};

/// Looks on while a stream is written.
pub trait Observer {
    /// The stream has been played up to `clock`, and ends at `until`, in bit times.
    fn observe(&mut self, clock: u64, until: u64);
}

/// How far a stream is, and how long that took. `Display` gives the words: percent, bit times a second, time left.
#[derive(Clone, Copy, Debug, PartialEq, Eq)]
pub struct Progress {
    /// Up to which moment it has been played, in bit times.
    pub clock: u64,
    /// The moment at which it ends, in bit times.
    pub until: u64,
    /// How long that took, in milliseconds.
    pub millis: u64,
}

impl Progress {
    /// How much has been played, in percent, rounded down.
    pub fn percent(&self) -> u128
        ensures { result ≡ progress.percent self.now }
    {
        u128::from(self.clock) * 100 / u128::from(self.until.max(1))
    }

    /// How many bit times a second were played, rounded down; less than a millisecond counts as one.
    pub fn rate(&self) -> u128
        ensures { result ≡ progress.rate self.now }
    {
        u128::from(self.clock) * 1000 / u128::from(self.millis.max(1))
    }

    /// How many seconds the rest takes at that rate, rounded down; a rate of less than 1 counts as 1.
    pub fn seconds_left(&self) -> u128
        ensures { result ≡ progress.seconds_left self.now }
    {
        u128::from(self.until.saturating_sub(self.clock)) / self.rate().max(1)
    }
}

impl Display for Progress {
    fn fmt<W: fmt::Write>(&self, f: &mut Formatter<W>) -> fmt::Result {
        let percent = self.percent();
        let rate = self.rate();
        let left = self.seconds_left();
        let hours = left / 3600;
        let minutes = left / 60 % 60;
        let seconds = left % 60;
        write!(
            f,
            "{percent} %, {rate} bit times/s, {hours}:{minutes:02}:{seconds:02} left"
        )
    }
}
