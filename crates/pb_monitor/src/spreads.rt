//! The least, the mean and the greatest of some durations.

ghost use Rattle.std.specs.Prelude.{◌≡◌, ◌/◌, ◌<◌};
ghost use Rattle.pb_monitor.specs.Known.{new_spread, spread_with};

/// The least, the mean and the greatest of some durations, in bit times. Counts and sums saturate at 2^64 - 1.
#[derive(Clone, Copy, Debug, Default, PartialEq, Eq)]
pub struct Spread {
    /// How many durations there are.
    pub count: u64,
    /// Their sum.
    pub total: u64,
    /// The least of them; 0 if there is none.
    pub least: u64,
    /// The greatest of them; 0 if there is none.
    pub greatest: u64,
}

impl Spread {
    /// No duration.
    pub(crate) fn none() -> Spread
        ensures { result ≡ new_spread }
    {
        Spread {
            count: 0,
            total: 0,
            least: 0,
            greatest: 0,
        }
    }

    /// Adds a duration.
    pub fn add(&mut self, bits: u64)
        ensures { self.new ≡ spread_with bits self.old }
    {
        self.least = if self.count == 0 {
            bits
        } else {
            self.least.min(bits)
        };
        self.greatest = self.greatest.max(bits);
        self.count = self.count.saturating_add(1);
        self.total = self.total.saturating_add(bits);
    }

    /// The mean of the durations, rounded down; 0 if there is none.
    pub fn mean(&self) -> u64
        ensures none { self.now.count ≡ 0 → result ≡ 0 }
        ensures some { 0 < self.now.count → result ≡ self.now.total / self.now.count }
    {
        if self.count == 0 {
            return 0;
        }
        self.total / self.count
    }
}
