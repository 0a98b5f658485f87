//! Entries of a trace without what was sent: when they are on the bus, and whose they are.

ghost use Rattle.std.specs.Prelude.{◌≡◌, map};
ghost use Rattle.law_runs.specs.Quiet.{is_active};
ghost use Rattle.law_streams.specs.Judgement.{bare};
ghost use Rattle.pb_medium.specs.Entries.{entry_of};
ghost use Rattle.pb_world.specs.Airtimes.{air_of};

use crate::sendings::{Sending, sending_of};
use pb_medium::Entry;

/// When an entry is on the bus, and whose it is.
#[derive(Clone, Copy, Debug)]
pub(crate) enum Airtime {
    /// A telegram.
    Sent(Sending),
    /// Noise.
    Noise { begin: u64, end: u64 },
}

/// When an entry is on the bus, and whose it is.
pub(crate) fn airtime_of(entry: &Entry) -> Airtime
    ensures { air_of result ≡ bare (entry_of entry.now) }
{
    match entry {
        Entry::Sent(telegram) => Airtime::Sent(sending_of(telegram)),
        Entry::Noise { begin, end } => Airtime::Noise {
            begin: *begin,
            end: *end,
        },
    }
}

/// Whether some airtime is active at a tap in `from` to `to`, `to` excluded.
pub(crate) fn is_any_active(
    airtimes: &[Airtime],
    delay: u32,
    tap: usize,
    from: u64,
    to: u64,
) -> bool
    ensures { result ≡ is_active delay from to (map air_of airtimes.now) tap }
{
    airtimes
        .iter()
        .any(|airtime| airtime.is_active_in(delay, tap, from, to))
}

impl Airtime {
    ghost use Rattle.std.specs.Prelude.{◌≡◌};
    ghost use Rattle.law_model.specs.Medium.{reaches_taps};
    ghost use Rattle.law_runs.specs.Activity.{active_at, is_within};
    ghost use Rattle.pb_world.specs.Airtimes.{air_of};

    /// When it is at the taps of others: a telegram a cable delay later, noise at once.
    pub(crate) fn reached(self, delay: u32) -> u64
        ensures { result ≡ (reaches_taps delay (air_of self)).begin }
    {
        match self {
            Airtime::Sent(sending) => sending.begin + u64::from(delay),
            Airtime::Noise { begin, .. } => begin,
        }
    }

    /// When it begins at a tap: its own telegrams as it sends them, those of others a cable delay later.
    fn begin_at(self, delay: u32, tap: usize) -> u64
        ensures { result ≡ (active_at delay tap (air_of self)).begin }
    {
        match self {
            Airtime::Sent(sending) if sending.tap == tap => sending.begin,
            _ => self.reached(delay),
        }
    }

    /// When it ends at a tap.
    pub(crate) fn end_at(self, delay: u32, tap: usize) -> u64
        ensures { result ≡ (active_at delay tap (air_of self)).end }
    {
        match self {
            Airtime::Sent(sending) if sending.tap == tap => sending.end,
            Airtime::Sent(sending) => sending.end + u64::from(delay),
            Airtime::Noise { end, .. } => end,
        }
    }

    /// Whether it is active at a tap in `from` to `to`, `to` excluded.
    pub(crate) fn is_active_in(self, delay: u32, tap: usize, from: u64, to: u64) -> bool
        ensures { result ≡ is_within from to (active_at delay tap (air_of self)) }
    {
        self.begin_at(delay, tap) < to && from < self.end_at(delay, tap)
    }
}
