//! Bit times as nanoseconds, and where a picture or a dump ends.

ghost use Rattle.std.specs.Prelude.{◌≡◌, ◌<◌, ◌≤◌, map};
ghost use Rattle.pb_medium.specs.Entries.{entry_of};
ghost use Rattle.pb_export.specs.Times.{end_of_time, last_end, last_moment, later_end, nanos};

use crate::options::Window;
use pb_scenario::Entry;

/// A moment after each of a clock, in bit times.
pub(crate) const END: u64 = 2_000_000_000_000;

/// How many nanoseconds a second has.
pub(crate) const SECOND: u64 = 1_000_000_000;

/// A moment in nanoseconds, at so many bits a second, rounded down; only its low 64 bits.
#[tactic(auto, unfolding(crate::specs::Times::nanos))]
pub(crate) fn nanos(baud: u32, moment: u64) -> u64
    requires { 0 < baud }
    ensures { result ≡ nanos baud moment }
{
    let whole = u128::from(moment) * 1_000_000_000 / u128::from(baud);
    (whole % 18_446_744_073_709_551_616) as u64
}

/// The last moment that an export shows: the end of the window or of the run, or the last end of a shown telegram. No
/// clock reaches `END`.
pub(crate) fn last_moment(window: Window, until: u64, entries: &[Entry]) -> u64
    ensures value { result ≡ last_moment window until (map entry_of entries.now) }
    ensures end { result ≤ end_of_time }
{
    last_end(window, window.from.max(window.until.min(until)), entries).min(END)
}

/// The latest of a moment and of the ends of the entries that are shown telegrams.
pub(crate) fn last_end(window: Window, moment: u64, entries: &[Entry]) -> u64
    ensures { result ≡ last_end window moment (map entry_of entries.now) }
{
    let mut last = moment;
    for entry in entries {
        last = later_end(window, last, entry);
    }
    last
}

/// The later of a moment and of the end of an entry, if that is a telegram that is shown.
fn later_end(window: Window, last: u64, entry: &Entry) -> u64
    ensures { result ≡ later_end window last (entry_of entry.now) }
{
    match entry {
        Entry::Sent(telegram) if window.shows(entry) => last.max(telegram.end),
        _ => last,
    }
}
