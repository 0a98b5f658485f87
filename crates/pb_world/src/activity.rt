//! When an entry of a trace is active at a tap.

ghost use Rattle.std.specs.Prelude.{◌≡◌, map};
ghost use Rattle.pb_medium.specs.Entries.{entry_of};
ghost use Rattle.law_runs.specs.Activity.{active_at, is_within};
ghost use Rattle.law_runs.specs.Quiet.{is_active};

use pb_medium::{Entry, Span};

/// Whether some entry is active at a tap in `from` to `to`, `to` excluded.
pub(crate) fn is_active(entries: &[Entry], delay: u32, tap: usize, from: u64, to: u64) -> bool
    ensures { result ≡ is_active delay from to (map entry_of entries.now) tap }
{
    entries
        .iter()
        .any(|entry| is_active_in(entry, delay, tap, from, to))
}

/// Whether an entry is active at a tap in `from` to `to`, `to` excluded.
pub(crate) fn is_active_in(entry: &Entry, delay: u32, tap: usize, from: u64, to: u64) -> bool
    ensures { result ≡ is_within from to (active_at delay tap (entry_of entry.now)) }
{
    let active = active_at(entry, delay, tap);
    active.begin() < to && from < active.end()
}

/// When an entry is active at a tap: its own telegrams as it sends them, those of others a cable delay later.
pub(crate) fn active_at(entry: &Entry, delay: u32, tap: usize) -> Span
    ensures { result ≡ active_at delay tap (entry_of entry.now) }
{
    match entry {
        Entry::Sent(telegram) if telegram.tap == tap => telegram.span(),
        _ => entry.reaches_taps(delay),
    }
}
