//! The latest ends of a trace, by tap, so that one pass decides about silence.

ghost use Rattle.std.specs.Prelude.{◌≡◌, ◌≤◌, ◌<◌, max, length, map, take, drop, ◌++◌};
ghost use Rattle.pb_medium.specs.Entries.{entry_of};
ghost use Rattle.law_model.specs.Medium.{reaches_taps};
ghost use Rattle.law_runs.specs.Activity as activity;
ghost use Rattle.law_runs.specs.Activity.{active_at};
ghost use Rattle.law_runs.specs.Judging.{AllReached};
ghost use Rattle.pb_world.specs.LatestEnds.{AreEnds, HaveMore};

use crate::activity::{active_at, is_active};
use pb_medium::Entry;
use pb_taps::TAP_LIMIT;

/// The latest end at each tap, in bit times, of the entries of a trace that have begun at all taps.
#[derive(Debug, Drop)]
pub(crate) struct Ends {
    /// How many entries have begun at all taps: the first ones.
    begun: usize,
    /// The number of taps.
    taps: usize,
    /// The latest end by tap. Elements after those of the taps are unused.
    latest: [u64; TAP_LIMIT],
}

impl Ends {
    ghost use Rattle.std.specs.Prelude.{◌≡◌, ◌≤◌, ℕ, [], length, map, take};
    ghost use Rattle.law_model.specs.Trace.{Entry};
    ghost use Rattle.law_runs.specs.Activity as activity;
    ghost use Rattle.law_runs.specs.Judging.{AllReached};
    ghost use Rattle.pb_medium.specs.Entries.{entry_of};
    ghost use Rattle.pb_world.specs.LatestEnds.{AreEnds};

    /// The ends of no entries, on a bus with this many taps.
    pub(crate) fn none(taps: usize) -> Ends
        ensures { (delay moment : ℕ) → AreEnds delay moment [] result }
    {
        Ends {
            begun: 0,
            taps: taps.min(TAP_LIMIT),
            latest: [0; TAP_LIMIT],
        }
    }

    /// Includes further earlier entries: those that have begun at all taps before `moment`.
    pub(crate) fn advance(&mut self, earlier: &[Entry], delay: u32, moment: u64)
        requires { (before : ℕ) × (before ≤ moment)
            × AreEnds delay before (map entry_of earlier.now) self.old }
        ensures { AreEnds delay moment (map entry_of earlier.now) self.new }
    {
        for place in self.begun..earlier.len() {
            let entry = &earlier[place];
            if entry.reaches_taps(delay).begin() >= moment {
                return;
            }
            take_on(&mut self.latest, self.taps, entry, delay);
            self.begun = place + 1;
        }
    }

    /// Whether no earlier entry was active at a tap in `from` to `to`, `to` excluded.
    pub(crate) fn is_silent(
        &self,
        earlier: &[Entry],
        delay: u32,
        tap: usize,
        from: u64,
        to: u64,
    ) -> bool
        requires { (before : ℕ) × (before ≤ to) × AreEnds delay before (map entry_of earlier.now) self.now }
        ensures { result ≡ activity.is_silent delay tap (map entry_of earlier.now) from to }
    {
        if tap >= self.taps {
            return !is_active(earlier, delay, tap, from, to);
        }
        self.latest[tap] <= from && !is_active(&earlier[self.begun..], delay, tap, from, to)
    }
}

/// Includes the ends of one more entry at each of the first `taps` taps.
fn take_on(latest: &mut [u64; TAP_LIMIT], taps: usize, entry: &Entry, delay: u32)
    requires { taps ≤ 127 }
    ensures size { length latest.new ≡ length latest.old }
    ensures more { HaveMore delay taps (entry_of entry.now) latest.old latest.new }
{
    for tap in 0..taps {
        latest[tap] = latest[tap].max(active_at(entry, delay, tap).end());
    }
}
