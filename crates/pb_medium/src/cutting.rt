//! A speaker that stops: its telegram is cut.

ghost use Rattle.std.specs.Prelude.{◌≡◌, length, map};
ghost use Rattle.law_model.specs.Trace.{cut_at, cut_end};
ghost use Rattle.pb_medium.specs.Entries.{entry_of, record_of};

use crate::entries::{Entry, Record};
use crate::traces::Trace;
use pb_timers::{CHARACTER_BITS, Moment};

impl Trace {
    ghost use Rattle.std.specs.Prelude.{map};
    ghost use Rattle.law_model.specs.Trace.{cut_at};
    ghost use Rattle.pb_medium.specs.Traces.{RecentBecomes};

    /// Ends what a tap sends at the clock with the character being sent.
    pub fn cut(&mut self, tap: usize, now: Moment)
        ensures { RecentBecomes (map (cut_at now tap)) self.old self.new }
    {
        cut_all(&mut self.entries[self.over..], tap, now);
    }
}

/// Ends what a tap sends at `now` with the character being sent.
fn cut_all(entries: &mut [Entry], tap: usize, now: Moment)
    ensures length { length entries.new ≡ length entries.old }
    ensures cut { map entry_of entries.new ≡ map (cut_at now tap) (map entry_of entries.old) }
{
    for entry in entries.iter_mut() {
        cut(entry, tap, now);
    }
}

fn cut(entry: &mut Entry, tap: usize, now: Moment)
    ensures { entry_of entry.new ≡ cut_at now tap (entry_of entry.old) }
{
    if let Entry::Sent(telegram) = entry {
        if telegram.tap == tap {
            telegram.end = cut_end(telegram, now);
        }
    }
}

/// When a telegram ends whose speaker stops at `now`. A sum that would overflow is later than its own end.
fn cut_end(telegram: &Record, now: Moment) -> u64
    ensures { result ≡ cut_end now (record_of telegram.now) }
{
    let characters = now.get().saturating_sub(telegram.begin) / CHARACTER_BITS + 1;
    let cut = telegram
        .begin
        .saturating_add(characters.saturating_mul(CHARACTER_BITS));
    telegram.end.min(cut)
}
