//! Loses a telegram at a tap.

ghost use Rattle.std.specs.Prelude.{◌≡◌, map};
ghost use Rattle.std.specs.List.{position};
ghost use Rattle.law_model.specs.Trace as model;
ghost use Rattle.pb_medium.specs.Entries.{entry_of};

use crate::entries::Entry;
use crate::traces::Trace;
use pb_taps::WorldFault;
use pb_timers::Moment;

impl Trace {
    ghost use Rattle.std.specs.Prelude.{◌≡◌, true, false, IfErr, OnOk, OnErr};
    ghost use Rattle.pb_medium.specs.Losing.{has_nothing_to_lose, lost, IsNothingInAir};
    ghost use Rattle.pb_medium.specs.Traces.{recent_of, RecentBecomes};

    /// Loses, at another tap, the telegram that a speaker has begun at the clock.
    ///
    /// Fault: `NothingInAir`.
    pub fn lose(&mut self, tap: usize, speaker: usize, now: Moment) -> Result<(), WorldFault>
        ensures ok { OnOk result (RecentBecomes (lost tap speaker now) self.old self.new) }
        ensures found { OnOk result (has_nothing_to_lose tap speaker now (recent_of self.old) ≡ false) }
        ensures err { OnErr result (self.new ≡ self.old) }
        ensures nothing { OnErr result (has_nothing_to_lose tap speaker now (recent_of self.old) ≡ true) }
        ensures fault { IfErr result IsNothingInAir }
    {
        if tap == speaker {
            return Err(WorldFault::NothingInAir);
        }
        match begun_at_clock(self.recent(), speaker, now) {
            Some(place) => {
                lose_at(&mut self.entries[self.over + place], tap);
                Ok(())
            }
            None => Err(WorldFault::NothingInAir),
        }
    }

    /// Whether there is no telegram of another speaker, begun at the clock, that a tap could lose.
    pub fn has_nothing_to_lose(&self, tap: usize, speaker: usize, now: Moment) -> bool
        ensures { result ≡ has_nothing_to_lose tap speaker now (recent_of self.entry.now) }
    {
        tap == speaker || begun_at_clock(self.recent(), speaker, now).is_none()
    }
}

/// The index of the telegram that a speaker has begun at the clock.
fn begun_at_clock(entries: &[Entry], speaker: usize, now: Moment) -> Option<usize>
    ensures { result ≡ position (model.begins_from now speaker) (map entry_of entries.now) }
{
    entries
        .iter()
        .position(|entry| begins_from(entry, speaker, now.get()))
}

fn begins_from(entry: &Entry, speaker: usize, moment: u64) -> bool
    ensures { result ≡ model.begins_from moment speaker (entry_of entry.now) }
{
    match entry {
        Entry::Noise { .. } => false,
        Entry::Sent(telegram) => telegram.tap == speaker && telegram.begin == moment,
    }
}

/// Marks a telegram as lost at a tap.
fn lose_at(entry: &mut Entry, tap: usize)
    ensures { entry_of entry.new ≡ model.unheard_at tap (entry_of entry.old) }
{
    if let Entry::Sent(telegram) = entry {
        telegram.heard.lose(tap);
    }
}
