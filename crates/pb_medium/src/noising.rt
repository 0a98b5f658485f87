//! Makes or extends noise.

ghost use Rattle.std.specs.Prelude.{◌≡◌, map};
ghost use Rattle.std.specs.List.{position};
ghost use Rattle.law_model.specs.Trace as trace;
ghost use Rattle.pb_medium.specs.Entries.{entry_of};

use crate::entries::Entry;
use crate::traces::Trace;
use pb_taps::WorldFault;
use pb_timers::Moment;

impl Trace {
    ghost use Rattle.std.specs.Prelude.{◌≡◌, ◌==◌, ◌≤◌, ◌+◌, false, IfErr, OnOk, OnErr, length};
    ghost use Rattle.law_model.specs.Step.{with_noise};
    ghost use Rattle.law_model.specs.World.{clock_limit};
    ghost use Rattle.pb_medium.specs.Noising.{has_noise, has_no_room, RefusesNoise};
    ghost use Rattle.pb_medium.specs.Traces.{entries_of, limit_of, recent_of, RecentBecomes, StaysAs};

    /// Makes noise for `bits` bit times from the clock on: noise on the bus is extended, else there is new noise.
    ///
    /// Faults, the first that applies: `ZeroTime`; for new noise, `TraceFull` and `NoMemory`.
    pub fn make_noise(&mut self, now: Moment, bits: u32) -> Result<(), WorldFault>
        requires { now ≤ clock_limit }
        ensures ok { OnOk result
            (RecentBecomes (with_noise now (now + bits) (has_noise now (recent_of self.old)))
            self.old self.new) }
        ensures some { OnOk result ((bits == 0) ≡ false) }
        ensures room { OnOk result
            (has_no_room (has_noise now (recent_of self.old))
            (limit_of self.old) (length (entries_of self.old)) ≡ false) }
        ensures err { OnErr result (StaysAs self.old self.new) }
        ensures fault { IfErr result
            (RefusesNoise bits (has_noise now (recent_of self.old))
            (limit_of self.old) (length (entries_of self.old))) }
    {
        if bits == 0 {
            return Err(WorldFault::ZeroTime);
        }
        let begin = now.get();
        let end = begin + u64::from(bits);
        match noise_in_air(self.recent(), now) {
            Some(place) => prolong(&mut self.entries[self.over + place], end),
            None => {
                self.make_room()?;
                self.put(Entry::Noise { begin, end });
            }
        }
        Ok(())
    }

    /// Whether there is noise on the bus.
    pub fn has_noise(&self, now: Moment) -> bool
        ensures { result ≡ has_noise now (recent_of self.entry.now) }
    {
        noise_in_air(self.recent(), now).is_some()
    }
}

/// The index of the noise on the bus.
fn noise_in_air(entries: &[Entry], now: Moment) -> Option<usize>
    ensures { result ≡ position (trace.is_noise_at now) (map entry_of entries.now) }
{
    entries
        .iter()
        .position(|entry| is_noise_at(entry, now.get()))
}

fn is_noise_at(entry: &Entry, moment: u64) -> bool
    ensures { result ≡ trace.is_noise_at moment (entry_of entry.now) }
{
    match entry {
        Entry::Noise { end, .. } => moment < *end,
        Entry::Sent(_) => false,
    }
}

/// Extends noise until a moment, if it ends earlier.
fn prolong(entry: &mut Entry, until: u64)
    ensures { entry_of entry.new ≡ trace.noisy_until until (entry_of entry.old) }
{
    if let Entry::Noise { end, .. } = entry {
        *end = (*end).max(until);
    }
}
