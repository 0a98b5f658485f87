//! When something changes on a bus, apart from turns.

ghost use Rattle.std.specs.Prelude.{◌≡◌, ◌+◌, ◌≤◌, ◌&&◌, ◌∷◌, [], IfSome, if◌then◌else◌, Some, None, map};
ghost use Rattle.std.specs.List.{list_any};
ghost use Rattle.std.specs.Option.{option_map};
ghost use Rattle.pb_timers.specs.Timers.{last_moment};
ghost use Rattle.law_model.specs.Trace.{entry_begin, entry_end};
ghost use Rattle.law_model.specs.World.{clock_limit, later_end};
ghost use Rattle.pb_medium.specs.Entries.{entry_of};
ghost use Rattle.law_runs.specs.Bus.{is_in_air, started_now};
ghost use Rattle.pb_world.specs.Changes.{change_among};
ghost use Rattle.pb_world.specs.Ends.{last_end};
ghost use Rattle.pb_taps.specs.Taps.{tap_of};

use crate::buses::Bus;
use crate::passes::moment_of;
use pb_medium::{Entry, next_begin, next_end, something_lasts};
use pb_taps::Tap;
use pb_timers::Moment;
use pb_transitions::earlier;

impl Bus {
    ghost use Rattle.std.specs.Prelude.{◌≡◌};
    ghost use Rattle.pb_world.specs.Buses.{world_of, IsKept};
    ghost use Rattle.law_runs.specs.Bus.{next_change};

    /// The next moment at which something changes on the bus, apart from turns.
    pub fn next_change(&self) -> Option<Moment>
        requires { IsKept self.now }
        ensures { result ≡ next_change (world_of self.entry.now) }
    {
        let delay = self.params.ttd();
        let recent = self.trace.recent();
        if recent.is_empty() {
            return None;
        }
        if let [only] = recent {
            return change_of(only, delay, &self.taps, self.now);
        }
        let amid = something_lasts(recent, delay, self.now.get());
        let start = start_known(&self.taps, amid, self.now);
        let begin = known_of(next_begin(recent, delay, self.now.get()));
        let end = moment_of(next_end(recent, delay, self.now.get()));
        earlier(end, earlier(begin, start))
    }
}

/// The next moment at which something changes where one entry alone is recent, as at most instants. Kept out of line: it
/// needs fewer registers than the rest.
#[inline(never)]
fn change_of(only: &Entry, delay: u32, taps: &[Tap], now: Moment) -> Option<Moment>
    requires clock { now ≤ clock_limit }
    requires begun { entry_begin (entry_of only.now) ≤ now }
    requires ends { entry_end (entry_of only.now) ≤ last_end }
    ensures { result ≡ change_among delay now (entry_of only.now ∷ []) (map tap_of taps.now) }
{
    let at_taps = only.reaches_taps(delay);
    let amid = only.begin() < now.get() && now.get() < at_taps.end();
    let start = start_known(taps, amid, now);
    let begin = after(now, at_taps.begin() + 1);
    let end = earlier(after(now, only.end()), after(now, at_taps.end()));
    earlier(end, earlier(begin, start))
}

/// A moment, in bit times, if it is later than now.
fn after(now: Moment, bits: u64) -> Option<Moment>
    requires { bits ≤ last_moment }
    ensures { result ≡ later_end now bits }
{
    if now.get() < bits {
        return Some(Moment::at(bits));
    }
    None
}

/// When a tap that has started now can know that it started amid activity.
fn start_known(taps: &[Tap], amid: bool, now: Moment) -> Option<Moment>
    requires { now ≤ clock_limit }
    ensures { result
        ≡ (if list_any (started_now now) (map tap_of taps.now) && amid then Some (now + 1) else None) }
{
    if amid && some_started(taps, now) {
        return now.add(1).ok();
    }
    None
}

/// Whether a tap has started at `now`.
fn some_started(taps: &[Tap], now: Moment) -> bool
    ensures { result ≡ list_any (started_now now) (map tap_of taps.now) }
{
    taps.iter().any(|tap| tap.since == now.get())
}

/// When a tap can know of a begin: one bit time later.
fn known_of(begin: Option<u64>) -> Option<Moment>
    requires { IfSome begin (λ m. m ≤ last_end) }
    ensures { result ≡ option_map (λ m. m + 1) begin }
{
    let begin = moment_of(begin)?;
    begin.add(1).ok()
}
