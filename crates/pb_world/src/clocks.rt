//! The clock of a bus: how time passes.

ghost use Rattle.std.specs.Prelude.{◌≡◌, ◌+◌, ◌≤◌, None, IfOk, IfErr, OnErr, MatchResult, map, take};
ghost use Rattle.pb_faults.specs.FirstFault.{first_fault};
ghost use Rattle.law_model.specs.Step.{step_pass};
ghost use Rattle.law_model.specs.World as world;
ghost use Rattle.pb_medium.specs.Airs.{air};
ghost use Rattle.pb_medium.specs.Traces.{limit_of, entries_of, over_of, recent_of};
ghost use Rattle.pb_world.specs.Clocks.{time_faults, CanPass, IsFault, IsFirstOf, PassesTo};
ghost use Rattle.pb_medium.specs.Entries.{entry_of};
ghost use Rattle.pb_taps.specs.Taps.{seat_of, tap_of};

use crate::passes::{first_full, tell_all};
use pb_medium::{Entry, Trace, next_end};
use pb_taps::{Tap, WorldFault};
use pb_timers::Moment;

/// The last clock, in bit times.
const CLOCK_LIMIT: u64 = 1_000_000_000_000;

/// Lets time pass for all taps and the recent entries, and returns the new clock.
pub(crate) fn pass(
    trace: &mut Trace,
    delay: u32,
    taps: &mut [Tap],
    now: Moment,
    bits: u64,
) -> Result<Moment, WorldFault>
    ensures ok { IfOk result
        (λ to. PassesTo (air delay now (recent_of trace.old) taps.old) bits
        (take (over_of trace.old) (entries_of trace.old))
        to (entries_of trace.new) (map tap_of taps.new)) }
    ensures clock { IfOk result (λ to. (now ≤ to) × (to ≤ world.clock_limit)) }
    ensures seats { map seat_of taps.new ≡ map seat_of taps.old }
    ensures over { over_of trace.new ≡ over_of trace.old }
    ensures limit { limit_of trace.new ≡ limit_of trace.old }
    ensures err { OnErr result ((trace.new ≡ trace.old) × (taps.new ≡ taps.old)) }
    ensures fault { IfErr result (IsFault (step_pass (air delay now (recent_of trace.old) taps.old) bits)) }
{
    if trace.recent().is_empty() {
        return passes_to(&[], delay, taps, now, bits);
    }
    let to = passes_to(trace.recent(), delay, taps, now, bits)?;
    tell_all(trace.recent(), delay, taps, now, to);
    trace.settle(delay, taps, now, to);
    Ok(to)
}

/// The clock after a pass of time, if each tap has room for its new marks.
///
/// Faults, the first that applies: `ZeroTime`; `TooFar`; `ClockFull`; `InboxFull`.
#[inline(always)]
pub(crate) fn passes_to(
    entries: &[Entry],
    delay: u32,
    taps: &[Tap],
    now: Moment,
    bits: u64,
) -> Result<Moment, WorldFault>
    ensures ok { IfOk result (CanPass (air delay now (map entry_of entries.now) taps.now) bits) }
    ensures fault { IfErr result
        (IsFault (step_pass (air delay now (map entry_of entries.now) taps.now) bits)) }
{
    let to = later(next_end(entries, delay, now.get()), now, bits)?;
    if let Some(tap) = first_full(entries, delay, taps, now, to) {
        return Err(WorldFault::InboxFull(tap));
    }
    Ok(to)
}

/// The clock after a pass of time. It is at most the next end on the bus.
fn later(end: Option<u64>, now: Moment, bits: u64) -> Result<Moment, WorldFault>
    ensures ok { IfOk result (λ to. (to ≡ now + bits) × (to ≤ world.clock_limit)
        × (first_fault (time_faults now bits end) ≡ None)) }
    ensures err { IfErr result (IsFirstOf (time_faults now bits end)) }
{
    if bits == 0 {
        return Err(WorldFault::ZeroTime);
    }
    if let Some(end) = end
        && end.saturating_sub(now.get()) < bits
    {
        return Err(WorldFault::TooFar(end));
    }
    if CLOCK_LIMIT.saturating_sub(now.get()) < bits {
        return Err(WorldFault::ClockFull);
    }
    Ok(Moment::at(now.get() + bits))
}
