//! Advances a walk through steps, and keeps until when each tap is withheld.

ghost use Rattle.std.specs.Prelude.{◌≡◌, ◌+◌, ◌<◌, ◌≤◌, ◌^◌, IsTrue, map, nat_lt};
ghost use Rattle.std.specs.List.{prefix_len};
ghost use Rattle.pb_timers.specs.Timers.{last_moment};
ghost use Rattle.pb_scenario.specs.Cutting.{CutsAt};
ghost use Rattle.pb_scenario.specs.Rounds.{hold_deeds};
ghost use Rattle.pb_scenario.specs.Steps.{deed_of, steps_of};
ghost use Rattle.pb_scenario.specs.Walks.{AreBefore, AreFrom, hold_tap, hold_one, hold_all};

use crate::deeds::{Deed, Step};

/// The steps at a moment and those after it, of steps in order of time. Updates until when each tap is withheld by the
/// steps up to that moment.
pub(crate) fn advance<'a>(later: &'a [Step], at: u64, held: &mut [u64]) -> (&'a [Step], &'a [Step])
    requires order { AreFrom 0 (steps_of later.now) }
    requires moment { at ≤ last_moment }
    ensures { CutsAt at later.now result.0.now result.1.now held.old held.new }
{
    if none_by(later, at) {
        return (&[], later);
    }
    advance_over(later, at, held)
}

/// Whether no step is at a moment or before it, of steps in order of time. It is so at nearly each instant.
fn none_by(steps: &[Step], at: u64) -> bool
    requires { AreFrom 0 (steps_of steps.now) }
    ensures { IsTrue result → AreFrom (at + 1) (steps_of steps.now) }
{
    match steps {
        [] => true,
        [first, ..] => at < first.at,
    }
}

/// Slow path of `advance`, kept out of line: there are steps up to the moment.
#[inline(never)]
fn advance_over<'a>(later: &'a [Step], at: u64, held: &mut [u64]) -> (&'a [Step], &'a [Step])
    requires order { AreFrom 0 (steps_of later.now) }
    requires moment { at ≤ last_moment }
    ensures { CutsAt at later.now result.0.now result.1.now held.old held.new }
{
    let (past, left) = later.split_at(count_before(later, at));
    let (today, rest) = left.split_at(count_before(left, at + 1));
    hold(held, past);
    hold(held, today);
    (today, rest)
}

/// How many of the first steps are before a moment.
fn count_before(steps: &[Step], at: u64) -> usize
    ensures { result ≡ prefix_len (λ s. nat_lt s.at at) steps.now }
{
    steps.iter().take_while(|step| step.at < at).count()
}

/// Updates until when some steps withhold the taps.
fn hold(held: &mut [u64], steps: &[Step])
    requires { AreBefore (2 ^ 63) (steps_of steps.now) }
    ensures { held.new ≡ hold_all held.old (steps_of steps.now) }
{
    for step in steps {
        hold_one(held, step.at, &step.deed);
    }
}

/// Updates until when some deeds of a moment withhold the taps.
pub(crate) fn hold_deeds(held: &mut [u64], at: u64, deeds: &[&Deed])
    requires { at < 2 ^ 63 }
    ensures { held.new ≡ hold_deeds held.old at (map (λ d. deed_of d.now) deeds.now) }
{
    for deed in deeds {
        hold_one(held, at, deed);
    }
}

/// Updates until when a deed of a moment withholds a tap.
fn hold_one(held: &mut [u64], at: u64, deed: &Deed)
    requires { at < 2 ^ 63 }
    ensures { held.new ≡ hold_one held.old at (deed_of deed.now) }
{
    match deed {
        Deed::Happens(_) => {}
        Deed::Withhold { tap, bits } => hold_tap(held, *tap, at + u64::from(*bits)),
    }
}

/// Withholds a tap until a moment or longer. An index without a tap is ignored.
fn hold_tap(held: &mut [u64], tap: usize, until: u64)
    ensures { held.new ≡ hold_tap held.old tap until }
{
    if tap < held.len() {
        held[tap] = held[tap].max(until);
    }
}
