//! A bus runs by itself, from instant to instant.

ghost use Rattle.std.specs.Prelude.{◌≡◌, ◌≤◌, ◌<◌, ◌∷◌, [], IfSome, OnOk, IfErr, length};
ghost use Rattle.law_model.specs.World.{Pass, Turn};
ghost use Rattle.law_runs.specs.Bus.{bus, dues, next_change};
ghost use Rattle.law_runs.specs.Runs.{after, next, next_turn, onward, turns, wants};
ghost use Rattle.pb_world.specs.Buses.{world_of, IsKept};
ghost use Rattle.pb_world.specs.RunTo.{alone_until, Goes, HasRun, HasStopped, passes_to, Plays, turn_if};
ghost use Rattle.pb_world.specs.Watched.{IsFollowed, world_in};
ghost use Rattle.pb_world.specs.Worlds.{due_at};

use crate::buses::Bus;
use crate::driven::{pass, turn};
use crate::usual::UsualEvents;
use crate::watched::Watched;
use pb_taps::WorldFault;
use pb_timers::Moment;
use pb_transitions::earlier;
use std::alloc::Global;

/// The present moment of a run, and its end, in bit times.
#[derive(Clone, Copy)]
struct Leg {
    now: u64,
    until: u64,
}

/// Runs a bus to a moment, in bit times.
pub(crate) fn run_to(
    watched: &mut Watched,
    alloc: Global,
    usual: &mut UsualEvents,
    until: u64,
) -> Result<(), WorldFault>
    requires { IsFollowed watched.old }
    ensures run { OnOk result (HasRun until watched.old watched.new) }
    ensures fault { IfErr result (λ fault. HasStopped until fault watched.old watched.new) }
{
    let mut leg = Leg {
        now: watched.bus.now.get(),
        until,
    };
    while let Some(at) = play_instant(watched, alloc, usual, leg)? {
        leg.now = at;
    }
    Ok(())
}

/// Plays an instant, and returns the next one, if there is one.
fn play_instant(
    watched: &mut Watched,
    alloc: Global,
    usual: &mut UsualEvents,
    leg: Leg,
) -> Result<Option<u64>, WorldFault>
    requires { IsFollowed watched.old }
    ensures { Goes leg.until leg.now watched.old result watched.new }
{
    play_turns(watched, alloc, usual, leg)?;
    let next = next_instant(&watched.bus, leg);
    play_pass(watched, alloc, usual, leg.now, next.unwrap_or(leg.until))?;
    Ok(next)
}

/// Plays the turns of the taps that are due. A turn does not change when the other taps are due, so each tap is asked
/// just before its own turn.
fn play_turns(
    watched: &mut Watched,
    alloc: Global,
    usual: &mut UsualEvents,
    leg: Leg,
) -> Result<(), WorldFault>
    requires { IsFollowed watched.old }
    ensures { Plays leg.now watched.old
        (turns bus (alone_until leg.until) leg.now (world_in watched.old)) result watched.new }
{
    for tap in 0..watched.bus.taps.len() {
        play_turn(watched, alloc, usual, leg, tap)?;
    }
    Ok(())
}

/// Plays a tap's turn, if the tap is due now.
fn play_turn(
    watched: &mut Watched,
    alloc: Global,
    usual: &mut UsualEvents,
    leg: Leg,
    tap: usize,
) -> Result<(), WorldFault>
    requires { IsFollowed watched.old }
    ensures { Plays leg.now watched.old
        (turn_if (wants (alone_until leg.until) leg.now tap (due_at (world_in watched.old) tap)) tap)
        result watched.new }
{
    if is_due(watched.bus.due(tap), leg) {
        take_turn(watched, alloc, usual, leg.now, tap)
    } else {
        Ok(())
    }
}

/// Whether a turn that is due at a moment is due now.
fn is_due(due: Option<Moment>, leg: Leg) -> bool
    ensures { (tap : _) → result ≡ wants (alone_until leg.until) leg.now tap due }
{
    match due {
        Some(due) => due.get() <= leg.now,
        None => false,
    }
}

/// Lets time pass to a moment, if it is later than now.
fn play_pass(
    watched: &mut Watched,
    alloc: Global,
    usual: &mut UsualEvents,
    now: u64,
    to: u64,
) -> Result<(), WorldFault>
    requires { IsFollowed watched.old }
    ensures { Plays now watched.old (passes_to now to) result watched.new }
{
    if now < to {
        let_pass(watched, alloc, usual, now, to - now)
    } else {
        Ok(())
    }
}

/// Plays a turn of a tap at `now`.
#[inline(always)]
fn take_turn(
    watched: &mut Watched,
    alloc: Global,
    usual: &mut UsualEvents,
    now: u64,
    tap: usize,
) -> Result<(), WorldFault>
    requires { IsFollowed watched.old }
    ensures { Plays now watched.old (Turn tap ∷ []) result watched.new }
{
    let _now = now;
    turn(watched, alloc, usual, tap)
}

/// Lets some bit times pass at `now`.
#[inline(always)]
fn let_pass(
    watched: &mut Watched,
    alloc: Global,
    usual: &mut UsualEvents,
    now: u64,
    bits: u64,
) -> Result<(), WorldFault>
    requires { IsFollowed watched.old }
    ensures { Plays now watched.old (Pass bits ∷ []) result watched.new }
{
    let _now = now;
    pass(watched, alloc, usual, bits)
}

/// The next instant up to the end of the run: when something changes on the bus, or a tap is due next.
fn next_instant(on: &Bus, leg: Leg) -> Option<u64>
    requires { IsKept on.now }
    ensures next { let w = world_of on.entry.now in
        result ≡ next (alone_until leg.until) leg.now (dues w) (next_change w) }
    ensures bounds { IfSome result (λ at. (leg.now < at) × (at ≤ leg.until)) }
{
    onward(earlier(on.next_change(), next_turn(on, leg)), leg)
}

/// A moment, if it is after now and not past the end.
fn onward(moment: Option<Moment>, leg: Leg) -> Option<u64>
    ensures moment { result ≡ onward (alone_until leg.until) leg.now moment }
    ensures bounds { IfSome result (λ at. (leg.now < at) × (at ≤ leg.until)) }
{
    match moment {
        Some(moment) if leg.now < moment.get() && moment.get() <= leg.until => Some(moment.get()),
        _ => None,
    }
}

/// The first moment after now at which some tap is due.
fn next_turn(on: &Bus, leg: Leg) -> Option<Moment>
    requires { IsKept on.now }
    ensures { result ≡ next_turn (alone_until leg.until) leg.now 0 (dues (world_of on.entry.now)) }
{
    let mut first = None;
    for tap in 0..on.taps.len() {
        first = earlier(first, later(leg.now, on.due(tap)));
    }
    first
}

/// A moment, if it is after now.
fn later(now: u64, moment: Option<Moment>) -> Option<Moment>
    ensures { result ≡ after now moment }
{
    match moment {
        Some(moment) if now < moment.get() => Some(moment),
        _ => None,
    }
}
