//! Plays the instants of a run on a stage.

ghost use Rattle.std.specs.Prelude.{◌≡◌, ◌<◌, ◌∷◌, [], IfOk, IfSome, OnOk, map};
ghost use Rattle.std.specs.Option.{option_to_list};
ghost use Rattle.law_model.specs.World.{Pass, Turn};
ghost use Rattle.pb_world.specs.Buses.{world_of};
ghost use Rattle.pb_world.specs.Worlds.{due_at};
ghost use Rattle.law_runs.specs.Bus.{dues};
ghost use Rattle.law_runs.specs.Runs.{next_turn, wants};
ghost use Rattle.pb_scenario.specs.Plays.{turn_if};
ghost use Rattle.pb_scenario.specs.Said.{said_in, said_of};
ghost use Rattle.pb_scenario.specs.Steps.{deed_of};
ghost use Rattle.pb_scenario.specs.Walks.{passes, plan_in};
ghost use Rattle.pb_stream.specs.Plays.{FindsFirst, Goes, IsFirst, IsNext, Plays, PlaysLate, PlaysTurns};
ghost use Rattle.pb_stream.specs.Stages.{taps_of};

use crate::stages::Stage;
use pb_scenario::{Deed, StreamWalk, UsualEvents, When, WorldFault};
use pb_timers::Moment;
use std::alloc::Global;

/// Plays the instant at which the walk is, and returns the next instant, if there is one.
///
/// Faults: that of the first event that is refused, which leaves the bus as it was before that event; or `NoMemory`.
pub(crate) fn play_instant<S: Stage>(
    alloc: Global,
    stage: &mut S,
    walk: &StreamWalk<'_>,
    usual: &mut UsualEvents,
) -> Result<Option<u64>, WorldFault>
    requires taps { taps_of (S.view stage.old) ≡ walk.now.taps }
    requires ready { (S.view stage.old).ready }
    ensures goes { Goes walk.now (S.view stage.old) result (S.view stage.new) }
    ensures next { IfOk result (λ next. IfSome next (IsNext walk.now)) }
    ensures ready { OnOk result (S.view stage.new).ready }
    ensures taps { OnOk result (taps_of (S.view stage.new) ≡ taps_of (S.view stage.old)) }
{
    play_deeds(alloc, stage, walk.today(), When::BeforeTurns)?;
    let soonest = play_turns(alloc, stage, walk, usual)?;
    let turn = play_late(alloc, stage, walk, soonest)?;
    let next = walk.next_by(turn, stage.bus().next_change());
    play_pass(alloc, stage, usual, walk.pass_to(next))?;
    Ok(next)
}

/// Plays the events that some deeds trigger before or after the turns. Always inlined: most instants have no steps.
#[inline(always)]
fn play_deeds<S: Stage>(
    alloc: Global,
    stage: &mut S,
    deeds: &[&Deed],
    when: When,
) -> Result<(), WorldFault>
    requires { (S.view stage.old).ready }
    ensures plays { Plays (S.view stage.old) (said_of when (map (λ d. deed_of d.now) deeds.now)) result
        (S.view stage.new) }
    ensures ready { OnOk result (S.view stage.new).ready }
    ensures taps { OnOk result (taps_of (S.view stage.new) ≡ taps_of (S.view stage.old)) }
{
    for deed in deeds {
        play_deed(alloc, stage, deed, when)?;
    }
    Ok(())
}

/// Plays the event that a deed triggers then, if it does.
#[inline(never)]
fn play_deed<S: Stage>(
    alloc: Global,
    stage: &mut S,
    deed: &Deed,
    when: When,
) -> Result<(), WorldFault>
    requires { (S.view stage.old).ready }
    ensures plays { Plays (S.view stage.old) (option_to_list (said_in when (deed_of deed.now))) result
        (S.view stage.new) }
    ensures ready { OnOk result (S.view stage.new).ready }
    ensures taps { OnOk result (taps_of (S.view stage.new) ≡ taps_of (S.view stage.old)) }
{
    match deed.said(when) {
        Some(event) => stage.apply(alloc, event),
        None => Ok(()),
    }
}

/// Plays the turns of the taps that are due and not withheld, and returns the first moment after now at which some tap may
/// take a turn next. A turn does not change when the other taps are due, so each tap is asked just before its own turn, and
/// behind it only where it took one.
fn play_turns<S: Stage>(
    alloc: Global,
    stage: &mut S,
    walk: &StreamWalk<'_>,
    usual: &mut UsualEvents,
) -> Result<Option<u64>, WorldFault>
    requires taps { taps_of (S.view stage.old) ≡ walk.now.taps }
    requires ready { (S.view stage.old).ready }
    ensures plays { PlaysTurns walk.now (S.view stage.old) result (S.view stage.new) }
    ensures first { IfOk result (FindsFirst walk.now (S.view stage.old) (S.view stage.new)) }
    ensures ready { OnOk result (S.view stage.new).ready }
    ensures taps { OnOk result (taps_of (S.view stage.new) ≡ taps_of (S.view stage.old)) }
{
    let mut first = None;
    for tap in 0..walk.taps() {
        let due = play_turn(alloc, stage, walk, usual, tap)?;
        first = walk.sooner(first, tap, due);
    }
    Ok(first)
}

/// Plays a tap's turn, if the tap is due now and not withheld, and returns when it is due then.
fn play_turn<S: Stage>(
    alloc: Global,
    stage: &mut S,
    walk: &StreamWalk<'_>,
    usual: &mut UsualEvents,
    tap: usize,
) -> Result<Option<Moment>, WorldFault>
    requires tap { tap < walk.now.taps }
    requires ready { (S.view stage.old).ready }
    ensures plays { Plays (S.view stage.old)
        (turn_if (wants (plan_in walk.now) walk.now.clock tap (due_at (world_of (S.view stage.old).bus) tap)) tap)
        result (S.view stage.new) }
    ensures due { IfOk result (λ due. due ≡ due_at (world_of (S.view stage.new).bus) tap) }
    ensures ready { OnOk result (S.view stage.new).ready }
    ensures taps { OnOk result (taps_of (S.view stage.new) ≡ taps_of (S.view stage.old)) }
{
    if takes_turn(stage, walk, tap) {
        take_turn(alloc, stage, usual, tap)?;
        return Ok(stage.bus().due(tap));
    }
    Ok(stage.bus().due(tap))
}

/// Plays a turn of a tap.
#[inline(always)]
fn take_turn<S: Stage>(
    alloc: Global,
    stage: &mut S,
    usual: &mut UsualEvents,
    tap: usize,
) -> Result<(), WorldFault>
    requires { (S.view stage.old).ready }
    ensures plays { Plays (S.view stage.old) (Turn tap ∷ []) result (S.view stage.new) }
    ensures ready { OnOk result (S.view stage.new).ready }
    ensures taps { OnOk result (taps_of (S.view stage.new) ≡ taps_of (S.view stage.old)) }
{
    usual.set_turn(tap);
    stage.apply(alloc, &usual.turn)
}

/// Whether a tap takes its turn now: it is due and not withheld.
#[inline(always)]
fn takes_turn<S: Stage>(stage: &S, walk: &StreamWalk<'_>, tap: usize) -> bool
    requires tap { tap < walk.now.taps }
    requires ready { (S.view stage.now).ready }
    ensures { result ≡ wants (plan_in walk.now) walk.now.clock tap
        (due_at (world_of (S.view stage.now).bus) tap) }
{
    stage.bus().is_due(tap, walk.moment()) && walk.lets(tap)
}

/// Plays the events that steps trigger after the turns, and returns the first moment after now at which some tap may take a
/// turn next. Before them it was `first`.
fn play_late<S: Stage>(
    alloc: Global,
    stage: &mut S,
    walk: &StreamWalk<'_>,
    first: Option<u64>,
) -> Result<Option<u64>, WorldFault>
    requires taps { taps_of (S.view stage.old) ≡ walk.now.taps }
    requires ready { (S.view stage.old).ready }
    ensures plays { PlaysLate walk.now (S.view stage.old) result (S.view stage.new) }
    ensures first { IfOk result (λ last. IsFirst walk.now (S.view stage.old) first
        → IsFirst walk.now (S.view stage.new) last) }
    ensures ready { OnOk result (S.view stage.new).ready }
    ensures taps { OnOk result (taps_of (S.view stage.new) ≡ taps_of (S.view stage.old)) }
{
    if walk.today().is_empty() {
        return Ok(first);
    }
    play_deeds(alloc, stage, walk.today(), When::AfterTurns)?;
    Ok(next_turn(stage, walk))
}

/// Lets time pass, in bit times, if it does.
fn play_pass<S: Stage>(
    alloc: Global,
    stage: &mut S,
    usual: &mut UsualEvents,
    bits: Option<u64>,
) -> Result<(), WorldFault>
    requires { (S.view stage.old).ready }
    ensures plays { Plays (S.view stage.old) (passes bits) result (S.view stage.new) }
    ensures ready { OnOk result (S.view stage.new).ready }
    ensures taps { OnOk result (taps_of (S.view stage.new) ≡ taps_of (S.view stage.old)) }
{
    match bits {
        Some(bits) => let_pass(alloc, stage, usual, bits),
        None => Ok(()),
    }
}

/// Lets some bit times pass.
#[inline(always)]
fn let_pass<S: Stage>(
    alloc: Global,
    stage: &mut S,
    usual: &mut UsualEvents,
    bits: u64,
) -> Result<(), WorldFault>
    requires { (S.view stage.old).ready }
    ensures plays { Plays (S.view stage.old) (Pass bits ∷ []) result (S.view stage.new) }
    ensures ready { OnOk result (S.view stage.new).ready }
    ensures taps { OnOk result (taps_of (S.view stage.new) ≡ taps_of (S.view stage.old)) }
{
    usual.set_pass(bits);
    stage.apply(alloc, &usual.pass)
}

/// The first moment after now at which some tap may take a turn next.
fn next_turn<S: Stage>(stage: &S, walk: &StreamWalk<'_>) -> Option<u64>
    requires taps { taps_of (S.view stage.now) ≡ walk.now.taps }
    requires ready { (S.view stage.now).ready }
    ensures { result
        ≡ next_turn (plan_in walk.now) walk.now.clock 0 (dues (world_of (S.view stage.entry.now).bus)) }
{
    let mut first = None;
    for tap in 0..walk.taps() {
        first = walk.sooner(first, tap, stage.bus().due(tap));
    }
    first
}
