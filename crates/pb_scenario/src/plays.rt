//! Plays a scenario's run, instant by instant.

ghost use Rattle.std.specs.Prelude.{◌≡◌, ◌+◌, ◌≤◌, ◌<◌, ◌∷◌, [], false, Some, Ok, IfErr, IfOk, IfSome, OnOk, length, map, nat_lt};
ghost use Rattle.law_turn.specs.Stations.{earlier};
ghost use Rattle.law_runs.specs.Premises.{comes_late};
ghost use Rattle.std.specs.Option.{option_map, option_to_list};
ghost use Rattle.pb_timers.specs.Timers.{last_moment};
ghost use Rattle.law_model.specs.World.{Pass, Turn, new_world};
ghost use Rattle.pb_taps.specs.Events.{event_of};
ghost use Rattle.pb_world.specs.Worlds.{due_at};
ghost use Rattle.law_runs.specs.Runs.{turns, wants};
ghost use Rattle.law_runs.specs.Bus.{bus};
ghost use Rattle.pb_scenario.specs.Steps.{deed_of, steps_of};
ghost use Rattle.pb_scenario.specs.Said.{said_by, said_in};
ghost use Rattle.pb_scenario.specs.Walks.{passes, plan_in};
ghost use Rattle.pb_scenario.specs.Faults.{EndsBy};
ghost use Rattle.pb_scenario.specs.Stages.{IsReady};
ghost use Rattle.pb_scenario.specs.Plays.{Goes, IsFirst, IsPlayed, NoneBefore, Plays, turn_if};

use crate::deeds::{Deed, Step, When};
use crate::faults::RunFault;
use crate::scenarios::Scenario;
use crate::stages::Stage;
use crate::walks::Walk;
use pb_taps::{Event, NewFault};
use pb_timers::Moment;
use pb_world::{Bus, UsualEvents};
use std::alloc::Global;

/// When taps may take turns next.
#[derive(Clone, Copy)]
struct Coming {
    /// The first moment after now at which some tap may.
    first: Option<u64>,
    /// A moment before which no tap is due, withheld or not.
    due: u64,
}

/// Plays a scenario's run on a stage with its new world.
///
/// Faults: `New` if memory was refused; `At`, with the clock, if an event is refused or memory was refused for one.
pub(crate) fn play<S: Stage>(
    alloc: Global,
    scenario: &Scenario,
    stage: &mut S,
) -> Result<(), RunFault>
    requires new { new_world scenario.now.scenario.params scenario.now.scenario.taps
        ≡ Ok (S.view stage.old).world }
    requires begins { (S.view stage.old).comes (S.view stage.old).world [] }
    ensures played { OnOk result
        (IsPlayed scenario.now.scenario (S.view stage.old).world (S.view stage.new)) }
    ensures fault { IfErr result (EndsBy scenario.now.scenario) }
{
    let Ok(mut walk) = scenario.walk(alloc) else {
        return Err(RunFault::New(NewFault::NoMemory));
    };
    let mut usual = UsualEvents::new();
    while let Some(at) = play_instant(alloc, stage, &walk, &mut usual)? {
        walk.go_to(at);
    }
    Ok(())
}

/// Plays the instant at which the walk is, and returns the next instant, if there is one.
fn play_instant<S: Stage>(
    alloc: Global,
    stage: &mut S,
    walk: &Walk<'_>,
    usual: &mut UsualEvents,
) -> Result<Option<u64>, RunFault>
    requires clock { walk.now.clock ≤ last_moment }
    requires taps { length (S.view stage.old).world.taps ≡ walk.now.taps }
    requires ready { IsReady (S.view stage.old) }
    ensures { Goes walk.now (S.view stage.old) result (S.view stage.new) }
{
    let now = moment_of(walk);
    play_steps(alloc, stage, now, walk.today(), When::BeforeTurns)?;
    let soonest = play_turns(alloc, stage, now, walk, usual)?;
    let turn = play_late(alloc, stage, now, walk, soonest)?;
    let next = walk.next_by(turn.first, stage.bus().next_change());
    play_pass(alloc, stage, now, usual, walk.pass_to(next), turn.due)?;
    Ok(next)
}

/// Plays the events that some steps trigger before or after the turns. Always inlined: most instants have no steps.
#[inline(always)]
fn play_steps<S: Stage>(
    alloc: Global,
    stage: &mut S,
    now: Moment,
    steps: &[Step],
    when: When,
) -> Result<(), RunFault>
    requires { IsReady (S.view stage.old) }
    ensures { Plays now (S.view stage.old) (said_by when (steps_of steps.now)) result (S.view stage.new) }
{
    for step in steps {
        play_deed(alloc, stage, now, &step.deed, when)?;
    }
    Ok(())
}

/// Plays the event that a step triggers then, if it does.
#[inline(never)]
fn play_deed<S: Stage>(
    alloc: Global,
    stage: &mut S,
    now: Moment,
    deed: &Deed,
    when: When,
) -> Result<(), RunFault>
    requires { IsReady (S.view stage.old) }
    ensures { Plays now (S.view stage.old) (option_to_list (said_in when (deed_of deed.now))) result
        (S.view stage.new) }
{
    match deed.said(when) {
        Some(event) => happens(alloc, stage, now, event),
        None => Ok(()),
    }
}

/// Plays the turns of the taps that are due and not withheld, and returns when taps may take turns next. A turn does
/// not change when the other taps are due, so each tap is asked just before its own turn, and behind it only where it took
/// one.
fn play_turns<S: Stage>(
    alloc: Global,
    stage: &mut S,
    now: Moment,
    walk: &Walk<'_>,
    usual: &mut UsualEvents,
) -> Result<Coming, RunFault>
    requires now { now ≡ walk.now.clock }
    requires taps { length (S.view stage.old).world.taps ≡ walk.now.taps }
    requires ready { IsReady (S.view stage.old) }
    ensures plays { Plays now (S.view stage.old)
        (turns bus (plan_in walk.now) walk.now.clock (S.view stage.old).world) result (S.view stage.new) }
    ensures first { IfOk result (λ coming. IsFirst walk.now (S.view stage.new) coming.first) }
    ensures due { IfOk result (λ coming. NoneBefore coming.due (S.view stage.new).world) }
{
    let mut first = None;
    let mut soonest = u64::MAX;
    for tap in 0..walk.taps() {
        let due = play_turn(alloc, stage, now, walk, usual, tap)?;
        soonest = no_later(soonest, &due);
        first = walk.sooner(first, tap, due);
    }
    Ok(Coming {
        first,
        due: soonest,
    })
}

/// The earlier of a moment, in bit times, and that of a turn, if one is due.
fn no_later(moment: u64, due: &Option<Moment>) -> u64
    ensures value { Some result ≡ earlier (Some moment) due.now }
    ensures bound { result ≤ moment }
    ensures due { IfSome due.now (λ at. result ≤ at) }
{
    match due {
        Some(due) if due.get() < moment => due.get(),
        _ => moment,
    }
}

/// Plays a tap's turn, if the tap is due now and not withheld, and returns when it is due then.
fn play_turn<S: Stage>(
    alloc: Global,
    stage: &mut S,
    now: Moment,
    walk: &Walk<'_>,
    usual: &mut UsualEvents,
    tap: usize,
) -> Result<Option<Moment>, RunFault>
    requires now { now ≡ walk.now.clock }
    requires tap { tap < walk.now.taps }
    requires ready { IsReady (S.view stage.old) }
    ensures plays { Plays now (S.view stage.old)
        (turn_if (wants (plan_in walk.now) walk.now.clock tap (due_at (S.view stage.old).world tap)) tap)
        result (S.view stage.new) }
    ensures due { IfOk result (λ due. due ≡ due_at (S.view stage.new).world tap) }
{
    if takes_turn(stage, now, walk, tap) {
        take_turn(alloc, stage, now, usual, tap)?;
        return Ok(stage.bus().due(tap));
    }
    Ok(stage.bus().due(tap))
}

/// Plays a turn of a tap.
#[inline(always)]
fn take_turn<S: Stage>(
    alloc: Global,
    stage: &mut S,
    now: Moment,
    usual: &mut UsualEvents,
    tap: usize,
) -> Result<(), RunFault>
    requires { IsReady (S.view stage.old) }
    ensures { Plays now (S.view stage.old) (Turn tap ∷ []) result (S.view stage.new) }
{
    usual.set_turn(tap);
    happens(alloc, stage, now, &usual.turn)
}

/// Whether a tap takes its turn now: it is due and not withheld.
#[inline(always)]
fn takes_turn<S: Stage>(stage: &S, now: Moment, walk: &Walk<'_>, tap: usize) -> bool
    requires now { now ≡ walk.now.clock }
    requires tap { tap < walk.now.taps }
    requires ready { IsReady (S.view stage.now) }
    ensures { result
        ≡ wants (plan_in walk.now) walk.now.clock tap (due_at (S.view stage.now).world tap) }
{
    stage.bus().is_due(tap, now) && walk.lets(tap)
}

/// Plays the events that steps trigger after the turns, and returns when taps may take turns next. Before them it
/// was `coming`.
fn play_late<S: Stage>(
    alloc: Global,
    stage: &mut S,
    now: Moment,
    walk: &Walk<'_>,
    coming: Coming,
) -> Result<Coming, RunFault>
    requires taps { length (S.view stage.old).world.taps ≡ walk.now.taps }
    requires ready { IsReady (S.view stage.old) }
    ensures plays { Plays now (S.view stage.old) ((plan_in walk.now).late walk.now.clock) result
        (S.view stage.new) }
    ensures first { IfOk result (λ last. IsFirst walk.now (S.view stage.old) coming.first
        → IsFirst walk.now (S.view stage.new) last.first) }
    ensures due { IfOk result (λ last. NoneBefore coming.due (S.view stage.old).world
        → NoneBefore last.due (S.view stage.new).world) }
{
    if walk.today().is_empty() {
        return Ok(coming);
    }
    play_steps(alloc, stage, now, walk.today(), When::AfterTurns)?;
    Ok(Coming {
        first: next_turn(stage, walk),
        due: 0,
    })
}

/// Lets time pass, in bit times, if it does. No tap is due before `due`.
fn play_pass<S: Stage>(
    alloc: Global,
    stage: &mut S,
    now: Moment,
    usual: &mut UsualEvents,
    bits: Option<u64>,
    due: u64,
) -> Result<(), RunFault>
    requires ready { IsReady (S.view stage.old) }
    requires due { NoneBefore due (S.view stage.old).world }
    ensures { Plays now (S.view stage.old) (passes bits) result (S.view stage.new) }
{
    match bits {
        Some(bits) => let_pass(alloc, stage, now, usual, bits, due),
        None => Ok(()),
    }
}

/// Lets some bit times pass. Where that is not past the first turn that is due, no turn becomes late.
#[inline(always)]
fn let_pass<S: Stage>(
    alloc: Global,
    stage: &mut S,
    now: Moment,
    usual: &mut UsualEvents,
    bits: u64,
    due: u64,
) -> Result<(), RunFault>
    requires ready { IsReady (S.view stage.old) }
    requires due { NoneBefore due (S.view stage.old).world }
    ensures { Plays now (S.view stage.old) (Pass bits ∷ []) result (S.view stage.new) }
{
    usual.set_pass(bits);
    if reaches(stage.bus(), bits, due) {
        happens(alloc, stage, now, &usual.pass)
    } else {
        happens_in_time(alloc, stage, now, &usual.pass)
    }
}

/// Whether the clock of a bus will be past a moment, both in bit times, when some bit times have passed.
#[inline(always)]
fn reaches(on: &Bus, bits: u64, moment: u64) -> bool
    ensures { result ≡ nat_lt moment (on.entry.now.now + bits) }
{
    let now = on.now.get();
    now > moment || bits > moment - now
}

/// Plays an event at `now` in which no turn becomes late.
fn happens_in_time<S: Stage>(
    alloc: Global,
    stage: &mut S,
    now: Moment,
    event: &Event,
) -> Result<(), RunFault>
    requires ready { IsReady (S.view stage.old) }
    requires in_time { comes_late (S.view stage.old).world (event_of event.now) ≡ false }
    ensures { Plays now (S.view stage.old) (event_of event.now ∷ []) result (S.view stage.new) }
{
    match stage.apply_in_time(alloc, event) {
        Ok(()) => Ok(()),
        Err(refused) => Err(RunFault::At(now, refused)),
    }
}

/// Plays an event at `now`.
fn happens<S: Stage>(
    alloc: Global,
    stage: &mut S,
    now: Moment,
    event: &Event,
) -> Result<(), RunFault>
    requires { IsReady (S.view stage.old) }
    ensures { Plays now (S.view stage.old) (event_of event.now ∷ []) result (S.view stage.new) }
{
    match stage.apply(alloc, event) {
        Ok(()) => Ok(()),
        Err(fault) => Err(RunFault::At(now, fault)),
    }
}

/// The first moment after now at which some tap may take a turn next.
fn next_turn<S: Stage>(stage: &S, walk: &Walk<'_>) -> Option<u64>
    requires taps { length (S.view stage.now).world.taps ≡ walk.now.taps }
    requires ready { IsReady (S.view stage.now) }
    ensures { IsFirst walk.now (S.view stage.entry.now) result }
{
    let mut first = None;
    for tap in 0..walk.taps() {
        first = walk.sooner(first, tap, stage.bus().due(tap));
    }
    first
}

/// The present moment of a walk.
fn moment_of(walk: &Walk<'_>) -> Moment
    requires { walk.now.clock ≤ last_moment }
    ensures { result ≡ walk.now.clock }
{
    Moment::at(walk.now())
}
