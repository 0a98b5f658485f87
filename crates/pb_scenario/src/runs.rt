//! The run of a scenario on one thread: its events, or its audit.

ghost use Rattle.std.specs.Prelude.{◌≡◌, Some, Ok, IfOk, IfErr, map};
ghost use Rattle.pb_taps.specs.Events.{event_of};
ghost use Rattle.law_runs.specs.Scenarios as runs;
ghost use Rattle.pb_scenario.specs.Faults.{EndsBy};
ghost use Rattle.pb_scenario.specs.Judged.{FindsInRun};

use crate::faults::RunFault;
use crate::plays::play;
use crate::recorded::Recorded;
use crate::scenarios::Scenario;
use pb_taps::Event;
use pb_world::{Audit, Inquiry, Reasons, new_bus, new_watched};
use std::alloc::Global;

/// The events of the run of a scenario on one thread. At each instant these are the events of its steps, the turns of
/// the taps that are due and not withheld, the losses of telegrams, and a pass of time to the next instant or to the
/// end. This takes time in proportion to events and steps.
///
/// Faults: `New` if there is no new world, or memory was refused; `At`, with the clock, if an event is refused or
/// memory was refused for one.
pub fn events_of(alloc: Global, scenario: &Scenario) -> Result<Vec<Event>, RunFault>
    ensures events { IfOk result
        (λ events. runs.events_of scenario.now.scenario ≡ Some (Ok (map event_of events.items))) }
    ensures fault { IfErr result (EndsBy scenario.now.scenario) }
{
    let bus = match new_bus(alloc, *scenario.params(), scenario.taps()) {
        Ok(bus) => bus,
        Err(fault) => return Err(RunFault::New(fault)),
    };
    let mut recorded = Recorded::new(alloc, bus);
    play(alloc, scenario, &mut recorded)?;
    Ok(recorded.events)
}

/// What an audit of the run of a scenario on one thread finds. Each event is judged as it happens, and none is stored.
///
/// Faults: those of [`events_of`]. An audit of events that a run has accepted has no fault of its own.
pub fn audit_of(alloc: Global, scenario: &Scenario) -> Result<Audit, RunFault>
    ensures ok { IfOk result (FindsInRun scenario.now.scenario) }
    ensures fault { IfErr result (EndsBy scenario.now.scenario) }
{
    let mut watched = match new_watched(alloc, *scenario.params(), scenario.taps()) {
        Ok(watched) => watched,
        Err(fault) => return Err(RunFault::New(fault)),
    };
    play(alloc, scenario, &mut watched)?;
    Ok(watched.judge())
}

/// What an audit of the run of a scenario on one thread finds, as [`audit_of`] does, and why. Each event costs more
/// time.
///
/// Faults: those of [`events_of`].
pub fn reasons_of(alloc: Global, scenario: &Scenario) -> Result<Reasons, RunFault>
    ensures ok { IfOk result (λ reasons. FindsInRun scenario.now.scenario reasons.found) }
    ensures fault { IfErr result (EndsBy scenario.now.scenario) }
{
    let mut inquiry = match new_watched(alloc, *scenario.params(), scenario.taps()) {
        Ok(watched) => Inquiry::new(watched),
        Err(fault) => return Err(RunFault::New(fault)),
    };
    play(alloc, scenario, &mut inquiry)?;
    Ok(inquiry.judge_with_reasons())
}
