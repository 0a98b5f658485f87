//! How far a scenario's run on one thread gets, and which step ends it: used to explain why a run is refused.

ghost use Rattle.std.specs.Prelude.{◌≡◌, Some, IfOk, IfSome};
ghost use Rattle.pb_scenario.specs.Faults.{EndsBy};

use crate::deeds::{Step, When};
use crate::faults::RunFault;
use crate::plays::play;
use crate::scenarios::Scenario;
use crate::stages::Stage;
use pb_taps::{Event, NewFault, WorldFault};
use pb_timers::Moment;
use pb_world::{Bus, new_bus};
use std::alloc::{AllocError, Global};

/// How far a run gets.
#[derive(Clone, Copy, Debug, PartialEq, Eq)]
pub struct Course {
    /// Why it ends early, if it does.
    pub fault: Option<RunFault>,
    /// The index, from 0, of the step whose event is refused then, if it is a step's.
    pub step: Option<usize>,
    /// The clock, in bit times, at the first event after the first `counted` ones, if there is one.
    pub passed: Option<Moment>,
}

/// How far the run of a scenario on one thread gets; `counted` is the number of events to count. This takes as long as
/// the run, and stores none of its events.
///
/// Fault: memory was refused.
pub fn course_of(alloc: Global, scenario: &Scenario, counted: u64) -> Result<Course, AllocError>
    ensures fault { IfOk result (λ course. IfSome course.fault (EndsBy scenario.now.scenario)) }
{
    let bus = match new_bus(alloc, *scenario.params(), scenario.taps()) {
        Ok(bus) => bus,
        Err(fault) => return ended(scenario, RunFault::New(fault), 0, None),
    };
    let mut stage = Counted::new(bus, counted);
    match play(alloc, scenario, &mut stage) {
        Ok(()) => Ok(Course {
            fault: None,
            step: None,
            passed: stage.passed,
        }),
        Err(fault) => ended(scenario, fault, stage.steps, stage.passed),
    }
}

/// The course of a run that a fault ends, after so many events of steps in its instant; none where memory was refused.
fn ended(
    scenario: &Scenario,
    fault: RunFault,
    steps: usize,
    passed: Option<Moment>,
) -> Result<Course, AllocError>
    ensures { IfOk result (λ course. course.fault ≡ Some fault) }
{
    if is_of_memory(&fault) {
        return Err(AllocError);
    }
    let step = refused_step(scenario, &fault, steps);
    Ok(Course {
        fault: Some(fault),
        step,
        passed,
    })
}

/// Whether memory was refused.
fn is_of_memory(fault: &RunFault) -> bool {
    match fault {
        RunFault::New(fault) => *fault == NewFault::NoMemory,
        RunFault::At(_, fault) => *fault == WorldFault::NoMemory,
    }
}

/// The step whose event a fault refuses, after so many events of steps in its instant: the next one, where it is a fault
/// that only a step's event has.
fn refused_step(scenario: &Scenario, fault: &RunFault, steps: usize) -> Option<usize> {
    match fault {
        RunFault::At(now, fault) if is_of_a_step(*fault) => {
            step_at(scenario.steps(), now.get(), steps)
        }
        _ => None,
    }
}

/// A bus that counts its events.
#[derive(Drop)]
struct Counted {
    bus: Bus,
    /// How many more events are counted.
    left: u64,
    /// The clock at the first event after the counted ones.
    passed: Option<Moment>,
    /// How many events of steps have happened in this instant.
    steps: usize,
}

impl Counted {
    /// A bus on which nothing has happened, which counts `counted` events.
    fn new(bus: Bus, counted: u64) -> Counted
        ensures { result.bus ≡ bus }
    {
        Counted {
            bus,
            left: counted,
            passed: None,
            steps: 0,
        }
    }
}

/// Counts an event that is to happen at a clock.
fn count(left: &mut u64, passed: &mut Option<Moment>, now: Moment) {
    match *left {
        0 if passed.is_none() => *passed = Some(now),
        more => *left = more.saturating_sub(1),
    }
}

/// Notes an event that has happened.
fn note(steps: &mut usize, event: &Event) {
    match event {
        Event::Turn(_) => {}
        Event::Pass(_) => *steps = 0,
        _ => *steps = steps.saturating_add(1),
    }
}

impl Stage for Counted {
    ghost use Rattle.pb_scenario.specs.Courses.{counted_view};

    ghost view = { counted_view };

    fn apply(&mut self, alloc: Global, event: &Event) -> Result<(), WorldFault> {
        count(&mut self.left, &mut self.passed, self.bus.now);
        self.bus.apply(alloc, event)?;
        note(&mut self.steps, event);
        Ok(())
    }

    fn apply_in_time(&mut self, alloc: Global, event: &Event) -> Result<(), WorldFault> {
        self.apply(alloc, event)
    }

    fn bus(&self) -> &Bus {
        &self.bus
    }
}

/// Whether only the event of a step has such a fault.
fn is_of_a_step(fault: WorldFault) -> bool {
    matches!(
        fault,
        WorldFault::NoSuchTap
            | WorldFault::Running
            | WorldFault::NotRunning
            | WorldFault::NothingInAir
            | WorldFault::ZeroTime
            | WorldFault::QueueFull
    )
}

/// The index of the step whose event comes after `before` events of steps in an instant. Steps with events before the
/// turns come first.
fn step_at(steps: &[Step], at: u64, before: usize) -> Option<usize> {
    let of_instant = |when| {
        steps.iter().enumerate().filter(move |(_, step)| step.at == at
            && step.deed.said(when).is_some())
    };
    of_instant(When::BeforeTurns)
        .chain(of_instant(When::AfterTurns))
        .nth(before)
        .map(|(place, _)| place)
}
