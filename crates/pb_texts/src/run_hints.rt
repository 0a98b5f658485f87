//! Why the run of a scenario ends before its time.

use crate::air_hints::nothing_in_air;
use crate::documents::Document;
use pb_scenario::{
    Deed, Event, Key, Kind, NewFault, RunFault, Scenario, Section, WorldFault, course_of,
};
use std::alloc::AllocError;

/// The hint for a run that is refused, of which at most so many events may be kept; no text for a run that isn't.
pub(crate) fn of_run(
    document: &Document<'_>,
    scenario: &Scenario,
    events: Option<u64>,
) -> Result<String, AllocError> {
    let course = course_of(document.alloc, scenario, events.unwrap_or(u64::MAX))?;
    if let Some(clock) = course.passed {
        return ended(document, scenario, clock.get(), "its history is full");
    }
    let step = course.step;
    match course.fault {
        Some(fault) => of_fault(document, scenario, step, &fault),
        None => Ok(String::new(document.alloc)),
    }
}

/// The hint for a run that is refused, of which what is over is let go. The run that is played here keeps all, so its trace
/// may be full where the other goes on: then there is no text.
pub(crate) fn of_settling_run(
    document: &Document<'_>,
    scenario: &Scenario,
) -> Result<String, AllocError> {
    let course = course_of(document.alloc, scenario, u64::MAX)?;
    let step = course.step;
    match course.fault {
        Some(RunFault::At(_, WorldFault::TraceFull)) | None => Ok(String::new(document.alloc)),
        Some(fault) => of_fault(document, scenario, step, &fault),
    }
}

/// The hint for the fault of a run, and the step whose event is refused, if it is a step's.
fn of_fault(
    document: &Document<'_>,
    scenario: &Scenario,
    step: Option<usize>,
    fault: &RunFault,
) -> Result<String, AllocError> {
    match fault {
        RunFault::New(fault) => of_new(document, scenario, *fault),
        RunFault::At(clock, fault) => of_event(document, scenario, step, clock.get(), *fault),
    }
}

/// A run that is too long.
fn ended(
    document: &Document<'_>,
    scenario: &Scenario,
    clock: u64,
    why: &str,
) -> Result<String, AllocError> {
    let until = scenario.until();
    let most = clock.saturating_sub(1);
    document.at(
        document.value(Section::Top, Key::Until).spot,
        format_args!(
            "the run came to {clock} of {until} bit times, where {why}; wanted: until of at most {most}, or the command stream"
        ),
    )
}

/// A world that there isn't.
pub(crate) fn of_new(
    document: &Document<'_>,
    scenario: &Scenario,
    fault: NewFault,
) -> Result<String, AllocError> {
    match fault {
        NewFault::NoMemory => Err(AllocError),
        NewFault::NoTaps => document.at(
            document.key(Section::Top, Key::Tap),
            "there is no tap; wanted: a table [[tap]] for each",
        ),
        NewFault::TooManyTaps => document.at(
            document.key(Section::Top, Key::Tap),
            "there are too many taps; wanted: at most 127",
        ),
        NewFault::BadAddress(tap) => bad_address(document, scenario, tap),
    }
}

/// A tap whose address is over its limit.
fn bad_address(
    document: &Document<'_>,
    scenario: &Scenario,
    tap: usize,
) -> Result<String, AllocError> {
    let Some(spec) = scenario.taps().get(tap) else {
        return document.whole("the address of a tap is over its limit");
    };
    let spot = document.value(Section::Tap(tap), Key::Address).spot;
    let (name, address) = (name_of(scenario, tap), spec.address);
    match spec.kind {
        Kind::Master => {
            let hsa = scenario.params().hsa();
            document.at(
                spot,
                format_args!(
                    "master '{name}' has the address {address}; wanted: at most hsa, {hsa}"
                ),
            )
        }
        Kind::Passive => document.at(
            spot,
            format_args!("passive '{name}' has the address {address}; wanted: at most 126"),
        ),
    }
}

/// The name of a tap.
pub(crate) fn name_of(scenario: &Scenario, tap: usize) -> &str {
    if tap < scenario.taps().len() {
        scenario.name(tap)
    } else {
        "?"
    }
}

/// An event that is refused at a clock.
pub(crate) fn of_event(
    document: &Document<'_>,
    scenario: &Scenario,
    step: Option<usize>,
    clock: u64,
    fault: WorldFault,
) -> Result<String, AllocError> {
    match fault {
        WorldFault::NoMemory => Err(AllocError),
        WorldFault::TraceFull => ended(document, scenario, clock, "its trace has 100000 entries"),
        WorldFault::ClockFull => ended(document, scenario, clock, "the clock is full"),
        WorldFault::InboxFull(tap) => inbox_full(document, scenario, clock, tap),
        WorldFault::TooFar(_) => document.whole(format_args!(
            "at {clock}, time would pass an end on the bus"
        )),
        _ => match step {
            Some(place) => of_step(document, scenario, place, clock, fault),
            None => document.whole(format_args!("at {clock}, an event is refused: {fault}")),
        },
    }
}

/// A tap that reads its marks too late: it has been withheld.
fn inbox_full(
    document: &Document<'_>,
    scenario: &Scenario,
    clock: u64,
    tap: usize,
) -> Result<String, AllocError> {
    let name = name_of(scenario, tap);
    let withheld = scenario.steps().iter().rposition(|step| {
        step.at <= clock && matches!(&step.deed, Deed::Withhold { tap: held, .. } if *held == tap)
    });
    match withheld {
        Some(place) => {
            let most = match scenario.steps().get(place) {
                Some(step) => clock.saturating_sub(step.at),
                None => 0,
            };
            document.at(
                document.value(Section::Step(place), Key::Bits).spot,
                format_args!(
                    "'{name}' takes no turn for so long that at {clock} it has 64 begins and ends to read, the most; wanted: at most {most} bit times"
                ),
            )
        }
        None => document.whole(format_args!("at {clock}, '{name}' has 64 unread marks")),
    }
}

/// A step whose event is refused at a moment.
fn of_step(
    document: &Document<'_>,
    scenario: &Scenario,
    place: usize,
    at: u64,
    fault: WorldFault,
) -> Result<String, AllocError> {
    let spot = document.key(Section::Step(place), Key::At);
    let Some(step) = scenario.steps().get(place) else {
        return document.whole(format_args!("a step is refused: {fault}"));
    };
    let tap = tap_of(&step.deed);
    let name = name_of(scenario, tap);
    match fault {
        WorldFault::Running => document.at(
            spot,
            format_args!("at {at}, '{name}' runs already, or what it sent is still on the bus"),
        ),
        WorldFault::NotRunning if is_passive(scenario, tap) && is_request(&step.deed) =>
            document.at(
                spot,
                format_args!("at {at}, '{name}' is passive; only a master takes requests"),
            ),
        WorldFault::NotRunning => document.at(spot, format_args!("at {at}, '{name}' doesn't run")),
        WorldFault::NothingInAir => nothing_in_air(document, scenario, place, at, &step.deed),
        WorldFault::ZeroTime => {
            document.at(
                document.value(Section::Step(place), Key::Bits).spot,
                format_args!("at {at}, noise of 0 bit times; wanted: at least 1"),
            )
        }
        WorldFault::QueueFull => {
            let wanted = match document.entry(Section::Step(place), Key::Every) {
                Some(_) => "a larger 'every'",
                None => "a later step",
            };
            document.at(
                spot,
                format_args!(
                    "at {at}, 16 requests of this priority wait at '{name}'; wanted: {wanted}"
                ),
            )
        }
        _ => document.at(spot, format_args!("at {at}, the step is refused: {fault}")),
    }
}

/// Whether a tap is a passive station.
pub(crate) fn is_passive(scenario: &Scenario, tap: usize) -> bool {
    match scenario.taps().get(tap) {
        Some(spec) => spec.kind == Kind::Passive,
        None => false,
    }
}

/// Whether a step queues a request.
fn is_request(deed: &Deed) -> bool {
    matches!(deed, Deed::Happens(Event::Queue { .. }))
}

/// The tap of a step.
pub(crate) fn tap_of(deed: &Deed) -> usize {
    match deed {
        Deed::Withhold { tap, .. } => *tap,
        Deed::Happens(event) => match event {
            Event::Turn(tap) | Event::Start(tap) | Event::Stop(tap) => *tap,
            Event::Damage { tap, .. } | Event::Unheard { tap, .. } | Event::Queue { tap, .. } =>
                *tap,
            Event::Pass(_) | Event::Noise(_) => 0,
        },
    }
}
