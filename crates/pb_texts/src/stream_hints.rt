//! Why the run of a scenario is refused in which steps may repeat.

ghost use Rattle.pb_stream.specs.Streams.{IsStreaming};

use crate::documents::Document;
use crate::run_hints::{is_passive, of_event, of_new};
use pb_scenario::{Deed, Event, Repeat, Step, StreamScenario, WorldFault};
use pb_stream::{Progress, Stream};
use std::alloc::{AllocError, Global};

/// How many instants are played to find what is refused, at most.
pub(crate) const MOST_INSTANTS: usize = 200_000;

/// The hint for a run that is refused in its first instants. Where steps of several taps may be meant, none is named.
pub(crate) fn of_stream_run(
    document: &Document<'_>,
    scenario: &StreamScenario,
) -> Result<String, AllocError> {
    let mut stream = match Stream::new(document.alloc, scenario, scenario.until()) {
        Ok(stream) => stream,
        Err(fault) => return of_new(document, scenario.once(), fault),
    };
    for _ in 0..MOST_INSTANTS {
        match stream.play(document.alloc)? {
            Progress::Goes => stream.let_go(),
            Progress::Ended => break,
            Progress::Refused { clock, fault } => {
                let step = refused_step(document.alloc, scenario, clock, fault)?;
                return of_event(document, scenario.once(), step, clock, fault);
            }
        }
    }
    Ok(String::new(document.alloc))
}

/// How many requests of a priority may wait.
const MOST_WAITING: u64 = 16;

/// What the steps before a moment, and those of it so far, tell of a tap.
#[derive(Clone, Copy)]
struct Known {
    /// Whether it runs.
    runs: bool,
    /// When it was started or stopped for the last time, in bit times; `None` if it never was.
    changed: Option<u64>,
    /// How many requests of low priority were queued.
    low: u64,
    /// How many requests of high priority were queued.
    high: u64,
}

/// Whether a step's event has a fault.
#[derive(Clone, Copy, PartialEq, Eq)]
enum Chance {
    Never,
    Maybe,
    Certain,
}

/// The first step of a moment whose event may have a fault; `None` if events of other taps may have it too.
fn refused_step(
    alloc: Global,
    scenario: &StreamScenario,
    clock: u64,
    fault: WorldFault,
) -> Result<Option<usize>, AllocError> {
    let mut known = known_before(alloc, scenario, clock)?;
    let repeats = scenario.repeats();
    let mut found: Option<(usize, &Deed)> = None;
    for (place, step) in scenario.once().steps().iter().enumerate() {
        let repeat = match repeats.get(place) {
            Some(repeat) => *repeat,
            None => None,
        };
        if !happens(step.at, repeat, clock) {
            continue;
        }
        let chance = chance_of(scenario, &known, &step.deed, clock, fault);
        if chance != Chance::Never {
            match found {
                None => found = Some((place, &step.deed)),
                Some((_, other)) if is_alike(other, &step.deed) => {}
                Some(_) => return Ok(None),
            }
        }
        if chance == Chance::Certain {
            break;
        }
        note(&mut known, &step.deed, clock, 1);
    }
    Ok(found.map(|(place, _)| place))
}

/// What the steps before a moment tell of each tap. None of them was refused.
fn known_before(
    alloc: Global,
    scenario: &StreamScenario,
    clock: u64,
) -> Result<Vec<Known>, AllocError> {
    let nothing = Known {
        runs: false,
        changed: None,
        low: 0,
        high: 0,
    };
    let once = scenario.once();
    let mut known = vec![in alloc; nothing; once.taps().len()]?;
    for (step, repeat) in once.steps().iter().zip(scenario.repeats().iter()) {
        if let Some((last, times)) = last_before(step, *repeat, clock) {
            note(&mut known, &step.deed, last, times);
        }
    }
    Ok(known)
}

/// When a step happens for the last time before a moment, and how often it has happened then.
fn last_before(step: &Step, repeat: Option<Repeat>, clock: u64) -> Option<(u64, u64)> {
    let last = clock.checked_sub(1)?;
    let since = last.checked_sub(step.at)?;
    let Some(repeat) = repeat else {
        return Some((step.at, 1));
    };
    let every = repeat.every.max(1);
    let again = match repeat.count {
        Some(count) => (since / every).min(count.saturating_sub(1)),
        None => since / every,
    };
    let moment = step.at.saturating_add(again.saturating_mul(every));
    Some((moment, again.saturating_add(1)))
}

/// Notes that a step has happened so often, at a moment for the last time.
fn note(known: &mut [Known], deed: &Deed, moment: u64, times: u64) {
    match deed {
        Deed::Happens(Event::Start(tap)) => change(known, *tap, moment, true),
        Deed::Happens(Event::Stop(tap)) => change(known, *tap, moment, false),
        Deed::Happens(Event::Queue { tap, request }) => {
            if let Some(known) = known.get_mut(*tap) {
                let queued = if request.high() {
                    &mut known.high
                } else {
                    &mut known.low
                };
                *queued = queued.saturating_add(times);
            }
        }
        _ => {}
    }
}

/// Notes that a tap was started or stopped at a moment, unless it was later again.
fn change(known: &mut [Known], tap: usize, moment: u64, is_start: bool) {
    if let Some(known) = known.get_mut(tap)
        && known.changed.is_none_or(|changed| changed <= moment)
    {
        known.runs = is_start;
        known.changed = Some(moment);
    }
}

/// Whether two steps do the same at the same taps, a request with the same priority.
fn is_alike(one: &Deed, two: &Deed) -> bool {
    let (Deed::Happens(one), Deed::Happens(two)) = (one, two) else {
        return false;
    };
    match (one, two) {
        (Event::Start(one), Event::Start(two)) | (Event::Stop(one), Event::Stop(two)) => one == two,
        (
            Event::Queue { tap, request },
            Event::Queue {
                tap: other,
                request: more,
            },
        ) => { tap == other && request.high() == more.high() }
        (
            Event::Damage { tap, speaker, .. },
            Event::Damage {
                tap: other,
                speaker: by,
                ..
            },
        )
        | (
            Event::Unheard { tap, speaker },
            Event::Unheard {
                tap: other,
                speaker: by,
            },
        ) => { tap == other && speaker == by }
        _ => false,
    }
}

/// Whether a step's event at a moment has a fault.
fn chance_of(
    scenario: &StreamScenario,
    known: &[Known],
    deed: &Deed,
    clock: u64,
    fault: WorldFault,
) -> Chance {
    let Deed::Happens(event) = deed else {
        return Chance::Never;
    };
    match (event, fault) {
        (Event::Start(tap), WorldFault::Running) => {
            let delay = u64::from(scenario.once().params().ttd());
            start_chance(known, *tap, clock, delay)
        }
        (Event::Stop(tap), WorldFault::NotRunning) => certainly(!runs(known, *tap)),
        (Event::Queue { tap, .. }, WorldFault::NotRunning) => {
            certainly(!runs(known, *tap) || is_passive(scenario.once(), *tap))
        }
        (Event::Queue { tap, request }, WorldFault::QueueFull) => {
            maybe(queued(known, *tap, request.high()) >= MOST_WAITING)
        }
        (Event::Damage { .. } | Event::Unheard { .. }, WorldFault::NothingInAir) => Chance::Maybe,
        (Event::Noise(bits), WorldFault::ZeroTime) => certainly(*bits == 0),
        _ => Chance::Never,
    }
}

/// Whether a start at a moment is refused: the tap runs, or what it sent before it was stopped is still on its way, for
/// the rest of a character and the cable delay at most.
fn start_chance(known: &[Known], tap: usize, clock: u64, delay: u64) -> Chance {
    let Some(known) = known.get(tap) else {
        return Chance::Maybe;
    };
    match known.changed {
        Some(_) if known.runs => Chance::Certain,
        Some(stop) => maybe(clock <= stop.saturating_add(11).saturating_add(delay)),
        None => Chance::Never,
    }
}

/// Whether a tap runs.
fn runs(known: &[Known], tap: usize) -> bool {
    match known.get(tap) {
        Some(known) => known.runs,
        None => false,
    }
}

/// How many requests of a priority were queued at a tap.
fn queued(known: &[Known], tap: usize, high: bool) -> u64 {
    match known.get(tap) {
        Some(known) if high => known.high,
        Some(known) => known.low,
        None => 0,
    }
}

/// A chance, if there is one.
fn maybe(is_any: bool) -> Chance {
    if is_any { Chance::Maybe } else { Chance::Never }
}

/// A fault that is there, or is not.
fn certainly(is_there: bool) -> Chance {
    if is_there {
        Chance::Certain
    } else {
        Chance::Never
    }
}

/// Whether a step that is first at a moment happens at another.
fn happens(first: u64, repeat: Option<Repeat>, clock: u64) -> bool {
    let Some(repeat) = repeat else {
        return first == clock;
    };
    if clock < first {
        return false;
    }
    let (every, since) = (repeat.every.max(1), clock - first);
    since % every == 0
        && match repeat.count {
            Some(count) => since / every < count,
            None => true,
        }
}
