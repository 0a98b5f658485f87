//! What a scenario should not have, though its run is not refused.

ghost use Rattle.std.specs.Prelude.{◌≢◌, [], IfOk, string_bytes};
ghost use Rattle.pb_texts.specs.Hints.{IsScenario, IsStreamScenario};

use crate::documents::Document;
use pb_scenario::{
    Deed, Event, Key, Repeat, Scenario, Section, Step, StreamScenario, read, read_stream,
};
use std::alloc::{AllocError, Global};

/// A line for the first step that starts a tap while another one with its address runs, and one for the first step that
/// is after the end of the run; no text where there is none, or where the file is refused. `name` is the file's name as
/// people gave it.
///
/// Fault: memory was refused.
pub fn warn(alloc: Global, name: &str, file: &[u8]) -> Result<String, AllocError>
    ensures { IfOk result (λ text. string_bytes text ≢ [] → IsScenario file.now) }
{
    let document = Document { alloc, name, file };
    match read(alloc, file) {
        Ok(scenario) => {
            let until = scenario.until();
            let end = until.saturating_add(1);
            warnings(&document, &scenario, until, end)
        }
        Err(_) => Ok(String::new(alloc)),
    }
}

/// The same for a file of version 1, 2 or 3. Two stations with one address are looked for as long as no step that starts
/// or stops a tap has happened again.
///
/// Fault: memory was refused.
pub fn warn_of_stream(alloc: Global, name: &str, file: &[u8]) -> Result<String, AllocError>
    ensures { IfOk result (λ text. string_bytes text ≢ [] → IsStreamScenario file.now) }
{
    let document = Document { alloc, name, file };
    let Ok(stream) = read_stream(alloc, file) else {
        return Ok(String::new(alloc));
    };
    let until = stream.until();
    warnings(&document, stream.once(), until, first_return(&stream))
}

/// The warnings of a scenario: of two taps that run with one address before the moment `end`, and of a step after `until`.
fn warnings(
    document: &Document<'_>,
    scenario: &Scenario,
    until: u64,
    end: u64,
) -> Result<String, AllocError> {
    let mut text = of_namesakes(document, scenario, end)?;
    text.push_str(of_late_steps(document, scenario, until)?.as_str())?;
    Ok(text)
}

/// The first moment at which a step that starts or stops a tap happens again, or which is after the end.
fn first_return(stream: &StreamScenario) -> u64 {
    let mut end = stream.until().saturating_add(1);
    for (step, repeat) in stream.once().steps().iter().zip(stream.repeats().iter()) {
        if let Some(repeat) = repeat {
            end = end.min(return_of(step, repeat, end));
        }
    }
    end
}

/// When a step happens again, if it starts or stops a tap; else the moment `otherwise`.
fn return_of(step: &Step, repeat: &Repeat, otherwise: u64) -> u64 {
    match &step.deed {
        Deed::Happens(Event::Start(_) | Event::Stop(_)) => step.at.saturating_add(repeat.every),
        _ => otherwise,
    }
}

/// The warning of the first two taps that run with one address before the moment `end`.
fn of_namesakes(
    document: &Document<'_>,
    scenario: &Scenario,
    end: u64,
) -> Result<String, AllocError> {
    let taps = scenario.taps();
    let mut runs = vec![in document.alloc; false; taps.len()]?;
    for (place, step) in scenario.steps().iter().enumerate() {
        match &step.deed {
            _ if step.at >= end => break,
            Deed::Happens(Event::Start(tap)) => {
                if let Some(other) = namesake(scenario, &runs, *tap) {
                    return namesakes(document, scenario, place, *tap, other);
                }
                set(&mut runs, *tap, true);
            }
            Deed::Happens(Event::Stop(tap)) => set(&mut runs, *tap, false),
            _ => {}
        }
    }
    Ok(String::new(document.alloc))
}

/// The warning of the first step after the end.
fn of_late_steps(
    document: &Document<'_>,
    scenario: &Scenario,
    until: u64,
) -> Result<String, AllocError> {
    let late = scenario
        .steps()
        .iter()
        .enumerate()
        .find(|(_, step)| step.at > until);
    match late {
        Some((place, step)) => {
            let at = step.at;
            document.at(
                document.value(Section::Step(place), Key::At).spot,
                format_args!(
                    "warning: this step is at {at}, after the end at {until}: it does not happen"
                ),
            )
        }
        None => Ok(String::new(document.alloc)),
    }
}

/// Another tap that runs and has the address of a tap.
fn namesake(scenario: &Scenario, runs: &[bool], tap: usize) -> Option<usize> {
    let taps = scenario.taps();
    let address = taps.get(tap)?.address;
    taps.iter()
        .zip(runs.iter())
        .position(|(other, runs)| *runs && other.address == address)
        .filter(|other| *other != tap)
}

/// Notes whether a tap runs.
fn set(runs: &mut [bool], tap: usize, is_running: bool) {
    if let Some(runs) = runs.get_mut(tap) {
        *runs = is_running;
    }
}

/// The line for two taps that run with one address.
fn namesakes(
    document: &Document<'_>,
    scenario: &Scenario,
    place: usize,
    tap: usize,
    other: usize,
) -> Result<String, AllocError> {
    let taps = scenario.taps();
    if tap >= taps.len() || other >= taps.len() {
        return Ok(String::new(document.alloc));
    }
    let address = taps[tap].address;
    let (name, other) = (scenario.name(tap), scenario.name(other));
    document.at(
        document.key(Section::Step(place), Key::Tap),
        format_args!(
            "warning: '{name}' starts with the address {address} of '{other}', which runs: two stations with one address disturb each other"
        ),
    )
}
