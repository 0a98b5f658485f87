//! Reads the events of steps in a history.

ghost use Rattle.std.specs.Prelude.{◌≡◌, ◌≤◌, ◌∷◌, [], true, length, Some, IfSome};
ghost use Rattle.std.specs.Option.{option_map, option_to_list};
ghost use Rattle.pb_taps.specs.Events.{event_of};
ghost use Rattle.pb_scenario.specs.Steps.{deed_of, steps_of};
ghost use Rattle.pb_scenario.specs.Said.{said_by, said_in};
ghost use Rattle.pb_scenario.specs.Reading.{Reads};

use crate::deeds::{Deed, Step, When};
use crate::reports::Report;
use pb_taps::Event;

/// The position after the events that some steps trigger before or after the turns; `None` if others come next.
pub(crate) fn read_steps<R: Report>(
    report: &R,
    place: usize,
    steps: &[Step],
    when: When,
) -> Option<usize>
    requires { place ≤ length (R.events report.now) }
    ensures { IfSome result (Reads (R.events report.now) place (said_by when (steps_of steps.now))) }
{
    let mut at = place;
    for step in steps {
        at = read_deed(report, at, &step.deed, when)?;
    }
    Some(at)
}

/// The position after the event of a step, if it triggers one then.
fn read_deed<R: Report>(report: &R, place: usize, deed: &Deed, when: When) -> Option<usize>
    requires { place ≤ length (R.events report.now) }
    ensures { IfSome result
        (Reads (R.events report.now) place (option_to_list (said_in when (deed_of deed.now)))) }
{
    match deed.said(when) {
        None => Some(place),
        Some(event) => read_event(report, place, event),
    }
}

/// The position after an event; `None` if another comes next.
pub(crate) fn read_event<R: Report>(report: &R, place: usize, event: &Event) -> Option<usize>
    requires { place ≤ length (R.events report.now) }
    ensures { IfSome result (Reads (R.events report.now) place (event_of event.now ∷ [])) }
{
    if place < report.len() && is_event(report.event(place), event) {
        Some(place + 1)
    } else {
        None
    }
}

/// Whether an event was found and is this one.
fn is_event(found: Option<&Event>, event: &Event) -> bool
    ensures { result ≡ true → option_map (λ e. event_of e.now) found.entry ≡ Some (event_of event.now) }
{
    match found {
        Some(found) => found == event,
        None => false,
    }
}
