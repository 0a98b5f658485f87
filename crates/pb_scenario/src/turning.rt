//! Reads the turns of an instant in a history, in any order.

ghost use Rattle.std.specs.Prelude.{◌≡◌, ◌≤◌, ◌++◌, ℕ, List, length, map, Some, OnOk, IfSome};
ghost use Rattle.std.specs.Option.{option_map};
ghost use Rattle.law_model.specs.World.{Turn};
ghost use Rattle.pb_taps.specs.Events.{event_of};
ghost use Rattle.law_runs.specs.Runs.{wanted};
ghost use Rattle.law_runs.specs.Histories.{Picks, none_left};
ghost use Rattle.pb_scenario.specs.Walks.{plan_in};
ghost use Rattle.pb_scenario.specs.Reading.{ReadsTurns, ReadsWanted, Takes};

use crate::reports::Report;
use crate::walks::Walk;
use pb_taps::Event;
use pb_timers::Moment;
use std::alloc::AllocError;

/// The position after one turn of each tap that wants one, in any order; `None` if other turns come next.
pub(crate) fn read_turns<R: Report>(report: &R, place: usize, want: &mut Vec<bool>) -> Option<usize>
    requires { place ≤ length (R.events report.now) }
    ensures { IfSome result (ReadsWanted (R.events report.now) place want.old.items) }
{
    let mut at = place;
    for _ in 0..want.len() {
        at = read_turn(report, at, want)?;
    }
    if is_none_left(want) { Some(at) } else { None }
}

/// The position after one turn of a tap that wants one. If no turn comes next, the position is unchanged.
fn read_turn<R: Report>(report: &R, place: usize, want: &mut Vec<bool>) -> Option<usize>
    requires { place ≤ length (R.events report.now) }
    ensures { IfSome result (ReadsTurns (R.events report.now) place want.old.items want.new.items) }
{
    match turn_in(report.event(place)) {
        None => Some(place),
        Some(tap) => {
            if place >= report.len() || !take(want, tap) {
                return None;
            }
            Some(place + 1)
        }
    }
}

/// The tap that takes its turn in this event, if it is a turn.
fn turn_in(found: Option<&Event>) -> Option<usize>
    ensures { IfSome result (λ tap. option_map (λ e. event_of e.now) found.entry ≡ Some (Turn tap)) }
{
    match found {
        Some(Event::Turn(tap)) => Some(*tap),
        _ => None,
    }
}

/// Whether a tap wants a turn. If so, it no longer does.
fn take(want: &mut Vec<bool>, tap: usize) -> bool
    ensures { Takes want.old.items tap want.new.items result }
{
    if tap >= want.len() || !want[tap] {
        return false;
    }
    want[tap] = false;
    true
}

/// Whether no tap wants a turn.
fn is_none_left(want: &[bool]) -> bool
    ensures { result ≡ none_left want.now }
{
    for wants in want {
        if *wants {
            return false;
        }
    }
    true
}

/// Notes which taps want a turn, given when each is due. The memory of `want` is reused.
///
/// Fault: memory was refused.
pub(crate) fn note_wanted(
    walk: &Walk<'_>,
    dues: &[Option<Moment>],
    want: &mut Vec<bool>,
) -> Result<(), AllocError>
    requires { length dues.now ≡ walk.now.taps }
    ensures { OnOk result (want.new.items ≡ wanted (plan_in walk.now) walk.now.clock 0 dues.now) }
{
    want.clear();
    for (tap, due) in dues.iter().enumerate() {
        want.push(walk.wants(tap, *due))?;
    }
    Ok(())
}
