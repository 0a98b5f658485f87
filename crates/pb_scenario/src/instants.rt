//! Reads one instant of a history.

ghost use Rattle.std.specs.Prelude.{◌≡◌, ◌≤◌, ◌^◌, true, length, slice_get, Some, IfOk, IfSome};
ghost use Rattle.std.specs.Option.{option_map};
ghost use Rattle.law_model.specs.World.{Pass};
ghost use Rattle.pb_taps.specs.Events.{event_of};
ghost use Rattle.pb_scenario.specs.Walks.{passes};
ghost use Rattle.pb_scenario.specs.Looks.{look_of};
ghost use Rattle.pb_scenario.specs.Nexts.{IsLookAt, IsNext};
ghost use Rattle.pb_scenario.specs.Reading.{Reads};

use crate::deeds::When;
use crate::reading::read_steps;
use crate::reports::{Look, Report};
use crate::turning::{note_wanted, read_turns};
use crate::walks::Walk;
use pb_taps::Event;
use std::alloc::AllocError;

/// The position in a history after an instant.
#[derive(Clone, Copy, Debug)]
pub(crate) struct Next {
    /// The moment of the next instant, if there is one.
    pub(crate) moment: Option<u64>,
    /// How many events of the history were read.
    pub(crate) place: usize,
}

/// Reads an instant of the history, at the moment of the walk, from the event at `place` and the outlook at `position`
/// on. `None` if the history does not follow the plan there.
///
/// Fault: memory was refused.
pub(crate) fn read_instant<R: Report>(
    report: &R,
    walk: &Walk<'_>,
    position: usize,
    place: usize,
    want: &mut Vec<bool>,
) -> Result<Option<Next>, AllocError>
    requires place { place ≤ length (R.events report.now) }
    requires looks { position ≤ 2 ^ 63 }
    ensures { IfOk result (λ o. IfSome o (IsNext walk.now (R.looks report.now) (R.events report.now) place)) }
{
    let Some(started) = read_steps(report, place, walk.today(), When::BeforeTurns) else {
        return Ok(None);
    };
    let Some(before) = look_at(report, walk, position, started) else {
        return Ok(None);
    };
    note_wanted(walk, before.dues, want)?;
    let Some(turned) = read_turns(report, started, want) else {
        return Ok(None);
    };
    let Some(done) = read_steps(report, turned, walk.today(), When::AfterTurns) else {
        return Ok(None);
    };
    let Some(after) = look_at(report, walk, position + 1, done) else {
        return Ok(None);
    };
    let moment = walk.next(after.dues, after.change);
    let Some(place) = read_pass(report, done, walk.pass_to(moment)) else {
        return Ok(None);
    };
    Ok(Some(Next { moment, place }))
}

/// The outlook at `position`, if it was taken after `place` events and has all taps.
fn look_at<'a, R: Report>(
    report: &'a R,
    walk: &Walk<'_>,
    position: usize,
    place: usize,
) -> Option<Look<'a>>
    ensures { IfSome result (IsLookAt (R.looks report.now) position place walk.now.taps) }
{
    match report.look(position) {
        Some(look) if look.place == place && look.dues.len() == walk.taps() => Some(look),
        _ => None,
    }
}

/// The position after a pass of `bits` bit times; `None` if that is not the next event. Without a pass, the position is
/// unchanged.
fn read_pass<R: Report>(report: &R, place: usize, bits: Option<u64>) -> Option<usize>
    requires { place ≤ length (R.events report.now) }
    ensures { IfSome result (Reads (R.events report.now) place (passes bits)) }
{
    match bits {
        None => Some(place),
        Some(bits) => {
            if place < report.len() && is_pass(report.event(place), bits) {
                Some(place + 1)
            } else {
                None
            }
        }
    }
}

/// Whether an event was found and is a pass of this many bit times.
fn is_pass(found: Option<&Event>, bits: u64) -> bool
    ensures { result ≡ true → option_map (λ e. event_of e.now) found.entry ≡ Some (Pass bits) }
{
    match found {
        Some(Event::Pass(of)) => *of == bits,
        _ => false,
    }
}
