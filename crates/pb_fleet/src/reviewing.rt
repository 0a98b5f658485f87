//! Reviews the history of a segment: whether it is the run of a scenario.

ghost use Rattle.std.specs.Prelude.{◌≡◌, true, IfOk};
ghost use Rattle.law_runs.specs.Laws.{IsRunOf};
ghost use Rattle.pb_segment.specs.Histories.{events_in};
ghost use Rattle.pb_fleet.specs.Played.{looks_of};

use pb_scenario::{Look, Scenario, is_run};
use pb_segment::{Draft, Event};
use std::alloc::{AllocError, Global};

/// The history of a segment, as a review reads it.
#[derive(Drop)]
struct Played<'a> {
    draft: Draft<'a>,
}

impl<'a> pb_scenario::Report for Played<'a> {
    ghost use Rattle.pb_segment.specs.Histories.{events_in};
    ghost use Rattle.pb_fleet.specs.Played.{looks_of};

    ghost events = { λ p. events_in p.draft.history };

    ghost looks = { λ p. looks_of p.draft.outlooks };

    fn len(&self) -> usize {
        self.draft.len()
    }

    fn event(&self, place: usize) -> Option<&Event> {
        match self.draft.at(place) {
            Some((event, _)) => Some(event),
            None => None,
        }
    }

    fn look(&self, position: usize) -> Option<Look<'_>> {
        match self.draft.outlooks().get(position) {
            Some(outlook) => Some(Look {
                place: outlook.place,
                dues: outlook.due.moments(),
                change: outlook.next_change,
            }),
            None => None,
        }
    }
}

/// Whether the history is the run of a scenario, as its outlooks show. No event is applied.
///
/// Fault: memory was refused.
pub(crate) fn review(
    alloc: Global,
    scenario: &Scenario,
    draft: Draft<'_>,
) -> Result<bool, AllocError>
    ensures { IfOk result (λ is. is ≡ true
        → IsRunOf scenario.entry.now.scenario (looks_of draft.entry.outlooks)
        (events_in draft.entry.history)) }
{
    let walk = scenario.walk(alloc)?;
    is_run(alloc, &Played { draft }, walk)
}
