//! Reviews a whole history.

ghost use Rattle.std.specs.Prelude.{◌≡◌, ◌+◌, true, IfOk};
ghost use Rattle.pb_scenario.specs.Reading.{IsRunIn};

use crate::instants::read_instant;
use crate::reports::Report;
use crate::walks::Walk;
use std::alloc::{AllocError, Global};

/// Whether the history of a report is cut into the instants of a scenario, as its outlooks show them. If it is, the
/// history leaves the trace of the scenario's run on one thread. This takes time in proportion to history, outlooks and
/// steps. The caller ensures that the walk through the scenario's steps is at 0.
///
/// Fault: memory was refused.
pub fn is_run<R: Report>(alloc: Global, report: &R, mut walk: Walk<'_>) -> Result<bool, AllocError>
    requires { walk.clock ≡ 0 }
    ensures { IfOk result (λ is. is ≡ true → IsRunIn walk.entry (R.looks report.now) (R.events report.now)) }
{
    let mut place = 0;
    let mut want = Vec::new(alloc);
    for round in 0..walk.until() + 1 {
        let Some(next) = read_instant(report, &walk, round as usize * 2, place, &mut want)? else {
            return Ok(false);
        };
        match next.moment {
            Some(at) => {
                walk.go_to(at);
                place = next.place;
            }
            None => return Ok(next.place == report.len()),
        }
    }
    Ok(false)
}
