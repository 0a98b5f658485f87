//! The text for the trace of a run.

ghost use Rattle.std.specs.Prelude.{◌≡◌, IfOk, map};
ghost use Rattle.pb_medium.specs.Entries.{entry_of};
ghost use Rattle.pb_scenario.specs.Scenarios.{ScenarioView};
ghost use Rattle.pb_texts.specs.Plays.{trace_shown};
ghost use Rattle.pb_texts.specs.Shown.{shown_of};

use crate::shown::Shown;
use crate::tails::last_lines;
use pb_scenario::{Entry, Scenario, push_trace};
use std::alloc::{AllocError, Global};

/// The text for the trace of a scenario's run: a line for each entry, or only the last lines.
///
/// Fault: memory was refused.
pub fn traced(
    alloc: Global,
    scenario: &Scenario,
    entries: &[Entry],
    last: Option<usize>,
) -> Result<Shown, AllocError>
    ensures { IfOk result
        (λ shown. shown_of shown ≡ trace_shown last scenario.now.names (map entry_of entries.now)) }
{
    let mut whole = Vec::new(alloc);
    push_trace(&mut whole, scenario, entries)?;
    let text = match last {
        None => whole,
        Some(lines) => last_lines(alloc, &whole, lines)?,
    };
    Ok(Shown {
        text,
        is_refused: false,
    })
}
