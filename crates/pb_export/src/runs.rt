//! The trace of a scenario's run on one thread.

ghost use Rattle.std.specs.Prelude.{◌≡◌, Some, Ok, IfOk, IfErr, map};
ghost use Rattle.law_runs.specs.Judging.{StandsFrom};
ghost use Rattle.law_runs.specs.Scenarios.{trace_of};
ghost use Rattle.pb_medium.specs.Entries.{entry_of};
ghost use Rattle.pb_scenario.specs.Faults.{EndsBy};

use pb_scenario::{Entry, RunFault, Scenario, trace_of};
use std::alloc::Global;

/// The trace of the run of a scenario on one thread, in order of begin.
///
/// Faults: those of [`trace_of`].
pub fn entries_of(alloc: Global, scenario: &Scenario) -> Result<Vec<Entry>, RunFault>
    ensures trace { IfOk result
        (λ entries. trace_of scenario.now.scenario ≡ Some (Ok (map entry_of entries.items))) }
    ensures order { IfOk result (λ entries. StandsFrom 0 (map entry_of entries.items)) }
    ensures fault { IfErr result (EndsBy scenario.now.scenario) }
{
    Ok(trace_of(alloc, scenario)?.entries)
}
