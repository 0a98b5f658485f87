//! The export of a scenario file.

ghost use Rattle.std.specs.Prelude.{◌≡◌, ◌<◌, IfOk, OnOk, map};
ghost use Rattle.law_runs.specs.Judging.{StandsFrom};
ghost use Rattle.pb_medium.specs.Entries.{entry_of};
ghost use Rattle.pb_texts.specs.Faults.{IsTold, line_of_run};
ghost use Rattle.pb_texts.specs.Shown.{refusal, shown_of};
ghost use Rattle.pb_export.specs.Exports.{export_of, export_of_scenario, export_of_trace};

use crate::exports::exported;
use crate::options::Export;
use crate::runs::entries_of;
use pb_scenario::{Entry, RunFault, Scenario};
use pb_texts::{Shown, described, new_line, refused_file, refused_line};
use std::alloc::{AllocError, Global};

/// The export of the run that a scenario file describes, on one thread; or the line of the fault of the file or of the
/// run.
///
/// Fault: memory was refused.
pub fn exported_file(alloc: Global, file: &[u8], export: &Export) -> Result<Shown, AllocError>
    requires { 0 < export.now.baud }
    ensures { IfOk result (λ shown. shown_of shown ≡ export_of export.now file.now) }
{
    match described(alloc, file) {
        Ok(scenario) => exported_scenario(alloc, &scenario, export),
        Err(fault) => refused_file(alloc, &fault),
    }
}

/// The export of a scenario's run, or the line of its fault.
fn exported_scenario(
    alloc: Global,
    scenario: &Scenario,
    export: &Export,
) -> Result<Shown, AllocError>
    requires { 0 < export.now.baud }
    ensures { IfOk result (λ shown. shown_of shown ≡ export_of_scenario export.now scenario.now) }
{
    match entries_of(alloc, scenario) {
        Ok(entries) => exported_trace(alloc, scenario, &entries, export),
        Err(fault) => refused_run(alloc, fault),
    }
}

/// The export of a scenario's trace.
fn exported_trace(
    alloc: Global,
    scenario: &Scenario,
    entries: &[Entry],
    export: &Export,
) -> Result<Shown, AllocError>
    requires baud { 0 < export.now.baud }
    requires order { StandsFrom 0 (map entry_of entries.now) }
    ensures { IfOk result (λ shown. shown_of shown
        ≡ export_of_trace export.now scenario.now (map entry_of entries.now)) }
{
    let text = exported(alloc, scenario, entries, export)?;
    Ok(Shown {
        text,
        is_refused: false,
    })
}

/// The line of the fault of a run. For refused memory there is no line: the result is that fault too.
fn refused_run(alloc: Global, fault: RunFault) -> Result<Shown, AllocError>
    ensures shown { IfOk result (λ shown. shown_of shown ≡ refusal (line_of_run fault)) }
    ensures told { OnOk result (IsTold fault) }
{
    let line = match fault {
        RunFault::New(fault) => new_line(alloc, fault)?,
        RunFault::At(now, fault) => refused_line(alloc, fault, now.get())?,
    };
    Ok(Shown::refusal(line))
}
