//! The text for the audit of a scenario file.

ghost use Rattle.std.specs.Prelude.{◌≡◌, ◌≢◌, Ok, IfErr, IfOk, OnOk};
ghost use Rattle.pb_texts.specs.Audits.{audit_of_scenario};
ghost use Rattle.pb_texts.specs.Faults.{scenario_line, table_fault};
ghost use Rattle.pb_texts.specs.Files.{Refuses, RefusesStream, audit_of, scenario_of, stream_scenario_of};
ghost use Rattle.pb_texts.specs.Shown.{refusal, shown_of};

use crate::audits::findings;
use crate::faults::{run_line, scenario_line};
use crate::shown::Shown;
use law_runs::the_events_of_a_run_lead_to_its_end;
use pb_scenario::{
    Reasons, Scenario, ScenarioFault, StreamScenario, read, read_stream, reasons_of,
};
use std::alloc::{AllocError, Global};

/// The text for the audit of a scenario file: a line for the first premise that its run on one thread breaks, and a
/// line for the first illegal record of its trace; or the line of the fault of the file or of the run. Where there is an
/// audit, `reasons` becomes what it found.
///
/// Fault: memory was refused.
pub fn audited(
    alloc: Global,
    file: &[u8],
    reasons: &mut Option<Reasons>,
) -> Result<Shown, AllocError>
    ensures { IfOk result (λ shown. shown_of shown ≡ audit_of file.now) }
{
    match described(alloc, file) {
        Ok(scenario) => audited_scenario(alloc, &scenario, reasons),
        Err(fault) => refused_file(alloc, &fault),
    }
}

/// The scenario that a file describes.
///
/// Faults: the first that applies, as for [`read`]; or `NoMemory`.
pub fn described(alloc: Global, file: &[u8]) -> Result<Scenario, ScenarioFault>
    ensures scenario { IfOk result (λ s. scenario_of file.now ≡ Ok s) }
    ensures fault { IfErr result (Refuses file.now) }
{
    read(alloc, file)
}

/// The scenario that a file describes for a stream.
///
/// Faults: the first that applies, as for [`read_stream`]; or `NoMemory`.
pub fn described_stream(alloc: Global, file: &[u8]) -> Result<StreamScenario, ScenarioFault>
    ensures scenario { IfOk result (λ s. stream_scenario_of file.now ≡ Ok s) }
    ensures fault { IfErr result (RefusesStream file.now) }
{
    read_stream(alloc, file)
}

/// The text for a refused file. For refused memory there is no line: the result is that fault too.
///
/// Fault: memory was refused, before or in this call.
pub fn refused_file(alloc: Global, fault: &ScenarioFault) -> Result<Shown, AllocError>
    ensures shown { IfOk result (λ shown. shown_of shown ≡ refusal (scenario_line (table_fault fault.now))) }
    ensures told { OnOk result (fault.now ≢ ScenarioFault.NoMemory) }
{
    Ok(Shown::refusal(scenario_line(alloc, fault)?))
}

/// What is written for the audit of a scenario, with what it finds, and why.
fn audited_scenario(
    alloc: Global,
    scenario: &Scenario,
    reasons: &mut Option<Reasons>,
) -> Result<Shown, AllocError>
    ensures { IfOk result (λ shown. shown_of shown ≡ audit_of_scenario scenario.now.scenario) }
{
    the_events_of_a_run_lead_to_its_end();
    match reasons_of(alloc, scenario) {
        Ok(why) => {
            *reasons = Some(why);
            findings(alloc, &why.found)
        }
        Err(fault) => Ok(Shown::refusal(run_line(alloc, fault)?)),
    }
}
