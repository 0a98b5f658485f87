//! Reads a scenario file for a stream.

ghost use Rattle.std.specs.Prelude.{◌≡◌, [], IfErr, IfOk, length};
ghost use Rattle.toml.specs.View.{table_view};
ghost use Rattle.law_runs.specs.Laws.{AreFromOutside};
ghost use Rattle.pb_scenario.specs.Steps.{steps_of};
ghost use Rattle.pb_scenario.specs.Walks.{AreFrom};
ghost use Rattle.pb_scenario.specs.declared.keys.Key.TheVariants as keys;
ghost use Rattle.pb_scenario.specs.Repeats.{AreSteady};
ghost use Rattle.pb_scenario.specs.Scenarios.{names_of};
ghost use Rattle.pb_scenario.specs.Fields.{Answers};
ghost use Rattle.pb_scenario.specs.Files.{if_there};
ghost use Rattle.pb_scenario.specs.RepeatedTables.{all_of};
ghost use Rattle.pb_scenario.specs.StreamFiles as files;
ghost use Rattle.pb_scenario.specs.Tables.{members};

use crate::faults::ScenarioFault;
use crate::fields::Fields;
use crate::files::{LAST_END, TOP_KEYS, params_in, scenario_in};
use crate::keys::{Key, Section};
use crate::repeated_steps::{RepeatedSteps, repeated_steps_in};
use crate::scenarios::Scenario;
use crate::stream_scenarios::StreamScenario;
use crate::taps::taps_in;
use crate::versions::Version;
use indexmap::IndexSet;
use std::alloc::Global;
use toml::Table;

/// The last moment at which a scenario of version 3 may end, in bit times.
const LAST_STREAM_END: u64 = 1_000_000_000_000;

/// The version of files whose steps may repeat.
const REPEATING: i64 = 3;

/// Reads the scenario that a TOML file of version 1, 2 or 3 describes. Files of versions 1 and 2 mean what
/// [`read`](crate::read) says. Version 3 adds to version 2: a step may repeat, a name has up to 32 letters, digits,
/// `-` and `_`, and the end is at most 10^12.
///
/// Faults: `NotToml` if the file is not TOML in UTF-8; else the first that applies, in the order that [`ScenarioFault`]
/// describes: `BadVersion`, `Missing`, `BadKind`, `BadValue`, `Unknown`, `Twice`, `NoSuchName`, `StepOrder`, `Params`
/// or `TooMany`; or `NoMemory`.
pub fn read_stream(alloc: Global, file: &[u8]) -> Result<StreamScenario, ScenarioFault>
    ensures scenario { IfOk result (files.Describes file.now) }
    ensures fault { IfErr result (files.RefusesFile file.now) }
{
    match toml::table_from_slice(alloc, file) {
        Ok(table) => stream_in(alloc, &table),
        Err(fault) if fault.is_memory() => Err(ScenarioFault::NoMemory),
        Err(_) => Err(ScenarioFault::NotToml),
    }
}

/// The scenario that the table of a whole file describes, by its version.
#[tactic(auto, unfolding(crate::specs::StreamFiles::stream_in), using(crate::proofs::Chains::then_ok, crate::proofs::Chains::then_tells, crate::proofs::Chains::then_tells_next))]
fn stream_in(alloc: Global, table: &Table) -> Result<StreamScenario, ScenarioFault>
    ensures { Answers (λ s. s) result (files.stream_in (table_view table.now)) }
{
    let top = Fields {
        section: Section::Top,
        table,
    };
    if top.integer(Key::Version)? == REPEATING {
        repeating_in(alloc, table)
    } else {
        let once = scenario_in(alloc, table)?;
        let until = once.until();
        Ok(StreamScenario::new(once, Vec::new(alloc), until))
    }
}

/// The scenario that the table of a whole file of version 3 describes.
#[tactic(auto, unfolding(crate::specs::StreamFiles::repeating_in), using(crate::proofs::Chains::then_ok, crate::proofs::Chains::then_tells, crate::proofs::Chains::then_tells_next))]
fn repeating_in(alloc: Global, table: &Table) -> Result<StreamScenario, ScenarioFault>
    ensures { Answers (λ s. s) result (files.repeating_in (table_view table.now)) }
{
    let top = Fields {
        section: Section::Top,
        table,
    };
    top.known(alloc, &TOP_KEYS)?;
    let until = top.number(Key::Until, 1, LAST_STREAM_END)?;
    let bus = Fields {
        section: Section::Bus,
        table: top.table(Key::Bus)?,
    };
    let params = params_in(alloc, bus, Version::Repeating)?;
    let taps = taps_in(alloc, top.list(Key::Tap)?, Version::Repeating)?;
    let all = repeated_steps_at(alloc, top, &taps.names)?;
    let once = Scenario::new(
        params,
        taps.specs,
        taps.names,
        all.steps,
        until.min(LAST_END),
    );
    Ok(StreamScenario::new(once, all.repeats, until))
}

/// The steps, on taps with these names; none if the key is missing.
fn repeated_steps_at(
    alloc: Global,
    top: Fields<'_>,
    names: &IndexSet<String>,
) -> Result<RepeatedSteps, ScenarioFault>
    ensures steps { Answers all_of result
        (if_there [] (files.listed_repeated (names_of names.now.keys)) top.entry.section keys.Step
        (members top.entry)) }
    ensures order { IfOk result (λ all. AreFrom 0 (steps_of all.steps.items)) }
    ensures outside { IfOk result (λ all. AreFromOutside (steps_of all.steps.items)) }
    ensures steady { IfOk result (λ all. AreSteady all.repeats.items) }
    ensures paired { IfOk result (λ all. length all.steps.items ≡ length all.repeats.items) }
{
    match top.find(Key::Step) {
        Some(_) => repeated_steps_in(alloc, top.list(Key::Step)?, names),
        None => Ok(RepeatedSteps {
            steps: Vec::new(alloc),
            repeats: Vec::new(alloc),
        }),
    }
}
