//! Reads a scenario file.

ghost use Rattle.std.specs.Prelude.{◌≡◌, [], IfErr, IfOk};
ghost use Rattle.toml.specs.View.{table_view, view};
ghost use Rattle.law_runs.specs.Laws.{AreFromOutside};
ghost use Rattle.pb_scenario.specs.Steps.{steps_of};
ghost use Rattle.pb_scenario.specs.Walks.{AreFrom};
ghost use Rattle.pb_scenario.specs.declared.keys.Key.TheVariants as keys;
ghost use Rattle.pb_scenario.specs.Scenarios.{names_of};
ghost use Rattle.pb_scenario.specs.Fields.{Answers};
ghost use Rattle.pb_scenario.specs.Tables.{members};
ghost use Rattle.pb_scenario.specs.Files as files;

use crate::deeds::Step;
use crate::faults::ScenarioFault;
use crate::fields::Fields;
use crate::keys::{Key, Path, Section};
use crate::scenarios::Scenario;
use crate::steps::steps_in;
use crate::taps::taps_in;
use crate::versions::{Version, any_version_in, version_in};
use indexmap::IndexSet;
use pb_timers::BusParams;
use std::alloc::Global;
use toml::{Table, Value};

/// The last moment at which a scenario may end, in bit times.
pub(crate) const LAST_END: u64 = 10_000_000;

pub(crate) const TOP_KEYS: [Key; 5] = [Key::Version, Key::Until, Key::Bus, Key::Tap, Key::Step];

/// Reads the scenario that a TOML file describes. In version 1 a bus has no cable delay and at most 32 taps. In version
/// 2 the file gives the cable delay, in bit times, and there are at most 127 taps.
///
/// Faults: `NotToml` if the file is not TOML in UTF-8; else the first that applies, in the order that [`ScenarioFault`]
/// describes: `BadVersion`, `Missing`, `BadKind`, `BadValue`, `Unknown`, `Twice`, `NoSuchName`, `StepOrder`, `Params`
/// or `TooMany`; or `NoMemory`.
pub fn read(alloc: Global, file: &[u8]) -> Result<Scenario, ScenarioFault>
    ensures scenario { IfOk result (files.Describes file.now) }
    ensures fault { IfErr result (files.RefusesFile file.now) }
{
    match toml::table_from_slice(alloc, file) {
        Ok(table) => scenario_in(alloc, &table),
        Err(fault) if fault.is_memory() => Err(ScenarioFault::NoMemory),
        Err(_) => Err(ScenarioFault::NotToml),
    }
}

/// Reads the parameters of the bus that a TOML file of version 1, 2 or 3 gives in its table `bus`. Apart from that table
/// and the version nothing of the file is read.
///
/// Faults: `NotToml` if the file is not TOML in UTF-8; else the first of `BadVersion`, `Missing`, `BadKind`, `BadValue`,
/// `Unknown` and `Params` that applies to these keys; or `NoMemory`.
pub fn read_bus(alloc: Global, file: &[u8]) -> Result<BusParams, ScenarioFault>
    ensures params { IfOk result (files.DescribesBus file.now) }
    ensures fault { IfErr result (files.RefusesBus file.now) }
{
    match toml::table_from_slice(alloc, file) {
        Ok(table) => bus_in(alloc, &table),
        Err(fault) => if fault.is_memory() {
            Err(ScenarioFault::NoMemory)
        } else {
            Err(ScenarioFault::NotToml)
        },
    }
}

/// The parameters of the bus in the table of a whole file.
#[tactic(auto, unfolding(crate::specs::Files::bus_in), using(crate::proofs::Chains::then_ok, crate::proofs::Chains::then_tells, crate::proofs::Chains::then_tells_next))]
fn bus_in(alloc: Global, table: &Table) -> Result<BusParams, ScenarioFault>
    ensures { Answers (λ p. p) result (files.bus_in (table_view table.now)) }
{
    let top = Fields {
        section: Section::Top,
        table,
    };
    let file_version = any_version_in(top)?;
    let bus = Fields {
        section: Section::Bus,
        table: top.table(Key::Bus)?,
    };
    params_in(alloc, bus, file_version)
}

/// The scenario that the table of a whole file describes.
#[tactic(auto, unfolding(crate::specs::Files::scenario_in), using(crate::proofs::Chains::then_ok, crate::proofs::Chains::then_tells, crate::proofs::Chains::then_tells_next))]
pub(crate) fn scenario_in(alloc: Global, table: &Table) -> Result<Scenario, ScenarioFault>
    ensures { Answers (λ s. s) result (files.scenario_in (table_view table.now)) }
{
    let top = Fields {
        section: Section::Top,
        table,
    };
    let version = version_in(top)?;
    top.known(alloc, &TOP_KEYS)?;
    let until = top.number(Key::Until, 1, LAST_END)?;
    let bus = Fields {
        section: Section::Bus,
        table: top.table(Key::Bus)?,
    };
    let params = params_in(alloc, bus, version)?;
    let taps = taps_in(alloc, top.list(Key::Tap)?, version)?;
    let steps = steps_at(alloc, top, &taps.names)?;
    Ok(Scenario::new(params, taps.specs, taps.names, steps, until))
}

/// The steps, on taps with these names; none if the key is missing.
fn steps_at(
    alloc: Global,
    top: Fields<'_>,
    names: &IndexSet<String>,
) -> Result<Vec<Step>, ScenarioFault>
    ensures steps { Answers (λ steps. steps_of steps.items) result
        (files.if_there [] (files.listed_steps (names_of names.now.keys)) top.entry.section keys.Step
        (members top.entry)) }
    ensures order { IfOk result (λ steps. AreFrom 0 (steps_of steps.items)) }
    ensures outside { IfOk result (λ steps. AreFromOutside (steps_of steps.items)) }
{
    match top.find(Key::Step) {
        Some(_) => steps_in(alloc, top.list(Key::Step)?, names),
        None => Ok(Vec::new(alloc)),
    }
}

/// The parameters of the bus.
#[tactic(auto, unfolding(crate::specs::Files::params_in), using(crate::proofs::Chains::then_ok, crate::proofs::Chains::then_tells, crate::proofs::Chains::then_tells_next))]
pub(crate) fn params_in(
    alloc: Global,
    bus: Fields<'_>,
    version: Version,
) -> Result<BusParams, ScenarioFault>
    ensures { Answers (λ p. p) result (files.params_in version bus.entry.section (members bus.entry)) }
{
    bus.known(alloc, version.bus_keys())?;
    let made = BusParams::new(
        parameter(bus, Key::Tsl)?,
        parameter(bus, Key::Tid1)?,
        parameter(bus, Key::Tid2)?,
        parameter(bus, Key::Tsdr)?,
        parameter(bus, Key::Lag)?,
        parameter(bus, Key::Ttr)?,
        parameter(bus, Key::Gap)?,
        parameter(bus, Key::Hsa)?,
        parameter(bus, Key::Retries)?,
        delay_in(bus, version)?,
    );
    match made {
        Ok(params) => Ok(params),
        Err(fault) => Err(ScenarioFault::Params(fault)),
    }
}

/// The cable delay of the bus; 0 if the version has no key for it.
fn delay_in(bus: Fields<'_>, version: Version) -> Result<u32, ScenarioFault>
    ensures { Answers (λ n. n) result (files.delay_in version bus.entry.section (members bus.entry)) }
{
    match version {
        Version::Undelayed => Ok(0),
        Version::Delayed | Version::Repeating => parameter(bus, Key::Ttd),
    }
}

/// A parameter of the bus.
fn parameter(bus: Fields<'_>, key: Key) -> Result<u32, ScenarioFault>
    ensures { Answers (λ n. n) result (files.word32 bus.entry.section key (members bus.entry)) }
{
    Ok(bus.number(key, 0, u64::from(u32::MAX))? as u32)
}

/// An item of a list as a table.
pub(crate) fn item(value: &Value, section: Section) -> Result<Fields<'_>, ScenarioFault>
    ensures members { Answers members result (files.item_in section (view value.now)) }
    ensures section { IfOk result (λ fields. fields.section ≡ section) }
{
    match value.as_table() {
        Some(table) => Ok(Fields { section, table }),
        None => Err(ScenarioFault::BadKind(Path::Item(section))),
    }
}
