//! A scenario as a value.

ghost use Rattle.std.specs.Prelude.{◌≡◌, ◌<◌, IfOk, IfErr, length, slice_get, Some, None};
ghost use Rattle.pb_faults.specs.FirstFault.{first_fault};
ghost use Rattle.pb_timers.specs.ParamRules.{param_faults};
ghost use Rattle.pb_scenario.specs.Scenarios.{names_of, params_with};

use crate::deeds::Step;
use crate::walks::Walk;
use indexmap::IndexSet;
use pb_taps::TapSpec;
use pb_timers::{BusParams, ParamFault};
use std::alloc::{AllocError, Global};
use std::marker::Model;

/// What is played on a bus: its parameters, its named taps, the steps in order of time, and the moment until which time
/// passes.
///
/// ```
/// let file = b"
/// version = 1
/// until = 1400
/// bus = { tsl = 100, tid1 = 37, tid2 = 60, tsdr = 11, lag = 0, ttr = 10000, gap = 10, hsa = 5, retries = 1 }
/// tap = [{ name = 'a', kind = 'master', address = 1 }]
/// step = [{ at = 0, do = 'start', tap = 'a' }]
/// ";
/// let scenario = read(rt.alloc(), file).expect(&rt, "a scenario");
/// assert_eq!(rt; scenario.until(), 1400);
/// let found = audit_of(rt.alloc(), &scenario).expect(&rt, "an audit");
/// assert!(rt; found.premise.is_none() && found.illegal.is_none());
/// ```
#[derive(Debug, Drop)]
pub struct Scenario {
    params: BusParams,
    taps: Vec<TapSpec>,
    names: IndexSet<String>,
    steps: Vec<Step>,
    until: u64,
}

impl Model for Scenario {
    ghost use Rattle.pb_scenario.specs.Scenarios.{ScenarioView};

    ghost Value = { ScenarioView };

    ghost use Rattle.pb_scenario.specs.Kept.{scenario_view, IsScenario};

    ghost view = { scenario_view };

    ghost invariant = { IsScenario };
}

impl Scenario {
    ghost use Rattle.std.specs.Prelude.{◌≡◌, ◌≤◌, ◌<◌, IfOk, IfErr, length, map, slice_get, Some, None};
    ghost use Rattle.pb_faults.specs.FirstFault.{first_fault};
    ghost use Rattle.pb_timers.specs.ParamRules.{param_faults};
    ghost use Rattle.pb_taps.specs.Taps.{spec_of};
    ghost use Rattle.law_runs.specs.Laws.{AreFromOutside};
    ghost use Rattle.pb_scenario.specs.Steps.{steps_of};
    ghost use Rattle.pb_scenario.specs.Walks.{AreFrom};
    ghost use Rattle.pb_scenario.specs.Scenarios.{delayed, names_of, params_with, until_limit, walk_of};

    /// A scenario of taps with as many names, up to the moment `until`, in bit times. The caller ensures that the steps
    /// are in order of time and are neither turns nor passes of time.
    pub(crate) fn new(
        params: BusParams,
        taps: Vec<TapSpec>,
        names: IndexSet<String>,
        steps: Vec<Step>,
        until: u64,
    ) -> Scenario
        requires names { length names.keys ≡ length taps.items }
        requires order { AreFrom 0 (steps_of steps.items) }
        requires outside { AreFromOutside (steps_of steps.items) }
        requires end { until ≤ until_limit }
        ensures params { result.scenario.params ≡ params }
        ensures taps { result.scenario.taps ≡ map spec_of taps.items }
        ensures names { result.names ≡ names_of names.keys }
        ensures steps { result.scenario.steps ≡ steps_of steps.items }
        ensures until { result.scenario.until ≡ until }
    {
        Scenario {
            params,
            taps,
            names,
            steps,
            until,
        }
    }

    /// The parameters of the bus.
    pub fn params(&self) -> &BusParams
        ensures { result.now ≡ self.now.scenario.params }
    {
        &self.params
    }

    /// The definitions of the taps, in their order.
    pub fn taps(&self) -> &[TapSpec]
        ensures specs { map spec_of result.now ≡ self.now.scenario.taps }
        ensures named { length self.now.names ≡ length result.now }
    {
        &self.taps
    }

    /// The name of the tap with this index, from 0. The caller ensures that it is below the number of taps.
    pub fn name(&self, tap: usize) -> &str
        requires { tap < length self.now.names }
        ensures { slice_get self.now.names tap ≡ Some result.now }
    {
        name_in(self.names.as_slice(), tap)
    }

    /// The steps, in order of time.
    pub fn steps(&self) -> &[Step]
        ensures steps { steps_of result.now ≡ self.now.scenario.steps }
        ensures order { AreFrom 0 (steps_of result.now) }
        ensures outside { AreFromOutside (steps_of result.now) }
    {
        &self.steps
    }

    /// Until when time passes, in bit times.
    pub fn until(&self) -> u64
        ensures until { result ≡ self.now.scenario.until }
        ensures end { result ≤ until_limit }
    {
        self.until
    }

    /// The same scenario on a bus with the cable delay `ttd`, in bit times: telegrams reach the taps of others this
    /// much later.
    ///
    /// If the parameters of the bus do not allow that cable delay, returns the scenario unchanged with the first
    /// violated rule.
    pub fn with_ttd(mut self, ttd: u32) -> Result<Scenario, (Scenario, ParamFault)>
        ensures ok { IfOk result (λ s. s ≡ delayed self ttd) }
        ensures valid { IfOk result
            (λ _. first_fault (param_faults (params_with self.scenario.params ttd)) ≡ None) }
        ensures err { IfErr result (λ e. e.0 ≡ self) }
        ensures fault { IfErr result
            (λ e. first_fault (param_faults (params_with self.scenario.params ttd)) ≡ Some e.1) }
    {
        match with_delay(&self.params, ttd) {
            Ok(params) => {
                self.params = params;
                Ok(self)
            }
            Err(fault) => Err((self, fault)),
        }
    }

    /// A walk at 0 through the scenario's steps.
    ///
    /// Fault: memory was refused.
    pub fn walk(&self, alloc: Global) -> Result<Walk<'_>, AllocError>
        ensures walk { IfOk result (λ walk. walk ≡ walk_of self.now) }
        ensures end { IfOk result (λ walk. walk.until ≤ until_limit) }
    {
        Walk::new(alloc, self.steps(), self.taps().len(), self.until())
    }
}

/// Parameters with another cable delay, or the first rule that they would violate.
fn with_delay(params: &BusParams, ttd: u32) -> Result<BusParams, ParamFault>
    ensures ok { IfOk result (λ p. p ≡ params_with params.now ttd) }
    ensures valid { IfOk result (λ _. first_fault (param_faults (params_with params.now ttd)) ≡ None) }
    ensures fault { IfErr result
        (λ fault. first_fault (param_faults (params_with params.now ttd)) ≡ Some fault) }
{
    BusParams::new(
        params.tsl(),
        params.tid1(),
        params.tid2(),
        params.tsdr(),
        params.lag(),
        params.ttr(),
        params.gap(),
        params.hsa(),
        params.retries(),
        ttd,
    )
}

/// The name with this index.
fn name_in(names: &[String], tap: usize) -> &str
    requires { tap < length names.now }
    ensures { slice_get (names_of names.now) tap ≡ Some result.now }
{
    names[tap].as_str()
}
