//! The file `examples/two-masters.toml`: each prefix of it is read, and it is read, played, judged and shown with each
//! allocation refused in turn.

use super::equal;
use pb_scenario::{RunFault, Scenario, ScenarioFault, audit_of, events_of, read, trace_text};
use pb_taps::{Event, NewFault, WorldFault};
use pb_world::{World, run};
use std::process::Abort;

const TWO_MASTERS: &str =
    "# Two masters form a ring: `a` claims the token, finds `b`, and passes it on.
# All times are in bit times.
version = 1
until = 1400

[bus]
tsl = 100     # slot time: how long a station waits for a reply
tid1 = 37     # idle time before the next telegram
tid2 = 60     # the same after a request that nobody answers (`sdn`)
tsdr = 11     # how long a station takes to reply
lag = 0       # how late a station may take its turn
ttr = 10000   # target rotation time of the token
gap = 10      # GAP factor: how many `ttr` from one search for new masters to the next
hsa = 5       # highest address that a master may have
retries = 1   # how often a request is sent again that nobody answers

[[tap]]
name = \"a\"
kind = \"master\"
address = 1

[[tap]]
name = \"b\"
kind = \"master\"
address = 2

[[step]]
at = 0
do = \"start\"
tap = \"a\"

[[step]]
at = 0
do = \"start\"
tap = \"b\"
";

const TRACE: &str = "800 833 a dc0101 -w
870 903 a dc0101 -w
940 1006 a 100201494c16 -w
1017 1083 b 100102202316 w-
1120 1153 a dc0201 -w
1190 1256 b 100302494e16 w-
1356 1389 b dc0102 w-
";

/// The number of events of its run.
const EVENTS: usize = 45;

/// The first fault of a prefix of the file is that it is not TOML, or that a key is missing. Eleven prefixes are
/// scenarios: they end after a tap or a step, with or without the line end, and an empty line before the next one.
#[test]
fn reads_each_front(rt: HostRuntime) {
    let octets = TWO_MASTERS.as_bytes();
    let (mut scenarios, mut no_toml, mut missing) = (0u32, 0u32, 0u32);
    for end in 0..=octets.len() {
        let fault = match read(rt.alloc(), &octets[..end]) {
            Ok(_scenario) => 0,
            Err(fault) => fault.number(),
        };
        match fault {
            0 => scenarios = scenarios.saturating_add(1),
            1 => no_toml = no_toml.saturating_add(1),
            fault => {
                equal(&rt, &fault, &3);
                missing = missing.saturating_add(1);
            }
        }
    }
    equal(&rt, &(scenarios, no_toml, missing), &(11, 223, 632));
}

fn refused(rt: &impl Print) {
    let _ = println!(rt; "refused");
}

/// The scenario of the file; `None` if memory was refused.
fn scenario(rt: &(impl AllocGlobal + Abort + Print)) -> Option<Scenario> {
    match read(rt.alloc(), TWO_MASTERS.as_bytes()) {
        Ok(scenario) => Some(scenario),
        Err(fault) => {
            equal(rt, &fault, &ScenarioFault::NoMemory);
            refused(rt);
            None
        }
    }
}

/// The run was refused memory, for the new world or at a moment.
fn is_refused_memory(rt: &(impl Abort + Print), fault: RunFault) {
    match fault {
        RunFault::New(fault) => equal(rt, &fault, &NewFault::NoMemory),
        RunFault::At(_, fault) => equal(rt, &fault, &WorldFault::NoMemory),
    }
    refused(rt);
}

/// The events of the run; `None` if memory was refused.
fn events(rt: &(impl AllocGlobal + Abort + Print), scenario: &Scenario) -> Option<Vec<Event>> {
    match events_of(rt.alloc(), scenario) {
        Ok(events) => Some(events),
        Err(fault) => {
            is_refused_memory(rt, fault);
            None
        }
    }
}

/// With one allocation refused, the file is read or memory was refused.
#[test]
fn refused_memory_in_reading(rt: HostRuntime) {
    if let Some(scenario) = scenario(&rt) {
        equal(&rt, &(scenario.until(), scenario.steps().len()), &(1400, 2));
    }
}

/// With one allocation refused, the run has its events or memory was refused.
#[test]
fn refused_memory_in_a_run(rt: HostRuntime) {
    let Some(scenario) = scenario(&rt) else {
        return;
    };
    if let Some(events) = events(&rt, &scenario) {
        equal(&rt, &events.len(), &EVENTS);
    }
}

/// With one allocation refused, the run is judged or memory was refused.
#[test]
fn refused_memory_in_an_audit(rt: HostRuntime) {
    let Some(scenario) = scenario(&rt) else {
        return;
    };
    match audit_of(rt.alloc(), &scenario) {
        Ok(found) => assert!(rt; found.premise.is_none() && found.illegal.is_none()),
        Err(fault) => is_refused_memory(&rt, fault),
    }
}

/// With one allocation refused, the trace has its text or memory was refused.
#[test]
fn refused_memory_in_a_trace(rt: HostRuntime) {
    let alloc = rt.alloc();
    let Some(scenario) = scenario(&rt) else {
        return;
    };
    let Some(events) = events(&rt, &scenario) else {
        return;
    };
    let Ok(mut world) = World::new(alloc, *scenario.params(), scenario.taps()) else {
        return refused(&rt);
    };
    if run(alloc, &mut world, &events).is_err() {
        return refused(&rt);
    }
    match trace_text(alloc, &scenario, world.trace()) {
        Ok(shown) => assert!(rt; shown.as_slice() == TRACE.as_bytes()),
        Err(_) => refused(&rt),
    }
}
