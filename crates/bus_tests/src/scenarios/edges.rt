//! Calls that allocate, on lists that are empty, full or grow: with ample memory none of them returns `NoMemory`.

use super::{BUS, equal};
use pb_medium::Entry;
use pb_scenario::{Scenario, audit_of, events_of, read, trace_of, trace_text};
use std::process::Abort;

/// A file of version 2 with a master and `taps` passive stations, which starts the master and makes noise `noises`
/// times.
fn scenario(rt: &(impl AllocGlobal + Abort), taps: usize, noises: usize) -> Scenario {
    let alloc = rt.alloc();
    let mut text = format!(in alloc;
        "version = 2\nuntil = 900\n{BUS}\nttd = 0\n[[tap]]\nname = \"m\"\nkind = \"master\"\naddress = 1\n"
    ).expect(rt, "memory");
    for tap in 0..taps {
        write!(
            text,
            "[[tap]]\nname = \"t{tap}\"\nkind = \"passive\"\naddress = 9\nreply = \"00ff\"\n"
        )
        .expect(rt, "memory");
    }
    text.push_str("[[step]]\nat = 0\ndo = \"start\"\ntap = \"m\"\n")
        .expect(rt, "memory");
    for noise in 0..noises {
        write!(text, "[[step]]\nat = {noise}\ndo = \"noise\"\nbits = 1\n").expect(rt, "memory");
    }
    read(alloc, text.as_bytes()).expect(rt, "a scenario")
}

/// From one tap to 127, a scenario is read, played, judged and shown.
#[test]
fn each_number_of_taps(rt: HostRuntime) {
    for taps in 0..=126 {
        plays(&rt, &scenario(&rt, taps, 1), taps + 1);
    }
}

/// From no noise to as much as makes each list grow a few times, a scenario is read, played, judged and shown.
#[test]
fn each_number_of_steps(rt: HostRuntime) {
    for noises in 0..=66 {
        plays(&rt, &scenario(&rt, 1, noises), 2);
    }
}

/// A run has its events and its audit, and traces of several lengths have texts of as many lines.
fn plays(rt: &(impl AllocGlobal + Abort), scenario: &Scenario, taps: usize) {
    let alloc = rt.alloc();
    equal(rt, &scenario.taps().len(), &taps);
    let events = events_of(alloc, scenario).expect(rt, "a run");
    assert!(rt; events.len() > 2);
    let found = audit_of(alloc, scenario).expect(rt, "an audit");
    assert!(rt; found.premise.is_none() && found.illegal.is_none());
    let traced = trace_of(alloc, scenario).expect(rt, "a trace");
    equal(rt, &traced.events, &(events.len() as u64));
    let mut noises = Vec::new(alloc);
    for _ in 0..scenario.steps().len() {
        noises
            .push(Entry::Noise { begin: 1, end: 2 })
            .expect(rt, "memory");
    }
    let text = trace_text(alloc, scenario, &noises).expect(rt, "a text");
    equal(rt, &text.len(), &(noises.len() * b"1 2 ~ noise\n".len()));
}
