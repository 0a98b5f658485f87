//! Tests of the numbers of a scenario's bus.

use super::equal;
use pb_scenario::{Scenario, read};
use pb_taps::NewFault;
use pb_texts::{bounds_json, bounds_text};
use std::process::Abort;

/// Two masters and a passive station. The time-outs are 6 and 10 slots of 100. The never-dead bounds are 385 of the target
/// rotation time, 5742 and 5709 of the cycles, and the time-outs. The rotation bound is 386, 5742, and 5808 of each
/// master. A reply leaves one bit time of the slot.
const TIGHT: &str = "version = 1
until = 20000
[bus]
tsl = 100
tid1 = 33
tid2 = 33
tsdr = 99
lag = 0
ttr = 386
gap = 100
hsa = 2
retries = 0
[[tap]]
name = \"a\"
kind = \"master\"
address = 0
[[tap]]
name = \"n\"
kind = \"master\"
address = 2
[[tap]]
name = \"p\"
kind = \"passive\"
address = 100
";

/// A master alone with the shortest target rotation time of 256, and 126 addresses in its GAP: its rotation is 66, so a
/// round of 126 takes longer than the 256 of the GAP factor.
const ALONE: &str = "version = 1
until = 20000
[bus]
tsl = 100
tid1 = 33
tid2 = 33
tsdr = 11
lag = 0
ttr = 256
gap = 1
hsa = 126
retries = 0
[[tap]]
name = \"a\"
kind = \"master\"
address = 0
";

/// Four masters, whose shortest rotation of 264 is longer than the target rotation time: their ring sends no GAP request.
const FOUR: &str = "version = 1
until = 20000
[bus]
tsl = 100
tid1 = 33
tid2 = 33
tsdr = 11
lag = 0
ttr = 256
gap = 10
hsa = 3
retries = 0
[[tap]]
name = \"a\"
kind = \"master\"
address = 0
[[tap]]
name = \"b\"
kind = \"master\"
address = 1
[[tap]]
name = \"c\"
kind = \"master\"
address = 2
[[tap]]
name = \"d\"
kind = \"master\"
address = 3
";

fn scenario(rt: &(impl AllocGlobal + Abort), file: &str) -> Scenario {
    read(rt.alloc(), file.as_bytes()).expect(rt, "a scenario")
}

#[test]
fn bounds_are_lines(rt: HostRuntime) {
    let text = bounds_text(rt.alloc(), &scenario(&rt, TIGHT), 1_500_000).expect(&rt, "text");
    let lines = "a: time-out 600 bit times, 0.400 ms (a_claim_waits_for_a_time_out)
a: silence bound 600 bit times, 0.400 ms (no_master_is_left_in_silence)
a: never-dead bound 12436 bit times, 8.291 ms (the_bus_is_never_dead)
n: time-out 1000 bit times, 0.667 ms (a_claim_waits_for_a_time_out)
n: silence bound 1000 bit times, 0.667 ms (no_master_is_left_in_silence)
n: never-dead bound 12836 bit times, 8.558 ms (the_bus_is_never_dead)
rotation bound 17744 bit times, 11.830 ms (a_rotation_is_bounded)
rotation bound beyond ttr 17358 bit times, 11.572 ms (a_rotation_is_bounded)
slot margin of a take 67 bit times, 0.044 ms (TakeLate)
slot margin of a reply 1 bit times, 0.000 ms (ReplyLate)
lag margin 0 bit times, 0.000 ms (TakeLate, ReplyLate)
";
    assert!(rt; text.as_slice() == lines.as_bytes());
}

#[test]
fn bounds_are_an_object(rt: HostRuntime) {
    let json = bounds_json(rt.alloc(), &scenario(&rt, ALONE), 9_600).expect(&rt, "text");
    let object =
        "{\"baud\":9600,\"masters\":[{\"name\":\"a\",\"time_out\":{\"bit_times\":600,\"ms\":62.500},\"silence_bound\":{\"bit_times\":600,\"ms\":62.500},\"never_dead_bound\":{\"bit_times\":12306,\"ms\":1281.875}}],\"rotation_bound\":{\"bit_times\":11806,\"ms\":1229.792},\"rotation_bound_beyond_ttr\":{\"bit_times\":11550,\"ms\":1203.125},\"take_margin\":{\"bit_times\":67,\"ms\":6.979},\"reply_margin\":{\"bit_times\":89,\"ms\":9.270},\"lag_margin\":{\"bit_times\":66,\"ms\":6.875},\"warnings\":[\"a GAP round of all free addresses takes longer than gap * ttr, after which the next is due; wanted: at least 8316\"]}\n";
    assert!(rt; json.as_slice() == object.as_bytes());
}

#[test]
fn a_short_rotation_is_warned_of(rt: HostRuntime) {
    let text = bounds_text(rt.alloc(), &scenario(&rt, FOUR), 1_500_000).expect(&rt, "text");
    let warning =
        "warning: ttr is at most the shortest rotation and an idle time: after a first receipt a ring of all masters sends no GAP request; wanted: over 297\n";
    assert!(rt; text.as_slice().ends_with(warning.as_bytes()));
}

/// Run with one allocation refused: the text, or `NoMemory`.
#[test]
fn refused_memory_for_bounds(rt: HostRuntime) {
    let Ok(scenario) = read(rt.alloc(), TIGHT.as_bytes()) else {
        let _ = println!(rt; "refused");
        return;
    };
    let text = bounds_text(rt.alloc(), &scenario, 1_500_000);
    let json = bounds_json(rt.alloc(), &scenario, 1_500_000);
    for result in [text, json] {
        if let Err(fault) = result {
            equal(&rt, &fault, &NewFault::NoMemory);
            let _ = println!(rt; "refused");
        }
    }
}
