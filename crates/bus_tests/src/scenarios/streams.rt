//! Streams beside runs.

ghost use Rattle.std.specs.Prelude.{◌≤◌};
ghost use Rattle.pb_stream.specs.Streams.{stream_end};

use pb_scenario::{Scenario, StreamScenario, events_of, read, read_stream, trace_text};
use pb_stream::{Progress, STREAM_END, Stream};
use pb_taps::WorldFault;
use pb_world::{World, run};
use std::alloc::{AllocGlobal, Global};
use std::process::Abort;

/// Two masters; the second stops, and then again.
const FILE: &[u8] = b"
version = 1
until = 4000
bus = { tsl = 100, tid1 = 37, tid2 = 60, tsdr = 11, lag = 0, ttr = 10000, gap = 10, hsa = 5, retries = 1 }
tap = [{ name = 'a', kind = 'master', address = 1 }, { name = 'b', kind = 'master', address = 2 }]
step = [
    { at = 0, do = 'start', tap = 'a' }, { at = 0, do = 'start', tap = 'b' },
    { at = 4100, do = 'stop', tap = 'b' }, { at = 4200, do = 'stop', tap = 'b' },
]
";

/// More instants than the tests have.
const MANY: usize = 100_000;

/// The text of a stream, and how it ends.
fn streamed(
    rt: &impl Abort,
    alloc: Global,
    scenario: &StreamScenario,
    until: u64,
    block: usize,
) -> (Vec<u8>, Progress)
    requires { until ≤ stream_end }
{
    let mut stream = Stream::new(alloc, scenario, until).expect(rt, "a stream");
    let mut text = Vec::new(alloc);
    for _instant in 0..MANY {
        match stream.advance(alloc, &mut text, block).expect(rt, "memory") {
            Progress::Goes => {}
            end => return (text, end),
        }
    }
    (text, Progress::Goes)
}

/// The text of a run, where no event is refused.
fn run_text(rt: &impl Abort, alloc: Global, scenario: &Scenario) -> Vec<u8> {
    let events = events_of(alloc, scenario).expect(rt, "a run");
    let mut world = World::new(alloc, *scenario.params(), scenario.taps()).expect(rt, "a world");
    run(alloc, &mut world, &events).expect(rt, "events");
    trace_text(alloc, scenario, world.trace()).expect(rt, "memory")
}

/// A stream has the lines of the run, in whatever blocks.
#[test]
fn a_stream_has_the_lines_of_the_run(rt: HostRuntime) {
    let alloc = rt.alloc();
    let scenario = read_stream(alloc, FILE).expect(&rt, "a scenario");
    let text = run_text(&rt, alloc, scenario.once());
    let (one, end) = streamed(&rt, alloc, &scenario, 4000, 1);
    assert!(rt; one.as_slice() == text.as_slice() && end == Progress::Ended);
    let (many, end) = streamed(&rt, alloc, &scenario, 4000, 7);
    assert!(rt; many.as_slice() == text.as_slice() && end == Progress::Ended);
}

/// Where an event is refused, the lines of all that was sent before come first.
#[test]
fn a_refused_stream_has_what_came_before(rt: HostRuntime) {
    let alloc = rt.alloc();
    let scenario = read_stream(alloc, FILE).expect(&rt, "a scenario");
    let (text, end) = streamed(&rt, alloc, &scenario, STREAM_END, 64);
    assert!(rt;
        text.as_slice()
            .starts_with(run_text(&rt, alloc, scenario.once()).as_slice())
    );
    let refused = Progress::Refused {
        clock: 4200,
        fault: WorldFault::NotRunning,
    };
    assert!(rt; end == refused);
}

/// How many entries a stream keeps between instants, at most.
fn most_kept(rt: &impl Abort, alloc: Global, scenario: &StreamScenario, block: usize) -> usize {
    let mut stream = Stream::new(alloc, scenario, 4000).expect(rt, "a stream");
    let mut text = Vec::new(alloc);
    let mut most = 0;
    for _instant in 0..MANY {
        match stream.advance(alloc, &mut text, block).expect(rt, "memory") {
            Progress::Goes => most = most.max(stream.entries().len()),
            _ => return most,
        }
    }
    MANY
}

/// Between instants a stream keeps what is on the bus, and less than a block.
#[test]
fn a_stream_keeps_less_than_a_block(rt: HostRuntime) {
    let alloc = rt.alloc();
    let scenario = read_stream(alloc, FILE).expect(&rt, "a scenario");
    assert_eq!(rt; most_kept(&rt, alloc, &scenario, 0), 1);
    assert_eq!(rt; most_kept(&rt, alloc, &scenario, 1), 1);
    assert_eq!(rt; most_kept(&rt, alloc, &scenario, 7), 7);
}

/// The head of two files; steps follow.
const HEAD: &str = "
until = 4000
bus = { tsl = 100, tid1 = 37, tid2 = 60, tsdr = 11, lag = 0, ttr = 10000, gap = 10, hsa = 5, retries = 1, ttd = 0 }
tap = [{ name = 'a', kind = 'master', address = 1 }, { name = 'p', kind = 'passive', address = 2, reply = '0102' }]
";

/// Steps that repeat, without and with a number of times.
const REPEATED: &str = "step = [
    { at = 0, do = 'start', tap = 'a' }, { at = 0, do = 'start', tap = 'p' },
    { at = 1000, do = 'queue', tap = 'a', service = 'srd', to = 2, high = true, unit = '', every = 1000 },
    { at = 1000, do = 'queue', tap = 'a', service = 'sdn', to = 2, high = true, unit = '', every = 500, count = 2 },
]";

/// The same with each happening written out.
const WRITTEN: &str = "step = [
    { at = 0, do = 'start', tap = 'a' }, { at = 0, do = 'start', tap = 'p' },
    { at = 1000, do = 'queue', tap = 'a', service = 'srd', to = 2, high = true, unit = '' },
    { at = 1000, do = 'queue', tap = 'a', service = 'sdn', to = 2, high = true, unit = '' },
    { at = 1500, do = 'queue', tap = 'a', service = 'sdn', to = 2, high = true, unit = '' },
    { at = 2000, do = 'queue', tap = 'a', service = 'srd', to = 2, high = true, unit = '' },
    { at = 3000, do = 'queue', tap = 'a', service = 'srd', to = 2, high = true, unit = '' },
    { at = 4000, do = 'queue', tap = 'a', service = 'srd', to = 2, high = true, unit = '' },
]";

/// Steps that repeat happen as if each happening were a step.
#[test]
fn steps_repeat(rt: HostRuntime) {
    let alloc = rt.alloc();
    let repeated = format!(in alloc; "version = 3{HEAD}{REPEATED}").expect(&rt, "memory");
    let written = format!(in alloc; "version = 2{HEAD}{WRITTEN}").expect(&rt, "memory");
    let scenario = read_stream(alloc, repeated.as_bytes()).expect(&rt, "a scenario");
    let plain = read(alloc, written.as_bytes()).expect(&rt, "a scenario");
    let (text, end) = streamed(&rt, alloc, &scenario, 4000, 1);
    assert!(rt; text.as_slice() == run_text(&rt, alloc, &plain).as_slice());
    assert!(rt; end == Progress::Ended);
}
