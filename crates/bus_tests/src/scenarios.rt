//! Tests of scenario files: how they are read, each fault, their runs and streams.

mod bounds;
mod edges;
mod reviews;
mod streams;
mod two_masters;
mod walks;

ghost use Rattle.std.specs.Prelude.{◌≡◌, true};

use pb_cycles::Service;
use pb_medium::Entry;
use pb_scenario::{
    Deed, Key, Path, RunFault, Section, audit_of, events_of, read, trace_of, trace_text,
};
use pb_taps::{Event, Kind, NewFault, WorldFault};
use pb_timers::{Moment, ParamFault};
use pb_world::{Audit, World, audit, run};
use std::alloc::{AllocError, AllocGlobal, Global};
use std::fmt::Debug;
use std::process::Abort;

/// Ends the test unless two values are equal. A call of its own: comparing in place makes the proof of a test take
/// three times as long.
fn equal<T: PartialEq + Debug>(rt: &impl Abort, left: &T, right: &T)
    ensures { T.eq left.now right.now ≡ true }
{
    assert_eq!(rt; *left, *right);
}

/// A path names the table, with the index of a tap or step, and the key.
#[test]
fn paths_name_table_and_key(rt: HostRuntime) {
    let alloc = rt.alloc();
    let spelled = |path: Path| format!(in alloc; "{path}").expect(&rt, "memory");
    assert!(rt; spelled(Path::Key(Section::Top, Key::Until)).as_str() == "until");
    assert!(rt; spelled(Path::Key(Section::Bus, Key::Tsl)).as_str() == "bus.tsl");
    assert!(rt; spelled(Path::Key(Section::Tap(0), Key::Name)).as_str() == "tap[0].name");
    assert!(rt; spelled(Path::Key(Section::Step(2), Key::At)).as_str() == "step[2].at");
    assert!(rt; spelled(Path::Item(Section::Tap(0))).as_str() == "tap[0]");
}

/// A bus without a cable delay.
const BUS: &str = "[bus]
tsl = 100
tid1 = 37
tid2 = 60
tsdr = 11
lag = 0
ttr = 10000
gap = 10
hsa = 5
retries = 1";

/// A file of two taps, with the given lines before the bus, for the second tap and for the steps.
fn file(alloc: Global, top: &str, second: &str, steps: &str) -> Result<String, AllocError> {
    format!(in alloc;
        "{top}
{BUS}
[[tap]]
name = \"a\"
kind = \"master\"
address = 1
[[tap]]
{second}
{steps}"
    )
}

const TOP: &str = "version = 1\nuntil = 1400";

const SECOND: &str = "name = \"b\"\nkind = \"passive\"\naddress = 2\nreply = \"0aFF\"";

/// The text of the fault of a file; empty if there is none.
fn fault_in(rt: &(impl AllocGlobal + Abort), top: &str, second: &str, steps: &str) -> String {
    let alloc = rt.alloc();
    let text = file(alloc, top, second, steps).expect(rt, "memory");
    let shown = match read(alloc, text.as_bytes()) {
        Ok(_) => String::from_str(alloc, ""),
        Err(fault) => format!(in alloc; "{} {fault}", fault.number()),
    };
    shown.expect(rt, "memory")
}

/// A name has 1 to 16 ASCII letters or digits.
#[test]
fn names_are_short_and_plain(rt: HostRuntime) {
    let named = |name: &str| -> String {
        let line = format!(in rt.alloc();
            "name = \"{name}\"\nkind = \"passive\"\naddress = 2"
        ).expect(&rt, "memory");
        fault_in(&rt, TOP, line.as_str(), "")
    };
    equal(&rt, &named("b").as_str(), &"");
    equal(&rt, &named("Az09Az09Az09Az09").as_str(), &"");
    for name in ["Az09Az09Az09Az09x", "", "a b", "ä"] {
        equal(&rt, &named(name).as_str(), &"5 BadValue tap[1].name");
    }
}

/// The service of a file's request, or the text of the fault.
fn service_in(rt: &(impl AllocGlobal + Abort), word: &str) -> Result<Service, String> {
    let alloc = rt.alloc();
    let step = format!(in alloc;
        "[[step]]\nat = 0\ndo = \"queue\"\ntap = \"a\"\nservice = \"{word}\"\nto = 2\nhigh = true\nunit = \"00\""
    ).expect(rt, "memory");
    let text = file(alloc, TOP, SECOND, step.as_str()).expect(rt, "memory");
    let scenario = match read(alloc, text.as_bytes()) {
        Ok(scenario) => scenario,
        Err(fault) => {
            return Err(format!(in alloc; "{} {fault}", fault.number()).expect(rt, "memory"));
        }
    };
    match scenario.steps().first().map(|step| &step.deed) {
        Some(Deed::Happens(Event::Queue { request, .. })) => Ok(request.service()),
        _ => panic!(rt; "no request"),
    }
}

/// Words have their meaning, and none in capital letters.
#[test]
fn words_stand_for_what_they_name(rt: HostRuntime) {
    assert!(rt; service_in(&rt, "sda") == Ok(Service::Sda));
    assert!(rt; service_in(&rt, "sdn") == Ok(Service::Sdn));
    assert!(rt; service_in(&rt, "srd") == Ok(Service::Srd));
    let Err(fault) = service_in(&rt, "SRD") else {
        panic!(rt; "a service in other letters");
    };
    equal(&rt, &fault.as_str(), &"5 BadValue step[0].service");
    let step = fault_in(
        &rt,
        TOP,
        SECOND,
        "[[step]]\nat = 0\ndo = \"Start\"\ntap = \"a\"",
    );
    equal(&rt, &step.as_str(), &"5 BadValue step[0].do");
    let kind = fault_in(&rt, TOP, "name = \"b\"\nkind = \"\"\naddress = 2", "");
    equal(&rt, &kind.as_str(), &"5 BadValue tap[1].kind");
}

/// A file of each kind of step is read.
#[test]
fn reads_a_file(rt: HostRuntime) {
    let alloc = rt.alloc();
    let steps = "[[step]]
at = 0
do = \"start\"
tap = \"a\"
[[step]]
at = 0
do = \"queue\"
tap = \"a\"
service = \"srd\"
to = 2
high = true
unit = \"00ff\"
[[step]]
at = 5
do = \"damage\"
tap = \"b\"
speaker = \"a\"
[[step]]
at = 5
do = \"damage\"
tap = \"b\"
speaker = \"a\"
place = 2
[[step]]
at = 6
do = \"noise\"
bits = 7
[[step]]
at = 6
do = \"unheard\"
tap = \"b\"
speaker = \"a\"
[[step]]
at = 7
do = \"withhold\"
tap = \"b\"
bits = 9
[[step]]
at = 8
do = \"stop\"
tap = \"a\"
";
    let text = file(alloc, TOP, SECOND, steps).expect(&rt, "memory");
    let scenario = read(alloc, text.as_bytes()).expect(&rt, "a scenario");
    equal(&rt, &scenario.until(), &1400);
    equal(&rt, &scenario.params().hsa(), &5);
    let taps = scenario.taps();
    assert!(rt; taps.len() == 2);
    equal(&rt, &scenario.name(0), &"a");
    equal(&rt, &scenario.name(1), &"b");
    assert!(rt; taps[0].kind == Kind::Master && taps[1].kind == Kind::Passive);
    assert!(rt; taps[1].address == 2 && taps[1].reply.as_slice() == [0x0a, 0xff].as_slice());
    let steps = scenario.steps();
    assert!(rt; steps.len() == 8);
    assert!(rt; matches!(steps[0].deed, Deed::Happens(Event::Start(0))));
    assert!(rt; matches!(steps[1].deed, Deed::Happens(Event::Queue { tap: 0, .. })));
    assert!(rt;
        matches!(
            steps[2].deed,
            Deed::Happens(Event::Damage {
                tap: 1,
                speaker: 0,
                place: None
            })
        )
    );
    assert!(rt;
        matches!(
            steps[3].deed,
            Deed::Happens(Event::Damage {
                tap: 1,
                speaker: 0,
                place: Some(2)
            })
        )
    );
    assert!(rt; steps[4].at == 6 && matches!(steps[4].deed, Deed::Happens(Event::Noise(7))));
    assert!(rt;
        matches!(
            steps[5].deed,
            Deed::Happens(Event::Unheard { tap: 1, speaker: 0 })
        )
    );
    assert!(rt; matches!(steps[6].deed, Deed::Withhold { tap: 1, bits: 9 }));
    assert!(rt; matches!(steps[7].deed, Deed::Happens(Event::Stop(0))));
}

/// Each fault of a file has its path, and the first one is reported.
#[test]
fn tells_the_first_fault(rt: HostRuntime) {
    let first = |top: &str| fault_in(&rt, top, SECOND, "");
    equal(&rt, &first(TOP).as_str(), &"");
    equal(&rt, &first("version").as_str(), &"1 NotToml");
    equal(&rt, &first("version = 3").as_str(), &"2 BadVersion");
    equal(&rt, &first("").as_str(), &"3 Missing version");
    equal(&rt, &first("version = true").as_str(), &"4 BadKind version");
    equal(&rt, &first("version = 1").as_str(), &"3 Missing until");
    equal(
        &rt,
        &(first("version = 1\nuntil = \"x\"").as_str()),
        &"4 BadKind until",
    );
    equal(
        &rt,
        &(first("version = 1\nuntil = 0").as_str()),
        &"5 BadValue until",
    );
    equal(
        &rt,
        &(first("version = 1\nuntil = 10000001").as_str()),
        &"5 BadValue until",
    );
    equal(
        &rt,
        &(first("version = 1\nfoo = 1\neoo = 2").as_str()),
        &"6 Unknown eoo",
    );
    let second = |table: &str| fault_in(&rt, TOP, table, "");
    equal(
        &rt,
        &(second("name = \"a\"").as_str()),
        &"7 Twice tap[1].name",
    );
    equal(
        &rt,
        &(second("name = \"a b\"").as_str()),
        &"5 BadValue tap[1].name",
    );
    equal(
        &rt,
        &(second("name = \"b\"\nkinds = 1").as_str()),
        &"6 Unknown tap[1].kinds",
    );
    equal(
        &rt,
        &(second("name = \"b\"\nkind = \"Master\"").as_str()),
        &"5 BadValue tap[1].kind",
    );
    equal(
        &rt,
        &(second("name = \"b\"\nkind = \"master\"\naddress = 256").as_str()),
        &"5 BadValue tap[1].address",
    );
    let step = |lines: &str| fault_in(&rt, TOP, SECOND, lines);
    equal(
        &rt,
        &(step("[[step]]\nat = 0\ndo = \"start\"\ntap = \"z\"").as_str()),
        &"8 NoSuchName step[0].tap",
    );
    let late =
        "[[step]]\nat = 1\ndo = \"noise\"\nbits = 1\n[[step]]\nat = 0\ndo = \"noise\"\nbits = 1";
    equal(&rt, &step(late).as_str(), &"9 StepOrder step[1].at");
    equal(
        &rt,
        &(step("[[step]]\nat = 0\ndo = \"noisy\"").as_str()),
        &"5 BadValue step[0].do",
    );
    let unit =
        "[[step]]\nat = 0\ndo = \"queue\"\ntap = \"a\"\nservice = \"sda\"\nto = 127\nhigh = 1";
    equal(&rt, &step(unit).as_str(), &"5 BadValue step[0].to");
}
/// The events of a run lead to its trace: noise, then the claim of a master whose time-out the noise delayed.
#[test]
fn plays_noise(rt: HostRuntime) {
    let alloc = rt.alloc();
    let steps =
        "[[step]]\nat = 0\ndo = \"start\"\ntap = \"a\"\n[[step]]\nat = 100\ndo = \"noise\"\nbits = 50";
    let text = file(alloc, "version = 1\nuntil = 990", SECOND, steps).expect(&rt, "memory");
    let scenario = read(alloc, text.as_bytes()).expect(&rt, "a scenario");
    let events = events_of(alloc, &scenario).expect(&rt, "a run");
    let mut world = World::new(alloc, *scenario.params(), scenario.taps()).expect(&rt, "a world");
    run(alloc, &mut world, &events).expect(&rt, "events");
    equal(&rt, &world.now().get(), &990);
    equal(&rt, &world.trace().len(), &2);
    let noise = Entry::Noise {
        begin: 100,
        end: 150,
    };
    let shown = trace_text(alloc, &scenario, &[noise]).expect(&rt, "memory");
    assert!(rt; shown.as_slice() == b"100 150 ~ noise\n".as_slice());
}

/// Two masters form a ring on a bus with a cable delay. A delay that is too long is refused.
#[test]
fn plays_with_a_cable_delay(rt: HostRuntime) {
    let alloc = rt.alloc();
    let second = "name = \"b\"\nkind = \"master\"\naddress = 2";
    let steps =
        "[[step]]\nat = 0\ndo = \"start\"\ntap = \"a\"\n[[step]]\nat = 0\ndo = \"start\"\ntap = \"b\"";
    let text = file(alloc, "version = 1\nuntil = 1450", second, steps).expect(&rt, "memory");
    let scenario = read(alloc, text.as_bytes()).expect(&rt, "a scenario");
    let (scenario, fault) = scenario.with_ttd(20).expect_err(&rt, "too long a delay");
    equal(&rt, &fault, &ParamFault::TakeLate);
    equal(&rt, &scenario.params().ttd(), &0);
    let Ok(scenario) = scenario.with_ttd(15) else {
        return;
    };
    let events = events_of(alloc, &scenario).expect(&rt, "a run");
    let mut world = World::new(alloc, *scenario.params(), scenario.taps()).expect(&rt, "a world");
    run(alloc, &mut world, &events).expect(&rt, "events");
    let shown = trace_text(alloc, &scenario, world.trace()).expect(&rt, "memory");
    let expected = "800 833 a dc0101 -w
870 903 a dc0101 -w
940 1006 a 100201494c16 -w
1032 1098 b 100102202316 w-
1150 1183 a dc0201 -w
1235 1301 b 100302494e16 w-
1401 1434 b dc0102 w-
";
    assert!(rt; shown.as_slice() == expected.as_bytes());
    let traced = trace_of(alloc, &scenario).expect(&rt, "a trace");
    equal(&rt, &traced.events, &(events.len() as u64));
    let shown = trace_text(alloc, &scenario, &traced.entries).expect(&rt, "memory");
    assert!(rt; shown.as_slice() == expected.as_bytes());
}

/// The text of the fault of a file, with a version and a line at the end of its bus, or the cable delay that was read.
fn delay_in(rt: &(impl AllocGlobal + Abort), version: u8, line: &str) -> String {
    let alloc = rt.alloc();
    let text = format!(in alloc;
        "version = {version}\nuntil = 9\n{BUS}\n{line}\n[[tap]]\n{SECOND}"
    ).expect(rt, "memory");
    let shown = match read(alloc, text.as_bytes()) {
        Ok(scenario) => format!(in alloc; "{}", scenario.params().ttd()),
        Err(fault) => format!(in alloc; "{} {fault}", fault.number()),
    };
    shown.expect(rt, "memory")
}

/// A file of version 2 has a cable delay, and one of version 1 none.
#[test]
fn version_2_has_a_cable_delay(rt: HostRuntime) {
    let delay = |version: u8, line: &str| delay_in(&rt, version, line);
    equal(&rt, &delay(1, "").as_str(), &"0");
    equal(&rt, &delay(2, "ttd = 0").as_str(), &"0");
    equal(&rt, &delay(2, "ttd = 19").as_str(), &"19");
    equal(&rt, &delay(2, "ttd = 20").as_str(), &"10 Params 9");
    equal(&rt, &delay(2, "").as_str(), &"3 Missing bus.ttd");
    equal(&rt, &delay(1, "ttd = 0").as_str(), &"6 Unknown bus.ttd");
    equal(&rt, &delay(2, "ttd = true").as_str(), &"4 BadKind bus.ttd");
    equal(
        &rt,
        &delay(2, "ttd = 4294967296").as_str(),
        &"5 BadValue bus.ttd",
    );
    equal(&rt, &delay(2, "ttd = -1").as_str(), &"5 BadValue bus.ttd");
    equal(&rt, &delay(3, "ttd = 0").as_str(), &"2 BadVersion");
}

/// How many taps are read from a file with `taps` taps, or the number of the fault.
fn taps_in(
    rt: &(impl AllocGlobal + Abort),
    version: u8,
    line: &str,
    taps: usize,
) -> Result<usize, u8> {
    let alloc = rt.alloc();
    let mut text = format!(in alloc; "version = {version}\nuntil = 9\n{BUS}\n{line}\n").expect(
        rt, "memory",
    );
    for tap in 0..taps {
        write!(
            text,
            "[[tap]]\nname = \"t{tap}\"\nkind = \"passive\"\naddress = 9\n"
        )
        .expect(rt, "memory");
    }
    match read(alloc, text.as_bytes()) {
        Ok(scenario) => Ok(scenario.taps().len()),
        Err(fault) => Err(fault.number()),
    }
}

/// A whole segment of 127 taps fits in a file of version 2, and 32 taps fit in one of version 1.
#[test]
fn a_segment_has_127_taps(rt: HostRuntime) {
    equal(&rt, &taps_in(&rt, 1, "", 32), &Ok(32));
    equal(&rt, &taps_in(&rt, 1, "", 33), &Err(11));
    equal(&rt, &taps_in(&rt, 2, "ttd = 0", 127), &Ok(127));
    equal(&rt, &taps_in(&rt, 2, "ttd = 0", 128), &Err(11));
}

/// Two masters' time-outs end at one clock: one starts later by their difference.
#[test]
fn an_audit_follows_the_run(rt: HostRuntime) {
    let alloc = rt.alloc();
    let second = "name = \"b\"\nkind = \"master\"\naddress = 2";
    let steps =
        "[[step]]\nat = 0\ndo = \"start\"\ntap = \"b\"\n[[step]]\nat = 200\ndo = \"start\"\ntap = \"a\"";
    let text = file(alloc, "version = 1\nuntil = 1100", second, steps).expect(&rt, "memory");
    let scenario = read(alloc, text.as_bytes()).expect(&rt, "a scenario");
    let found = audit_of(alloc, &scenario).expect(&rt, "a run");
    let expected = Audit {
        premise: Some((4, Moment::new(1000).expect(&rt, "a moment"))),
        illegal: Some(1),
    };
    equal(&rt, &found, &expected);
    let events = events_of(alloc, &scenario).expect(&rt, "a run");
    let listed = audit(alloc, *scenario.params(), scenario.taps(), &events).expect(&rt, "an audit");
    equal(&rt, &found, &listed);
}

/// A run ends if a step is refused, and if there is no new world.
#[test]
fn a_run_ends_by_a_fault(rt: HostRuntime) {
    let alloc = rt.alloc();
    let steps = "[[step]]\nat = 100\ndo = \"stop\"\ntap = \"a\"";
    let text = file(alloc, TOP, SECOND, steps).expect(&rt, "memory");
    let scenario = read(alloc, text.as_bytes()).expect(&rt, "a scenario");
    let moment = Moment::new(100).expect(&rt, "a moment");
    let fault = events_of(alloc, &scenario).expect_err(&rt, "a refusal");
    let told = format!(in alloc; "{fault}").expect(&rt, "memory");
    equal(&rt, &told.as_str(), &"NotRunning at 100");
    equal(&rt, &fault, &RunFault::At(moment, WorldFault::NotRunning));
    equal(&rt, &trace_of(alloc, &scenario).err(), &Some(fault));
    let master = "name = \"b\"\nkind = \"master\"\naddress = 6";
    let text = file(alloc, TOP, master, "").expect(&rt, "memory");
    let scenario = read(alloc, text.as_bytes()).expect(&rt, "a scenario");
    let fault = events_of(alloc, &scenario).expect_err(&rt, "no world");
    let told = format!(in alloc; "{fault}").expect(&rt, "memory");
    equal(&rt, &told.as_str(), &"BadAddress 1");
    equal(&rt, &fault, &RunFault::New(NewFault::BadAddress(1)));
    equal(&rt, &trace_of(alloc, &scenario).err(), &Some(fault));
}
