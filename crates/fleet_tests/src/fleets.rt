//! Tests of fleets: what no contract states about workers in threads, and about the faults that end them.

use pb_fleet::{FleetFault, Gate, run_fleet};
use pb_scenario::{Scenario, read};
use pb_segment::{CommitFault, Entry, NewFault, WorldFault};
use std::alloc::{AllocError, Global};
use std::process::Abort;
use std::sync::Wait;
use std::sync::atomic::{AtomicBool, AtomicUsize, Ordering};
use std::thread::Threads;

/// Two masters that start at 0, up to 1,400.
const TWO_MASTERS: &str = "version = 1
until = 1400
bus = { tsl = 100, tid1 = 37, tid2 = 60, tsdr = 11, lag = 0, ttr = 10000, gap = 10, hsa = 5, retries = 1 }
tap = [{ name = 'a', kind = 'master', address = 1 }, { name = 'b', kind = 'master', address = 2 }]
step = [{ at = 0, do = 'start', tap = 'a' }, { at = 0, do = 'start', tap = 'b' }]
";

/// The same scenario; at 950 tap `b` is to receive its own telegram damaged, which is refused.
const OWN_DAMAGE: &str = "version = 1
until = 1400
bus = { tsl = 100, tid1 = 37, tid2 = 60, tsdr = 11, lag = 0, ttr = 10000, gap = 10, hsa = 5, retries = 1 }
tap = [{ name = 'a', kind = 'master', address = 1 }, { name = 'b', kind = 'master', address = 2 }]
step = [{ at = 0, do = 'start', tap = 'a' }, { at = 0, do = 'start', tap = 'b' },
        { at = 950, do = 'damage', tap = 'b', speaker = 'b', place = 0 }]
";

/// Three masters that start at 0; at 801 the second and the third are due.
const THREE_MASTERS: &str = "version = 1
until = 840
bus = { tsl = 100, tid1 = 37, tid2 = 60, tsdr = 11, lag = 0, ttr = 10000, gap = 10, hsa = 5, retries = 1 }
tap = [{ name = 'a', kind = 'master', address = 1 }, { name = 'b', kind = 'master', address = 2 },
       { name = 'c', kind = 'master', address = 3 }]
step = [{ at = 0, do = 'start', tap = 'a' }, { at = 0, do = 'start', tap = 'b' },
        { at = 0, do = 'start', tap = 'c' }]
";

/// The same three masters up to 100,000, with thousands of events.
const LONG: &str = "version = 1
until = 100000
bus = { tsl = 100, tid1 = 37, tid2 = 60, tsdr = 11, lag = 0, ttr = 10000, gap = 10, hsa = 5, retries = 1 }
tap = [{ name = 'a', kind = 'master', address = 1 }, { name = 'b', kind = 'master', address = 2 },
       { name = 'c', kind = 'master', address = 3 }]
step = [{ at = 0, do = 'start', tap = 'a' }, { at = 0, do = 'start', tap = 'b' },
        { at = 0, do = 'start', tap = 'c' }]
";

/// No taps.
const NO_TAPS: &str = "version = 1
until = 10
bus = { tsl = 100, tid1 = 37, tid2 = 60, tsdr = 11, lag = 0, ttr = 10000, gap = 10, hsa = 5, retries = 1 }
tap = []
";

/// Lets every tap through.
#[derive(Drop)]
struct Open;

impl Gate for Open {
    fn between(&self, _tap: usize) -> bool {
        true
    }
}

/// Needs no question: its turns are taken at once.
#[derive(Drop)]
struct Wide;

impl Gate for Wide {
    fn between(&self, _tap: usize) -> bool {
        false
    }

    fn is_open(&self) -> bool {
        true
    }
}

/// Stops one tap.
#[derive(Drop)]
struct Shut(usize);

impl Gate for Shut {
    fn between(&self, tap: usize) -> bool {
        tap != self.0
    }
}

/// Lets only the first tap through.
#[derive(Drop)]
struct First;

impl Gate for First {
    fn between(&self, tap: usize) -> bool {
        tap == 0
    }
}

/// Holds tap 1 until tap 2 has come, for a limited time.
#[derive(Drop)]
struct Meeting {
    has_come: AtomicBool,
}

impl Gate for Meeting {
    fn between(&self, tap: usize) -> bool {
        if tap == 2 {
            self.has_come.store(true, Ordering::SeqCst);
        }
        tap != 1 || self.comes()
    }
}

impl Meeting {
    fn comes(&self) -> bool {
        for _ in 0..1_000_000_000u64 {
            if self.has_come.load(Ordering::SeqCst) {
                return true;
            }
        }
        false
    }
}

fn scenario(rt: &impl Abort, alloc: Global, text: &str) -> Scenario {
    read(alloc, text.as_bytes()).expect(rt, "a scenario")
}

fn begin_of(entry: &Entry) -> u64 {
    match entry {
        Entry::Sent(record) => record.begin,
        Entry::Noise { begin, .. } => *begin,
    }
}

#[test]
fn example_of_run_fleet(rt: HostRuntime) {
    // `Open` is a gate that lets every turn through
    let scenario = read(rt.alloc(), TWO_MASTERS.as_bytes()).expect(&rt, "a scenario");
    for workers in [1, 4] {
        let report = run_fleet(&rt, rt.alloc(), &scenario, workers, &Open).expect(&rt, "a report");
        assert_eq!(rt; report.trace().len(), 7);
    }
}

/// The trace is that of one thread, for each number of workers. Numbers other than 1 to 64 are refused.
#[test]
fn plays_with_any_number_of_workers(rt: HostRuntime) {
    let alloc = rt.alloc();
    let scenario = scenario(&rt, alloc, TWO_MASTERS);
    for workers in [1, 2, 8] {
        let report = run_fleet(&rt, alloc, &scenario, workers, &Open).expect(&rt, "a report");
        let begins = [800u64, 870, 940, 1017, 1120, 1190, 1356];
        assert!(rt; report.trace().iter().map(begin_of).eq(begins), "{workers}");
        let report = run_fleet(&rt, alloc, &scenario, workers, &Wide).expect(&rt, "a report");
        assert!(rt; report.trace().iter().map(begin_of).eq(begins), "{workers}");
    }
    for workers in [0, 65] {
        let fault = run_fleet(&rt, alloc, &scenario, workers, &Open).err();
        assert_eq!(rt; fault, Some(FleetFault::BadWorkers));
    }
}

/// The history of a long run is compared by one worker, two or three, with the same result.
#[test]
fn goes_over_a_long_run_with_any_number_of_workers(rt: HostRuntime) {
    let alloc = rt.alloc();
    let scenario = scenario(&rt, alloc, LONG);
    let alone = run_fleet(&rt, alloc, &scenario, 1, &Open).expect(&rt, "a report");
    assert!(rt; alone.history().len() > 4096);
    for workers in [2, 3] {
        let report = run_fleet(&rt, alloc, &scenario, workers, &Open).expect(&rt, "a report");
        let begins = alone.trace().iter().map(begin_of);
        assert!(rt; report.trace().iter().map(begin_of).eq(begins), "{workers}");
        assert_eq!(rt; report.history().len(), alone.history().len());
    }
}

/// The faults of a gate, of a step and of a new world.
#[test]
fn names_what_stops_it(rt: HostRuntime) {
    let alloc = rt.alloc();
    let fault_of = |text: &str, gate: &Shut| {
        run_fleet(&rt, alloc, &scenario(&rt, alloc, text), 2, gate).err()
    };
    let closed = Some(FleetFault::GateClosed(1));
    assert_eq!(rt; fault_of(TWO_MASTERS, &Shut(1)), closed);
    let damage = Some(FleetFault::Drive {
        now: 950,
        fault: CommitFault::World(WorldFault::NothingInAir),
    });
    assert_eq!(rt; fault_of(OWN_DAMAGE, &Shut(9)), damage);
    let no_taps = Some(FleetFault::New(NewFault::NoTaps));
    assert_eq!(rt; fault_of(NO_TAPS, &Shut(9)), no_taps);
}

/// Of two taps that the gate stops in one instant, the first one is reported, whichever came first.
#[test]
fn tells_the_least_tap(rt: HostRuntime) {
    let alloc = rt.alloc();
    let scenario = scenario(&rt, alloc, THREE_MASTERS);
    for workers in [1, 3] {
        let fault = run_fleet(&rt, alloc, &scenario, workers, &First).err();
        assert_eq!(rt; fault, Some(FleetFault::GateClosed(1)), "{workers}");
    }
}

/// Two taps that are due in one instant are decided concurrently.
#[test]
fn workers_run_side_by_side(rt: HostRuntime) {
    let alloc = rt.alloc();
    let scenario = scenario(&rt, alloc, THREE_MASTERS);
    for workers in [3, 2] {
        let gate = Meeting {
            has_come: AtomicBool::new(false),
        };
        let report = run_fleet(&rt, alloc, &scenario, workers, &gate);
        assert!(rt; report.is_ok(), "{workers}");
    }
}

/// With as many taps as fill words of eight and lists, and one more or fewer, the trace is that of the only master.
/// Memory is ample, no call returns `NoMemory`, and all helpers end.
#[test]
fn plays_with_any_number_of_taps(rt: HostRuntime) {
    for taps in [1, 7, 8, 9, 15, 16, 17, 31, 33, 63, 65, 127] {
        plays(&rt, taps, 2);
    }
    for taps in [4, 9, 64] {
        plays(&rt, taps, taps);
    }
}

/// A segment of this many taps is played by some workers.
fn plays<R: AllocGlobal + Abort + Threads + Wait + Sync>(rt: &R, taps: usize, workers: usize) {
    let alloc = rt.alloc();
    let text = segment(rt, taps);
    let scenario = scenario(rt, alloc, text.as_str());
    let report = run_fleet(rt, alloc, &scenario, workers, &Open).expect(rt, "a report");
    let begins = [800u64, 870, 940];
    assert!(rt; report.trace().iter().map(begin_of).eq(begins), "{taps}");
}

/// A file with a master and passive stations, this many taps in all, which start at 0 and run to 1,000.
fn segment(rt: &(impl AllocGlobal + Abort), taps: usize) -> String {
    let mut tables = String::new(rt.alloc());
    for tap in 0..taps {
        let kind = if tap == 0 { "master" } else { "passive" };
        write!(
            tables,
            "[[tap]]\nname = 't{tap}'\nkind = '{kind}'\naddress = 1\n[[step]]\nat = 0\ndo = 'start'\ntap = 't{tap}'\n"
        )
        .expect(rt, "memory");
    }
    format!(in rt.alloc();
        "version = 2
until = 1000
bus = {{ tsl = 100, tid1 = 37, tid2 = 60, tsdr = 11, lag = 0, ttr = 10000, gap = 10, hsa = 5, retries = 1, ttd = 0 }}
{tables}"
    )
    .expect(rt, "memory")
}

/// Of two turns in one instant the first waits for the second, and one of them is stopped. One of the workers is the
/// conductor, so the other is a helper.
#[derive(Drop)]
struct Ambush {
    come: AtomicUsize,
    refused: usize,
}

impl Gate for Ambush {
    fn between(&self, tap: usize) -> bool {
        if tap == 0 {
            return true;
        }
        let place = self.come.fetch_add(1, Ordering::SeqCst);
        for _ in 0..1_000_000_000u64 {
            if self.come.load(Ordering::SeqCst) > 1 {
                break;
            }
        }
        place != self.refused
    }
}

/// The fault of a turn is reported, whether the conductor or a helper had it.
#[test]
fn tells_the_fault_of_a_helper(rt: HostRuntime) {
    let alloc = rt.alloc();
    let scenario = scenario(&rt, alloc, THREE_MASTERS);
    for refused in [0, 1] {
        let gate = Ambush {
            come: AtomicUsize::new(0),
            refused,
        };
        let fault = run_fleet(&rt, alloc, &scenario, 2, &gate).err();
        assert!(rt;
            matches!(fault, Some(FleetFault::GateClosed(1 | 2))),
            "{refused}"
        );
    }
}

/// Lets every tap through, and records which have come.
#[derive(Drop)]
struct Seen {
    taps: [AtomicBool; 2],
}

impl Gate for Seen {
    fn between(&self, tap: usize) -> bool {
        if let Some(seen) = self.taps.get(tap) {
            seen.store(true, Ordering::SeqCst);
        }
        true
    }
}

impl Seen {
    fn has_seen(&self, tap: usize) -> bool {
        match self.taps.get(tap) {
            Some(seen) => seen.load(Ordering::SeqCst),
            None => false,
        }
    }

    /// The number of a fault from refused memory: 2 in a commit, which comes after the gate; 3 in a drive; 5 for a
    /// thread, if there are helpers; 7 anywhere else. `None` for any other fault.
    fn number(&self, fault: FleetFault, workers: usize) -> Option<u8> {
        const REFUSED: CommitFault = CommitFault::World(WorldFault::NoMemory);
        match fault {
            FleetFault::Commit { tap, now, fault } => {
                let is_behind = self.has_seen(tap) && now >= 800;
                (fault == REFUSED && is_behind).then_some(2)
            }
            FleetFault::Drive { fault, .. } => (fault == REFUSED).then_some(3),
            FleetFault::NoThread => (workers > 1).then_some(5),
            FleetFault::NoMemory => Some(7),
            _ => None,
        }
    }
}

/// With one allocation refused, a fleet plays or returns a fault from refused memory.
#[test]
fn refused_memory_in_a_fleet_of_one(rt: HostRuntime) {
    is_refused_or_plays(&rt, 1);
}

#[test]
fn refused_memory_in_a_fleet_of_two(rt: HostRuntime) {
    is_refused_or_plays(&rt, 2);
}

fn is_refused_or_plays<R: AllocGlobal + Abort + Print + Threads + Wait + Sync>(
    rt: &R,
    workers: usize,
) {
    let alloc = rt.alloc();
    let Ok(scenario) = read(alloc, TWO_MASTERS.as_bytes()) else {
        let _ = println!(rt; "refused");
        return;
    };
    let gate = Seen {
        taps: [AtomicBool::new(false), AtomicBool::new(false)],
    };
    match run_fleet(rt, alloc, &scenario, workers, &gate) {
        Ok(report) => {
            let begins = [800u64, 870, 940, 1017, 1120, 1190, 1356];
            assert!(rt; report.trace().iter().map(begin_of).eq(begins));
        }
        Err(fault) => {
            assert!(rt; gate.number(fault, workers).is_some(), "{fault}");
            let _ = println!(rt; "refused");
        }
    }
}
