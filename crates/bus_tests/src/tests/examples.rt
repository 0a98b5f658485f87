//! The examples of doc comments; `tools/doc-examples` compares the texts.

use arrayvec::ArrayVec;
use pb_scenario::{audit_of, read};
use pb_timers::BusParams;
use pb_world::{DrivenBus, Event, Kind, TapSpec, World, audit, run};

#[test]
fn example_of_apply(rt: HostRuntime) {
    let alloc = rt.alloc();
    let params = BusParams::new(100, 37, 60, 11, 0, 10_000, 10, 5, 1, 0);
    let params = params.expect(&rt, "valid parameters");
    let (address, kind, reply) = (1, Kind::Master, ArrayVec::new());
    let taps = [TapSpec {
        address,
        kind,
        reply,
    }];
    let mut world = World::new(alloc, params, &taps).expect(&rt, "a world");
    world.apply(alloc, Event::Start(0)).expect(&rt, "a start");
    world.apply(alloc, Event::Pass(800)).expect(&rt, "time");
    // after 800 bit times of silence the master claims the token, by a token to itself
    let reply = world.apply(alloc, Event::Turn(0)).expect(&rt, "a turn");
    let claim = reply.spoke.expect(&rt, "a telegram");
    assert_eq!(rt; claim.as_slice(), [0xdc, 1, 1].as_slice());
    assert_eq!(rt; world.trace().len(), 1);
}

#[test]
fn example_of_run(rt: HostRuntime) {
    let alloc = rt.alloc();
    let params = BusParams::new(100, 37, 60, 11, 0, 10_000, 10, 5, 1, 0);
    let params = params.expect(&rt, "valid parameters");
    let (address, kind, reply) = (1, Kind::Master, ArrayVec::new());
    let taps = [TapSpec {
        address,
        kind,
        reply,
    }];
    let mut world = World::new(alloc, params, &taps).expect(&rt, "a world");
    let events = [Event::Start(0), Event::Pass(800), Event::Stop(7)];
    // the third event is refused, since there is no such tap; the others remain applied
    let (place, _fault) = run(alloc, &mut world, &events).expect_err(&rt, "a fault");
    assert_eq!(rt; place, 2);
    assert_eq!(rt; world.now().get(), 800);
}

#[test]
fn example_of_audit(rt: HostRuntime) {
    let alloc = rt.alloc();
    let params = BusParams::new(100, 37, 60, 11, 0, 10_000, 10, 5, 1, 0);
    let params = params.expect(&rt, "valid parameters");
    let (address, kind, reply) = (1, Kind::Master, ArrayVec::new());
    let taps = [TapSpec {
        address,
        kind,
        reply,
    }];
    // the turn is due at 800, and the lag is 0: at 900 it is late, which breaks premise 3
    let events = [Event::Start(0), Event::Pass(900), Event::Turn(0)];
    let found = audit(alloc, params, &taps, &events).expect(&rt, "an audit");
    let (premise, clock) = found.premise.expect(&rt, "a broken premise");
    assert_eq!(rt; (premise, clock.get()), (3, 900));
    assert!(rt; found.illegal.is_none());
}

#[test]
fn example_of_driven_bus(rt: HostRuntime) {
    let alloc = rt.alloc();
    let params = BusParams::new(100, 37, 60, 11, 0, 10_000, 10, 5, 1, 0);
    let params = params.expect(&rt, "valid parameters");
    let (address, kind, reply) = (1, Kind::Master, ArrayVec::new());
    let taps = [TapSpec {
        address,
        kind,
        reply,
    }];
    let mut bus = DrivenBus::new(alloc, params, &taps).expect(&rt, "a bus");
    bus.apply(alloc, &Event::Start(0)).expect(&rt, "a start");
    // a tap that runs does not start; the refused event changes nothing
    bus.apply(alloc, &Event::Start(0))
        .expect_err(&rt, "a fault");
    // after 800 bit times of silence the master claims the token; it is then alone on the bus
    bus.run(alloc, 1_400).expect(&rt, "a run");
    assert_eq!(rt; bus.bus().now.get(), 1_400);
    assert!(rt; bus.judge(alloc).expect(&rt, "memory").premise.is_none());
}

#[test]
fn example_of_scenario(rt: HostRuntime) {
    let file = b"
version = 1
until = 1400
bus = { tsl = 100, tid1 = 37, tid2 = 60, tsdr = 11, lag = 0, ttr = 10000, gap = 10, hsa = 5, retries = 1 }
tap = [{ name = 'a', kind = 'master', address = 1 }]
step = [{ at = 0, do = 'start', tap = 'a' }]
";
    let scenario = read(rt.alloc(), file).expect(&rt, "a scenario");
    assert_eq!(rt; scenario.until(), 1400);
    let found = audit_of(rt.alloc(), &scenario).expect(&rt, "an audit");
    assert!(rt; found.premise.is_none() && found.illegal.is_none());
}
