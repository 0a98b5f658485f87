//! Tests of the longest stretches without a token and without noise.

use super::{equal, master, usual};
use arrayvec::ArrayVec;
use pb_cycles::{Request, Service};
use pb_timers::BusParams;
use pb_world::{
    AuditFault, Event, Kind, NewFault, Stretch, TapSpec, WorldFault, liveness, longest_without,
};
use std::process::Abort;

/// A lone master claims the token after its time-out of 800; until then there is no token. Its bound is 9999 for the
/// target rotation time, 11492 and 11455 for the cycles, and the time-out. Another master that never runs has no
/// stretch.
#[test]
fn a_master_waits_for_its_time_out(rt: HostRuntime) {
    let events = [
        Event::Start(0),
        Event::Pass(800),
        Event::Turn(0),
        Event::Pass(33),
    ];
    let found = liveness(rt.alloc(), usual(&rt), &[master(1), master(2)], &events);
    let found = found.expect(&rt, "stretches");
    let stretch = Stretch {
        begin: 0,
        length: 800,
        bound: 33746,
    };
    equal(&rt, &found.longest_at(0), &Some(stretch));
    equal(&rt, &found.longest_at(1), &None);
    equal(&rt, &found.longest_at(2), &None);
    equal(&rt, &longest_without(&usual(&rt), 1), &33746);
}

/// Noise ends a stretch, and so does a stop. Of two stretches of equal length the first is returned. A passive tap has
/// none.
#[test]
fn noise_and_a_stop_end_a_stretch(rt: HostRuntime) {
    let events = [
        Event::Start(0),
        Event::Start(1),
        Event::Pass(300),
        Event::Noise(50),
        Event::Pass(50),
        Event::Pass(300),
        Event::Stop(0),
        Event::Pass(500),
    ];
    let taps = [master(1), answering(9)];
    let found = liveness(rt.alloc(), usual(&rt), &taps, &events).expect(&rt, "stretches");
    let stretch = Stretch {
        begin: 0,
        length: 300,
        bound: 33746,
    };
    equal(&rt, &found.longest_at(0), &Some(stretch));
    equal(&rt, &found.longest_at(1), &None);
}

/// The second of three masters holds the token for as long as it may, and stops. The third has then been without a
/// token for exactly its bound: 256 for the target rotation time, 6165 and 5909 for the two cycles, a time-out of 3000,
/// the lag of 20 and the cable delay of 10.
#[test]
fn the_bound_is_reached(rt: HostRuntime) {
    let params = BusParams::new(300, 236, 236, 259, 20, 257, 100, 2, 0, 10);
    let taps = [master(0), master(1), master(2), answering(100)];
    let events = [
        Event::Start(0),
        Event::Start(1),
        Event::Start(2),
        Event::Start(3),
        Event::Pass(1800),
        Event::Turn(0),
        Event::Pass(11),
        Event::Turn(1),
        Event::Turn(2),
        Event::Turn(3),
        Event::Pass(22),
        Event::Pass(10),
        Event::Turn(1),
        Event::Turn(2),
        Event::Turn(3),
        Event::Pass(226),
        Event::Turn(0),
        Event::Pass(11),
        Event::Turn(1),
        Event::Turn(2),
        Event::Turn(3),
        Event::Pass(22),
        Event::Pass(10),
        Event::Turn(1),
        Event::Turn(2),
        Event::Turn(3),
        Event::Pass(226),
        Event::Turn(0),
        Event::Pass(11),
        Event::Turn(1),
        Event::Turn(2),
        Event::Turn(3),
        Event::Pass(55),
        Event::Pass(10),
        Event::Turn(1),
        Event::Turn(2),
        Event::Turn(3),
        Event::Pass(259),
        Event::Turn(1),
        Event::Pass(11),
        Event::Turn(0),
        Event::Turn(2),
        Event::Turn(3),
        Event::Pass(55),
        Event::Pass(10),
        Event::Turn(0),
        Event::Turn(2),
        Event::Turn(3),
        Event::Pass(236),
        Event::Turn(0),
        Event::Pass(11),
        Event::Turn(1),
        Event::Turn(2),
        Event::Turn(3),
        Event::Pass(22),
        Event::Stop(0),
        Event::Queue {
            tap: 1,
            request: longest_request(&rt, false),
        },
        Event::Pass(10),
        Event::Turn(1),
        Event::Turn(2),
        Event::Turn(3),
        Event::Pass(256),
        Event::Turn(1),
        Event::Pass(11),
        Event::Turn(2),
        Event::Turn(3),
        Event::Pass(705),
        Event::Queue {
            tap: 1,
            request: longest_request(&rt, true),
        },
        Event::Pass(2089),
        Event::Pass(10),
        Event::Turn(2),
        Event::Turn(3),
        Event::Pass(279),
        Event::Turn(3),
        Event::Pass(11),
        Event::Turn(1),
        Event::Turn(2),
        Event::Pass(2794),
        Event::Pass(10),
        Event::Turn(1),
        Event::Turn(2),
        Event::Pass(256),
        Event::Turn(1),
        Event::Pass(11),
        Event::Turn(2),
        Event::Turn(3),
        Event::Pass(2794),
        Event::Pass(10),
        Event::Turn(2),
        Event::Turn(3),
        Event::Pass(279),
        Event::Turn(3),
        Event::Pass(11),
        Event::Turn(1),
        Event::Turn(2),
        Event::Pass(2794),
        Event::Stop(1),
        Event::Pass(10),
        Event::Turn(2),
        Event::Pass(3020),
    ];
    let params = params.expect(&rt, "parameters");
    let found = liveness(rt.alloc(), params, &taps, &events).expect(&rt, "stretches");
    let stretch = Stretch {
        begin: 3018,
        length: 15360,
        bound: 15360,
    };
    equal(&rt, &found.longest_at(2), &Some(stretch));
}

/// A refused event is reported by its index; a refused bus is reported too.
#[test]
fn what_is_refused_has_no_stretches(rt: HostRuntime) {
    let events = [Event::Start(0), Event::Pass(0)];
    let zero = liveness(rt.alloc(), usual(&rt), &[master(1)], &events);
    equal(
        &rt,
        &zero.err(),
        &Some(AuditFault::At(1, WorldFault::ZeroTime)),
    );
    let none = liveness(rt.alloc(), usual(&rt), &[], &events);
    equal(&rt, &none.err(), &Some(AuditFault::New(NewFault::NoTaps)));
}

/// With one allocation refused, the result is the stretches or `NoMemory`, of the new bus or at the event that needed
/// memory.
#[test]
fn refused_memory_in_liveness(rt: HostRuntime) {
    let events = [Event::Start(0), Event::Pass(800), Event::Turn(0)];
    match liveness(rt.alloc(), usual(&rt), &[master(1), master(2)], &events) {
        Ok(found) => {
            let stretch = Stretch {
                begin: 0,
                length: 800,
                bound: 33746,
            };
            equal(&rt, &found.longest_at(0), &Some(stretch));
        }
        Err(fault) => {
            let of_the_bus = fault == AuditFault::New(NewFault::NoMemory);
            assert!(rt; of_the_bus || fault == AuditFault::At(2, WorldFault::NoMemory));
            let _ = println!(rt; "refused");
        }
    }
}

/// A passive station that replies with as many octets as possible.
fn answering(address: u8) -> TapSpec {
    let mut reply = ArrayVec::new();
    for _ in 0..246 {
        let _ = reply.try_push(0xaa);
    }
    TapSpec {
        address,
        kind: Kind::Passive,
        reply,
    }
}

/// A request to station 100 for data, with as many octets as possible.
fn longest_request(rt: &impl Abort, high: bool) -> Request {
    let mut unit = ArrayVec::new();
    for _ in 0..246 {
        let _ = unit.try_push(0x55);
    }
    Request::new(100, Service::Srd, high, unit).expect(rt, "a request")
}
