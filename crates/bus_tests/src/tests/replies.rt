//! The data with which a tap replies change between the events of a run.

use super::{equal, master, replying, usual};
use arrayvec::ArrayVec;
use pb_cycles::{Outcome, Request, Service};
use pb_world::{DrivenBus, Event, World, WorldFault};
use std::alloc::AllocGlobal;
use std::process::Abort;

/// What a request for data of the master at tap 0 brings by the moment `until`.
fn asked(rt: &(impl AllocGlobal + Abort), bus: &mut DrivenBus, until: u64) -> Option<Outcome> {
    let request = Request::new(3, Service::Srd, false, ArrayVec::new());
    let request = request.expect(rt, "a request");
    bus.apply(rt.alloc(), &Event::Queue { tap: 0, request })
        .expect(rt, "room");
    bus.run(rt.alloc(), until).expect(rt, "a run");
    let (_of, outcome) = bus.bus().station(0)?.last_outcome()?;
    Some(outcome)
}

fn data(octets: &[u8], rt: &impl Abort) -> Option<Outcome> {
    let unit = ArrayVec::try_from(octets).expect(rt, "few octets");
    Some(Outcome::Data(unit))
}

#[test]
fn a_slave_replies_with_the_data_that_it_has_then(rt: HostRuntime) {
    let specs = [master(1), replying(3, 7)];
    let mut bus = DrivenBus::new(rt.alloc(), usual(&rt), &specs).expect(&rt, "a bus");
    for tap in 0..2 {
        bus.apply(rt.alloc(), &Event::Start(tap))
            .expect(&rt, "a start");
    }
    equal(&rt, &asked(&rt, &mut bus, 4_000), &data(&[7], &rt));
    let other = ArrayVec::try_from([8, 9].as_slice()).expect(&rt, "few octets");
    bus.set_reply(1, other).expect(&rt, "a tap");
    equal(&rt, &asked(&rt, &mut bus, 8_000), &data(&[8, 9], &rt));
    equal(
        &rt,
        &bus.set_reply(2, ArrayVec::new()),
        &Err(WorldFault::NoSuchTap),
    );
}

#[test]
fn a_world_changes_the_data_of_a_tap(rt: HostRuntime) {
    let mut world = World::new(rt.alloc(), usual(&rt), &[replying(3, 7)]).expect(&rt, "a world");
    let other = ArrayVec::try_from([8].as_slice()).expect(&rt, "few octets");
    world.set_reply(0, other).expect(&rt, "a tap");
    let station = world.station(0).expect(&rt, "a station");
    assert_eq!(rt; station.reply_data(), [8].as_slice());
    equal(
        &rt,
        &world.set_reply(1, ArrayVec::new()),
        &Err(WorldFault::NoSuchTap),
    );
}
