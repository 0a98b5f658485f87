//! Calls that allocate, on lists that are empty, full or grow: with ample memory none of them returns `NoMemory`.

use super::{are_same, equal, master, segment, two_masters, usual};
use arrayvec::ArrayVec;
use pb_cycles::{Request, Service};
use pb_station::decide;
use pb_timers::BusParams;
use pb_world::{Event, Reply, World, audit, run};
use std::process::Abort;

/// The turn of a tap, decided outside the world, and taken by an equal world itself: both have the same result.
fn takes_turn(
    rt: &(impl AllocGlobal + Abort),
    world: &mut World,
    other: &mut World,
    tap: usize,
) -> Reply {
    let alloc = rt.alloc();
    if tap >= world.taps() {
        panic!(rt; "no such tap");
    }
    let glance = world.glance_of(alloc, tap).expect(rt, "a glance");
    let decision = decide(alloc, glance).expect(rt, "a decision");
    if !world.fits(&decision) {
        panic!(rt; "it doesn't fit");
    }
    let taken = world.take(alloc, decision).expect(rt, "a turn");
    let turn = other.apply(alloc, Event::Turn(tap)).expect(rt, "a turn");
    equal(rt, &taken, &turn);
    turn
}

/// Two masters, the second with this many unread marks: each noise begins and ends.
fn with_marks(rt: &(impl AllocGlobal + Abort), marks: usize) -> World {
    let alloc = rt.alloc();
    let mut world = two_masters(rt);
    world.apply(alloc, Event::Start(1)).expect(rt, "a start");
    for mark in 0..marks {
        if mark % 2 == 0 {
            world.apply(alloc, Event::Pass(1)).expect(rt, "silence");
            world.apply(alloc, Event::Noise(2)).expect(rt, "noise");
        }
        world.apply(alloc, Event::Pass(1)).expect(rt, "a mark");
    }
    world
}

/// From no unread mark to a full inbox.
#[test]
fn each_number_of_unread_marks(rt: HostRuntime) {
    for marks in 0..=64 {
        let mut world = with_marks(&rt, marks);
        let mut other = with_marks(&rt, marks);
        equal(&rt, &super::unread(&rt, &world, 1), &marks);
        takes_turn(&rt, &mut world, &mut other, 1);
        assert!(rt; are_same(&world, &other), "{marks}");
        equal(&rt, &super::unread(&rt, &world, 1), &0);
    }
}

/// From the lowest address of a master to the highest: each claims the token after six slot times and two more for each
/// address below its own.
#[test]
fn each_address_of_a_master(rt: HostRuntime) {
    let alloc = rt.alloc();
    let params = BusParams::new(100, 37, 60, 11, 0, 10_000, 10, 126, 1, 0).expect(
        &rt,
        "parameters",
    );
    for address in 0..=126u8 {
        let specs = [master(address)];
        let mut world = World::new(alloc, params, &specs).expect(&rt, "a world");
        let mut other = World::new(alloc, params, &specs).expect(&rt, "a world");
        let silence = 600 + 200 * u64::from(address);
        let events = [Event::Start(0), Event::Pass(silence)];
        equal(&rt, &run(alloc, &mut world, &events), &Ok(()));
        equal(&rt, &run(alloc, &mut other, &events), &Ok(()));
        let claim = takes_turn(&rt, &mut world, &mut other, 0);
        let octets = claim.spoke.expect(&rt, "a claim");
        equal(
            &rt,
            &octets.as_slice(),
            &[0xdc, address, address].as_slice(),
        );
    }
}

/// From one tap to 127, all running: the master claims the token, each other tap reads what it heard, and the run is
/// judged.
#[test]
fn each_number_of_taps(rt: HostRuntime) {
    let alloc = rt.alloc();
    for passive in 0..=126 {
        let specs = segment(&rt, passive);
        let mut events = Vec::new(alloc);
        for tap in 0..=passive {
            events.push(Event::Start(tap)).expect(&rt, "memory");
        }
        for event in [Event::Pass(800), Event::Turn(0), Event::Pass(1)] {
            events.push(event).expect(&rt, "memory");
        }
        for tap in 0..=passive {
            events.push(Event::Turn(tap)).expect(&rt, "memory");
        }
        let mut world = World::new(alloc, usual(&rt), &specs).expect(&rt, "a world");
        equal(&rt, &run(alloc, &mut world, &events), &Ok(()));
        equal(&rt, &(world.taps(), world.trace().len()), &(passive + 1, 1));
        let found = audit(alloc, usual(&rt), &specs, &events).expect(&rt, "an audit");
        equal(&rt, &found.illegal, &None);
    }
}

/// From an empty queue to a full one, for each priority.
#[test]
fn each_number_of_requests(rt: HostRuntime) {
    for high in [true, false] {
        for requests in 0..=16 {
            let mut world = with_requests(&rt, high, requests);
            let mut other = with_requests(&rt, high, requests);
            takes_turn(&rt, &mut world, &mut other, 0);
            assert!(rt; are_same(&world, &other), "{requests}");
        }
    }
}

fn with_requests(rt: &(impl AllocGlobal + Abort), high: bool, requests: usize) -> World {
    let alloc = rt.alloc();
    let mut world = two_masters(rt);
    world.apply(alloc, Event::Start(0)).expect(rt, "a start");
    for _ in 0..requests {
        let request = Request::new(7, Service::Srd, high, ArrayVec::new()).expect(rt, "a request");
        let queued = Event::Queue { tap: 0, request };
        world.apply(alloc, queued).expect(rt, "room");
    }
    world.apply(alloc, Event::Pass(800)).expect(rt, "a pass");
    world
}

/// From an empty trace to one that has grown ten times, a telegram after noise finds room.
#[test]
fn each_room_of_a_trace(rt: HostRuntime) {
    let alloc = rt.alloc();
    for power in 0..=10u32 {
        for size in [(1u64 << power) - 1, 1 << power, (1 << power) + 1] {
            let mut world = two_masters(&rt);
            for _ in 0..size {
                world.apply(alloc, Event::Noise(1)).expect(&rt, "noise");
                world.apply(alloc, Event::Pass(1)).expect(&rt, "a pass");
            }
            let events = [Event::Start(0), Event::Pass(800), Event::Turn(0)];
            equal(&rt, &run(alloc, &mut world, &events), &Ok(()));
            equal(&rt, &(world.trace().len() as u64), &(size + 1));
        }
    }
}
