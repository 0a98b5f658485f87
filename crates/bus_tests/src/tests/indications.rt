//! The requests that stations execute are kept at the taps that are asked for.

use super::{equal, master, replying, usual};
use arrayvec::ArrayVec;
use pb_cycles::{Request, Service};
use pb_world::{DrivenBus, Event, Indication, WorldFault};
use std::alloc::AllocGlobal;
use std::process::Abort;

/// The master at tap 0 asks the slave with the address 3, with an octet, and the bus runs to the moment `until`.
fn ask(rt: &(impl AllocGlobal + Abort), bus: &mut DrivenBus, octet: u8, until: u64) {
    let unit = ArrayVec::try_from([octet].as_slice()).expect(rt, "few octets");
    let request = Request::new(3, Service::Srd, true, unit);
    let request = request.expect(rt, "a request");
    bus.apply(rt.alloc(), &Event::Queue { tap: 0, request })
        .expect(rt, "room");
    bus.run(rt.alloc(), until).expect(rt, "a run");
}

fn octets(indications: Option<&[Indication]>) -> Option<[Option<u8>; 2]> {
    let indications = indications?;
    Some([octet_at(indications, 0), octet_at(indications, 1)])
}

/// The only octet of a request of high priority for data from station 1.
fn octet_at(indications: &[Indication], index: usize) -> Option<u8> {
    let indication = indications.get(index)?;
    let Indication {
        source: 1,
        service: Service::Srd,
        high: true,
        unit,
    } = indication
    else {
        return None;
    };
    unit.first().copied()
}

#[test]
fn the_first_requests_are_kept(rt: HostRuntime) {
    let specs = [master(1), replying(3, 7)];
    let mut bus = DrivenBus::new(rt.alloc(), usual(&rt), &specs).expect(&rt, "a bus");
    for tap in 0..2 {
        bus.apply(rt.alloc(), &Event::Start(tap))
            .expect(&rt, "a start");
    }
    ask(&rt, &mut bus, 10, 4_000);
    equal(&rt, &octets(bus.indications(1)), &None);
    bus.keep_indications(rt.alloc(), 1, 2).expect(&rt, "memory");
    equal(&rt, &octets(bus.indications(1)), &Some([None, None]));
    ask(&rt, &mut bus, 11, 8_000);
    ask(&rt, &mut bus, 12, 12_000);
    ask(&rt, &mut bus, 13, 16_000);
    equal(
        &rt,
        &octets(bus.indications(1)),
        &Some([Some(11), Some(12)]),
    );
    equal(&rt, &octets(bus.indications(0)), &None);
    bus.forget_indications(1);
    bus.forget_indications(0);
    ask(&rt, &mut bus, 14, 20_000);
    equal(&rt, &octets(bus.indications(1)), &Some([Some(14), None]));
    let none = bus.keep_indications(rt.alloc(), 2, 2);
    equal(&rt, &none, &Err(WorldFault::NoSuchTap));
}

/// With an allocation refused, what is kept stays.
#[test]
fn refused_memory_for_requests(rt: HostRuntime) {
    let specs = [master(1), replying(3, 7)];
    let Ok(mut bus) = DrivenBus::new(rt.alloc(), usual(&rt), &specs) else {
        let _ = println!(rt; "refused");
        return;
    };
    if let Err(fault) = bus.keep_indications(rt.alloc(), 1, 2) {
        equal(&rt, &fault, &WorldFault::NoMemory);
        equal(&rt, &octets(bus.indications(1)), &None);
        let _ = println!(rt; "refused");
        bus.keep_indications(rt.alloc(), 1, 2).expect(&rt, "memory");
    }
    equal(&rt, &octets(bus.indications(1)), &Some([None, None]));
}
