//! Tests of when a ring is settled.

use super::{equal, master, usual};
use pb_world::{DrivenBus, Event};

/// The first of two masters takes the second into its ring. Once the second has had the token, the ring is settled at
/// each moment at which no telegram is on the bus, and before that at none; nor after a stop of the holder.
#[test]
fn a_ring_settles_as_its_second_master_gets_the_token(rt: HostRuntime) {
    let alloc = rt.alloc();
    let specs = [master(1), master(2)];
    let mut bus = DrivenBus::new(alloc, usual(&rt), &specs).expect(&rt, "a bus");
    bus.apply(alloc, &Event::Start(0)).expect(&rt, "a start");
    bus.apply(alloc, &Event::Start(1)).expect(&rt, "a start");
    let mut first = None;
    for moment in 0..3_000 {
        bus.run(alloc, moment).expect(&rt, "a run");
        let trace = bus.bus().trace.entries();
        let quiet = trace.iter().all(|entry| entry.end() <= moment);
        let settled = bus.bus().is_settled();
        if settled && first.is_none() {
            first = Some(moment);
        }
        equal(&rt, &settled, &(first.is_some() && quiet));
    }
    equal(&rt, &first, &Some(1_153));
    bus.apply(alloc, &Event::Stop(0)).expect(&rt, "a stop");
    bus.apply(alloc, &Event::Stop(1)).expect(&rt, "a stop");
    assert!(rt; !bus.bus().is_settled());
}
