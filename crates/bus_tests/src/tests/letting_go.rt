//! Tests of a driven bus that lets go of the entries that are over.

use super::{equal, master, usual};
use pb_world::{Audit, DrivenBus, Event, WorldFault};
use std::alloc::AllocGlobal;
use std::process::Abort;

/// A bus of two masters with the addresses 1 and 2 that run.
fn two_running(rt: &(impl AllocGlobal + Abort), limit: usize) -> DrivenBus {
    let specs = [master(1), master(2)];
    let mut bus = DrivenBus::new_within(rt.alloc(), usual(rt), &specs, limit).expect(rt, "a bus");
    for tap in 0..2 {
        bus.apply(rt.alloc(), &Event::Start(tap))
            .expect(rt, "a start");
    }
    bus
}

fn entries(bus: &DrivenBus) -> usize {
    bus.bus().trace.entries().len()
}

/// What is let go is missing in the trace, and an audit and the run are as they would be with it.
#[test]
fn a_run_goes_on_without_what_is_over(rt: HostRuntime) {
    let mut whole = two_running(&rt, 100_000);
    let mut bus = two_running(&rt, 100_000);
    let mut gone = 0;
    for step in 1..21 {
        whole.run(rt.alloc(), step * 500).expect(&rt, "a run");
        bus.run(rt.alloc(), step * 500).expect(&rt, "a run");
        let over = bus.past().len();
        equal(&rt, &bus.let_go(rt.alloc()), &Ok(over));
        equal(&rt, &bus.past().len(), &0);
        gone = over.saturating_add(gone);
        equal(&rt, &entries(&bus).saturating_add(gone), &entries(&whole));
    }
    assert!(rt; gone > 50);
    equal(&rt, &bus.judge(rt.alloc()), &whole.judge(rt.alloc()));
}

/// The second station loses the first claim, and claims the token itself: the record with the index 1, whether what came
/// before it was let go or not.
#[test]
fn an_audit_still_knows_what_was_let_go(rt: HostRuntime) {
    let mut bus = two_running(&rt, 100_000);
    let lost = Event::Unheard { tap: 1, speaker: 0 };
    bus.apply(rt.alloc(), &Event::Pass(800))
        .expect(&rt, "a pass");
    bus.apply(rt.alloc(), &Event::Turn(0))
        .expect(&rt, "a claim");
    bus.apply(rt.alloc(), &lost).expect(&rt, "a loss");
    bus.apply(rt.alloc(), &Event::Stop(0)).expect(&rt, "a stop");
    bus.run(rt.alloc(), 990).expect(&rt, "a run");
    equal(&rt, &bus.let_go(rt.alloc()), &Ok(1));
    equal(&rt, &entries(&bus), &0);
    bus.run(rt.alloc(), 1_000).expect(&rt, "a run");
    equal(&rt, &entries(&bus), &1);
    let found = bus.judge(rt.alloc()).expect(&rt, "memory");
    equal(&rt, &found.illegal, &Some(1));
    assert!(rt; matches!(found.premise, Some((2, _))));
}

/// The number of entries is that of the whole run, those that were let go included.
#[test]
fn a_bus_ends_after_its_number_of_entries(rt: HostRuntime) {
    let mut bus = two_running(&rt, 10);
    bus.run(rt.alloc(), 1_200).expect(&rt, "a run");
    let gone = bus.let_go(rt.alloc()).expect(&rt, "memory");
    assert!(rt; gone > 2);
    equal(
        &rt,
        &bus.run(rt.alloc(), 100_000),
        &Err(WorldFault::TraceFull),
    );
    equal(&rt, &entries(&bus).saturating_add(gone), &10);
}

/// A ring of two says more than 5,000 telegrams in 400,000 bit times; few of them are kept at any time.
#[test]
fn a_long_run_keeps_few_entries(rt: HostRuntime) {
    let mut bus = two_running(&rt, 1_000_000_000_000);
    let mut gone = 0;
    for step in 1..41 {
        bus.run(rt.alloc(), step * 10_000).expect(&rt, "a run");
        assert!(rt; entries(&bus) < 200);
        let over = bus.let_go(rt.alloc()).expect(&rt, "memory");
        gone = over.saturating_add(gone);
    }
    assert!(rt; gone > 5_000);
    let none = Audit {
        premise: None,
        illegal: None,
    };
    equal(&rt, &bus.judge(rt.alloc()), &Ok(none));
}

/// With an allocation refused, nothing is let go, and nothing else changes.
#[test]
fn refused_memory_for_letting_go(rt: HostRuntime) {
    let specs = [master(1), master(2)];
    let Ok(mut bus) = DrivenBus::new(rt.alloc(), usual(&rt), &specs) else {
        let _ = println!(rt; "refused");
        return;
    };
    bus.apply(rt.alloc(), &Event::Start(0))
        .expect(&rt, "a start");
    if bus.run(rt.alloc(), 5_000).is_err() {
        let _ = println!(rt; "refused");
        return;
    }
    let (all, over) = (entries(&bus), bus.past().len());
    if bus.let_go(rt.alloc()).is_err() {
        equal(&rt, &(entries(&bus), bus.past().len()), &(all, over));
        let _ = println!(rt; "refused");
        equal(&rt, &bus.let_go(rt.alloc()), &Ok(over));
    }
    equal(&rt, &entries(&bus), &all.saturating_sub(over));
    if bus.judge(rt.alloc()).is_err() {
        let _ = println!(rt; "refused");
        assert!(rt; bus.judge(rt.alloc()).is_ok());
    }
}
