//! Calls with one allocation refused.

use super::{due, equal, master, next_change, phase_name, two_masters, usual};
use pb_world::{AuditFault, Entry, Event, NewFault, World, WorldFault, audit, audit_with_reasons};

/// Two masters form a ring, with one allocation refused: the fault is then `NoMemory`, nothing has changed, and the
/// same event, applied again, has the result that it has with ample memory.
#[test]
fn refused_memory_in_a_world(rt: HostRuntime) {
    let alloc = rt.alloc();
    let mut world = World::new(alloc, usual(&rt), &[master(1), master(2)]).unwrap_or_else(
        |fault| {
            equal(&rt, &fault, &NewFault::NoMemory);
            let _ = println!(rt; "refused");
            two_masters(&rt)
        },
    );
    for event in [
        Event::Start(0),
        Event::Start(1),
        Event::Pass(800),
        Event::Turn(0),
        Event::Pass(1),
        Event::Turn(1),
        Event::Pass(32),
        Event::Turn(1),
        Event::Pass(37),
        Event::Turn(0),
        Event::Pass(1),
        Event::Turn(1),
        Event::Pass(32),
        Event::Turn(1),
        Event::Pass(37),
        Event::Turn(0),
        Event::Pass(1),
        Event::Turn(1),
        Event::Pass(65),
        Event::Turn(1),
        Event::Pass(11),
        Event::Turn(1),
        Event::Pass(1),
        Event::Turn(0),
        Event::Pass(65),
        Event::Turn(0),
        Event::Pass(37),
        Event::Turn(0),
        Event::Pass(1),
        Event::Turn(1),
        Event::Pass(32),
        Event::Turn(1),
        Event::Pass(37),
        Event::Turn(1),
        Event::Pass(1),
        Event::Turn(0),
        Event::Pass(65),
        Event::Turn(0),
        Event::Pass(100),
        Event::Turn(1),
        Event::Pass(1),
        Event::Turn(0),
        Event::Pass(32),
        Event::Turn(0),
        Event::Pass(11),
    ] {
        let before = Seen::of(&world);
        if let Err(fault) = world.apply(alloc, event.copy()) {
            equal(&rt, &fault, &WorldFault::NoMemory);
            equal(&rt, &Seen::of(&world), &before);
            let _ = println!(rt; "refused");
            world.apply(alloc, event).expect(&rt, "an event");
        }
    }
    let begins = [800u64, 870, 940, 1017, 1120, 1190, 1356];
    assert!(rt; world.trace().iter().map(begin_of).eq(begins));
    equal(&rt, &phase_name(&world, 0), &Some("Use"));
    equal(&rt, &phase_name(&world, 1), &Some("Checking"));
}

fn begin_of(entry: &Entry) -> u64 {
    match entry {
        Entry::Sent(record) => record.begin,
        Entry::Noise { begin, .. } => *begin,
    }
}

/// The visible state of a world of two taps.
#[derive(Clone, Copy, Debug, PartialEq, Eq)]
struct Seen {
    now: u64,
    next_change: Option<u64>,
    telegrams: usize,
    dues: [Option<u64>; 2],
    phases: [Option<&'static str>; 2],
}

impl Seen {
    fn of(world: &World) -> Seen {
        Seen {
            now: world.now().get(),
            next_change: next_change(world),
            telegrams: world.trace().len(),
            dues: [due(world, 0), due(world, 1)],
            phases: [phase_name(world, 0), phase_name(world, 1)],
        }
    }
}

/// With one allocation refused, an audit returns what it finds, or `NoMemory`, of the new bus or at the event that
/// needed memory.
#[test]
fn refused_memory_in_an_audit(rt: HostRuntime) {
    let alloc = rt.alloc();
    let events = [Event::Start(0), Event::Pass(800), Event::Turn(0)];
    match audit_with_reasons(alloc, usual(&rt), &[master(1), master(2)], &events) {
        Ok(reasons) => {
            equal(&rt, &reasons.found.premise, &None);
            equal(&rt, &reasons.found.illegal, &None);
        }
        Err(fault) => {
            let of_the_bus = fault == AuditFault::New(NewFault::NoMemory);
            assert!(rt; of_the_bus || fault == AuditFault::At(2, WorldFault::NoMemory));
            let _ = println!(rt; "refused");
            return;
        }
    }
    match audit(alloc, usual(&rt), &[master(1), master(2)], &events) {
        Ok(audit) => {
            equal(&rt, &audit.premise, &None);
            equal(&rt, &audit.illegal, &None);
        }
        Err(fault) => {
            let of_the_bus = fault == AuditFault::New(NewFault::NoMemory);
            assert!(rt; of_the_bus || fault == AuditFault::At(2, WorldFault::NoMemory));
            let _ = println!(rt; "refused");
        }
    }
}
