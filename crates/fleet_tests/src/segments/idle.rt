//! Turns that have nothing to do, in a world and through a segment. bench/world measures the cost of one, by the
//! difference between a thousand and two thousand.

ghost use Rattle.std.specs.Prelude.{◌≡◌, ◌+◌, length};
ghost use Rattle.pb_segment.specs.Origins.{IsNew};

use super::{equal, takes_turns, two_masters};
use pb_segment::SharedSegment;
use pb_world::{Event, World};
use std::marker::Brand;
use std::process::Abort;
use std::sync::Wait;
use std::sync::ledger::{Blank, Ledger};

/// Turns of a master that has claimed the token, while its telegram is on the bus.
fn in_a_world(rt: &(impl AllocGlobal + Abort), turns: usize) {
    let alloc = rt.alloc();
    let mut world = two_masters(rt);
    for event in [
        Event::Start(0),
        Event::Start(1),
        Event::Pass(800),
        Event::Turn(0),
        Event::Pass(10),
    ] {
        world.apply(alloc, event).expect(rt, "an event");
    }
    for _ in 0..turns {
        assert!(rt; world.apply(alloc, Event::Turn(0)).is_ok());
    }
    equal(rt, &world.trace().len(), &1);
}

/// The same turns by glance, decision and commit.
fn through_a_segment<L: Ledger, R: AllocGlobal + Abort + Wait>(
    rt: &R,
    blank: Blank,
    world: World,
    turns: usize,
)
    requires name { blank.name ≡ L.name }
    requires parts { blank.parts ≡ L.parts }
    requires one_each { blank.parts ≡ length world.taps + 1 }
    requires new { IsNew world }
{
    let alloc = rt.alloc();
    let (segment, mut conductor, mut seats) = SharedSegment::<L>::new(alloc, blank, world).expect(
        rt,
        "a segment",
    );
    for event in [Event::Start(0), Event::Start(1), Event::Pass(800)] {
        segment
            .drive(rt, alloc, &mut conductor, event)
            .expect(rt, "an event");
    }
    let last = seats.pop().expect(rt, "the second seat");
    let first = seats.pop().expect(rt, "the first seat");
    let first = takes_turns(rt, &segment, first, 1);
    segment
        .drive(rt, alloc, &mut conductor, Event::Pass(10))
        .expect(rt, "an event");
    let first = takes_turns(rt, &segment, first, turns);
    seats.push(first).expect(rt, "room");
    seats.push(last).expect(rt, "room");
    let Ok(report) = segment.close(conductor, seats) else {
        panic!(rt; "not closed");
    };
    equal(rt, &report.trace().len(), &1);
    equal(rt, &report.history().len(), &turns.saturating_add(5));
}

#[test]
fn a_thousand_in_a_world(rt: HostRuntime) {
    in_a_world(&rt, 1000);
}

#[test]
fn two_thousand_in_a_world(rt: HostRuntime) {
    in_a_world(&rt, 2000);
}

#[test]
fn a_thousand_through_a_segment(rt: HostRuntime) {
    let world = two_masters(&rt);
    let blank = Blank::new(world.taps() as u64 + 1);
    through_a_segment::<Brand, HostRuntime>(&rt, blank, world, 1000);
}

#[test]
fn two_thousand_through_a_segment(rt: HostRuntime) {
    let world = two_masters(&rt);
    let blank = Blank::new(world.taps() as u64 + 1);
    through_a_segment::<Brand, HostRuntime>(&rt, blank, world, 2000);
}
