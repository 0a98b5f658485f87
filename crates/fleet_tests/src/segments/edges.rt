//! Segments of each number of taps: with ample memory no call returns `NoMemory`.

ghost use Rattle.std.specs.Prelude.{◌≡◌, ◌+◌, length};
ghost use Rattle.pb_segment.specs.Origins.{IsNew};

use super::{equal, master, takes_turns, usual};
use pb_segment::SharedSegment;
use pb_world::{Event, World};
use std::marker::Brand;
use std::process::Abort;
use std::sync::Wait;
use std::sync::ledger::{Blank, Ledger};

/// Masters with one address, at `taps` taps. A world needs at least one tap.
fn masters(rt: &(impl AllocGlobal + Abort), taps: usize) -> World
    ensures new { IsNew result }
{
    let mut specs = Vec::new(rt.alloc());
    for _ in 0..taps {
        specs.push(master(1)).expect(rt, "memory");
    }
    World::new(rt.alloc(), usual(rt), &specs).expect(rt, "a world")
}

/// All taps start, time passes to the claim, each takes a turn, and the segment is closed.
fn of_taps<L: Ledger, R: AllocGlobal + Abort + Wait>(rt: &R, blank: Blank, world: World)
    requires name { blank.name ≡ L.name }
    requires parts { blank.parts ≡ L.parts }
    requires one_each { blank.parts ≡ length world.taps + 1 }
    requires new { IsNew world }
{
    let alloc = rt.alloc();
    let taps = world.taps();
    let (segment, mut conductor, seats) = SharedSegment::<L>::new(alloc, blank, world).expect(
        rt,
        "a segment",
    );
    for tap in 0..taps {
        segment
            .drive(rt, alloc, &mut conductor, Event::Start(tap))
            .expect(rt, "a start");
    }
    segment
        .drive(rt, alloc, &mut conductor, Event::Pass(800))
        .expect(rt, "a pass");
    let outlook = segment
        .outlook(rt, alloc, &mut conductor)
        .expect(rt, "an outlook");
    equal(rt, &outlook.due.moments().len(), &taps);
    let mut back = Vec::new(alloc);
    for seat in seats {
        back.push(takes_turns(rt, &segment, seat, 1))
            .expect(rt, "memory");
    }
    let Ok(report) = segment.close(conductor, back) else {
        panic!(rt; "not closed");
    };
    equal(
        rt,
        &report.history().len(),
        &taps.saturating_mul(2).saturating_add(1),
    );
    equal(rt, &report.trace().len(), &taps);
}

#[test]
fn each_number_of_taps(rt: HostRuntime) {
    for taps in 1..=127 {
        let world = masters(&rt, taps);
        let blank = Blank::new(world.taps() as u64 + 1);
        of_taps::<Brand, HostRuntime>(&rt, blank, world);
    }
}
