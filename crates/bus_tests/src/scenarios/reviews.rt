//! Tests of reviews: which histories are the run of a scenario.

use pb_scenario::{Deed, Look, Report, Step, Walk, is_run};
use pb_taps::Event;
use pb_timers::Moment;
use std::alloc::{AllocError, Global};

/// An outlook of two taps.
#[derive(Drop)]
struct Shown {
    place: usize,
    dues: [Option<Moment>; 2],
    change: Option<Moment>,
}

/// A history and its outlooks.
#[derive(Drop)]
struct Kept<'a> {
    events: &'a [Event],
    looks: &'a [Shown],
}

impl<'a> Report for Kept<'a> {
    ghost use Rattle.std.specs.Prelude.{map};
    ghost use Rattle.pb_taps.specs.Events.{event_of};

    ghost events = { λ kept. map event_of kept.events.now };

    ghost looks = { λ kept. map (λ shown. record {
      place = shown.place;
      dues = shown.dues;
      change = shown.change;
    }) kept.looks.now };

    fn len(&self) -> usize {
        self.events.len()
    }

    fn event(&self, place: usize) -> Option<&Event> {
        self.events.get(place)
    }

    fn look(&self, position: usize) -> Option<Look<'_>> {
        match self.looks.get(position) {
            Some(shown) => Some(Look {
                place: shown.place,
                dues: &shown.dues,
                change: shown.change,
            }),
            None => None,
        }
    }
}

fn outlook(place: usize, first: Option<u64>, second: Option<u64>, change: Option<u64>) -> Shown {
    Shown {
        place,
        dues: [at(first), at(second)],
        change: at(change),
    }
}

fn at(bits: Option<u64>) -> Option<Moment> {
    match bits {
        Some(bits) => Moment::new(bits),
        None => None,
    }
}

/// Whether a history is the run of a scenario with noise of 4 at 5, up to 20, with both taps due at 7.
fn reviewed(alloc: Global, events: &[Event]) -> Result<bool, AllocError> {
    let steps = [Step {
        at: 5,
        deed: Deed::Happens(Event::Noise(4)),
    }];
    let looks = [
        outlook(0, Some(7), Some(7), None),
        outlook(0, Some(7), Some(7), None),
        outlook(2, Some(7), Some(7), Some(6)),
        outlook(2, Some(7), Some(7), Some(6)),
        outlook(3, Some(7), Some(7), Some(9)),
        outlook(3, Some(7), Some(7), Some(9)),
        outlook(4, Some(7), Some(7), Some(9)),
        outlook(6, Some(30), None, Some(9)),
        outlook(7, Some(30), None, None),
        outlook(7, Some(30), None, None),
    ];
    let walk = Walk::new(alloc, &steps, 2, 20)?;
    let report = Kept {
        events,
        looks: &looks,
    };
    is_run(alloc, &report, walk)
}

/// With the turns of an instant in either order it is a run. With a turn left out or doubled, another noise, a shorter
/// pass or more events it is not.
#[test]
fn judges_histories(rt: HostRuntime) {
    let alloc = rt.alloc();
    let run = [
        Event::Pass(5),
        Event::Noise(4),
        Event::Pass(1),
        Event::Pass(1),
        Event::Turn(1),
        Event::Turn(0),
        Event::Pass(2),
        Event::Pass(11),
    ];
    assert!(rt; reviewed(alloc, &run).expect(&rt, "memory"));
    let mut other = run;
    assert!(rt; !reviewed(alloc, &other[..7]).expect(&rt, "memory"));
    other[4] = Event::Turn(0);
    assert!(rt; !reviewed(alloc, &other).expect(&rt, "memory"));
    other[5] = Event::Turn(1);
    assert!(rt; reviewed(alloc, &other).expect(&rt, "memory"));
    other[1] = Event::Noise(5);
    assert!(rt; !reviewed(alloc, &other).expect(&rt, "memory"));
}

/// With one allocation refused, a history is judged or memory was refused.
#[test]
fn refused_memory_in_a_review(rt: HostRuntime) {
    match reviewed(rt.alloc(), &[]) {
        Ok(is) => assert!(rt; !is),
        Err(AllocError) => {
            let _ = println!(rt; "refused");
        }
    }
}
