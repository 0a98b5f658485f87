//! Tests of walks through the steps of a scenario.

use super::equal;
use pb_scenario::{Deed, Step, StreamWalk, Walk};
use pb_taps::Event;
use pb_timers::Moment;
use std::alloc::AllocError;
use std::process::Abort;

fn at(bits: u64) -> Option<Moment> {
    Moment::new(bits)
}

/// A walk from 0 to 30, over two taps: at 5 a tap starts and the other is withheld, at 20 a telegram is lost.
#[test]
fn walks_from_step_to_step(rt: HostRuntime) {
    let steps = [
        Step {
            at: 5,
            deed: Deed::Happens(Event::Start(0)),
        },
        Step {
            at: 5,
            deed: Deed::Withhold { tap: 1, bits: 10 },
        },
        Step {
            at: 20,
            deed: Deed::Happens(Event::Unheard { tap: 0, speaker: 1 }),
        },
    ];
    let mut walk = Walk::new(rt.alloc(), &steps, 2, 30).expect(&rt, "memory");
    assert!(rt; walk.today().is_empty());
    equal(&rt, &walk.next(&[None, at(7)], None), &Some(5));
    equal(&rt, &walk.pass_to(Some(5)), &Some(5));

    walk.go_to(5);
    equal(&rt, &walk.today().len(), &2);
    assert!(rt; walk.wants(0, at(5)) && !walk.wants(1, at(5)) && !walk.wants(0, at(6)));
    assert!(rt; walk.lets(0) && !walk.lets(1));
    let mut turns = Vec::new(rt.alloc());
    walk.note_turns(&[at(5), at(5)], &mut turns)
        .expect(&rt, "memory");
    assert!(rt; turns.as_slice() == [0].as_slice());
    equal(&rt, &walk.next(&[None, at(5)], at(18)), &Some(15));
    equal(&rt, &walk.sooner(Some(18), 1, at(5)), &Some(15));
    equal(&rt, &walk.sooner(Some(9), 0, at(5)), &Some(9));
    equal(&rt, &walk.sooner(None, 0, at(7)), &Some(7));
    equal(&rt, &walk.next_by(Some(15), at(18)), &Some(15));
    equal(&rt, &walk.next_by(None, at(40)), &Some(20));

    walk.go_to(15);
    assert!(rt; walk.today().is_empty() && walk.wants(1, at(5)));
    walk.go_to(20);
    assert!(rt;
        walk.today()
            .iter()
            .all(|step| step.deed.before_turns().is_none())
    );
    assert!(rt;
        walk.today()
            .iter()
            .all(|step| step.deed.after_turns().is_some())
    );
    equal(&rt, &walk.next(&[None, at(31)], None), &None);
    equal(&rt, &walk.pass_to(None), &Some(10));
}

/// A walk through steps that may repeat: from 0 on a tap is withheld for 10 bit times.
#[test]
fn a_tap_is_withheld_in_a_stream(rt: HostRuntime) {
    let steps = [Step {
        at: 0,
        deed: Deed::Withhold { tap: 1, bits: 10 },
    }];
    let walk = StreamWalk::new(rt.alloc(), &steps, &[], 2, 30).expect(&rt, "memory");
    equal(&rt, &Some(walk.moment()), &at(0));
    assert!(rt; walk.lets(0) && !walk.lets(1));
}

/// With one allocation refused, a walk is made and says whose turn it is, or memory was refused.
#[test]
fn refused_memory_in_a_walk(rt: HostRuntime) {
    if turns_at_0(&rt).is_err() {
        let _ = println!(rt; "refused");
    }
}

fn turns_at_0(rt: &(impl AllocGlobal + Abort)) -> Result<(), AllocError> {
    let walk = Walk::new(rt.alloc(), &[], 2, 30)?;
    let mut turns = Vec::new(rt.alloc());
    walk.note_turns(&[at(0), None], &mut turns)?;
    assert!(rt; turns.as_slice() == [0].as_slice());
    Ok(())
}
