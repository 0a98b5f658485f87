//! Tests of why a run breaks a premise, and which rule an illegal record breaks.

use super::{equal, master, usual};
use pb_timers::Moment;
use pb_world::{Audit, Cause, Event, Illegal, Reasons, Rule, TapSpec, audit_with_reasons};
use std::process::Abort;

/// The reasons for a run of two masters, the second with the given address.
fn reasons(rt: &(impl AllocGlobal + Abort), other: u8, events: &[Event]) -> Reasons {
    let taps: [TapSpec; 2] = [master(1), master(other)];
    audit_with_reasons(rt.alloc(), usual(rt), &taps, events).expect(rt, "an audit")
}

/// Reasons with a broken premise and no illegal record.
fn broken(rt: &impl Abort, number: u8, clock: u64, cause: Cause) -> Reasons {
    Reasons {
        found: Audit {
            premise: Some((number, moment(rt, clock))),
            illegal: None,
        },
        cause: Some(cause),
        illegal: None,
    }
}

fn moment(rt: &impl Abort, clock: u64) -> Moment {
    Moment::new(clock).expect(rt, "a moment")
}

#[test]
fn a_run_that_keeps_the_premises_has_no_reasons(rt: HostRuntime) {
    let events = [Event::Start(0), Event::Pass(800), Event::Turn(0)];
    let kept = Reasons {
        found: Audit {
            premise: None,
            illegal: None,
        },
        cause: None,
        illegal: None,
    };
    equal(&rt, &reasons(&rt, 2, &events), &kept);
}

#[test]
fn a_lost_telegram_is_named(rt: HostRuntime) {
    let events = [
        Event::Start(0),
        Event::Start(1),
        Event::Pass(800),
        Event::Turn(0),
        Event::Unheard { tap: 1, speaker: 0 },
    ];
    let cause = Cause::NothingLost { tap: 1, speaker: 0 };
    equal(&rt, &cause.number(), &2);
    equal(&rt, &reasons(&rt, 2, &events), &broken(&rt, 2, 800, cause));
}

/// The time-out of address 1 is 800, and the lag 0.
#[test]
fn a_late_turn_is_named(rt: HostRuntime) {
    let events = [Event::Start(0), Event::Pass(801)];
    let due = moment(&rt, 800);
    let cause = Cause::TurnsInTime { tap: 0, due };
    equal(&rt, &reasons(&rt, 2, &events), &broken(&rt, 3, 801, cause));
}

/// The time-outs of addresses 1 and 2 are 800 and 1,000.
#[test]
fn two_that_wait_are_named(rt: HostRuntime) {
    let events = [
        Event::Start(1),
        Event::Pass(200),
        Event::Start(0),
        Event::Pass(800),
    ];
    let cause = Cause::OneWaits {
        tap: 0,
        other: 1,
        moment: moment(&rt, 1000),
    };
    equal(&rt, &reasons(&rt, 2, &events), &broken(&rt, 4, 1000, cause));
}

/// Two stations with one address claim at once: the second claim begins before the first has ended.
#[test]
fn namesakes_and_an_illegal_claim_are_named(rt: HostRuntime) {
    let events = [
        Event::Start(0),
        Event::Start(1),
        Event::Pass(800),
        Event::Turn(0),
        Event::Turn(1),
    ];
    let found = reasons(&rt, 1, &events);
    equal(&rt, &found.found.premise, &Some((1, moment(&rt, 0))));
    equal(&rt, &found.found.illegal, &Some(1));
    let cause = Cause::OwnAddresses { tap: 0, other: 1 };
    equal(&rt, &found.cause, &Some(cause));
    let rule = Rule::NotEnded { last: 0, end: 833 };
    let illegal = Illegal {
        tap: 1,
        begin: 800,
        rule,
    };
    equal(&rt, &found.illegal, &Some(illegal));
}
