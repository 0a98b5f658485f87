//! Tests of traces that no world has made: which tap they name, their first illegal record, and telegrams made by hand.

use super::{equal, master, usual};
use arrayvec::ArrayVec;
use pb_timers::Moment;
use pb_world::{Entry, Heard, Record, RecordFault, TapSpec, TraceFault, first_illegal, named};
use std::process::Abort;

/// A telegram of the first of two taps, and how the second received it.
fn by_first(rt: &(impl AllocGlobal + Abort), begin: u64, octets: &[u8], second: Heard) -> Entry {
    let heard = [Heard::Own, second];
    let mut sent = ArrayVec::new();
    for octet in octets {
        sent.try_push(*octet).expect(rt, "an octet");
    }
    let end = begin.saturating_add(11 * octets.len().min(255) as u64);
    Entry::Sent(Record::new(rt.alloc(), 0, sent, begin, end, &heard).expect(rt, "a telegram"))
}

/// The tap that a trace of two masters names at a moment.
fn named_at(rt: &impl Abort, trace: &[Entry], now: u64) -> Option<usize> {
    let taps: [TapSpec; 2] = [master(1), master(2)];
    let now = Moment::new(now).expect(rt, "a moment");
    named(&usual(rt), &taps, trace, now).expect(rt, "a trace in order")
}

/// A claim, and the token passed to the second: the trace names the speaker while it sends, then the station that heard
/// it, within the slot, then the speaker again after a slot in silence.
#[test]
fn traces_from_elsewhere_name_a_station(rt: HostRuntime) {
    let claim = by_first(&rt, 800, &[0xdc, 1, 1], Heard::Whole);
    let pass = by_first(&rt, 870, &[0xdc, 2, 1], Heard::Whole);
    let trace = [claim, pass];
    equal(&rt, &named_at(&rt, &trace, 799), &None);
    equal(&rt, &named_at(&rt, &trace, 800), &Some(0));
    equal(&rt, &named_at(&rt, &trace, 902), &Some(0));
    equal(&rt, &named_at(&rt, &trace, 903), &Some(1));
    equal(&rt, &named_at(&rt, &trace, 1002), &Some(1));
    equal(&rt, &named_at(&rt, &trace, 1003), &Some(0));
    let lost = [by_first(&rt, 870, &[0xdc, 2, 1], Heard::Damaged)];
    equal(&rt, &named_at(&rt, &lost, 903), &None);
}

/// A request without the token is illegal; after a claim it is legal. A trace that is not in order is refused.
#[test]
fn traces_from_elsewhere_are_judged(rt: HostRuntime) {
    let taps = [master(1), master(2)];
    let params = usual(&rt);
    let ask = |begin| -> Entry {
        by_first(&rt, begin, &[0x10, 2, 1, 0x49, 0x4c, 0x16], Heard::Whole)
    };
    let claim = || -> Entry { by_first(&rt, 800, &[0xdc, 1, 1], Heard::Whole) };
    equal(&rt, &first_illegal(&params, &taps, &[]), &Ok(None));
    equal(
        &rt,
        &first_illegal(&params, &taps, &[ask(800)]),
        &Ok(Some(0)),
    );
    equal(
        &rt,
        &first_illegal(&params, &taps, &[claim(), ask(833)]),
        &Ok(None),
    );
    equal(
        &rt,
        &first_illegal(&params, &taps, &[claim(), ask(832)]),
        &Ok(Some(1)),
    );
    let swapped = [ask(833), claim()];
    let misplaced = TraceFault::NotInOrder(1);
    equal(
        &rt,
        &first_illegal(&params, &taps, &swapped),
        &Err(misplaced),
    );
    let now = Moment::new(900).expect(&rt, "a moment");
    equal(&rt, &named(&params, &taps, &swapped, now), &Err(misplaced));
    let noise = Entry::Noise { begin: 5, end: 5 };
    equal(
        &rt,
        &first_illegal(&params, &taps, &[noise]),
        &Err(TraceFault::NotInOrder(0)),
    );
}

/// The faults of a telegram made by hand, in order, and the fields of a valid one.
#[test]
fn telegrams_are_made_by_hand(rt: HostRuntime) {
    let made = |tap, begin, end, heard: &[Heard]| -> Result<Record, RecordFault> {
        Record::new(rt.alloc(), tap, ArrayVec::new(), begin, end, heard)
    };
    let fit = [Heard::Own, Heard::Unheard, Heard::Pending];
    let limit = 1_000_000_000_000;
    equal(&rt, &made(9, 5, 5, &fit).err(), &Some(RecordFault::Ends));
    equal(
        &rt,
        &made(9, 5, limit + 1, &fit).err(),
        &Some(RecordFault::ClockFull),
    );
    equal(&rt, &made(3, 5, 6, &fit).err(), &Some(RecordFault::Hears));
    equal(&rt, &made(1, 5, 6, &fit).err(), &Some(RecordFault::Hears));
    equal(
        &rt,
        &made(0, 5, 6, &[Heard::Own, Heard::Own]).err(),
        &Some(RecordFault::Hears),
    );
    equal(&rt, &made(0, 5, 6, &[]).err(), &Some(RecordFault::Hears));
    equal(
        &rt,
        &made(0, 5, 6, &[Heard::Own; 128]).err(),
        &Some(RecordFault::Hears),
    );
    let record = made(0, 5, limit, &fit).expect(&rt, "a telegram");
    let mut heard = record.heard.iter();
    equal(&rt, &heard.next(), &Some(Heard::Own));
    equal(&rt, &heard.next(), &Some(Heard::Unheard));
    equal(&rt, &heard.next(), &Some(Heard::Pending));
    equal(&rt, &heard.next(), &None);
    let again = made(0, 5, limit, &fit).expect(&rt, "the same");
    let other = made(0, 5, limit, &[Heard::Own, Heard::Unheard, Heard::Whole]).expect(
        &rt, "another",
    );
    assert!(rt; record == again && record != other);
    assert!(rt; Entry::Sent(record) == Entry::Sent(again));
}
