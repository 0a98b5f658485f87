//! Tests of bus parameters, durations and moments.

use super::equal;
use pb_timers::{BusParams, ClockFull, Moment, ParamFault, bits};
use std::test::Fail;

/// Slot time, idle times 1 and 2, reply delay, lag, target rotation time, GAP factor, highest station address, retries,
/// cable delay.
type Numbers = [u32; 10];

const USUAL: Numbers = [100, 37, 60, 11, 0, 10_000, 10, 5, 1, 0];

/// The usual numbers with one of them replaced.
fn with(place: usize, number: u32) -> Numbers {
    let mut numbers = USUAL;
    if let Some(cell) = numbers.get_mut(place) {
        *cell = number;
    }
    numbers
}

fn params(numbers: Numbers) -> Result<BusParams, ParamFault> {
    let [tsl, tid1, tid2, tsdr, lag, ttr, gap, hsa, retries, ttd] = numbers;
    BusParams::new(tsl, tid1, tid2, tsdr, lag, ttr, gap, hsa, retries, ttd)
}

#[test]
fn each_rule_has_its_fault(rt: HostRuntime) {
    for (place, number, fault) in [
        (0, 99, ParamFault::Slot),
        (0, 16_384, ParamFault::Slot),
        (1, 32, ParamFault::IdleShort),
        (2, 36, ParamFault::IdleOrder),
        (3, 10, ParamFault::ReplyShort),
        (5, 255, ParamFault::Rotation),
        (5, 16_777_216, ParamFault::Rotation),
        (6, 0, ParamFault::GapFactor),
        (6, 101, ParamFault::GapFactor),
        (7, 1, ParamFault::Highest),
        (7, 127, ParamFault::Highest),
        (8, 8, ParamFault::Retries),
        (4, 40, ParamFault::TakeLate),
        (4, 4_294_967_295, ParamFault::TakeLate),
        (9, 20, ParamFault::TakeLate),
        (9, 4_294_967_295, ParamFault::TakeLate),
    ] {
        equal(&rt, &params(with(place, number)).err(), &Some(fault));
    }
    let late_reply = [100, 37, 60, 61, 39, 10_000, 10, 5, 1, 0];
    equal(&rt, &params(late_reply).err(), &Some(ParamFault::ReplyLate));
    let far_reply = [100, 33, 37, 60, 0, 10_000, 10, 5, 1, 20];
    equal(&rt, &params(far_reply).err(), &Some(ParamFault::ReplyLate));
    let short_slot = [99, 37, 60, 11, 40, 10_000, 10, 5, 1, 0];
    equal(&rt, &params(short_slot).err(), &Some(ParamFault::Slot));
}

#[test]
fn parameters_are_read_back(rt: HostRuntime) -> Result<(), Fail> {
    let bus = params(with(4, 39))?;
    equal(
        &rt,
        &[bus.tsl(), bus.tid1(), bus.tid2(), bus.tsdr(), bus.lag()],
        &[100, 37, 60, 11, 39],
    );
    equal(
        &rt,
        &[bus.ttr(), bus.gap(), bus.hsa(), bus.retries()],
        &[10_000, 10, 5, 1],
    );
    equal(&rt, &bus.ttd(), &0);
    equal(&rt, &params(with(9, 19))?.ttd(), &19);
    equal(&rt, &bus.tto(1), &800);
    equal(&rt, &bus.tto(2), &1000);
    equal(&rt, &params(with(0, 16_383))?.tto(126), &4_226_814);
    Ok(())
}

#[test]
fn faults_have_numbers_and_names(rt: HostRuntime) -> Result<(), Fail> {
    for (fault, number, name) in [
        (ParamFault::Slot, 1, "Slot"),
        (ParamFault::IdleShort, 2, "IdleShort"),
        (ParamFault::IdleOrder, 3, "IdleOrder"),
        (ParamFault::ReplyShort, 4, "ReplyShort"),
        (ParamFault::Rotation, 5, "Rotation"),
        (ParamFault::GapFactor, 6, "GapFactor"),
        (ParamFault::Highest, 7, "Highest"),
        (ParamFault::Retries, 8, "Retries"),
        (ParamFault::TakeLate, 9, "TakeLate"),
        (ParamFault::ReplyLate, 10, "ReplyLate"),
    ] {
        equal(&rt, &fault.number(), &number);
        equal(&rt, &fault.to_string(rt.alloc())?.as_str(), &name);
    }
    equal(
        &rt,
        &ClockFull.to_string(rt.alloc())?.as_str(),
        &"ClockFull",
    );
    Ok(())
}

#[test]
fn a_character_has_eleven_bits(rt: HostRuntime) {
    equal(&rt, &bits(0), &0);
    equal(&rt, &bits(3), &33);
    equal(&rt, &bits(255), &2805);
}

#[test]
fn a_moment_ends_at_its_limit(rt: HostRuntime) -> Result<(), Fail> {
    let limit = 1 << 62;
    equal(&rt, &Moment::new(limit + 1), &None);
    let last = Moment::new(limit).ok_or(ClockFull)?;
    equal(&rt, &Moment::at(limit), &last);
    equal(&rt, &last.get(), &limit);
    equal(&rt, &last.add(0), &Ok(last));
    equal(&rt, &last.add(1), &Err(ClockFull));
    equal(&rt, &last.add(u64::MAX), &Err(ClockFull));
    let first = Moment::new(0).ok_or(ClockFull)?;
    equal(&rt, &first.add(833)?.get(), &833);
    equal(&rt, &first.add(limit), &Ok(last));
    assert!(rt; first < last);
    equal(&rt, &first.after(limit), &last);
    equal(&rt, &first.later(last), &last);
    equal(&rt, &last.later(first), &last);
    Ok(())
}
