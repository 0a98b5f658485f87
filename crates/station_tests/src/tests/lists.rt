//! Tests of lists of active stations and of GAP rounds.

ghost use Rattle.std.specs.Prelude.{◌<◌};

use super::equal;
use pb_ring::{Gap, Las};
use std::alloc::{AllocError, Global};
use std::test::Fail;

/// The members of a list.
fn members(alloc: Global, las: &Las) -> Result<Vec<u8>, AllocError> {
    let mut members = Vec::new(alloc);
    for address in 0..127 {
        if las.contains(address) {
            members.push(address)?;
        }
    }
    Ok(members)
}

/// The addresses that a round asks, from its begin until it is closed.
fn asked(alloc: Global, ts: u8, ns: u8, hsa: u8) -> Result<Vec<u8>, AllocError>
    requires own { ts < 127 }
    requires highest { hsa < 127 }
{
    let mut gap = Gap::fresh();
    let mut asked = Vec::new(alloc);
    for _ in 0..127 {
        match gap.next_to_ask(ts, ns, hsa, 0) {
            Some(address) => asked.push(address)?,
            None => return Ok(asked),
        }
    }
    Ok(asked)
}

#[test]
fn a_list_is_learnt_from_two_equal_rotations(rt: HostRuntime) -> Result<(), Fail> {
    let mut las = Las::listening();
    for (sa, da) in [(2, 5), (5, 9), (9, 2), (9, 2), (2, 5), (5, 9)] {
        las.hear(sa, da);
        assert!(rt; !las.complete());
        equal(&rt, &las.ns(2), &2);
    }
    las.hear(9, 2);
    assert!(rt; las.complete());
    equal(
        &rt,
        &members(rt.alloc(), &las)?.as_slice(),
        &[2, 5, 9].as_slice(),
    );
    equal(&rt, &las.skipped(), &0);
    if las.complete() {
        las.ready(7);
    }
    equal(&rt, &[las.ns(7), las.ps(7)], &[9, 5]);
    for (sa, da) in [(5, 9), (9, 2), (2, 5)] {
        las.hear(sa, da);
    }
    equal(&rt, &las.skipped(), &1);
    las.hear(5, 9);
    equal(&rt, &las.skipped(), &2);
    equal(
        &rt,
        &members(rt.alloc(), &las)?.as_slice(),
        &[2, 5, 7, 9].as_slice(),
    );
    Ok(())
}

#[test]
fn a_claimed_list_is_complete(rt: HostRuntime) -> Result<(), Fail> {
    let mut las = Las::claimed(4);
    assert!(rt; las.complete());
    equal(&rt, &[las.ns(4), las.ps(4)], &[4, 4]);
    las.enter(9);
    las.enter(7);
    equal(&rt, &[las.ns(4), las.ps(4)], &[7, 9]);
    las.hear(9, 9);
    equal(
        &rt,
        &members(rt.alloc(), &las)?.as_slice(),
        &[4, 9].as_slice(),
    );
    equal(&rt, &las.skipped(), &1);
    las.hear(9, 4);
    equal(
        &rt,
        &members(rt.alloc(), &las)?.as_slice(),
        &[4, 9].as_slice(),
    );
    equal(&rt, &las.skipped(), &0);
    las.remove(9);
    equal(&rt, &members(rt.alloc(), &las)?.as_slice(), &[4].as_slice());
    Ok(())
}

#[test]
fn a_count_of_skips_stays_at_255(rt: HostRuntime) {
    let mut las = Las::claimed(126);
    for _ in 0..150 {
        las.hear(0, 0);
        las.hear(125, 0);
    }
    equal(&rt, &las.skipped(), &255);
    las.hear(125, 126);
    equal(&rt, &las.skipped(), &0);
}

#[test]
fn equal_lists_are_equal(rt: HostRuntime) {
    let mut entered = Las::claimed(4);
    entered.enter(9);
    let mut heard = Las::claimed(4);
    heard.hear(4, 9);
    assert!(rt; entered != heard);
    entered.hear(4, 9);
    assert!(rt; entered == heard);
}

#[test]
fn a_round_asks_in_cyclic_order(rt: HostRuntime) -> Result<(), Fail> {
    equal(
        &rt,
        &asked(rt.alloc(), 9, 2, 12)?.as_slice(),
        &[10, 11, 12, 0, 1].as_slice(),
    );
    assert!(rt; asked(rt.alloc(), 2, 3, 12)?.is_empty());
    equal(
        &rt,
        &asked(rt.alloc(), 1, 1, 5)?.as_slice(),
        &[2, 3, 4, 5, 0].as_slice(),
    );
    let range = Gap::range(9, 2, 12);
    for (address, is_in) in [(0, true), (12, true), (13, false), (2, false), (9, false)] {
        equal(&rt, &range.contains(address), &is_in);
    }
    equal(
        &rt,
        &[range.first_behind(9), range.last_before(9)],
        &[Some(10), Some(1)],
    );
    equal(&rt, &Gap::range(2, 3, 12).first_behind(2), &None);
    Ok(())
}

#[test]
fn a_lone_master_closes_its_round(rt: HostRuntime) {
    let mut gap = Gap::fresh();
    assert!(rt; gap.due(0, 10_000, 10));
    equal(&rt, &gap.next_to_ask(0, 0, 2, 5_000), &Some(1));
    gap.answered(1);
    equal(&rt, &gap.next_to_ask(0, 0, 2, 5_000), &Some(2));
    assert!(rt; gap.due(5_000, 10_000, 10));
    equal(&rt, &gap.next_to_ask(0, 0, 2, 5_000), &None);
    assert!(rt; !gap.due(104_999, 10_000, 10));
    assert!(rt; gap.due(105_000, 10_000, 10));
    equal(&rt, &gap.next_to_ask(0, 0, 2, 105_000), &Some(1));
}

#[test]
fn a_round_goes_on_by_the_next_station_of_the_moment(rt: HostRuntime) {
    let mut gap = Gap::fresh();
    equal(&rt, &gap.next_to_ask(1, 5, 10, 0), &Some(2));
    equal(&rt, &gap.next_to_ask(1, 5, 10, 0), &Some(3));
    // The next station has left: the GAP is longer.
    equal(&rt, &gap.next_to_ask(1, 1, 5, 0), &Some(4));
    // A station has entered after those that were asked: nothing is left.
    equal(&rt, &gap.next_to_ask(1, 3, 5, 700), &None);
    assert!(rt; !gap.due(955, 256, 1));
    assert!(rt; gap.due(956, 256, 1));
}
