//! Tests of rotations: which cycles may start.

use super::{at, equal};
use pb_rotation::Rotation;
use std::test::Fail;

#[test]
fn a_slow_rotation_leaves_one_high_cycle(rt: HostRuntime) -> Result<(), Fail> {
    let mut rotation = Rotation::new(256);
    equal(&rt, &rotation.ttr(), &256);
    rotation.received(at(1000)?);
    equal(&rt, &rotation.holding_left(at(1000)?), &256);
    rotation.received(at(1300)?);
    equal(&rt, &rotation.holding_left(at(1300)?), &0);
    assert!(rt; !rotation.may_low(at(1300)?));
    assert!(rt; rotation.may_high(at(1300)?));
    rotation.started_high();
    assert!(rt; !rotation.may_high(at(1300)?));
    Ok(())
}

#[test]
fn holding_time_runs_from_the_receipt_before_the_last(rt: HostRuntime) -> Result<(), Fail> {
    let mut rotation = Rotation::new(256);
    rotation.received(at(1000)?);
    rotation.received(at(1100)?);
    rotation.received(at(1250)?);
    equal(&rt, &rotation.holding_left(at(1250)?), &106);
    equal(&rt, &rotation.holding_left(at(1355)?), &1);
    assert!(rt; rotation.may_low(at(1355)?));
    rotation.started_high();
    assert!(rt; rotation.may_high(at(1355)?));
    equal(&rt, &rotation.holding_left(at(1356)?), &0);
    assert!(rt; !rotation.may_low(at(1356)?));
    assert!(rt; !rotation.may_high(at(1356)?));
    rotation.received(at(1400)?);
    equal(&rt, &rotation.holding_left(at(1400)?), &106);
    assert!(rt; rotation.may_high(at(1506)?));
    assert!(rt; !rotation.may_low(at(1506)?));
    Ok(())
}
