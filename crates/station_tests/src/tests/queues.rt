//! Tests of queues.

use super::{equal, request};
use pb_cycles::{Queue, Service};
use std::test::Fail;

#[test]
fn sixteen_requests_wait_in_order(rt: HostRuntime) -> Result<(), Fail> {
    let mut queue = Queue::new();
    for da in 0..16 {
        queue.push_high(request(da, Service::Sda, true, "-")?)?;
        queue.push_low(request(da, Service::Sda, false, "-")?)?;
    }
    let refused = queue.push_high(request(16, Service::Sda, true, "-")?);
    equal(
        &rt,
        &refused.err().map(|refused| refused.request.da()),
        &Some(16),
    );
    let refused = queue.push_low(request(17, Service::Sda, false, "-")?);
    equal(
        &rt,
        &refused.err().map(|refused| refused.request.da()),
        &Some(17),
    );
    for da in 0..16 {
        equal(
            &rt,
            &queue.take_high().map(|request| request.da()),
            &Some(da),
        );
        equal(
            &rt,
            &queue.take_low().map(|request| request.da()),
            &Some(da),
        );
    }
    assert!(rt; queue.take_high().is_none());
    assert!(rt; queue.take_low().is_none());
    equal(&rt, &queue.len_high(), &0);
    equal(&rt, &queue.len_low(), &0);
    Ok(())
}

#[test]
fn a_queue_of_requests_has_them_in_order(rt: HostRuntime) -> Result<(), Fail> {
    let high = [
        request(1, Service::Sda, true, "-")?,
        request(2, Service::Sda, true, "-")?,
    ];
    let low = [request(3, Service::Sda, false, "-")?];
    let mut queue = Queue::of(&high, &low);
    equal(&rt, &(queue.len_high(), queue.len_low()), &(2, 1));
    equal(
        &rt,
        &queue.take_high().map(|request| request.da()),
        &Some(1),
    );
    equal(
        &rt,
        &queue.take_high().map(|request| request.da()),
        &Some(2),
    );
    equal(&rt, &queue.take_low().map(|request| request.da()), &Some(3));
    Ok(())
}
