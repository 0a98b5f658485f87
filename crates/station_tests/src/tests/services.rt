//! Tests of services and their function codes.

use super::equal;
use pb_cycles::{Asked, Priority, Service};
use std::test::Fail;

#[test]
fn function_codes_name_services(rt: HostRuntime) -> Result<(), Fail> {
    for (code, service, priority) in [
        (3, Service::Sda, Priority::Low),
        (5, Service::Sda, Priority::High),
        (4, Service::Sdn, Priority::Low),
        (6, Service::Sdn, Priority::High),
        (12, Service::Srd, Priority::Low),
        (13, Service::Srd, Priority::High),
    ] {
        equal(&rt, &service.code(priority), &code);
        equal(&rt, &Asked::by(code), &Asked::Send(service, priority));
    }
    equal(&rt, &Asked::by(9), &Asked::Status);
    equal(&rt, &Asked::by(0), &Asked::Unknown);
    for (high, priority) in [(false, Priority::Low), (true, Priority::High)] {
        equal(&rt, &Priority::of(high), &priority);
        equal(&rt, &priority.is_high(), &high);
    }
    assert!(rt; Service::Srd.is_answered());
    assert!(rt; !Service::Sdn.is_answered());
    Ok(())
}
