//! Tests of requests: which address a service may have.

use super::{equal, unit};
use arrayvec::ArrayVec;
use pb_cycles::{Request, RequestFault, Service};
use std::test::Fail;

#[test]
fn all_stations_are_only_told(rt: HostRuntime) -> Result<(), Fail> {
    let refused = RequestFault::BadAddress;
    for service in [Service::Sda, Service::Srd] {
        equal(
            &rt,
            &Request::new(127, service, false, ArrayVec::new()).err(),
            &Some(refused),
        );
    }
    equal(
        &rt,
        &Request::new(128, Service::Sdn, false, ArrayVec::new()).err(),
        &Some(refused),
    );
    let told = Request::new(127, Service::Sdn, true, unit("0102")?)?;
    equal(&rt, &told.da(), &127);
    equal(&rt, &told.service(), &Service::Sdn);
    assert!(rt; told.high());
    equal(&rt, &told.unit(), &[1, 2].as_slice());
    equal(&rt, &told.copy().unit(), &[1, 2].as_slice());
    let mut other = Request::new(5, Service::Sda, false, unit("03")?)?;
    other.copy_from(&told);
    equal(&rt, &other, &told);
    equal(&rt, &told.into_unit().as_slice(), &[1, 2].as_slice());
    Ok(())
}
