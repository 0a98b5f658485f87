//! The lines of faults that no scenario file causes.

use pb_cli::refused_fleet;
use pb_fleet::{CloseFault, CommitFault, FleetFault};

#[test]
fn tells_why_a_fleet_stopped(rt: HostRuntime) {
    let alloc = rt.alloc();
    let shown = refused_fleet(alloc, FleetFault::NoThread).expect(&rt, "memory");
    assert!(rt; shown.text.as_slice() == b"no thread\n".as_slice());
    assert!(rt; shown.is_refused);
    let shown = refused_fleet(alloc, FleetFault::GateClosed(3)).expect(&rt, "memory");
    assert!(rt; shown.text.as_slice() == b"gate closed\n".as_slice());
    let closing = FleetFault::Closing(CloseFault::Disagree);
    let shown = refused_fleet(alloc, closing).expect(&rt, "memory");
    assert!(rt; shown.text.as_slice() == b"disagree\n".as_slice());
    let full = FleetFault::Commit {
        tap: 1,
        now: 800,
        fault: CommitFault::HistoryFull,
    };
    let shown = refused_fleet(alloc, full).expect(&rt, "memory");
    assert!(rt; shown.text.as_slice() == b"history full\n".as_slice());
}
