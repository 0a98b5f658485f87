//! The text for an audit.

use pb_texts::audited;

/// Two masters whose starts are as far apart as their time-outs differ.
const FILE: &[u8] = b"version = 1
until = 1100
bus = { tsl = 100, tid1 = 37, tid2 = 60, tsdr = 11, lag = 0, ttr = 10000, gap = 10, hsa = 5, retries = 1 }
tap = [{ name = 'a', kind = 'master', address = 1 }, { name = 'b', kind = 'master', address = 2 }]
step = [{ at = 0, do = 'start', tap = 'b' }, { at = 200, do = 'start', tap = 'a' }]
";

#[test]
fn an_audit_names_premise_and_record(rt: HostRuntime) {
    let mut reasons = None;
    let shown = audited(rt.alloc(), FILE, &mut reasons).expect(&rt, "memory");
    assert!(rt; reasons.is_some());
    assert!(rt;
        shown.text.as_slice() == b"premise P4 broken at 1000\nrecord 1 illegal\n".as_slice()
    );
    assert!(rt; shown.is_refused);
}
