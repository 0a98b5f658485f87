//! A ring of two ports, what a port refuses, and memory that is refused.

ghost use Rattle.std.specs.Prelude.{◌≤◌};

use arrayvec::ArrayVec;
use pb_cycles::{Request, Service};
use pb_faults::NoMemory;
use pb_port::{Feed, FeedFault, FeedMark, Port, PortFault};
use pb_telegram::RxChar;
use pb_timers::BusParams;
use pb_tokenfsm::Phase;
use std::alloc::Global;

/// A master of a bus with a slot time of 100, or the fault.
fn master(alloc: Global, address: u8) -> Result<Port, NoMemory>
    requires { address ≤ 126 }
{
    let params = BusParams::new(100, 37, 60, 11, 0, 10_000, 10, 5, 1, 0).unwrap();
    Port::new(alloc, params, address, true, ArrayVec::new())
}

#[test]
fn a_listener_hears_two_claims(rt: HostRuntime) {
    let alloc = rt.alloc();
    let mut claims = master(alloc, 1).expect(&rt, "memory");
    let mut hears = master(alloc, 2).expect(&rt, "memory");
    let mut out = [0; 255];
    claims.start(0).expect(&rt, "start");
    hears.start(0).expect(&rt, "start");
    for at in [800, 870] {
        assert!(rt; claims.due() == Some(at));
        assert!(rt; claims.turn(at, &mut out) == Ok(3));
        let octets = &out[..3];
        assert!(rt; octets == [0xdc, 1, 1].as_slice());
        hears.begin(at, at).expect(&rt, "begin");
        hears.end_good(at + 33, at + 33, octets).expect(&rt, "end");
    }
    assert!(rt; hears.turn(903, &mut out) == Ok(0));
    assert!(rt; hears.las().contains(1));
    assert!(rt; matches!(hears.phase(), Phase::Listening(_)));
    assert!(rt; hears.executed() == 0);
    assert!(rt; hears.last_outcome().is_none());
    hears.stop();
    assert!(rt; hears.due().is_none());
}

#[test]
fn a_port_refuses_by_name(rt: HostRuntime) {
    let mut port = master(rt.alloc(), 1).expect(&rt, "memory");
    let mut out = [0; 255];
    port.start(100).expect(&rt, "start");
    assert!(rt; port.start(99) == Err(PortFault::Backwards));
    assert!(rt; port.turn((1 << 61) + 1, &mut out) == Err(PortFault::TooLate));
    assert!(rt; port.begin(99, 100) == Err(PortFault::Backwards));
    assert!(rt; port.begin(101, 100) == Err(PortFault::Ahead));
    assert!(rt; port.end(100, 100, &[RxChar::Bad; 256]) == Err(PortFault::TooLong));
    for _ in 0..32 {
        port.begin(100, 100).expect(&rt, "begin");
        port.noise(100, 100).expect(&rt, "noise");
    }
    assert!(rt; port.noise(100, 100) == Err(PortFault::InboxFull));
    for _ in 0..16 {
        let request = Request::new(2, Service::Sda, true, ArrayVec::new()).unwrap();
        port.push(request).expect(&rt, "room");
    }
    let last = Request::new(2, Service::Sda, true, ArrayVec::new()).unwrap();
    assert!(rt; port.push(last) == Err(PortFault::QueueFull));
}

#[test]
fn a_port_has_room_for_two_marks(rt: HostRuntime) {
    let params = BusParams::new(100, 37, 60, 11, 0, 10_000, 10, 5, 1, 0).unwrap();
    let port = Port::with_room(rt.alloc(), 2, params, 1, true, ArrayVec::new());
    let mut port = port.expect(&rt, "memory");
    let mut out = [0; 255];
    port.start(100).expect(&rt, "start");
    for _ in 0..2 {
        port.begin(100, 100).expect(&rt, "begin");
        port.end(100, 100, &[RxChar::Bad; 255]).expect(&rt, "end");
        assert!(rt; port.begin(100, 100) == Err(PortFault::InboxFull));
        assert!(rt; port.turn(100, &mut out) == Ok(0));
    }
}

#[test]
fn a_feed_makes_marks_of_characters(rt: HostRuntime) {
    let mut feed = Feed::new(false);
    assert!(rt; feed.character(11, RxChar::Good(0xdc)) == Err(FeedFault::NoStart));
    assert!(rt; feed.start_bit(800) == Ok(Some(FeedMark::Begin(800))));
    assert!(rt; feed.character(811, RxChar::Good(0xdc)) == Ok(None));
    assert!(rt; feed.character(822, RxChar::Good(1)) == Ok(None));
    assert!(rt; feed.due() == Some(838));
    assert!(rt; feed.character(833, RxChar::Good(1)) == Ok(Some(FeedMark::End(833))));
    assert!(rt; feed.characters().len() == 3);
    let mut late = Feed::new(true);
    assert!(rt; late.start_bit(800) == Ok(None));
    assert!(rt; late.character(811, RxChar::Bad) == Ok(Some(FeedMark::Begin(811))));
    assert!(rt; late.character(827, RxChar::Bad) == Err(FeedFault::EndFirst));
    assert!(rt; late.tick(826).is_none());
    assert!(rt; late.tick(827) == Some(FeedMark::End(822)));
    assert!(rt; late.due().is_none());
}

#[test]
fn refused_memory_for_a_port(rt: HostRuntime) {
    match master(rt.alloc(), 1) {
        Ok(port) => assert!(rt; port.due().is_none()),
        Err(NoMemory) => {
            let _ = println!(rt; "refused");
        }
    }
}

/// A passive station replies to a request for data with what was set last, and tells the request.
#[test]
fn data_go_in_and_out(rt: HostRuntime) {
    let params = BusParams::new(100, 37, 60, 11, 0, 10_000, 10, 5, 1, 0).unwrap();
    let mut port = Port::new(rt.alloc(), params, 7, false, ArrayVec::new()).expect(&rt, "memory");
    let mut reply = ArrayVec::new();
    reply.push(0xbb);
    let mut out = [0; 255];
    port.start(0).expect(&rt, "start");
    port.set_reply(reply);
    port.begin(100, 100).expect(&rt, "begin");
    let request = [0x68, 4, 4, 0x68, 7, 1, 0x7d, 0xaa, 0x2f, 0x16];
    port.end_good(210, 210, &request).expect(&rt, "end");
    assert!(rt; port.turn(210, &mut out) == Ok(0));
    match port.indications() {
        [asked] => {
            assert!(rt; asked.source == 1 && asked.high && asked.service == Service::Srd);
            assert!(rt; asked.unit.as_slice() == [0xaa].as_slice());
        }
        _ => panic!(rt; "one request"),
    }
    assert!(rt; port.turn(221, &mut out) == Ok(10));
    let spoken = &out[..10];
    assert!(rt; spoken == [0x68, 4, 4, 0x68, 1, 7, 0x0a, 0xbb, 0xcd, 0x16].as_slice());
    assert!(rt; port.indications().is_empty());
}
