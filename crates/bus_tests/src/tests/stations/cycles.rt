//! Tests of a station's message cycles, with turns as lines of text.

use super::{at, equal, master, take_turn, usual};
use arrayvec::ArrayVec;
use pb_cycles::{Outcome, Request, Service};
use pb_station::Station;
use pb_timers::BusParams;
use std::alloc::Global;
use std::test::Fail;

/// Takes the turns of some lines, and returns the station after them.
fn play(alloc: Global, station: Station, lines: &str) -> Result<Station, Fail> {
    let mut station = station;
    for line in lines.lines() {
        let next = take_turn(alloc, station, line)?;
        if !next.agrees {
            return Err(Fail::from(line));
        }
        station = next.station;
    }
    Ok(station)
}

/// A request without data.
fn request(da: u8, service: Service, high: bool) -> Result<Request, Fail> {
    Ok(Request::new(da, service, high, ArrayVec::new())?)
}

/// A master with address 1 that has started at 0, with waiting requests.
fn asking(alloc: Global, requests: &[(u8, Service, bool)]) -> Result<Station, Fail> {
    let mut station = master(alloc)?;
    station.start(at(0)?);
    push_all(&mut station, requests)?;
    Ok(station)
}

fn push_all(station: &mut Station, requests: &[(u8, Service, bool)]) -> Result<(), Fail> {
    for (da, service, high) in requests {
        if station.push(request(*da, *service, *high)?).is_err() {
            return Err(Fail::from("no room"));
        }
    }
    Ok(())
}

/// A passive station with address 7 that has started at 0 and replies with aa bb.
fn passive(alloc: Global) -> Result<Station, Fail> {
    let reply = ArrayVec::try_from([0xaa, 0xbb].as_slice())?;
    let mut station = Station::new(alloc, 1, usual()?, 7, false, reply)?;
    station.start(at(0)?);
    Ok(station)
}

/// The station claims the token.
const CLAIMS: &str = "\
800 800 dc0101 Claim 870\n\
870 870 dc0101 Use 940";

/// Three requests for data, of high priority, with the frame count bits 1 (not valid), 0 and 1. The second is sent
/// again after a damaged reply.
const THREE_REQUESTS: &str = "\
940 940 1007016d7516 AwaitData 1106\n\
1018 1018 - AwaitData - b:1017:1018\n\
1138 1138 - Use 1175 e:1138:1138:6805056801070aaabb7716\n\
1175 1175 1007015d6516 AwaitData 1341\n\
1253 1253 - AwaitData - b:1252:1253\n\
1373 1373 - AwaitData 1410 e:1373:1373:--05056801070aaabb7716\n\
1410 1410 1007015d6516 AwaitData 1576\n\
1488 1488 - AwaitData - b:1487:1488\n\
1608 1608 - Use 1645 e:1608:1608:6805056801070aaabb7716\n\
1645 1645 1007017d8516 AwaitData 1811\n\
1723 1723 - AwaitData - b:1722:1723\n\
1843 1843 - Use 1880 e:1843:1843:6805056801070aaabb7716";

#[test]
fn requests_are_sent_until_they_are_answered(rt: HostRuntime) -> Result<(), Fail> {
    let alloc = rt.alloc();
    let high = (7, Service::Srd, true);
    let station = asking(alloc, &[high, high, high])?;
    assert!(rt; station.last_outcome().is_none());
    equal(&rt, &station.queue().len_high(), &3);
    equal(&rt, &station.queue().len_low(), &0);
    let station = play(alloc, play(alloc, station, CLAIMS)?, THREE_REQUESTS)?;
    equal(&rt, &station.queue().len_high(), &0);
    let data = ArrayVec::try_from([0xaa, 0xbb].as_slice())?;
    assert!(rt; station.last_outcome() == Some((7, Outcome::Data(data))));
    Ok(())
}

/// The other side: a repeated request gets the kept reply.
const THREE_REPLIES: &str = "\
941 941 - PassiveIdle - b:940:941\n\
1006 1006 - PassiveIdle 1017 e:1006:1006:1007016d7516\n\
1017 1017 6805056801070aaabb7716 PassiveIdle -\n\
1241 1176 - PassiveIdle 1252 b:1175:1176 e:1241:1241:1007015d6516\n\
1252 1252 6805056801070aaabb7716 PassiveIdle -\n\
1476 1411 - PassiveIdle 1487 b:1410:1411 e:1476:1476:1007015d6516\n\
1487 1487 6805056801070aaabb7716 PassiveIdle -\n\
1711 1646 - PassiveIdle 1722 b:1645:1646 e:1711:1711:1007017d8516\n\
1722 1722 6805056801070aaabb7716 PassiveIdle -";

#[test]
fn a_request_that_comes_again_is_executed_once(rt: HostRuntime) -> Result<(), Fail> {
    let alloc = rt.alloc();
    let station = passive(alloc)?;
    equal(&rt, &station.executed(), &0);
    let mut station = play(alloc, station, THREE_REPLIES)?;
    equal(&rt, &station.executed(), &3);
    station.start(at(2000)?);
    equal(&rt, &station.executed(), &0);
    let again =
        "2200 2100 6805056801070aaabb7716 PassiveIdle - b:2100:2100 e:2166:2166:1007015d6516";
    let station = play(alloc, station, again)?;
    equal(&rt, &station.executed(), &1);
    Ok(())
}

/// With a target rotation time of 256, one of two requests of high priority may be sent for each receipt of the token,
/// and one of low priority if time is left.
const SHORT_ROTATION: &str = "\
1176 1176 107f0146c616 Use 1302\n\
1302 1302 dc0101 Use 1372\n\
1372 1372 107f0146c616 Use 1498\n\
1498 1498 dc0101 Use 1568\n\
1568 1568 107f0144c416 Use 1694";

#[test]
fn low_priority_waits_for_time(rt: HostRuntime) -> Result<(), Fail> {
    let alloc = rt.alloc();
    let params = BusParams::new(100, 37, 60, 11, 0, 256, 10, 5, 1, 0)?;
    let mut station = Station::new(alloc, 0, params, 1, true, ArrayVec::new())?;
    station.start(at(0)?);
    let station = play(alloc, station, CLAIMS)?;
    let look = "940 940 100201494c16 AwaitStatus 1106\n1106 1106 dc0101 Use 1176";
    let mut station = play(alloc, station, look)?;
    let high = (127, Service::Sdn, true);
    push_all(&mut station, &[high, high, (127, Service::Sdn, false)])?;
    equal(&rt, &station.queue().len_low(), &1);
    let station = play(alloc, station, SHORT_ROTATION)?;
    equal(&rt, &station.queue().len_low(), &0);
    assert!(rt; station.last_outcome().is_none());
    Ok(())
}

/// There is no answer: after its only retry the request is given up, and the next request is a first one again.
const NO_ANSWER: &str = "\
940 940 100701636b16 AwaitData 1106\n\
1106 1106 100701636b16 AwaitData 1272\n\
1272 1272 100701636b16 AwaitData 1438";

#[test]
fn a_request_is_given_up(rt: HostRuntime) -> Result<(), Fail> {
    let alloc = rt.alloc();
    let low = (7, Service::Sda, false);
    let station = asking(alloc, &[low, low])?;
    let station = play(alloc, play(alloc, station, CLAIMS)?, NO_ANSWER)?;
    assert!(rt; station.last_outcome() == Some((7, Outcome::NoAnswer)));
    Ok(())
}

/// A token of another station is heard: the request is given up, without an outcome.
#[test]
fn a_foreign_token_ends_the_wait(rt: HostRuntime) -> Result<(), Fail> {
    let alloc = rt.alloc();
    let station = asking(alloc, &[(7, Service::Sda, true)])?;
    let station = play(alloc, station, CLAIMS)?;
    let lines =
        "940 940 100701656d16 AwaitData 1106\n1083 1050 - Idle 1883 b:1050:1050 e:1083:1083:dc0302";
    let station = play(alloc, station, lines)?;
    assert!(rt; station.last_outcome().is_none());
    Ok(())
}

/// A master in the ring answers a request for data with its type, and executes an SDN to all stations.
#[test]
fn a_master_in_the_ring_is_asked(rt: HostRuntime) -> Result<(), Fail> {
    let alloc = rt.alloc();
    let reply = ArrayVec::try_from([0x55].as_slice())?;
    let mut station = Station::new(alloc, 0, usual()?, 1, true, reply)?;
    station.start(at(0)?);
    let station = play(
        alloc,
        play(alloc, station, CLAIMS)?,
        "940 910 - Idle - b:910:910",
    )?;
    let lines = "976 976 - Idle 987 e:976:976:1001026c6f16\n987 987 68040468020138559016 Idle 1897";
    let station = play(alloc, station, lines)?;
    equal(&rt, &station.executed(), &1);
    let station = play(
        alloc,
        station,
        "1196 1130 - Idle 1996 b:1130:1130 e:1196:1196:107f0244c516",
    )?;
    equal(&rt, &station.executed(), &2);
    Ok(())
}

/// The seventeenth request of a priority is returned. One of the other priority is still accepted.
#[test]
fn a_full_queue_hands_back(rt: HostRuntime) -> Result<(), Fail> {
    let alloc = rt.alloc();
    let mut station = master(alloc)?;
    for _ in 0..16 {
        push_all(&mut station, &[(7, Service::Srd, true)])?;
    }
    let refused = station.push(request(9, Service::Sda, true)?);
    assert!(rt; refused == Err(request(9, Service::Sda, true)?));
    push_all(&mut station, &[(9, Service::Sda, false)])?;
    equal(&rt, &station.queue().len_high(), &16);
    equal(&rt, &station.queue().len_low(), &1);
    station.start(at(0)?);
    equal(&rt, &station.queue().len_high(), &0);
    Ok(())
}

/// With marks that begin with an End: damage leaves a waiting reply, and the answer to the next request replaces it.
#[test]
fn an_end_leaves_a_reply(rt: HostRuntime) -> Result<(), Fail> {
    let alloc = rt.alloc();
    let asked = "1006 940 - PassiveIdle 1017 b:940:940 e:1006:1006:1007016d7516";
    let station = play(alloc, passive(alloc)?, asked)?;
    let station = play(
        alloc,
        station,
        "1008 1008 - PassiveIdle 1017 e:1008:1008:--",
    )?;
    let lines =
        "1010 1010 - PassiveIdle 1021 e:1010:1010:100701495116\n1021 1021 100107000816 PassiveIdle -";
    play(alloc, station, lines)?;
    Ok(())
}

/// A station that stops drops its reply, and keeps everything else.
#[test]
fn a_stopped_station_says_nothing(rt: HostRuntime) -> Result<(), Fail> {
    let alloc = rt.alloc();
    let asked = "1006 940 - PassiveIdle 1017 b:940:940 e:1006:1006:1007016d7516";
    let mut station = play(alloc, passive(alloc)?, asked)?;
    station.stop();
    equal(&rt, &station.executed(), &1);
    let station = play(alloc, station, "1017 - - Offline -")?;
    equal(&rt, &station.phase().name(), &"Offline");
    Ok(())
}
