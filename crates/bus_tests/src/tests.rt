//! Tests of a world: its events, glances and decisions, audits, and its limits.

mod edges;
mod examples;
mod indications;
mod letting_go;
mod memory;
mod past;
mod reasons;
mod replies;
mod settled;
mod stations;
mod stretches;
mod telegrams;
mod traces;

ghost use Rattle.std.specs.Prelude.{◌≡◌, true};

use arrayvec::ArrayVec;
use pb_cycles::{Outcome, Request, Service};
use pb_station::{SendBuffer, Station, decide, decide_in};
use pb_timers::{BusParams, Moment};
use pb_world::{
    AuditFault, DrivenBus, Entry, Event, Heard, Kind, NewFault, Reply, TapSpec, World, WorldFault,
    audit, audit_shared, run, run_shared,
};
use std::fmt::Debug;
use std::process::Abort;

/// Ends the test unless two values are equal. A call of its own: comparing in place makes the proof of a test take
/// three times as long. If the following proof needs the equality, `assert_eq!` is used in place.
fn equal<T: PartialEq + Debug>(rt: &impl Abort, left: &T, right: &T)
    ensures { T.eq left.now right.now ≡ true }
{
    assert_eq!(rt; *left, *right);
}

/// Slot time 100, idle times 37 and 60, reply delay 11, lag 0, target rotation time 10,000, GAP factor 10, highest
/// station address 5, one retry, no cable delay.
fn usual(rt: &impl Abort) -> BusParams {
    BusParams::new(100, 37, 60, 11, 0, 10_000, 10, 5, 1, 0).expect(rt, "the usual parameters")
}

fn master(address: u8) -> TapSpec {
    TapSpec {
        address,
        kind: Kind::Master,
        reply: ArrayVec::new(),
    }
}

/// A passive station that replies with one octet.
fn replying(address: u8, octet: u8) -> TapSpec {
    let mut reply = ArrayVec::new();
    reply.push(octet);
    TapSpec {
        address,
        kind: Kind::Passive,
        reply,
    }
}

/// Two masters with the addresses 1 and 2 that do not run yet.
fn two_masters(rt: &(impl AllocGlobal + Abort)) -> World {
    let specs = [master(1), master(2)];
    World::new(rt.alloc(), usual(rt), &specs).expect(rt, "a world")
}

/// Two masters; the first one was started 800 bit times ago, and its turn is due now.
fn silent_for_800(rt: &(impl AllocGlobal + Abort)) -> World {
    let mut world = two_masters(rt);
    world
        .apply(rt.alloc(), Event::Start(0))
        .expect(rt, "a start");
    world
        .apply(rt.alloc(), Event::Pass(800))
        .expect(rt, "a pass");
    world
}

/// A request of high priority for the data of station 7.
fn request(rt: &impl Abort) -> Request {
    Request::new(7, Service::Srd, true, ArrayVec::new()).expect(rt, "a request")
}

fn phase_name(world: &World, tap: usize) -> Option<&'static str> {
    Some(world.station(tap)?.phase().name())
}

fn due(world: &World, tap: usize) -> Option<u64> {
    Some(world.due(tap)?.get())
}

fn next_change(world: &World) -> Option<u64> {
    Some(world.next_change()?.get())
}

/// Its time-out ends after 800 bit times of silence.
#[test]
fn a_master_is_due_by_the_end_of_its_time_out(rt: HostRuntime) {
    let (soon, then) = (Moment::new(799), Moment::new(800));
    let (soon, then) = (soon.expect(&rt, "a moment"), then.expect(&rt, "a moment"));
    let mut bus = DrivenBus::new(rt.alloc(), usual(&rt), &[master(1)]).expect(&rt, "a bus");
    assert!(rt; !bus.bus().is_due(0, then));
    bus.apply(rt.alloc(), &Event::Start(0))
        .expect(&rt, "a start");
    assert!(rt; !bus.bus().is_due(0, soon) && bus.bus().is_due(0, then));
    assert!(rt; !bus.bus().is_due(1, then));
}

#[test]
fn events_change_a_world(rt: HostRuntime) {
    let alloc = rt.alloc();
    let mut world = two_masters(&rt);
    let second = world.station(1).expect(&rt, "a station");
    equal(&rt, &(second.tap(), second.address()), &(1, 2));
    assert!(rt; world.station(2).is_none());
    equal(&rt, &(due(&world, 1), due(&world, 2)), &(None, None));
    equal(&rt, &phase_name(&world, 0), &Some("Offline"));
    world.apply(alloc, Event::Start(0)).expect(&rt, "a start");
    let passed = world.apply(alloc, Event::Pass(800)).expect(&rt, "a pass");
    equal(&rt, &passed.now.get(), &800);
    assert!(rt; passed.spoke.is_none());
    assert!(rt; world.trace().is_empty());
    let turn = world.apply(alloc, Event::Turn(0)).expect(&rt, "a turn");
    equal(&rt, &turn.now.get(), &800);
    let spoke = turn.spoke.expect(&rt, "a token");
    equal(&rt, &spoke.as_slice(), &[0xdc, 1, 1].as_slice());
    equal(&rt, &world.trace().len(), &1);
    equal(&rt, &phase_name(&world, 0), &Some("Claim"));
}

/// A begin can be known one bit time later; then the next change is its end. A tap that starts during activity knows of
/// it one bit time later.
#[test]
fn a_world_says_when_it_changes(rt: HostRuntime) {
    let alloc = rt.alloc();
    let mut world = two_masters(&rt);
    equal(&rt, &next_change(&world), &None);
    let events = [Event::Start(0), Event::Pass(800)];
    run(alloc, &mut world, &events).expect(&rt, "800 silent bit times");
    equal(&rt, &next_change(&world), &None);
    world.apply(alloc, Event::Turn(0)).expect(&rt, "a claim");
    equal(&rt, &next_change(&world), &Some(801));
    world.apply(alloc, Event::Pass(1)).expect(&rt, "a bit time");
    equal(&rt, &next_change(&world), &Some(833));
    world
        .apply(alloc, Event::Start(1))
        .expect(&rt, "a start amid the claim");
    equal(&rt, &next_change(&world), &Some(802));
    world.apply(alloc, Event::Pass(32)).expect(&rt, "its end");
    equal(&rt, &next_change(&world), &None);
    world.apply(alloc, Event::Noise(20)).expect(&rt, "noise");
    equal(&rt, &next_change(&world), &Some(834));
    world.apply(alloc, Event::Pass(1)).expect(&rt, "a bit time");
    equal(&rt, &next_change(&world), &Some(853));
}

/// A master claims the token, asks a passive station for its data, and gets it.
#[test]
fn a_master_asks_for_data(rt: HostRuntime) {
    let alloc = rt.alloc();
    let specs = [master(1), replying(7, 0xaa)];
    let mut world = World::new(alloc, usual(&rt), &specs).expect(&rt, "a world");
    let request = request(&rt);
    for event in [
        Event::Start(0),
        Event::Start(1),
        Event::Queue { tap: 0, request },
    ] {
        world.apply(alloc, event).expect(&rt, "an event");
    }
    let first = world.station(0).expect(&rt, "a station");
    equal(
        &rt,
        &(first.queue().len_high(), first.queue().len_low()),
        &(1, 0),
    );
    assert!(rt; first.last_outcome().is_none() && !first.las().complete());
    for (bits, tap) in [
        (800, 0),
        (33, 0),
        (37, 0),
        (33, 0),
        (37, 0),
        (66, 1),
        (11, 1),
        (110, 0),
    ] {
        world.apply(alloc, Event::Pass(bits)).expect(&rt, "a pass");
        world.apply(alloc, Event::Turn(tap)).expect(&rt, "a turn");
    }
    equal(&rt, &world.now().get(), &1127);
    let first = world.station(0).expect(&rt, "a station");
    equal(&rt, &first.queue().len_high(), &0);
    assert!(rt; first.las().contains(1) && !first.las().contains(2));
    let mut data = ArrayVec::new();
    data.push(0xaa);
    assert!(rt; first.last_outcome() == Some((7, Outcome::Data(data))));
    let second = world.station(1).expect(&rt, "a station");
    equal(&rt, &second.executed(), &1);
}

/// A turn that is decided outside the world is the one that the world takes. After it the decision no longer fits.
#[test]
fn a_turn_is_decided_outside_the_world(rt: HostRuntime) {
    let alloc = rt.alloc();
    let mut world = silent_for_800(&rt);
    assert_eq!(rt; world.taps(), 2);
    let glance = world.glance_of(alloc, 0).expect(&rt, "a glance");
    assert!(rt; is_at(&world, 0, &glance.station));
    equal(
        &rt,
        &(glance.tap, glance.now.get(), glance.marks.len()),
        &(0, 800, 0),
    );
    equal(&rt, &glance.station.phase().name(), &"Listening");
    let decision = decide(alloc, glance).expect(&rt, "a decision");
    let said = decision.speak.as_ref().expect(&rt, "a telegram");
    equal(&rt, &said.as_slice(), &[0xdc, 1, 1].as_slice());
    let glance = world.glance_of(alloc, 0).expect(&rt, "a glance");
    let again = decide(alloc, glance).expect(&rt, "a decision");
    assert!(rt; world.fits(&again));
    assert!(rt; world.fits(&decision));
    let taken = world.take(alloc, decision).expect(&rt, "a turn");
    assert!(rt; is_at(&world, 0, &again.after));
    assert!(rt; !world.fits(&again));
    let mut other = silent_for_800(&rt);
    let turn = other.apply(alloc, Event::Turn(0)).expect(&rt, "a turn");
    equal(&rt, &taken, &turn);
    assert!(rt; are_same(&world, &other));
    equal(&rt, &phase_name(&world, 0), &Some("Claim"));
    equal(&rt, &world.into_trace().len(), &1);
}

/// Whether the station at a tap equals another one in all its state.
fn is_at(world: &World, tap: usize, station: &Station) -> bool {
    match world.station(tap) {
        Some(found) => found.is_same(station),
        None => false,
    }
}

/// Whether both stations of a world are equal to those of another.
fn are_same(world: &World, other: &World) -> bool {
    match (other.station(0), other.station(1)) {
        (Some(first), Some(second)) => is_at(world, 0, first) && is_at(world, 1, second),
        _ => false,
    }
}

/// Turns that are decided from glances in spare boxes are those that the world takes by itself.
#[test]
fn glances_take_the_room_of_replaced_stations(rt: HostRuntime) {
    let alloc = rt.alloc();
    let mut world = silent_for_800(&rt);
    let mut other = silent_for_800(&rt);
    world.apply(alloc, Event::Start(1)).expect(&rt, "a start");
    other.apply(alloc, Event::Start(1)).expect(&rt, "a start");
    let mut says = SendBuffer::new();
    for tap in [0, 1, 0, 1] {
        let taken = take_decided(&rt, &mut world, tap, &mut says);
        let turn = other.apply(alloc, Event::Turn(tap)).expect(&rt, "a turn");
        equal(&rt, &taken, &Some(turn));
        assert!(rt; are_same(&world, &other));
    }
    equal(&rt, &world.into_trace().len(), &1);
}

/// The turn of a tap, decided from a glance in a spare box with a reused buffer; `None` if there is no such tap or the
/// decision does not fit.
fn take_decided(
    rt: &(impl AllocGlobal + Abort),
    world: &mut World,
    tap: usize,
    says: &mut SendBuffer,
) -> Option<Reply> {
    if tap >= world.taps() {
        return None;
    }
    let alloc = rt.alloc();
    let glance = world.glance_in_room(alloc, tap).expect(rt, "a glance");
    let decided = decide_in(alloc, glance, says).expect(rt, "a decision");
    if !world.fits_decided(&decided) {
        return None;
    }
    Some(world.take_decided(alloc, decided).expect(rt, "a turn"))
}

/// `refusal` returns why an event would be refused, and changes nothing.
#[test]
fn refusals_are_known_before(rt: HostRuntime) {
    let alloc = rt.alloc();
    let mut world = two_masters(&rt);
    let asked = Event::Queue {
        tap: 0,
        request: request(&rt),
    };
    let no_tap = Some(WorldFault::NoSuchTap);
    let stopped = Some(WorldFault::NotRunning);
    equal(&rt, &world.refusal(&Event::Start(2), false), &no_tap);
    equal(&rt, &world.refusal(&Event::Stop(0), false), &stopped);
    equal(&rt, &world.refusal(&asked, false), &stopped);
    equal(
        &rt,
        &world.refusal(&Event::Noise(0), false),
        &Some(WorldFault::ZeroTime),
    );
    let age = Event::Pass(1_000_000_000_001);
    equal(
        &rt,
        &world.refusal(&age, false),
        &Some(WorldFault::ClockFull),
    );
    equal(&rt, &world.refusal(&Event::Start(0), false), &None);
    for (event, fault) in [
        (Event::Noise(0), WorldFault::ZeroTime),
        (
            Event::Unheard { tap: 1, speaker: 0 },
            WorldFault::NothingInAir,
        ),
    ] {
        equal(&rt, &world.apply(alloc, event).err(), &Some(fault));
        equal(&rt, &(world.now().get(), world.trace().len()), &(0, 0));
    }
    world = silent_for_800(&rt);
    equal(
        &rt,
        &world.refusal(&Event::Start(0), false),
        &Some(WorldFault::Running),
    );
    equal(&rt, &world.refusal(&asked, false), &None);
    let lost = Event::Unheard { tap: 1, speaker: 0 };
    let nothing = Some(WorldFault::NothingInAir);
    equal(&rt, &world.refusal(&lost, false), &nothing);
    world.apply(alloc, Event::Turn(0)).expect(&rt, "a claim");
    equal(&rt, &world.refusal(&lost, false), &None);
    let beyond = Some(WorldFault::TooFar(833));
    equal(&rt, &world.refusal(&Event::Pass(34), false), &beyond);
    let hits_itself = Event::Damage {
        tap: 0,
        speaker: 0,
        place: None,
    };
    equal(&rt, &world.refusal(&hits_itself, false), &nothing);
    equal(&rt, &(world.now().get(), world.trace().len()), &(800, 1));
}

/// Of two starts of a tap the second is refused, and the tap runs.
#[test]
fn a_run_stops_at_the_first_refused_event(rt: HostRuntime) {
    let alloc = rt.alloc();
    let mut world = two_masters(&rt);
    let twice = run(alloc, &mut world, &[Event::Start(0), Event::Start(0)]);
    equal(&rt, &twice, &Err((1, WorldFault::Running)));
    equal(&rt, &phase_name(&world, 0), &Some("Listening"));
    equal(&rt, &due(&world, 0), &Some(800));
    let claim = run(alloc, &mut world, &[Event::Pass(800), Event::Turn(0)]);
    equal(&rt, &claim, &Ok(()));
    let events = [Event::Pass(34), Event::Start(1), Event::Pass(33)];
    equal(
        &rt,
        &run(alloc, &mut world, &events),
        &Err((0, WorldFault::TooFar(833))),
    );
    equal(&rt, &world.now().get(), &800);
    equal(&rt, &phase_name(&world, 1), &Some("Offline"));
    equal(&rt, &run(alloc, &mut world, &[]), &Ok(()));
}

/// A list of references to events, one of them twice, is played to its end or the first refused event.
#[test]
fn a_run_of_shared_events(rt: HostRuntime) {
    let alloc = rt.alloc();
    let mut world = two_masters(&rt);
    let (start, pass) = (Event::Start(0), Event::Pass(400));
    let claim = run_shared(alloc, &mut world, &[&start, &pass, &pass, &Event::Turn(0)]);
    equal(&rt, &claim, &Ok(()));
    equal(&rt, &(world.now().get(), world.trace().len()), &(800, 1));
    let too_far = run_shared(alloc, &mut world, &[&Event::Start(1), &pass]);
    equal(&rt, &too_far, &Err((1, WorldFault::TooFar(833))));
    equal(&rt, &phase_name(&world, 1), &Some("Listening"));
}

/// Two masters have time-outs of 800 and 1000. If the first starts at 200, both claim the token at 1000.
#[test]
fn a_run_is_judged(rt: HostRuntime) {
    let alloc = rt.alloc();
    let params = usual(&rt);
    let specs = [master(1), master(2)];
    let events = [
        Event::Start(1),
        Event::Pass(200),
        Event::Start(0),
        Event::Pass(800),
        Event::Turn(0),
        Event::Turn(1),
    ];
    let kept = audit(alloc, params, &specs, &events[..3]).expect(&rt, "an audit");
    assert!(rt; kept.premise.is_none() && kept.illegal.is_none());
    let broken = audit(alloc, params, &specs, &events).expect(&rt, "an audit");
    let (number, clock) = broken.premise.expect(&rt, "a broken premise");
    equal(&rt, &(number, clock.get()), &(4, 1000));
    equal(&rt, &broken.illegal, &Some(1));
    let no_taps = audit(alloc, params, &[], &[]).err();
    equal(&rt, &no_taps, &Some(AuditFault::New(NewFault::NoTaps)));
    let twice = audit(alloc, params, &specs, &[Event::Start(0), Event::Start(0)]).err();
    equal(&rt, &twice, &Some(AuditFault::At(1, WorldFault::Running)));
    let ninth = audit(alloc, params, &specs, &[Event::Turn(9)]).err();
    equal(&rt, &ninth, &Some(AuditFault::At(0, WorldFault::NoSuchTap)));
}

/// The same for a list of references to events, one of them twice.
#[test]
fn a_run_of_shared_events_is_judged(rt: HostRuntime) {
    let alloc = rt.alloc();
    let params = usual(&rt);
    let specs = [master(1), master(2)];
    let pass = Event::Pass(400);
    let starts = [Event::Start(1), Event::Pass(200), Event::Start(0)];
    let [first, wait, second] = &starts;
    let turns = [Event::Turn(0), Event::Turn(1)];
    let [one, other] = &turns;
    let events = [first, wait, second, &pass, &pass, one, other];
    let kept = audit_shared(alloc, params, &specs, &events[..4]).expect(&rt, "an audit");
    assert!(rt; kept.premise.is_none() && kept.illegal.is_none());
    let broken = audit_shared(alloc, params, &specs, &events).expect(&rt, "an audit");
    let (number, clock) = broken.premise.expect(&rt, "a broken premise");
    equal(&rt, &(number, clock.get()), &(4, 1000));
    equal(&rt, &broken.illegal, &Some(1));
    let no_taps = audit_shared(alloc, params, &[], &[]).err();
    equal(&rt, &no_taps, &Some(AuditFault::New(NewFault::NoTaps)));
    let twice = audit_shared(alloc, params, &specs, &[second, second]).err();
    equal(&rt, &twice, &Some(AuditFault::At(1, WorldFault::Running)));
}

/// A trace of 100,000 entries accepts no more: no noise, and no turn that would send.
#[test]
fn a_full_trace_takes_no_more(rt: HostRuntime) {
    let alloc = rt.alloc();
    let mut world = two_masters(&rt);
    for _ in 0..100_000 {
        world.apply(alloc, Event::Noise(1)).expect(&rt, "noise");
        world.apply(alloc, Event::Pass(1)).expect(&rt, "a pass");
    }
    equal(&rt, &world.trace().len(), &100_000);
    equal(
        &rt,
        &world.refusal(&Event::Noise(1), false),
        &Some(WorldFault::TraceFull),
    );
    equal(
        &rt,
        &world.apply(alloc, Event::Noise(1)).err(),
        &Some(WorldFault::TraceFull),
    );
    world.apply(alloc, Event::Start(0)).expect(&rt, "a start");
    world.apply(alloc, Event::Pass(800)).expect(&rt, "a pass");
    equal(
        &rt,
        &world.apply(alloc, Event::Turn(0)).err(),
        &Some(WorldFault::TraceFull),
    );
    equal(&rt, &due(&world, 0), &Some(100_800));
    equal(&rt, &world.trace().len(), &100_000);
}

/// The clock reaches its limit and goes no further.
#[test]
fn a_full_clock_goes_no_further(rt: HostRuntime) {
    let alloc = rt.alloc();
    let mut world = two_masters(&rt);
    let longest = Event::Pass(1_000_000_000_000);
    let passed = world.apply(alloc, longest).expect(&rt, "a pass");
    equal(&rt, &passed.now.get(), &1_000_000_000_000);
    equal(
        &rt,
        &world.apply(alloc, Event::Pass(1)).err(),
        &Some(WorldFault::ClockFull),
    );
    equal(&rt, &world.now().get(), &1_000_000_000_000);
}

/// At most 16 requests of each priority wait at a tap.
#[test]
fn full_lists_take_no_more(rt: HostRuntime) {
    let alloc = rt.alloc();
    let mut world = two_masters(&rt);
    world.apply(alloc, Event::Start(0)).expect(&rt, "a start");
    for high in [true, false] {
        let asked = || {
            let request = Request::new(7, Service::Srd, high, ArrayVec::new());
            Event::Queue {
                tap: 0,
                request: request.expect(&rt, "a request"),
            }
        };
        for _ in 0..16 {
            world.apply(alloc, asked()).expect(&rt, "room");
        }
        equal(
            &rt,
            &world.apply(alloc, asked()).err(),
            &Some(WorldFault::QueueFull),
        );
    }
    let queue = world.station(0).expect(&rt, "a station").queue();
    equal(&rt, &(queue.len_high(), queue.len_low()), &(16, 16));
}

/// An inbox has 64 marks, a begin and an end for each noise. If it is full, no time can pass to a further mark.
#[test]
fn a_full_inbox_takes_no_more(rt: HostRuntime) {
    let alloc = rt.alloc();
    let mut world = two_masters(&rt);
    world.apply(alloc, Event::Start(1)).expect(&rt, "a start");
    for _ in 0..32 {
        world.apply(alloc, Event::Noise(1)).expect(&rt, "noise");
        world.apply(alloc, Event::Pass(1)).expect(&rt, "its end");
        world.apply(alloc, Event::Pass(1)).expect(&rt, "silence");
    }
    equal(&rt, &unread(&rt, &world, 1), &64);
    world.apply(alloc, Event::Noise(1)).expect(&rt, "noise");
    equal(
        &rt,
        &world.apply(alloc, Event::Pass(1)).err(),
        &Some(WorldFault::InboxFull(1)),
    );
    equal(&rt, &(world.now().get(), unread(&rt, &world, 1)), &(64, 64));
}

/// How many marks of a tap are unread; 0 if there is no such tap.
fn unread(rt: &(impl AllocGlobal + Abort), world: &World, tap: usize) -> usize {
    if tap >= world.taps() {
        return 0;
    }
    let glance = world.glance_of(rt.alloc(), tap).expect(rt, "a glance");
    glance.marks.len()
}

/// The texts of faults that no event list prints.
#[test]
fn faults_are_shown(rt: HostRuntime) {
    let alloc = rt.alloc();
    for (fault, text) in [
        (
            AuditFault::New(NewFault::BadAddress(31)),
            "New BadAddress 31",
        ),
        (AuditFault::New(NewFault::NoMemory), "New NoMemory"),
        (
            AuditFault::At(2, WorldFault::TooFar(833)),
            "At 2 TooFar 833",
        ),
        (AuditFault::At(0, WorldFault::TraceFull), "At 0 TraceFull"),
        (AuditFault::At(0, WorldFault::NoMemory), "At 0 NoMemory"),
    ] {
        let shown = fault.to_string(alloc).expect(&rt, "memory");
        equal(&rt, &shown.as_str(), &text);
    }
}

#[test]
fn events_are_copied(rt: HostRuntime) {
    let asked = Event::Queue {
        tap: 2,
        request: request(&rt),
    };
    assert!(rt; asked.copy() == asked);
    assert!(rt; Event::Stop(2).copy() == Event::Stop(2));
    assert!(rt; Event::Stop(2).copy() != Event::Start(2));
}

/// A master and this many passive stations.
fn segment(rt: &(impl AllocGlobal + Abort), passive: usize) -> Vec<TapSpec> {
    let mut specs = Vec::new(rt.alloc());
    specs.push(master(1)).expect(rt, "memory");
    for _ in 0..passive {
        specs.push(replying(9, 0)).expect(rt, "memory");
    }
    specs
}

/// A world has at most 127 taps, and its trace shows for each how a telegram reached it.
#[test]
fn a_world_has_127_taps(rt: HostRuntime) {
    let alloc = rt.alloc();
    let refused = World::new(alloc, usual(&rt), &segment(&rt, 127));
    assert!(rt; matches!(refused, Err(NewFault::TooManyTaps)));
    let mut world = World::new(alloc, usual(&rt), &segment(&rt, 126)).expect(&rt, "a world");
    for tap in 0..127 {
        world.apply(alloc, Event::Start(tap)).expect(&rt, "a start");
    }
    let place = None;
    let damage = Event::Damage {
        tap: 126,
        speaker: 0,
        place,
    };
    let loss = Event::Unheard {
        tap: 125,
        speaker: 0,
    };
    let events = [
        Event::Pass(800),
        Event::Turn(0),
        damage,
        loss,
        Event::Pass(33),
    ];
    run(alloc, &mut world, &events).expect(&rt, "a claim");
    let Some(Entry::Sent(claim)) = world.trace().first() else {
        return;
    };
    assert_eq!(rt; claim.heard.len(), 127);
    equal(&rt, &claim.heard.at(0), &Heard::Own);
    equal(&rt, &claim.heard.get(1), &Some(Heard::Whole));
    equal(&rt, &claim.heard.get(124), &Some(Heard::Whole));
    equal(&rt, &claim.heard.at(125), &Heard::Unheard);
    equal(&rt, &claim.heard.at(126), &Heard::Damaged);
    equal(&rt, &claim.heard.get(127), &None);
}
