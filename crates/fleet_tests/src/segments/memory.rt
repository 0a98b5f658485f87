//! Each allocation refused in turn: the refused call changes nothing of the segment and its seats, and succeeds the
//! next time.

ghost use Rattle.std.specs.Prelude.{◌≡◌, ◌+◌, length};
ghost use Rattle.pb_segment.specs.Origins.{IsNew};

use super::{equal, master, usual};
use pb_segment::{
    CommitFault, ConductorSeat, GlanceFault, Outlook, Report, SharedSegment, TapSeat,
};
use pb_station::{Glance, SendBuffer, decide};
use pb_world::{Entry, Event, Reply, World, WorldFault};
use std::marker::Brand;
use std::process::Abort;
use std::sync::Wait;
use std::sync::ledger::{Blank, Ledger};

/// How many events happen.
const EVENTS: usize = 6;

/// The index of the only turn among them.
const TURN: usize = 3;

/// The event with this index: a master claims the token, and noise disturbs it.
fn event(place: usize) -> Event {
    match place {
        0 => Event::Start(0),
        1 => Event::Start(1),
        2 => Event::Pass(800),
        TURN => Event::Turn(0),
        4 => Event::Pass(1),
        _ => Event::Noise(50),
    }
}

/// A segment with all its seats.
#[derive(Drop)]
struct Used<L: Ledger> {
    segment: SharedSegment<L>,
    conductor: ConductorSeat<L>,
    first: TapSeat<L>,
    last: TapSeat<L>,
    /// Whether the turn is taken at once, or by a glance, a decision and a commit.
    at_once: bool,
}

fn refused(rt: &impl Print) {
    let _ = println!(rt; "refused");
}

/// The event with this index happens; `None` if memory was refused.
fn tried<L: Ledger, R: AllocGlobal + Abort + Wait>(
    rt: &R,
    used: &mut Used<L>,
    place: usize,
) -> Option<()> {
    let alloc = rt.alloc();
    if place == TURN && used.at_once {
        let mut out = SendBuffer::new();
        let answer = used.segment.turn(rt, alloc, &mut used.first, &mut out);
        return accepted(rt, answer);
    }
    let answer = if place == TURN {
        let glance = used.segment.glance(rt, alloc, &used.first).ok()?;
        let decision = decide(alloc, glance).ok()?;
        used.segment.commit(rt, alloc, &mut used.first, decision)
    } else {
        used.segment
            .drive(rt, alloc, &mut used.conductor, event(place))
    };
    let receipt = accepted(rt, answer)?;
    equal(rt, &receipt.place, &place);
    Some(())
}

/// What a call returned; `None` if memory was refused.
fn accepted<T>(rt: &impl Abort, answer: Result<T, CommitFault>) -> Option<T> {
    match answer {
        Ok(told) => Some(told),
        Err(fault) => {
            equal(rt, &fault, &CommitFault::World(WorldFault::NoMemory));
            None
        }
    }
}

/// The event with this index happens, if it is refused then the next time.
fn happens<L: Ledger, R: AllocGlobal + Abort + Print + Wait>(
    rt: &R,
    used: &mut Used<L>,
    place: usize,
) {
    if tried(rt, used, place).is_none() {
        refused(rt);
        is_as_after(rt, used, place);
        tried(rt, used, place).expect(rt, "an event");
    }
}

/// The outlook after all events.
fn shown<L: Ledger, R: AllocGlobal + Abort + Print + Wait>(rt: &R, used: &mut Used<L>) -> Outlook {
    match used.segment.outlook(rt, rt.alloc(), &mut used.conductor) {
        Ok(outlook) => outlook,
        Err(fault) => {
            equal(rt, &fault, &GlanceFault::NoMemory);
            refused(rt);
            is_as_after(rt, used, EVENTS);
            used.segment
                .outlook(rt, rt.alloc(), &mut used.conductor)
                .expect(rt, "an outlook")
        }
    }
}

/// What both taps show is as after `count` events, which are also applied to a world.
fn is_as_after<L: Ledger, R: AllocGlobal + Abort + Wait>(rt: &R, used: &Used<L>, count: usize) {
    let (world, _) = played(rt, count).expect(rt, "a world");
    for seat in [&used.first, &used.last] {
        let shown = used
            .segment
            .glance(rt, rt.alloc(), seat)
            .expect(rt, "a glance");
        assert!(rt; is_shown(rt, &world, &shown, seat.tap()));
    }
}

/// A world after the first `count` events, and their replies; `None` if memory was refused.
fn played(rt: &(impl AllocGlobal + Abort), count: usize) -> Option<(World, Vec<Reply>)> {
    let specs = [master(1), master(2)];
    let mut world = World::new(rt.alloc(), usual(rt), &specs).ok()?;
    let mut replies = Vec::new(rt.alloc());
    for place in 0..count {
        let reply = world.apply(rt.alloc(), event(place)).ok()?;
        replies.push(reply).ok()?;
    }
    Some((world, replies))
}

/// Whether a glance shows the clock, the station and the unread marks of a tap in a world.
fn is_shown(rt: &(impl AllocGlobal + Abort), world: &World, shown: &Glance, tap: usize) -> bool {
    if tap >= world.taps() {
        return false;
    }
    let glance = world.glance_of(rt.alloc(), tap).expect(rt, "a glance");
    let is_same = shown.station.is_same(&glance.station);
    is_same && shown.marks == glance.marks && shown.now == glance.now
}

/// All events happen, and the segment is closed.
fn refused_once<L: Ledger, R: AllocGlobal + Abort + Print + Wait>(
    rt: &R,
    blank: Blank,
    world: World,
    at_once: bool,
)
    requires name { blank.name ≡ L.name }
    requires parts { blank.parts ≡ L.parts }
    requires one_each { blank.parts ≡ length world.taps + 1 }
    requires new { IsNew world }
{
    let Ok((segment, conductor, mut seats)) = SharedSegment::<L>::new(rt.alloc(), blank, world)
    else {
        return refused(rt);
    };
    let last = seats.pop().expect(rt, "the second seat");
    let first = seats.pop().expect(rt, "the first seat");
    let mut used = Used {
        segment,
        conductor,
        first,
        last,
        at_once,
    };
    for place in 0..EVENTS {
        happens(rt, &mut used, place);
    }
    let after = shown(rt, &mut used);
    equal(rt, &(after.place, after.now.get()), &(EVENTS, 801));
    is_closed(rt, used, seats);
}

/// The segment is closed with its seats, which are put into an empty list. Its report has each event once.
fn is_closed<L: Ledger>(
    rt: &(impl AllocGlobal + Abort + Print),
    used: Used<L>,
    mut seats: Vec<TapSeat<L>>,
) {
    let Used {
        segment,
        conductor,
        first,
        last,
        ..
    } = used;
    if seats.push(first).is_err() || seats.push(last).is_err() {
        return refused(rt);
    }
    let Ok(report) = segment.close(conductor, seats) else {
        panic!(rt; "not closed");
    };
    equal(rt, &report.turns(), &[1, 0].as_slice());
    equal(rt, &report.outlooks().len(), &1);
    let Some((world, replies)) = played(rt, EVENTS) else {
        return refused(rt);
    };
    has_happened(rt, &report, &replies);
    has_sent(rt, report.trace(), world.trace());
}

/// The history has the events, with these replies.
fn has_happened(rt: &impl Abort, report: &Report, replies: &[Reply]) {
    equal(rt, &report.history().len(), &replies.len());
    for (place, reply) in replies.iter().enumerate() {
        let (happened, answer) = report.history().at(place).expect(rt, "an event");
        assert!(rt; *happened == event(place) && *answer == *reply, "{place}");
    }
}

/// Two traces are the same.
fn has_sent(rt: &impl Abort, trace: &[Entry], expected: &[Entry]) {
    equal(rt, &trace.len(), &expected.len());
    let is_same = trace
        .iter()
        .zip(expected)
        .all(|(one, other)| is_same_entry(one, other));
    assert!(rt; is_same);
}

fn is_same_entry(one: &Entry, other: &Entry) -> bool {
    match (one, other) {
        (Entry::Sent(one), Entry::Sent(other)) => {
            (one.tap, one.begin, one.end) == (other.tap, other.begin, other.end)
                && one.octets == other.octets
                && (0..2).all(|tap| one.heard.get(tap) == other.heard.get(tap))
        }
        (
            Entry::Noise { begin, end },
            Entry::Noise {
                begin: other_begin,
                end: other_end,
            },
        ) => begin == other_begin && end == other_end,
        _ => false,
    }
}

#[test]
fn refused_memory_in_a_segment(rt: HostRuntime) {
    let specs = [master(1), master(2)];
    let Ok(world) = World::new(rt.alloc(), usual(&rt), &specs) else {
        return refused(&rt);
    };
    let blank = Blank::new(world.taps() as u64 + 1);
    refused_once::<Brand, HostRuntime>(&rt, blank, world, false);
}

#[test]
fn refused_memory_in_a_turn_at_once(rt: HostRuntime) {
    let specs = [master(1), master(2)];
    let Ok(world) = World::new(rt.alloc(), usual(&rt), &specs) else {
        return refused(&rt);
    };
    let blank = Blank::new(world.taps() as u64 + 1);
    refused_once::<Brand, HostRuntime>(&rt, blank, world, true);
}
