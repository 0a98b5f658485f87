//! Tests of a segment: receipts and outlooks, closing, and three threads at once.

mod edges;
mod idle;
mod memory;

ghost use Rattle.std.specs.Prelude.{◌≡◌, ◌+◌, ◌<◌, ◌≤◌, true, length};
ghost use Rattle.pb_segment.specs.Origins.{IsNew};

use arrayvec::ArrayVec;
use pb_segment::{
    CloseFault, Closed, CommitFault, ConductorSeat, Draft, History, Outlook, SharedSegment, TapSeat,
};
use pb_station::{SendBuffer, decide, decide_in};
use pb_timers::BusParams;
use pb_world::{Event, Kind, TapSpec, World, WorldFault};
use std::fmt::Debug;
use std::marker::Brand;
use std::process::Abort;
use std::sync::Wait;
use std::sync::ledger::{Blank, Ledger};
use std::thread;
use std::thread::Threads;

/// Ends the test unless two values are equal. A call of its own: comparing in place makes the proof of a test take
/// three times as long.
fn equal<T: PartialEq + Debug>(rt: &impl Abort, left: &T, right: &T)
    ensures { T.eq left.now right.now ≡ true }
{
    assert_eq!(rt; *left, *right);
}

/// Slot time 100, idle times 37 and 60, reply delay 11, lag 0, target rotation time 10,000, GAP factor 10, highest
/// station address 5, one retry, no cable delay.
fn usual(rt: &impl Abort) -> BusParams {
    BusParams::new(100, 37, 60, 11, 0, 10_000, 10, 5, 1, 0).expect(rt, "the usual parameters")
}

fn master(address: u8) -> TapSpec {
    TapSpec {
        address,
        kind: Kind::Master,
        reply: ArrayVec::new(),
    }
}

fn due(outlook: &Outlook, tap: usize) -> Option<u64> {
    let moment = (*outlook.due.moments().get(tap)?)?;
    Some(moment.get())
}

/// A world with two masters that do not run yet.
fn two_masters(rt: &(impl AllocGlobal + Abort)) -> World
    ensures new { IsNew result }
    ensures taps { length result.taps ≡ 2 }
{
    let specs = [master(1), master(2)];
    World::new(rt.alloc(), usual(rt), &specs).expect(rt, "a world")
}

/// Of two decisions for one tap the second is stale. A seat is missing at the end.
fn two_decisions<L: Ledger, R: AllocGlobal + Abort + Wait>(rt: &R, blank: Blank, world: World)
    requires name { blank.name ≡ L.name }
    requires parts { blank.parts ≡ L.parts }
    requires one_each { blank.parts ≡ length world.taps + 1 }
    requires new { IsNew world }
{
    let alloc = rt.alloc();
    let (segment, mut conductor, mut seats) = SharedSegment::<L>::new(alloc, blank, world).expect(
        rt,
        "a segment",
    );
    let mut second = seats.pop().expect(rt, "the second seat");
    let mut first = seats.pop().expect(rt, "the first seat");
    equal(rt, &(first.tap(), second.tap()), &(0, 1));
    let before = segment
        .outlook(rt, alloc, &mut conductor)
        .expect(rt, "an outlook");
    equal(rt, &(before.place, before.now.get()), &(0, 0));
    equal(rt, &(due(&before, 0), due(&before, 1)), &(None, None));
    assert!(rt; before.next_change.is_none());
    for (place, event) in [Event::Start(0), Event::Start(1), Event::Pass(800)]
        .into_iter()
        .enumerate()
    {
        let receipt = segment
            .drive(rt, alloc, &mut conductor, event)
            .expect(rt, "an event");
        equal(rt, &receipt.place, &place);
    }
    let glance = segment.glance(rt, alloc, &first).expect(rt, "a glance");
    let again = segment.glance(rt, alloc, &first).expect(rt, "a glance");
    let other = segment.glance(rt, alloc, &first).expect(rt, "a glance");
    let decision = decide(alloc, glance).expect(rt, "a decision");
    let stale = decide(alloc, again).expect(rt, "a decision");
    for claim in [&decision.speak, &stale.speak] {
        let octets = claim.as_ref().expect(rt, "a telegram");
        equal(rt, &octets.as_slice(), &[0xdc, 1, 1].as_slice());
    }
    let foreign = decide(alloc, other).expect(rt, "a decision");
    let receipt = segment
        .commit(rt, alloc, &mut first, decision)
        .expect(rt, "a turn");
    equal(rt, &receipt.place, &3);
    assert!(rt; receipt.reply.spoke.is_some());
    let fault = segment.commit(rt, alloc, &mut first, stale).err();
    let expected = CommitFault::Stale { turns: 1, now: 800 };
    equal(rt, &fault, &Some(expected));
    let fault = segment.commit(rt, alloc, &mut second, foreign).err();
    equal(rt, &fault, &Some(CommitFault::WrongTap));
    let fault = segment
        .drive(rt, alloc, &mut conductor, Event::Turn(0))
        .err();
    equal(rt, &fault, &Some(CommitFault::WrongTap));
    let glance = segment.glance(rt, alloc, &first).expect(rt, "a glance");
    equal(rt, &glance.station.phase().name(), &"Claim");
    let after = segment
        .outlook(rt, alloc, &mut conductor)
        .expect(rt, "an outlook");
    equal(rt, &(after.place, after.now.get()), &(4, 800));
    equal(
        rt,
        &(due(&after, 0), due(&after, 1)),
        &(Some(870), Some(1000)),
    );
    equal(rt, &after.next_change.map(|m| m.get()), &Some(801));
    seats.push(first).expect(rt, "room");
    closes(rt, segment, conductor, seats, second);
}

/// Closing fails while a seat is missing, and succeeds with all seats.
fn closes<L: Ledger, R: Abort>(
    rt: &R,
    segment: SharedSegment<L>,
    conductor: ConductorSeat<L>,
    seats: Vec<TapSeat<L>>,
    last: TapSeat<L>,
) {
    let Some(mut back) = segment.close(conductor, seats).err() else {
        panic!(rt; "closed without a seat");
    };
    equal(rt, &back.fault, &CloseFault::MissingSeat);
    back.seats.push(last).expect(rt, "room");
    let Ok(report) = back.segment.close(back.conductor, back.seats) else {
        panic!(rt; "not closed");
    };
    equal(rt, &report.history().len(), &4);
    equal(rt, &report.turns(), &[1, 0].as_slice());
    equal(rt, &report.trace().len(), &1);
    let (event, reply) = report.history().at(3).expect(rt, "an event");
    assert!(rt; *event == Event::Turn(0));
    equal(rt, &reply.now.get(), &800);
    assert!(rt; report.history().at(4).is_none());
}

#[test]
fn of_two_decisions_one_is_stale(rt: HostRuntime) {
    let world = two_masters(&rt);
    let blank = Blank::new(world.taps() as u64 + 1);
    two_decisions::<Brand, HostRuntime>(&rt, blank, world);
}

/// A history of at most two events. The world's own fault comes first.
fn full_history<L: Ledger, R: AllocGlobal + Abort + Wait>(rt: &R, blank: Blank, world: World)
    requires name { blank.name ≡ L.name }
    requires parts { blank.parts ≡ L.parts }
    requires one_each { blank.parts ≡ length world.taps + 1 }
    requires new { IsNew world }
{
    let alloc = rt.alloc();
    let (segment, mut conductor, mut seats) = SharedSegment::<L>::with_history(
        alloc, blank, world, 2,
    ).expect(rt, "a segment");
    let mut seat = seats.pop().expect(rt, "a seat");
    for event in [Event::Start(0), Event::Start(1)] {
        segment
            .drive(rt, alloc, &mut conductor, event)
            .expect(rt, "a start");
    }
    let fault = segment
        .drive(rt, alloc, &mut conductor, Event::Pass(0))
        .err();
    equal(rt, &fault, &Some(CommitFault::World(WorldFault::ZeroTime)));
    let fault = segment
        .drive(rt, alloc, &mut conductor, Event::Pass(1))
        .err();
    equal(rt, &fault, &Some(CommitFault::HistoryFull));
    let glance = segment.glance(rt, alloc, &seat).expect(rt, "a glance");
    let decision = decide(alloc, glance).expect(rt, "a decision");
    let fault = segment.commit(rt, alloc, &mut seat, decision).err();
    equal(rt, &fault, &Some(CommitFault::HistoryFull));
    let mut out = SendBuffer::new();
    let fault = segment.turn(rt, alloc, &mut seat, &mut out).err();
    equal(rt, &fault, &Some(CommitFault::HistoryFull));
}

#[test]
fn a_full_history_takes_no_more(rt: HostRuntime) {
    let world = two_masters(&rt);
    let blank = Blank::new(world.taps() as u64 + 1);
    full_history::<Brand, HostRuntime>(&rt, blank, world);
}

/// One event more than a block of a history holds.
const PASSES: u64 = 1025;

/// Passes of 1, 2, 3 and so on bit times are reported in order.
fn long_history<L: Ledger, R: AllocGlobal + Abort + Wait>(rt: &R, blank: Blank, world: World)
    requires name { blank.name ≡ L.name }
    requires parts { blank.parts ≡ L.parts }
    requires one_each { blank.parts ≡ length world.taps + 1 }
    requires new { IsNew world }
{
    let alloc = rt.alloc();
    let (segment, mut conductor, seats) = SharedSegment::<L>::new(alloc, blank, world).expect(
        rt,
        "a segment",
    );
    for bits in 1..=PASSES {
        segment
            .drive(rt, alloc, &mut conductor, Event::Pass(bits))
            .expect(rt, "a pass");
    }
    let Ok(report) = segment.close(conductor, seats) else {
        panic!(rt; "not closed");
    };
    reports_passes(rt, report.history());
}

fn reports_passes(rt: &impl Abort, history: &History) {
    let mut clock: u64 = 0;
    for (place, bits) in (1..=PASSES).enumerate() {
        clock = clock.wrapping_add(bits);
        let (event, reply) = history.at(place).expect(rt, "an event");
        assert!(rt; *event == Event::Pass(bits), "{place}");
        equal(rt, &reply.now.get(), &clock);
    }
    equal(rt, &(history.len() as u64), &PASSES);
}

#[test]
fn a_long_history_is_reported_in_order(rt: HostRuntime) {
    let world = two_masters(&rt);
    let blank = Blank::new(world.taps() as u64 + 1);
    long_history::<Brand, HostRuntime>(&rt, blank, world);
}

/// What `look` finds in a draft.
#[derive(Clone, Copy, Debug, PartialEq, Eq)]
struct Found {
    events: usize,
    outlooks: usize,
    /// The length of the last event in bit times, if it is a pass.
    last: Option<u64>,
}

fn found_in(draft: Draft<'_>) -> Found {
    let events = draft.len();
    let last = match draft.at(events.saturating_sub(1)) {
        Some((Event::Pass(bits), _)) => Some(*bits),
        _ => None,
    };
    Found {
        events,
        outlooks: draft.outlooks().len(),
        last,
    }
}

/// `look` finds passes of 1, 2, 3 and so on bit times, and an outlook, with a crew of this size. The first attempt to
/// close misses a seat.
fn looked_at<L: Ledger, R: AllocGlobal + Abort + Threads + Wait + Sync>(
    rt: &R,
    blank: Blank,
    world: World,
    passes: u64,
    crew: usize,
)
    requires name { blank.name ≡ L.name }
    requires parts { blank.parts ≡ L.parts }
    requires one_each { blank.parts ≡ length world.taps + 1 }
    requires new { IsNew world }
{
    let alloc = rt.alloc();
    let (segment, mut conductor, mut seats) = SharedSegment::<L>::new(alloc, blank, world).expect(
        rt,
        "a segment",
    );
    for bits in 1..=passes {
        segment
            .drive(rt, alloc, &mut conductor, Event::Pass(bits))
            .expect(rt, "a pass");
    }
    segment
        .outlook(rt, alloc, &mut conductor)
        .expect(rt, "an outlook");
    let last = seats.pop().expect(rt, "the second seat");
    let look = |draft: Draft<'_>| -> Found { found_in(draft) };
    let Some(mut back) = segment.close_beside(rt, crew, conductor, seats, look).err() else {
        panic!(rt; "closed without a seat");
    };
    equal(rt, &back.fault, &CloseFault::MissingSeat);
    back.seats.push(last).expect(rt, "room");
    let look = |draft: Draft<'_>| -> Found { found_in(draft) };
    let closed = back
        .segment
        .close_beside(rt, crew, back.conductor, back.seats, look);
    let Ok(Closed { report, found }) = closed else {
        panic!(rt; "not closed");
    };
    let expected = Found {
        events: passes as usize,
        outlooks: 1,
        last: Some(passes),
    };
    equal(rt, &found, &expected);
    equal(rt, &report.history().len(), &expected.events);
    equal(rt, &report.outlooks().len(), &1);
}

/// `look` reads a draft of some passes, with a crew of this size.
fn look_at(rt: &(impl AllocGlobal + Abort + Threads + Wait + Sync), passes: u64, crew: usize) {
    let world = two_masters(rt);
    let blank = Blank::new(world.taps() as u64 + 1);
    looked_at::<Brand, _>(rt, blank, world, passes, crew);
}

#[test]
fn a_draft_of_few_events_is_looked_at(rt: HostRuntime) {
    look_at(&rt, 10, 1);
    look_at(&rt, 10, 2);
}

#[test]
fn a_draft_of_many_events_is_looked_at(rt: HostRuntime) {
    look_at(&rt, 5000, 1);
    look_at(&rt, 5000, 2);
    look_at(&rt, 5000, 3);
}

/// How many events of each seat are to be accepted, and the most attempts.
const ACCEPTED: usize = 100;

const TRIES: u32 = 1_000_000;

/// Two threads each take the turns of a tap, while a third lets time pass.
fn three_threads<L: Ledger + Send + Sync, R: AllocGlobal + Abort + Threads + Wait + Sync>(
    rt: &R,
    blank: Blank,
    world: World,
)
    requires name { blank.name ≡ L.name }
    requires parts { blank.parts ≡ L.parts }
    requires one_each { blank.parts ≡ length world.taps + 1 }
    requires new { IsNew world }
{
    let alloc = rt.alloc();
    let (segment, mut conductor, seats) = SharedSegment::<L>::new(alloc, blank, world).expect(
        rt,
        "a segment",
    );
    for event in [Event::Start(0), Event::Start(1)] {
        segment
            .drive(rt, alloc, &mut conductor, event)
            .expect(rt, "a start");
    }
    let seats = race(rt, &segment, &mut conductor, seats);
    let Ok(report) = segment.close(conductor, seats) else {
        panic!(rt; "not closed");
    };
    equal(rt, &report.turns(), &[ACCEPTED, ACCEPTED].as_slice());
    equal(rt, &report.history().len(), &(2 + 3 * ACCEPTED));
}

/// One thread for each seat takes turns, while this one lets time pass. Returns the seats in their order.
fn race<L: Ledger + Send + Sync, R: AllocGlobal + Abort + Threads + Wait + Sync>(
    rt: &R,
    segment: &SharedSegment<L>,
    conductor: &mut ConductorSeat<L>,
    seats: Vec<TapSeat<L>>,
) -> Vec<TapSeat<L>> {
    thread::scope(thread::scope_env(), rt, |scope| -> Vec<TapSeat<L>> {
        let mut running = Vec::new(rt.alloc());
        for seat in seats {
            let thread = scope
                .spawn(move || takes_turns(rt, segment, seat, ACCEPTED))
                .expect(rt, "a thread");
            running.push(thread).expect(rt, "room");
        }
        passes_time(rt, segment, conductor);
        let mut back = Vec::new(rt.alloc());
        for thread in running {
            back.push(thread.join(rt)).expect(rt, "room");
        }
        back
    })
}

/// Takes turns until this many were accepted.
fn takes_turns<L: Ledger, R: AllocGlobal + Abort + Wait>(
    rt: &R,
    segment: &SharedSegment<L>,
    mut seat: TapSeat<L>,
    turns: usize,
) -> TapSeat<L> {
    let mut accepted: usize = 0;
    let mut says = SendBuffer::new();
    for _ in 0..TRIES {
        if accepted >= turns {
            break;
        }
        let Ok(glance) = segment.glance(rt, rt.alloc(), &seat) else {
            panic!(rt; "no glance");
        };
        let Ok(decided) = decide_in(rt.alloc(), glance, &mut says) else {
            panic!(rt; "no decision");
        };
        match segment.commit_decided(rt, rt.alloc(), &mut seat, decided) {
            Ok(_) => accepted += 1,
            Err(CommitFault::Stale { .. }) => {}
            Err(fault) => panic!(rt; "{fault}"),
        }
    }
    seat
}

fn passes_time<L: Ledger, R: AllocGlobal + Abort + Wait>(
    rt: &R,
    segment: &SharedSegment<L>,
    conductor: &mut ConductorSeat<L>,
) {
    for _ in 0..ACCEPTED {
        segment
            .drive(rt, rt.alloc(), conductor, Event::Pass(1))
            .expect(rt, "a bit time");
    }
}

#[test]
fn three_threads_have_their_events_accepted(rt: HostRuntime) {
    let world = two_masters(&rt);
    let blank = Blank::new(world.taps() as u64 + 1);
    three_threads::<Brand, HostRuntime>(&rt, blank, world);
}
