//! Tests of one station, with turns as lines of text.

ghost use Rattle.std.specs.Prelude.{◌≡◌, ◌≤◌, true, IfOk};
ghost use Rattle.law_turn.specs.Marks.{moment_of};
ghost use Rattle.pb_station.specs.MarkViews.{mark_of, AreOver};

mod cycles;
mod turns;

use super::equal;
use arrayvec::ArrayVec;
use pb_station::{Glance, Inbox, Mark, NoMemory, Spares, Station, decide, due};
use pb_telegram::RxChar;
use pb_timers::{BusParams, Moment};
use pb_transitions::is_past;
use std::alloc::Global;
use std::str::SplitWhitespace;
use std::test::Fail;
use turns::TURNS;

/// The last moment of a turn, 2^61.
const LAST_TURN: u64 = 1 << 61;

fn at(bits: u64) -> Result<Moment, Fail>
    ensures { IfOk result (λ moment. moment ≡ bits) }
{
    Ok(Moment::new(bits).ok_or("the moment is too late")?)
}

/// Slot time 100, idle times 37 and 60, reply delay 11, lag 0, target rotation time 10,000, GAP factor 10, highest
/// station address 5, one retry, no cable delay.
fn usual() -> Result<BusParams, Fail> {
    Ok(BusParams::new(100, 37, 60, 11, 0, 10_000, 10, 5, 1, 0)?)
}

/// A master with address 1 at tap 0, without data.
fn master(alloc: Global) -> Result<Station, Fail> {
    Ok(Station::new(alloc, 0, usual()?, 1, true, ArrayVec::new())?)
}

/// The next word of a line.
fn word<'a>(words: &mut SplitWhitespace<'a>) -> Result<&'a str, Fail> {
    Ok(words.next().ok_or("a word is missing")?)
}

/// The characters of hex digits; `--` is a damaged one.
fn characters(hex: &str) -> Result<ArrayVec<RxChar, 255>, Fail> {
    let mut characters = ArrayVec::new();
    for place in 0..hex.len() / 2 {
        let digits = hex.get(2 * place..2 * place + 2).ok_or("no digits")?;
        let character = match digits {
            "--" => RxChar::Bad,
            _ => RxChar::Good(u8::from_str_radix(digits, 16)?),
        };
        if characters.try_push(character).is_err() {
            return Err(Fail::from("too many characters"));
        }
    }
    Ok(characters)
}

/// Reads a mark: `b:AT:SEEN` or `e:AT:SEEN:CHARACTERS`.
fn mark(word: &str) -> Result<Mark, Fail> {
    let mut parts = word.split(':');
    let kind = parts.next().ok_or("a mark has no kind")?;
    let moment = at(parts.next().ok_or("a mark has no moment")?.parse::<u64>()?)?;
    let seen = at(
        parts
            .next()
            .ok_or("a mark was not delivered")?
            .parse::<u64>()?,
    )?;
    if kind == "b" {
        return Ok(Mark::Begin { at: moment, seen });
    }
    let chars = characters(parts.next().ok_or("an end has no characters")?)?;
    Ok(Mark::End {
        at: moment,
        seen,
        chars,
    })
}

/// Whether no mark has a moment later than the clock.
fn are_over(marks: &[Mark], now: Moment) -> bool
    ensures { result ≡ true → AreOver now marks.now }
{
    marks.iter().all(|mark| moment(mark) <= now)
}

/// The moment of the begin or end.
fn moment(mark: &Mark) -> Moment
    ensures { result ≡ moment_of (mark_of mark.now) }
{
    match mark {
        Mark::Begin { at, .. } | Mark::End { at, .. } => *at,
    }
}

/// Whether a moment is the one in a word; `-` means none.
fn same_moment(moment: Option<Moment>, word: &str) -> Result<bool, Fail> {
    if word == "-" {
        return Ok(moment.is_none());
    }
    Ok(moment.map(|moment| moment.get()) == Some(word.parse::<u64>()?))
}

/// Whether octets are those in hex; `-` means none.
fn same_octets(octets: &Option<ArrayVec<u8, 255>>, hex: &str) -> Result<bool, Fail> {
    match octets {
        None => Ok(hex == "-"),
        Some(octets) => {
            let characters = characters(hex)?;
            let same = octets
                .iter()
                .zip(&characters)
                .all(|(octet, character)| RxChar::Good(*octet) == *character);
            Ok(same && octets.len() == characters.len())
        }
    }
}

/// A station after a turn, and whether the turn was as its line says.
#[derive(Drop)]
struct Step {
    station: Station,
    agrees: bool,
}

/// Takes the turn of a line.
fn take_turn(alloc: Global, station: Station, line: &str) -> Result<Step, Fail> {
    let mut words = line.split_whitespace();
    let now = at(word(&mut words)?.parse::<u64>()?)?;
    let due_before = word(&mut words)?;
    let says = word(&mut words)?;
    let phase = word(&mut words)?;
    let due_after = word(&mut words)?;
    let mut marks = Vec::new(alloc);
    for word in words {
        marks.push(mark(word)?)?;
    }
    let was_due = same_moment(due(&station, &marks), due_before)?;
    if now.get() > LAST_TURN || !are_over(&marks, now) {
        return Err(Fail::from("the turn is too early or too late"));
    }
    let glance = Glance {
        tap: 0,
        station,
        marks,
        now,
    };
    let decision = decide(alloc, glance)?;
    let spoke = same_octets(&decision.speak, says)?;
    let agrees = decision.after.phase().name() == phase
        && same_moment(due(&decision.after, &[]), due_after)?;
    Ok(Step {
        station: decision.after,
        agrees: was_due && spoke && agrees,
    })
}

/// A master with address 1 listens, and claims the token when the silence has lasted for its time-out.
#[test]
fn a_new_master_listens_and_claims(rt: HostRuntime) -> Result<(), Fail> {
    let alloc = rt.alloc();
    let mut station = master(alloc)?;
    equal(&rt, &station.phase().name(), &"Offline");
    equal(&rt, &NoMemory.to_string(alloc)?.as_str(), &"NoMemory");
    assert!(rt; due(&station, &[]).is_none());
    equal(&rt, &station.tap(), &0);
    equal(&rt, &station.address(), &1);
    equal(&rt, &station.params().tsl(), &100);
    station.start(at(0)?);
    equal(&rt, &station.phase().name(), &"Listening");
    assert!(rt; !station.las().complete());
    assert!(rt; same_moment(due(&station, &[]), "800")?);
    let first = take_turn(alloc, station, "800 800 dc0101 Claim 870")?;
    assert!(rt; first.agrees);
    assert!(rt; first.station.las().complete());
    Ok(())
}

/// A passive station that has started.
fn passive(alloc: Global, address: u8) -> Result<Station, Fail>
    requires { address ≤ 126 }
{
    let mut reply = ArrayVec::new();
    reply.push(address);
    let mut station = Station::new(alloc, 3, usual()?, address, false, reply)?;
    station.start(at(40)?);
    Ok(station)
}

/// A station is copied into the box of another, whatever that was, and so is the station after a turn.
#[test]
fn stations_are_copied_in_the_room_of_others(rt: HostRuntime) -> Result<(), Fail> {
    let alloc = rt.alloc();
    let mut spares = Spares::new(alloc);
    spares.keep(passive(alloc, 7)?, passive(alloc, 9)?);
    let mut station = master(alloc)?;
    station.start(at(0)?);
    let copy = spares.copy_of(alloc, &station)?;
    assert!(rt; copy.is_same(&station));
    let first = take_turn(alloc, copy, "800 800 dc0101 Claim 870")?;
    assert!(rt; first.agrees);
    let again = spares.copy_of(alloc, &station)?;
    assert!(rt; again.is_same(&station));
    Ok(())
}

/// An inbox keeps marks in order, each with its characters: a token's, noise, an acknowledgement or those of a damaged
/// telegram. A station is due when the first of them was delivered.
#[test]
fn an_inbox_keeps_marks_in_their_order(rt: HostRuntime) -> Result<(), Fail> {
    let alloc = rt.alloc();
    let mut inbox = Inbox::new(alloc)?;
    inbox.push_begin(at(700)?, at(701)?);
    inbox.push_good_end(at(733)?, at(733)?, &[0xdc, 0x02, 0x01]);
    inbox.push_begin(at(750)?, at(751)?);
    inbox.push_noise(at(761)?, at(762)?);
    inbox.push_good_end(at(772)?, at(772)?, &[0xe5]);
    inbox.push_end(at(794)?, at(795)?, &[RxChar::Good(0x10), RxChar::Bad]);
    assert_eq!(rt; inbox.len(), 6);
    let mut told = Vec::new(alloc);
    for word in [
        "b:700:701",
        "e:733:733:dc0201",
        "b:750:751",
        "e:761:762:--",
        "e:772:772:e5",
        "e:794:795:10--",
    ] {
        told.push(mark(word)?)?;
    }
    assert!(rt; inbox.are(&told));
    let copies = inbox.copy_marks(alloc)?;
    assert!(rt; copies.as_slice() == told.as_slice());
    let mut station = master(alloc)?;
    station.start(at(0)?);
    assert!(rt; same_moment(station.due(&inbox), "701")?);
    assert!(rt; !station.is_overdue(&inbox, 0, at(700)?, 1));
    assert!(rt; station.is_overdue(&inbox, 0, at(700)?, 2));
    inbox.clear();
    assert!(rt; !inbox.are(&told));
    assert!(rt; same_moment(station.due(&inbox), "800")?);
    assert!(rt; !station.is_overdue(&inbox, 10, at(700)?, 110));
    assert!(rt; station.is_overdue(&inbox, 10, at(700)?, 111));
    Ok(())
}

/// Whether a moment is past by more than a lag after a pass of time of any length. `None` never is.
#[test]
fn moments_pass(rt: HostRuntime) -> Result<(), Fail> {
    let moment = Some(at(800)?);
    assert!(rt; !is_past(moment, 10, at(700)?, 110));
    assert!(rt; is_past(moment, 10, at(700)?, 111));
    assert!(rt; is_past(moment, u32::MAX, at(900)?, u64::MAX));
    assert!(rt; !is_past(None, 0, at(900)?, u64::MAX));
    Ok(())
}

/// A passive station waits for requests, and is not due by itself.
#[test]
fn a_passive_station_waits(rt: HostRuntime) -> Result<(), Fail> {
    let alloc = rt.alloc();
    let mut station = Station::new(alloc, 2, usual()?, 9, false, ArrayVec::new())?;
    station.start(at(40)?);
    equal(&rt, &station.phase().name(), &"PassiveIdle");
    equal(&rt, &station.address(), &9);
    assert!(rt; due(&station, &[]).is_none());
    Ok(())
}

/// A lone station asks its GAP. A listener learns the ring, joins it, and takes and passes the token; after any
/// activity, also damage, it does not pass it again. A station that was skipped twice listens again. A station that
/// hears its namesake goes offline. With marks that no bus gives, a token that is taken before the answer to a request
/// is sent leaves that answer, and it is sent after the token is lost.
#[test]
fn stations_take_their_turns(rt: HostRuntime) -> Result<(), Fail> {
    let alloc = rt.alloc();
    let mut station = master(alloc)?;
    for line in TURNS.lines() {
        if line == "start" {
            station = master(alloc)?;
            station.start(at(0)?);
            continue;
        }
        let next = take_turn(alloc, station, line)?;
        assert!(rt; next.agrees, "{line}");
        station = next.station;
    }
    Ok(())
}
