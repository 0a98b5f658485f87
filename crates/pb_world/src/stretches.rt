//! The longest stretches of a run without a token and without noise, as its events happen.

ghost use Rattle.std.specs.Prelude.{◌≡◌, ◌+◌, ◌-◌, ◌*◌, ◌≤◌, ◌++◌, [], ◌∷◌, IfErr, OnOk, List, length, map};
ghost use Rattle.std.specs.List.{list_any};
ghost use Rattle.law_live.specs.NeverDead as live;
ghost use Rattle.pb_medium.specs.Entries.{entry_of};
ghost use Rattle.law_model.specs.Step.{step};
ghost use Rattle.law_model.specs.World as model;
ghost use Rattle.law_model.specs.World.{World};
ghost use Rattle.pb_world.specs.Buses.{world_of, IsKept};
ghost use Rattle.pb_taps.specs.Events.{event_of};
ghost use Rattle.pb_taps.specs.Faults.{Refuses};
ghost use Rattle.pb_taps.specs.Taps.{tap_of};
ghost use Rattle.pb_world.specs.Liveness.{AreLonger, AreStretches, calm_after, ends_stretch, ends_within, longer, stretch_of};
ghost use Rattle.pb_world.specs.Meanings.{meaning_of};
ghost use Rattle.law_turn.specs.Arrivals.{Arrival};

use crate::buses::Bus;
use crate::initiators::{Meaning, meaning_of};
use crate::premises::time_in;
use pb_medium::Entry;
use pb_taps::{Event, TAP_LIMIT, Tap, WorldFault};
use pb_timers::{BusParams, Moment, bits};
use pb_tokenfsm::Phase;
use std::alloc::Global;

/// The octets of the longest telegram.
const LONGEST: usize = 255;

/// A stretch of time in which a master ran, was not offline, and no token telegram and no noise was on the bus. All in
/// bit times.
#[derive(Clone, Copy, Debug, PartialEq, Eq)]
pub struct Stretch {
    /// The moment at which it began.
    pub begin: u64,
    /// How long it lasted, at least 1.
    pub length: u64,
    /// How long one lasts at most in a run that keeps the premises.
    pub bound: u64,
}

/// The longest stretches so far of a bus that is followed.
#[derive(Clone, Copy, Debug)]
pub(crate) struct LongestSoFar {
    /// The moment since which no token and no noise has been on the bus before the clock.
    pub calm: u64,
    /// By tap.
    pub longest: [Option<Stretch>; TAP_LIMIT],
}

impl LongestSoFar {
    ghost use Rattle.std.specs.Prelude.{◌≡◌, None, replicate};

    /// Those of a new bus.
    pub(crate) fn none() -> LongestSoFar
        ensures calm { result.calm ≡ 0 }
        ensures none { result.longest ≡ replicate 127 None }
    {
        LongestSoFar {
            calm: 0,
            longest: [None; TAP_LIMIT],
        }
    }
}

/// Does an event on a bus whose stretches are known. Only as time passes a stretch grows.
pub(crate) fn follow(
    stretches: &mut LongestSoFar,
    alloc: Global,
    bus: &mut Bus,
    event: &Event,
) -> Result<(), WorldFault>
    requires kept { IsKept bus.old }
    ensures kept { IsKept bus.new }
    ensures goes { OnOk result ((start : World) (events : List model.Event)
        → AreStretches stretches.old bus.old start events
        → AreStretches stretches.new bus.new start (events ++ event_of event.now ∷ [])) }
    ensures err { IfErr result (λ fault. (world_of bus.new ≡ world_of bus.old)
        × Refuses (world_of bus.old) (event_of event.now)
        (step (world_of bus.old) (event_of event.now)) fault) }
{
    let Some(bits) = time_in(event) else {
        return bus.apply(alloc, event);
    };
    let is_heard = has_token_or_noise(bus, bus.now.get().saturating_add(bits));
    bus.apply(alloc, event)?;
    stretches.calm = calm_after(is_heard, bus.now, stretches.calm);
    lengthen(&mut stretches.longest, bus, stretches.calm);
    Ok(())
}

/// The moment since which no token and no noise has been on the bus, after a pass in which one was there or not.
fn calm_after(is_heard: bool, now: Moment, calm: u64) -> u64
    ensures { result ≡ calm_after is_heard now calm }
{
    if is_heard { now.get() } else { calm }
}

/// Whether a token or noise is on the bus from the clock on, before a moment.
fn has_token_or_noise(bus: &Bus, to: u64) -> bool
    requires { IsKept bus.now }
    ensures { result
        ≡ list_any (ends_within bus.entry.now.now to) (world_of bus.entry.now).trace }
{
    ends_within(bus.trace.recent(), bus.now.get(), to)
}

/// Whether one of some entries is a token or noise on the bus from one moment on, before another.
fn ends_within(entries: &[Entry], from: u64, to: u64) -> bool
    ensures { result ≡ list_any (ends_within from to) (map entry_of entries.now) }
{
    entries.iter().any(|entry| ends_within_one(entry, from, to))
}

/// Whether an entry is a token or noise on the bus from one moment on, before another.
fn ends_within_one(entry: &Entry, from: u64, to: u64) -> bool
    ensures { result ≡ ends_within from to (entry_of entry.now) }
{
    ends_stretch(entry) && entry.begin() < to && from < entry.end()
}

/// Whether an entry is a token or noise.
fn ends_stretch(entry: &Entry) -> bool
    ensures { result ≡ ends_stretch (entry_of entry.now) }
{
    match entry {
        Entry::Sent(sent) => is_token(meaning_of(sent)),
        Entry::Noise { .. } => true,
    }
}

/// Whether a telegram with a meaning is a token.
fn is_token(meaning: Meaning) -> bool
    ensures { (a : Arrival) → meaning ≡ meaning_of a → result ≡ live.is_token_telegram a }
{
    matches!(meaning, Meaning::Token { .. })
}

/// Keeps of each tap the longer of its longest stretch and the one at the clock.
fn lengthen(longest: &mut [Option<Stretch>; TAP_LIMIT], bus: &Bus, calm: u64)
    requires { IsKept bus.now }
    ensures { AreLonger (world_of bus.entry.now) calm longest.old longest.new }
{
    for (place, tap) in bus.taps.iter().enumerate() {
        longest[place] = longer(longest[place], stretch_of(bus, tap, calm));
    }
}

/// The stretch that a tap is in at the clock, by the moment since which no token and no noise has been on the bus.
fn stretch_of(bus: &Bus, tap: &Tap, calm: u64) -> Option<Stretch>
    ensures { result ≡ stretch_of (world_of bus.entry.now) calm (Some (tap_of tap.now)) }
{
    let begin = tap.since.max(calm);
    let now = bus.now.get();
    let is_on = tap.running
        && tap.station.is_master()
        && !matches!(tap.station.phase(), Phase::Offline(_));
    if !is_on || begin >= now {
        return None;
    }
    Some(Stretch {
        begin,
        length: now - begin,
        bound: longest_without(&bus.params, tap.station.address()),
    })
}

/// The longer of two stretches, the first of two as long.
fn longer(before: Option<Stretch>, stretch: Option<Stretch>) -> Option<Stretch>
    ensures { result ≡ longer before stretch }
{
    let Some(new) = stretch else {
        return before;
    };
    match before {
        Some(old) if old.length >= new.length => before,
        _ => stretch,
    }
}

/// How long the bus may be without a token and without noise for a running master of an address that is not offline, in
/// bit times, in a run that keeps the premises: the target rotation time but for its last bit time, two cycles with all
/// retries, the second to the end of its reply, the master's time-out, the lag and the cable delay.
pub fn longest_without(params: &BusParams, address: u8) -> u64
    ensures { result ≡ live.longest_without params.now address }
{
    let rotation = u64::from(params.ttr()).saturating_sub(1);
    let wait = params.tto(address) + u64::from(params.lag()) + u64::from(params.ttd());
    rotation + longest_cycle(params) + (retries(params) + to_reply(params)) + wait
}

/// The longest message cycle with all its retries, up to the turn that follows, in bit times.
pub fn longest_cycle(params: &BusParams) -> u64
    ensures value { result ≡ live.cycle params.now }
    ensures short { result ≤ 40000000000 }
{
    retries(params) + attempt(params)
}

/// The retries of a message cycle, in bit times.
fn retries(params: &BusParams) -> u64
    ensures value { result ≡ live.tries params.now.retries (live.attempt params.now) }
    ensures short { result ≤ 420000 }
{
    u64::from(params.retries()) * attempt(params)
}

/// One attempt of a message cycle, up to the turn that follows, in bit times.
fn attempt(params: &BusParams) -> u64
    ensures value { result ≡ live.attempt params.now }
    ensures short { result ≤ 30000000000 }
{
    to_reply(params) + u64::from(params.tid1()) + u64::from(params.lag())
}

/// One attempt of a message cycle, up to the end of its reply, in bit times.
fn to_reply(params: &BusParams) -> u64
    ensures value { result ≡ 2 * live.longest + (params.now.tsl - 1) }
    ensures short { result ≤ 10000000000 }
{
    2 * bits(LONGEST) + u64::from(params.tsl()).saturating_sub(1)
}
