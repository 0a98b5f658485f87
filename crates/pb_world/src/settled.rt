//! Whether the ring of a bus is settled.

ghost use Rattle.std.specs.Prelude.{◌≡◌, ◌≤◌, map};
ghost use Rattle.std.specs.List.{list_all, list_any};
ghost use Rattle.law_model.specs.Laws.{AllInOrder, InOrder};
ghost use Rattle.law_model.specs.World.{clock_limit};
ghost use Rattle.law_turn.specs.Phases.{is_offline};
ghost use Rattle.law_rings.specs.Settled.{has_token, is_active, is_in_place, is_over, is_well, lists, ring_of};
ghost use Rattle.pb_medium.specs.Entries.{entry_of};
ghost use Rattle.pb_taps.specs.Taps.{tap_of};
ghost use Rattle.pb_tokenfsm.specs.Phases.{phase_of};
ghost use Rattle.pb_world.specs.Settled.{ShareParams};

use crate::buses::Bus;
use pb_medium::Entry;
use pb_ring::{Addresses, Las};
use pb_taps::Tap;
use pb_timers::{BusParams, Moment};
use pb_tokenfsm::Phase;

impl Bus {
    ghost use Rattle.std.specs.Prelude.{◌≡◌};
    ghost use Rattle.std.specs.List.{list_all};
    ghost use Rattle.law_rings.specs.Settled.{is_over, is_settled};
    ghost use Rattle.pb_world.specs.Buses.{world_of, IsKept};

    /// Whether the ring is settled: all its stations agree on who belongs to it and have had the token, one of them has
    /// it, no station has a reply to send, and nothing is on its way.
    pub fn is_settled(&self) -> bool
        requires { IsKept self.now }
        ensures { result ≡ is_settled (world_of self.entry.now) }
    {
        let ring = ring_of(&self.params, &self.taps, self.now);
        are_well(&self.params, ring, &self.taps, self.now)
            && some_has_token(&self.params, &self.taps, self.now)
            && self.is_clear()
    }

    /// Whether each entry ended at least a cable delay ago. Without a delay those that are not recent have.
    fn is_clear(&self) -> bool
        requires { IsKept self.now }
        ensures { let w = world_of self.entry.now in result ≡ list_all (is_over w.params.ttd w.now) w.trace }
    {
        let delay = self.params.ttd();
        if delay == 0 {
            are_over(self.trace.recent(), delay, self.now)
        } else {
            are_over(self.trace.entries(), delay, self.now)
        }
    }
}

/// The addresses of the stations of the ring.
fn ring_of(params: &BusParams, taps: &[Tap], now: Moment) -> Addresses
    requires clock { now ≤ clock_limit }
    requires order { AllInOrder now (map tap_of taps.now) }
    requires params { ShareParams params.now taps.now }
    ensures { result ≡ ring_of params.now (map tap_of taps.now) }
{
    let [tap, others @ ..] = taps else {
        return Addresses::none();
    };
    let mut ring = ring_of(params, others, now);
    if is_active(params, tap, now) {
        ring.insert(tap.station.address());
    }
    ring
}

/// Whether a tap's station belongs to the ring.
fn is_active(params: &BusParams, tap: &Tap, now: Moment) -> bool
    requires clock { now ≤ clock_limit }
    requires order { InOrder 0 tap.now.marks now }
    requires params { tap.now.station.params ≡ params.now }
    ensures { result ≡ is_active params.now (tap_of tap.now) }
{
    tap.running && tap.station.is_master() && !is_offline(&tap.standing(now).phase)
}

fn is_offline(phase: &Phase) -> bool
    ensures { result ≡ is_offline (phase_of phase.now) }
{
    matches!(phase, Phase::Offline(_))
}

/// Whether each tap's station is ready for the ring's next event.
fn are_well(params: &BusParams, ring: Addresses, taps: &[Tap], now: Moment) -> bool
    requires clock { now ≤ clock_limit }
    requires order { AllInOrder now (map tap_of taps.now) }
    requires params { ShareParams params.now taps.now }
    ensures { result ≡ list_all (is_well params.now ring now) (map tap_of taps.now) }
{
    match taps {
        [] => true,
        [tap, others @ ..] => is_well(params, ring, tap, now)
            && are_well(params, ring, others, now),
    }
}

/// Whether a tap does not run; or it has started before, has no reply to send, and is in its place.
fn is_well(params: &BusParams, ring: Addresses, tap: &Tap, now: Moment) -> bool
    requires clock { now ≤ clock_limit }
    requires order { InOrder 0 tap.now.marks now }
    requires params { tap.now.station.params ≡ params.now }
    ensures { result ≡ is_well params.now ring now (tap_of tap.now) }
{
    if !tap.running {
        return true;
    }
    let standing = tap.standing(now);
    let in_ring = lists(ring, tap.station.address(), &standing.las) && standing.has_received;
    tap.since < now.get()
        && !standing.replies
        && is_in_place(&standing.phase, tap.station.is_master(), in_ring)
}

/// Whether a list is complete and has these members, and the station is in the ring by it, at its address, and no token
/// has skipped it.
fn lists(ring: Addresses, address: u8, las: &Las) -> bool
    ensures { result ≡ lists ring address las.now.stage }
{
    match las.place() {
        Some(place) => {
            las.members().equals(ring) && place.address == address && place.skipped == 0
        }
        None => false,
    }
}

/// Whether the phase is one of a running station in its place.
fn is_in_place(phase: &Phase, master: bool, in_ring: bool) -> bool
    ensures { result ≡ is_in_place (phase_of phase.now) master in_ring }
{
    match phase {
        Phase::Offline(_) => true,
        Phase::PassiveIdle(_) => !master,
        Phase::Listening(_) | Phase::Claim(_) | Phase::Pass(_) => false,
        Phase::Idle(_)
        | Phase::Use(_)
        | Phase::AwaitData(_)
        | Phase::AwaitStatus(_)
        | Phase::Checking(_) => master && in_ring,
    }
}

/// Whether some running station has the token.
fn some_has_token(params: &BusParams, taps: &[Tap], now: Moment) -> bool
    requires clock { now ≤ clock_limit }
    requires order { AllInOrder now (map tap_of taps.now) }
    requires params { ShareParams params.now taps.now }
    ensures { result ≡ list_any (has_token params.now) (map tap_of taps.now) }
{
    match taps {
        [] => false,
        [tap, others @ ..] => has_token(params, tap, now) || some_has_token(params, others, now),
    }
}

fn has_token(params: &BusParams, tap: &Tap, now: Moment) -> bool
    requires clock { now ≤ clock_limit }
    requires order { InOrder 0 tap.now.marks now }
    requires params { tap.now.station.params ≡ params.now }
    ensures { result ≡ has_token params.now (tap_of tap.now) }
{
    tap.running && tap.standing(now).phase.may_initiate()
}

/// Whether each entry ended at least a cable delay ago.
fn are_over(entries: &[Entry], delay: u32, now: Moment) -> bool
    ensures { result ≡ list_all (is_over delay now) (map entry_of entries.now) }
{
    entries.iter().all(|entry| is_over(entry, delay, now))
}

fn is_over(entry: &Entry, delay: u32, now: Moment) -> bool
    ensures { result ≡ is_over delay now (entry_of entry.now) }
{
    let end = entry.end();
    end <= now.get() && u64::from(delay) <= now.get() - end
}
