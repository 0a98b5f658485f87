//! Turns of the stations at the taps.

ghost use Rattle.std.specs.Prelude.{◌≡◌, ◌≤◌, ◌<◌, [], is_some, option_map, OnOk, IfErr, Some, slice_get, length, map};
ghost use Rattle.law_model.specs.Laws.{AllInOrder, InOrder};
ghost use Rattle.law_model.specs.World.{clock_limit};
ghost use Rattle.std.specs.Vec.{vec_capacity};
ghost use Rattle.law_turn.specs.Turns.{after_marks};
ghost use Rattle.pb_station.specs.Indications.{fields_of, indications_of};
ghost use Rattle.pb_station.specs.Standing.{StandsAs};
ghost use Rattle.pb_taps.specs.Glancing.{FitsTap};
ghost use Rattle.pb_taps.specs.Taps.{tap_of};
ghost use Rattle.pb_taps.specs.Turning.{says, turned_tap, Runs, TakesTurn, RefusesStopped};
ghost use Rattle.pb_taps.specs.declared.taps.Tap as declared;

use crate::faults::WorldFault;
use crate::taps::Tap;
use arrayvec::ArrayVec;
use pb_station::{Decided, Indication, SendBuffer, Standing, Station};
use pb_timers::Moment;
use std::mem::replace;

/// Checks whether a tap runs.
///
/// Faults, the first that applies: `NoSuchTap`; `NotRunning`.
pub fn check_running(taps: &[Tap], tap: usize) -> Result<(), WorldFault>
    ensures ok { OnOk result (Runs taps.now tap) }
    ensures fault { IfErr result (RefusesStopped taps.now tap) }
{
    let Some(tap) = taps.get(tap) else {
        return Err(WorldFault::NoSuchTap);
    };
    if !tap.running {
        return Err(WorldFault::NotRunning);
    }
    Ok(())
}

/// Whether the station at a tap would send anything in its turn, which it does not take.
pub fn would_speak(taps: &[Tap], tap: usize, now: Moment) -> bool
    requires place { tap < length taps.now }
    requires clock { now ≤ clock_limit }
    requires order { AllInOrder now (map tap_of taps.now) }
    ensures { (t : declared.Tap) → slice_get taps.now tap ≡ Some t → result ≡ is_some (says t now) }
{
    would_say(&taps[tap], now)
}

impl Tap {
    /// How its station stands in the ring once it has read its unread marks. It changes nothing. The caller ensures
    /// that no mark has a moment after `now`.
    pub fn standing(&self, now: Moment) -> Standing
        requires clock { now ≤ clock_limit }
        requires order { InOrder 0 self.now.marks now }
        ensures { let s = self.now.station in
            StandsAs (after_marks s.params s.station self.now.marks) result }
    {
        self.station.standing(&self.marks, now)
    }

    /// The requests of others that its station executes in a turn at `now`: they replace the content of `told`. It
    /// changes nothing else. The caller ensures that no mark has a later moment, and that `told` has memory for 64.
    pub fn would_execute(&self, now: Moment, told: &mut Vec<Indication>)
        requires clock { now ≤ clock_limit }
        requires order { InOrder 0 self.now.marks now }
        requires room { 64 ≤ vec_capacity told.old }
        ensures told { let s = self.now.station in
            map fields_of told.new.items ≡ indications_of s.params s.station self.now.marks }
        ensures room { vec_capacity told.new ≡ vec_capacity told.old }
    {
        self.station.would_execute(&self.marks, now, told);
    }
}

/// The station at a tap takes its turn: it reads all its marks, and sends into `out`.
pub fn take_turn(taps: &mut [Tap], tap: usize, now: Moment, out: &mut SendBuffer)
    requires place { tap < length taps.old }
    requires clock { now ≤ clock_limit }
    requires order { AllInOrder now (map tap_of taps.old) }
    ensures { TakesTurn taps.old tap now taps.new out.new }
{
    turn(&mut taps[tap], now, out);
}

/// Stations that were replaced by a decided turn.
#[derive(Debug, Drop)]
pub struct Replaced {
    /// The station that was at the tap.
    pub was: Station,
    /// The station from which the turn was decided.
    pub before: Station,
}

/// The station at a tap takes a decided turn, and sends into `out`. The caller ensures that the decision fits. Both
/// replaced stations are returned.
#[inline(always)]
pub fn take_decided(
    taps: &mut [Tap],
    decided: Decided<'_>,
    now: Moment,
    out: &mut SendBuffer,
) -> Replaced
    requires { FitsTap taps.old now decided }
    ensures turn { TakesTurn taps.old decided.entry.tap now taps.new out.new }
    ensures replaced { (result.was ≡ decided.entry.before) × (result.before ≡ decided.entry.before) }
{
    let Decided {
        tap,
        before,
        after,
        speak,
        ..
    } = decided;
    send(out, speak);
    let was = become_turned(&mut taps[tap], after);
    Replaced { was, before }
}

fn would_say(tap: &Tap, now: Moment) -> bool
    requires clock { now ≤ clock_limit }
    requires order { InOrder 0 tap.now.marks now }
    ensures { result ≡ is_some (says tap.now now) }
{
    tap.station.would_speak(&tap.marks, now)
}

fn turn(tap: &mut Tap, now: Moment, out: &mut SendBuffer)
    requires clock { now ≤ clock_limit }
    requires order { InOrder 0 tap.old.marks now }
    ensures tap { tap.new ≡ turned_tap tap.old now }
    ensures said { out.new ≡ says tap.old now }
{
    tap.station.take_turn(&tap.marks, now, out);
    tap.marks.clear();
}

/// Replaces the station of a tap by one that has read all its marks, and returns the old one.
fn become_turned(tap: &mut Tap, after: Station) -> Station
    ensures tap { tap.new ≡ record tap.old { station = after; marks = [] } }
    ensures was { result ≡ tap.old.station }
{
    tap.marks.clear();
    replace(&mut tap.station, after)
}

/// Sends these octets, if any.
fn send(out: &mut SendBuffer, said: Option<&ArrayVec<u8, 255>>)
    ensures { out.new ≡ option_map (λ o. o.now.items) said.entry }
{
    match said {
        Some(octets) => out.send(octets),
        None => out.clear(),
    }
}
