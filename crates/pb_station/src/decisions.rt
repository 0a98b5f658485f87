//! A turn that is computed outside the world: from a glance, a decision.

ghost use Rattle.std.specs.Prelude.{◌≡◌, ◌≤◌, IfOk, map, option_map};
ghost use Rattle.pb_station.specs.Decisions.{IsDecision, octets_of};
ghost use Rattle.law_turn.specs.Stations as turn;
ghost use Rattle.pb_transitions.specs.Clocks.{last_turn};
ghost use Rattle.pb_station.specs.MarkViews.{mark_of, AreOver};

use crate::marks::Mark;
use crate::stations::Station;
use arrayvec::ArrayVec;
use pb_faults::NoMemory;
use pb_telegram::copy_octets;
use pb_timers::Moment;
use pb_transitions::SendBuffer;
use std::alloc::Global;
use std::marker::Model;

/// The state of one station, as a worker sees it.
#[derive(Debug, Drop)]
pub struct Glance {
    /// The index of the station's tap, from 0.
    pub tap: usize,
    /// The station.
    pub station: Station,
    /// Its unread marks.
    pub marks: Vec<Mark>,
    /// The clock.
    pub now: Moment,
}

/// A turn of a station: `after` is the station `before` after its turn at `now`, with the unread marks `marks`; it
/// sends the octets `speak`. Every value of this type is such a turn.
#[derive(Debug, Drop)]
pub struct Decision {
    /// The index of the station's tap, from 0.
    pub tap: usize,
    /// The station before its turn.
    pub before: Station,
    /// Its unread marks.
    pub marks: Vec<Mark>,
    /// The moment of the turn.
    pub now: Moment,
    /// The station after its turn.
    pub after: Station,
    /// The octets that it sends, if any.
    pub speak: Option<ArrayVec<u8, 255>>,
}

impl Model for Decision {
    ghost use Rattle.pb_station.specs.Decisions.{DecisionView, decision_view, IsDecision};

    ghost Value = { DecisionView };

    ghost view = { decision_view };

    ghost invariant = { λ d. IsDecision (decision_view d) };
}

impl Decision {
    ghost use Rattle.std.specs.Prelude.{◌≡◌};

    /// The same turn, with its octets moved to `octets`.
    pub fn lend<'a>(self, octets: &'a mut Option<ArrayVec<u8, 255>>) -> Decided<'a>
        ensures { result ≡ self }
    {
        let Decision {
            tap,
            before,
            marks,
            now,
            after,
            speak,
        } = self;
        *octets = speak;
        Decided {
            tap,
            before,
            marks,
            now,
            after,
            speak: octets.as_ref(),
        }
    }
}

/// A turn of a station, as in a [`Decision`], with its octets in the buffer with which it was decided. A turn in which
/// nothing is sent thus needs no memory for octets.
#[derive(Debug, Drop)]
pub struct Decided<'a> {
    /// The index of the station's tap, from 0.
    pub tap: usize,
    /// The station before its turn.
    pub before: Station,
    /// Its unread marks.
    pub marks: Vec<Mark>,
    /// The moment of the turn.
    pub now: Moment,
    /// The station after its turn.
    pub after: Station,
    /// The octets that it sends, if any.
    pub speak: Option<&'a ArrayVec<u8, 255>>,
}

impl<'a> Model for Decided<'a> {
    ghost use Rattle.pb_station.specs.Decisions.{DecisionView, decided_view, IsDecision};

    ghost Value = { DecisionView };

    ghost view = { decided_view };

    ghost invariant = { λ d. IsDecision (decided_view d) };
}

/// Computes the turn of the station in a glance: it reads its unread marks, and the timers between them, in order of
/// time (a mark first at equal moments), and then speaks if its moment has come (EN 50170-2, states of the data link
/// layer). It changes nothing. The caller ensures that `now` is at most 2^61, and that no moment of a mark is later
/// than `now`.
///
/// Fault: `NoMemory` if memory was refused, for the station before and after.
#[inline(always)]
pub fn decide(alloc: Global, glance: Glance) -> Result<Decision, NoMemory>
    requires clock { glance.now ≤ last_turn }
    requires over { AreOver glance.now glance.marks.items }
    ensures turn { IfOk result IsDecision }
    ensures glance { IfOk result (λ d. (d.tap ≡ glance.tap) × (d.before ≡ glance.station)
        × (d.marks ≡ glance.marks.items) × (d.now ≡ glance.now)) }
{
    let mut out = SendBuffer::new();
    let Decided {
        tap,
        before,
        marks,
        now,
        after,
        speak,
    } = decide_in(alloc, glance, &mut out)?;
    Ok(Decision {
        tap,
        before,
        marks,
        now,
        after,
        speak: copied(speak),
    })
}

/// A copy of the octets.
fn copied(speak: Option<&ArrayVec<u8, 255>>) -> Option<ArrayVec<u8, 255>>
    ensures { octets_of result ≡ option_map (λ o. o.now.items) speak.entry }
{
    match speak {
        Some(octets) => Some(copy_octets(octets)),
        None => None,
    }
}

/// Computes the same turn as [`decide`], with its octets in a buffer that can be reused for the next turn. The old
/// content of the buffer is discarded. The caller's conditions are the same.
///
/// Fault: `NoMemory` if memory was refused, for the station before and after.
#[inline(always)]
pub fn decide_in<'a>(
    alloc: Global,
    glance: Glance,
    out: &'a mut SendBuffer,
) -> Result<Decided<'a>, NoMemory>
    requires clock { glance.now ≤ last_turn }
    requires over { AreOver glance.now glance.marks.items }
    ensures turn { IfOk result IsDecision }
    ensures glance { IfOk result (λ d. (d.tap ≡ glance.tap) × (d.before ≡ glance.station)
        × (d.marks ≡ glance.marks.items) × (d.now ≡ glance.now)) }
{
    let Glance {
        tap,
        mut station,
        marks,
        now,
    } = glance;
    let mut after = station.copy_in_room(alloc)?;
    after.turn_on(&marks, now, out);
    Ok(Decided {
        tap,
        before: station,
        marks,
        now,
        after,
        speak: out.sent(),
    })
}

/// When a station has to take its turn: the earliest of the delivery of its first unread mark, its timer, which waits
/// while the station is busy, and its speaking moment. `None` if it waits for nothing.
pub fn due(station: &Station, marks: &[Mark]) -> Option<Moment>
    ensures { result ≡ turn.due_of station.now.params station.now.station (map mark_of marks.now) }
{
    station.due_on(marks)
}
