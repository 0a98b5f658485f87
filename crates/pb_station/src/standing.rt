//! How a station stands, once it has read its unread marks, and what it executes as it reads them.

ghost use Rattle.std.specs.Prelude.{◌≡◌, ◌≤◌, map};
ghost use Rattle.std.specs.Vec.{vec_capacity};
ghost use Rattle.law_turn.specs.Turns.{after_marks};
ghost use Rattle.pb_transitions.specs.Clocks.{last_turn};
ghost use Rattle.pb_transitions.specs.Cores.{station_of};
ghost use Rattle.pb_station.specs.Indications.{fields_of, indications_of};
ghost use Rattle.pb_station.specs.MarkViews.{AllOver};
ghost use Rattle.pb_station.specs.Standing.{StandsAs};

use crate::inboxes::{Inbox, Unread};
use crate::indications::Indication;
use crate::reading::{after_notes, after_notes_into};
use pb_ring::Las;
use pb_timers::{BusParams, Moment};
use pb_tokenfsm::Phase;
use pb_transitions::Core;

/// How a station stands in the ring, once it has read its unread marks: without a turn, so its timers go on.
#[derive(Debug, Drop)]
pub struct Standing {
    pub phase: Phase,
    /// Its list of active stations.
    pub las: Las,
    /// Whether it has a reply to send.
    pub replies: bool,
    /// Whether it has received the token since its start.
    pub has_received: bool,
}

/// How a station with these unread marks stands.
pub(crate) fn stands_as(core: &Core, params: &BusParams, inbox: &Inbox, now: Moment) -> Standing
    requires clock { now ≤ last_turn }
    requires over { AllOver now inbox.now }
    ensures { StandsAs (after_marks params.now (station_of core.now) inbox.now) result }
{
    let mut kept = core.kept.copy();
    let mut phase = core.phase.copy();
    let Unread {
        notes,
        chars,
        octets,
    } = inbox.unread();
    after_notes(&mut phase, &mut kept, params, notes, chars, octets, now);
    Standing {
        phase,
        las: kept.las,
        replies: kept.reply.is_some(),
        has_received: kept.rotation.has_received(),
    }
}

/// The requests of others that a station with these unread marks executes as it reads them. They replace the content of
/// `told`, which has memory for 64.
pub(crate) fn would_execute(
    core: &Core,
    params: &BusParams,
    inbox: &Inbox,
    now: Moment,
    told: &mut Vec<Indication>,
)
    requires clock { now ≤ last_turn }
    requires over { AllOver now inbox.now }
    requires room { 64 ≤ vec_capacity told.old }
    ensures told { map fields_of told.new.items
        ≡ indications_of params.now (station_of core.now) inbox.now }
    ensures room { vec_capacity told.new ≡ vec_capacity told.old }
{
    let mut kept = core.kept.copy();
    let mut phase = core.phase.copy();
    after_notes_into(&mut phase, &mut kept, params, &inbox.unread(), now, told);
}
