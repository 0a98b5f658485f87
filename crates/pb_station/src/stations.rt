//! A station at a tap: its state, and what is done to it.

ghost use Rattle.std.specs.Prelude.{◌≡◌, ◌≤◌, [], length};
ghost use Rattle.law_turn.specs.Stations as turn;
ghost use Rattle.pb_transitions.specs.Clocks.{last_turn};
ghost use Rattle.pb_transitions.specs.Cores.{station_with, station_of};
ghost use Rattle.law_turn.specs.Phases as phases;
ghost use Rattle.pb_tokenfsm.specs.Phases.{phase_of};

use crate::inboxes::Inbox;
use crate::indications::Indication;
use crate::mailboxes::Mailbox;
use crate::marks::Mark;
use crate::standing::{Standing, stands_as, would_execute};
use crate::turns::{
    due_of, due_on, due_with, is_overdue, read_on, speak_on, take_turn, take_turn_with, would_speak,
};
use arrayvec::ArrayVec;
use pb_cycles::{Outcome, Queue, Request};
use pb_faults::NoMemory;
use pb_ring::{Gap, Las};
use pb_rotation::Rotation;
use pb_telegram::{copy_octets, put_octets};
use pb_timers::{BusParams, Moment};
use pb_tokenfsm::{Listening, Offline, PassiveIdle, Phase};
use pb_transitions::{Address, Core, Cycles, Kept, Past, SendBuffer, Waiting, copy_outcome};
use std::alloc::Global;
use std::marker::Model;

/// A station at a tap of the bus.
#[derive(Debug, Drop)]
pub struct Station {
    /// In a box, so that moving a station moves a pointer.
    parts: Box<Parts>,
    /// A box for a copy of the station, if there is one.
    room: Option<Box<Parts>>,
}

/// The state of a station.
#[derive(Debug, Drop)]
pub(crate) struct Parts {
    tap: usize,
    params: BusParams,
    master: bool,
    reply_data: ArrayVec<u8, 246>,
    core: Core,
}

impl Model for Station {
    ghost use Rattle.pb_transitions.specs.Cores.{station_of, HasReceived};
    ghost use Rattle.pb_station.specs.Stations.{StationView, station_view};

    ghost Value = { StationView };

    ghost view = { station_view };

    ghost invariant = { λ s. HasReceived (station_of s.parts.value.core) };
}

impl Parts {
    /// Overwrites this state by another, in place.
    fn copy_from(&mut self, other: &Parts)
        ensures { self.new ≡ other.now }
    {
        self.tap = other.tap;
        self.params = other.params;
        self.master = other.master;
        put_octets(&mut self.reply_data, &other.reply_data);
        self.core.copy_from(&other.core);
    }
}

impl Station {
    ghost use Rattle.std.specs.Prelude.{◌≡◌, ◌+◌, ◌≤◌, ◌<◌, List, nat_le, length, Some, None, map, is_some, IsTrue, ◌↔◌, IfOk, OnOk, OnErr, MatchResult};
    ghost use Rattle.pb_timers.specs.Timers.{Params};
    ghost use Rattle.law_turn.specs.Stations as turn;
    ghost use Rattle.law_turn.specs.Turns.{after_marks};
    ghost use Rattle.pb_tokenfsm.specs.Phases.{phase_of};
    ghost use Rattle.pb_transitions.specs.Clocks.{last_turn, is_past};
    ghost use Rattle.pb_station.specs.Decisions.{turned};
    ghost use Rattle.pb_station.specs.Halves.{at_clock, has_come, spoken};
    ghost use Rattle.std.specs.Vec.{vec_capacity};
    ghost use Rattle.pb_station.specs.Indications.{fields_of, indications_of};
    ghost use Rattle.pb_station.specs.Mailboxes.{read_mail};
    ghost use Rattle.pb_station.specs.Stations.{with_reply};
    ghost use Rattle.pb_station.specs.MarkViews.{mark_of, AllOver, AreOver};
    ghost use Rattle.pb_station.specs.Standing.{StandsAs};

    /// A station that does not run, at the tap with this index, from 0. It is a master or a passive station, with the
    /// data with which it replies to a request for data. The caller ensures that the address is 0 to 126.
    ///
    /// Fault: `NoMemory` if memory was refused, for its state or its waiting requests.
    pub fn new(
        alloc: Global,
        tap: usize,
        params: BusParams,
        address: u8,
        master: bool,
        reply: ArrayVec<u8, 246>,
    ) -> Result<Station, NoMemory>
        requires { address ≤ 126 }
        ensures { IfOk result (λ s. s ≡ record {
          tap = tap;
          params = params;
          master = master;
          reply_data = reply.items;
          station = turn.new_station params address reply.items;
        }) }
    {
        let waiting = Waiting::new(alloc)?;
        let data = copy_octets(&reply);
        let core = Core {
            phase: Phase::Offline(Offline),
            kept: new_kept(Address::new(address), &params, data, Moment::at(0)),
            waiting,
        };
        let parts = Parts {
            tap,
            params,
            master,
            reply_data: reply,
            core,
        };
        Ok(Station {
            parts: Box::new(alloc, parts)?,
            room: None,
        })
    }

    /// The index of the tap, from 0.
    pub fn tap(&self) -> usize
        ensures { result ≡ self.now.tap }
    {
        self.parts.tap
    }

    /// The station's address, 0 to 126.
    pub fn address(&self) -> u8
        ensures value { result ≡ self.now.station.address }
        ensures bound { result ≤ 126 }
    {
        self.parts.core.kept.address.get()
    }

    /// Whether the station is a master, which takes part in passing the token.
    pub fn is_master(&self) -> bool
        ensures { result ≡ self.now.master }
    {
        self.parts.master
    }

    /// The data with which it replies to a request for data.
    pub fn reply_data(&self) -> &[u8]
        ensures { result.now ≡ self.now.reply_data }
    {
        &self.parts.reply_data
    }

    /// The parameters of its bus.
    pub fn params(&self) -> &BusParams
        ensures { result.now ≡ self.now.params }
    {
        &self.parts.params
    }

    /// The phase that the station is in.
    pub fn phase(&self) -> &Phase
        ensures { phase_of result.now ≡ self.now.station.phase }
    {
        &self.parts.core.phase
    }

    /// Its list of active stations.
    pub fn las(&self) -> &Las
        ensures { result.now ≡ self.now.station.las }
    {
        &self.parts.core.kept.las
    }

    /// The requests that wait for the token.
    pub fn queue(&self) -> Queue
        ensures { result ≡ self.now.station.cycles.queue }
    {
        self.parts.core.waiting.queue()
    }

    /// Whether 16 requests of the request's priority wait. [`Station::push`] would return the request.
    pub fn is_full_for(&self, request: &Request) -> bool
        ensures { result ≡ nat_le 16 (length (turn.list_for self.now.station.cycles.queue request.now)) }
    {
        self.parts.core.waiting.is_full_for(request)
    }

    /// How many requests of others it has executed since its start: those that are no repeats. The count saturates at
    /// 2^64 - 1.
    pub fn executed(&self) -> u64
        ensures { result ≡ self.now.station.cycles.responder.executed }
    {
        self.parts.core.kept.cycles.responder.executed()
    }

    /// The last outcome of a message cycle since its start, with the station to which that request was sent.
    pub fn last_outcome(&self) -> Option<(u8, Outcome)>
        ensures { result ≡ self.now.station.cycles.last_outcome }
    {
        copy_outcome(&self.parts.core.kept.cycles.last_outcome)
    }

    /// The station starts at `now`: a master listens for the ring, a passive station waits for requests. All that it
    /// knew is discarded. The caller ensures that `now` is at most 2^61.
    pub fn start(&mut self, now: Moment)
        requires { now ≤ last_turn }
        ensures { self.new ≡ record
            self.old { station = turn.started self.old.params self.old.station self.old.master now } }
    {
        let Parts {
            params,
            master,
            core,
            ..
        } = &mut *self.parts;
        start_core(core, params, *master, now);
    }

    /// The station stops: it is offline, and a reply that is not sent yet is dropped. All else is unchanged.
    pub fn stop(&mut self)
        ensures { self.new ≡ record self.old { station = turn.stopped self.old.station } }
    {
        stop_core(&mut self.parts.core);
    }

    /// Changes the data with which it replies to the next request for data. A repeat of the last request still gets the
    /// reply that it got.
    pub fn set_reply(&mut self, reply: ArrayVec<u8, 246>)
        ensures { self.new ≡ with_reply self.old reply.items }
    {
        let Parts {
            reply_data,
            core,
            ..
        } = &mut *self.parts;
        core.kept.cycles.responder.set_data(&reply);
        *reply_data = reply;
    }

    /// Appends a request to those of its priority. If 16 of them wait, it is returned and nothing changes.
    pub fn push(&mut self, request: Request) -> Result<(), Request>
        ensures outcome { MatchResult result (λ _. self.new ≡ record
            self.old { station = turn.pushed self.old.station request })
            (λ refused. (refused ≡ request) × (self.new ≡ self.old)) }
        ensures room { OnOk result (length (turn.list_for self.old.station.cycles.queue request) < 16) }
        ensures full { OnErr result (length (turn.list_for self.old.station.cycles.queue request) ≡ 16) }
    {
        self.parts.core.waiting.push(request)
    }

    /// An equal station.
    ///
    /// Fault: `NoMemory` if memory was refused, for its state or its waiting requests.
    pub fn copy(&self, alloc: Global) -> Result<Station, NoMemory>
        ensures { IfOk result (λ s. s ≡ self.now) }
    {
        let Parts {
            tap,
            params,
            master,
            reply_data,
            core,
        } = &*self.parts;
        let data = copy_octets(reply_data);
        let mut copy = Station::new(alloc, *tap, *params, self.address(), *master, data)?;
        copy.parts.core.copy_from(core);
        Ok(copy)
    }

    /// An equal station, copied into this station's spare box, or into new memory.
    ///
    /// Fault: `NoMemory` if memory was refused.
    pub(crate) fn copy_in_room(&mut self, alloc: Global) -> Result<Station, NoMemory>
        ensures copy { IfOk result (λ s. s ≡ self.old) }
        ensures same { self.new ≡ self.old }
    {
        match self.room.take() {
            Some(room) => Ok(self.copy_to(room)),
            None => self.copy(alloc),
        }
    }

    /// An equal station, copied into the box of another.
    pub(crate) fn copy_to(&self, mut room: Box<Parts>) -> Station
        ensures { result ≡ self.now }
    {
        room.copy_from(&self.parts);
        Station {
            parts: room,
            room: None,
        }
    }

    /// The same station, with a spare box for a copy.
    pub(crate) fn with_room(self, room: Option<Box<Parts>>) -> Station
        ensures { result ≡ self }
    {
        Station {
            parts: self.parts,
            room,
        }
    }

    /// The box of a discarded station.
    pub(crate) fn into_parts(self) -> Box<Parts> {
        self.parts
    }

    /// Whether two stations are equal.
    pub fn is_same(&self, other: &Station) -> bool
        ensures { IsTrue result ↔ (self.now ≡ other.now) }
    {
        other.parts.tap == self.parts.tap
            && other.parts.params.is_same(&self.parts.params)
            && other.parts.master == self.parts.master
            && other.parts.reply_data == self.parts.reply_data
            && other.parts.core.is_same(&self.parts.core)
    }

    /// The station takes its turn at `now`, with the unread marks of an inbox, and sends into `out`. It is the turn of
    /// [`decide`](crate::decide), done in place. The caller ensures that `now` is at most 2^61, and that no mark has a
    /// later moment.
    pub fn take_turn(&mut self, inbox: &Inbox, now: Moment, out: &mut SendBuffer)
        requires clock { now ≤ last_turn }
        requires over { AllOver now inbox.now }
        ensures { (self.new, out.new) ≡ turned self.old inbox.now now }
    {
        let Parts { params, core, .. } = &mut *self.parts;
        take_turn(core, params, inbox, now, out);
    }

    /// Takes the same turn with the unread marks of a mailbox, which are removed. The mailbox then has the requests of
    /// others that the station executes in the turn, in order: those by which [`executed`](Station::executed) grows.
    pub fn take_turn_with(&mut self, mail: &mut Mailbox, now: Moment, out: &mut SendBuffer)
        requires clock { now ≤ last_turn }
        requires over { AllOver now mail.old.marks }
        ensures turn { (self.new, out.new) ≡ turned self.old mail.old.marks now }
        ensures mail { mail.new ≡ read_mail self.old.params self.old.station mail.old }
    {
        let Parts { params, core, .. } = &mut *self.parts;
        take_turn_with(core, params, mail, now, out);
    }

    /// Takes the same turn with a list of marks.
    #[tactic(auto, using(crate::proofs::Silence::silent_turn))]
    #[inline(always)]
    pub(crate) fn turn_on(&mut self, marks: &[Mark], now: Moment, out: &mut SendBuffer)
        requires clock { now ≤ last_turn }
        requires over { AreOver now marks.now }
        ensures { (self.new, out.new) ≡ turned self.old (map mark_of marks.now) now }
    {
        if self.read(marks, now) {
            self.speak(now, out);
        } else {
            out.clear();
        }
    }

    /// The first half of a turn with a list of marks: the station reads them and its timers. Returns whether its
    /// speaking moment has come.
    pub(crate) fn read(&mut self, marks: &[Mark], now: Moment) -> bool
        requires clock { now ≤ last_turn }
        requires over { AreOver now marks.now }
        ensures read { self.new ≡ at_clock self.old (map mark_of marks.now) now }
        ensures come { result ≡ has_come (turn.speaks_at self.new.station) now }
    {
        let Parts { params, core, .. } = &mut *self.parts;
        read_on(core, params, marks, now)
    }

    /// The second half of a turn: the station speaks at `now`, if its moment has come.
    pub(crate) fn speak(&mut self, now: Moment, out: &mut SendBuffer)
        requires clock { now ≤ last_turn }
        ensures { (self.new, out.new) ≡ spoken self.old now }
    {
        let Parts { params, core, .. } = &mut *self.parts;
        speak_on(core, params, now, out);
    }

    /// Whether the station would send anything in a turn at `now` with the unread marks of an inbox. It changes
    /// nothing. The caller ensures that `now` is at most 2^61, and that no mark has a later moment.
    pub fn would_speak(&self, inbox: &Inbox, now: Moment) -> bool
        requires clock { now ≤ last_turn }
        requires over { AllOver now inbox.now }
        ensures { result ≡ is_some (turned self.now inbox.now now).1 }
    {
        would_speak(&self.parts.core, &self.parts.params, inbox, now)
    }

    /// How the station stands in the ring once it has read the unread marks of an inbox. It changes nothing. The caller
    /// ensures that `now` is at most 2^61, and that no mark has a later moment.
    pub fn standing(&self, inbox: &Inbox, now: Moment) -> Standing
        requires clock { now ≤ last_turn }
        requires over { AllOver now inbox.now }
        ensures { StandsAs (after_marks self.now.params self.now.station inbox.now) result }
    {
        stands_as(&self.parts.core, &self.parts.params, inbox, now)
    }

    /// The requests of others that the station executes in a turn at `now` with the unread marks of an inbox: they
    /// replace the content of `told`. It changes nothing else. The caller ensures that `now` is at most 2^61, that no
    /// mark has a later moment, and that `told` has memory for 64.
    pub fn would_execute(&self, inbox: &Inbox, now: Moment, told: &mut Vec<Indication>)
        requires clock { now ≤ last_turn }
        requires over { AllOver now inbox.now }
        requires room { 64 ≤ vec_capacity told.old }
        ensures told { map fields_of told.new.items
            ≡ indications_of self.now.params self.now.station inbox.now }
        ensures room { vec_capacity told.new ≡ vec_capacity told.old }
    {
        would_execute(&self.parts.core, &self.parts.params, inbox, now, told);
    }

    /// When the station has to take its turn, with the unread marks of an inbox: what [`due`](crate::due) returns for
    /// them.
    pub fn due(&self, inbox: &Inbox) -> Option<Moment>
        ensures { result ≡ turn.due_of self.now.params self.now.station inbox.now }
    {
        due_of(&self.parts.core, &self.parts.params, inbox)
    }

    /// When the station has to take its turn, with the unread marks of a mailbox: what [`due`](crate::due) returns for
    /// them.
    pub fn due_with(&self, mail: &Mailbox) -> Option<Moment>
        ensures { result ≡ turn.due_of self.now.params self.now.station mail.now.marks }
    {
        due_with(&self.parts.core, &self.parts.params, mail)
    }

    /// Whether the station's turn, with the unread marks of an inbox, will have been due for more than `lag` bit times
    /// when the clock, now at `now`, is `bits` bit times later.
    #[inline(always)]
    pub fn is_overdue(&self, inbox: &Inbox, lag: u32, now: Moment, bits: u64) -> bool
        ensures { result
            ≡ is_past lag (now + bits) (turn.due_of self.now.params self.now.station inbox.now) }
    {
        is_overdue(&self.parts.core, &self.parts.params, inbox, lag, now, bits)
    }

    /// When the station has to take its turn, with a list of marks.
    pub(crate) fn due_on(&self, marks: &[Mark]) -> Option<Moment>
        ensures { result ≡ turn.due_of self.now.params self.now.station (map mark_of marks.now) }
    {
        due_on(&self.parts.core, &self.parts.params, marks)
    }
}

/// The state of a station that has heard and sent nothing since `now`.
fn new_kept(address: Address, params: &BusParams, reply: ArrayVec<u8, 246>, now: Moment) -> Kept
    requires { now ≤ last_turn }
    ensures { station_with result (record { high = []; low = [] }) phases.Offline
        ≡ record (turn.new_station params.now address reply.items)
        { quiet = now; own = record { begin = now; end = now } } }
{
    Kept {
        address,
        busy: false,
        past: Past::started(now),
        reply: None,
        las: Las::listening(),
        gap: Gap::fresh(),
        rotation: Rotation::new(params.ttr()),
        cycles: Cycles::new(params, reply),
    }
}

/// Starts a station: a master listens for the ring, a passive station waits for requests.
fn start_core(core: &mut Core, params: &BusParams, master: bool, now: Moment)
    requires { now ≤ last_turn }
    ensures { station_of core.new ≡ turn.started params.now (station_of core.old) master now }
{
    let reply = copy_octets(core.kept.cycles.responder.data());
    core.kept = new_kept(core.kept.address, params, reply, now);
    core.waiting.clear();
    core.phase = if master {
        Phase::Listening(Listening::new())
    } else {
        Phase::PassiveIdle(PassiveIdle)
    };
}

/// Stops a station: it sends nothing more.
fn stop_core(core: &mut Core)
    ensures { station_of core.new ≡ turn.stopped (station_of core.old) }
{
    core.phase = Phase::Offline(Offline);
    core.kept.reply = None;
}
