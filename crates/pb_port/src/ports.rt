//! A station with the marks of what it has heard and not read yet.

ghost use Rattle.std.specs.Prelude.{◌≡◌, ◌≤◌, ◌++◌, ◌∷◌, [], Some, None, MatchResult, length};
ghost use Rattle.pb_faults.specs.FirstFault.{first_fault};
ghost use Rattle.pb_transitions.specs.Clocks.{last_turn};
ghost use Rattle.pb_station.specs.MarkViews.{AllOver};
ghost use Rattle.pb_port.specs.Ports.{PortView, Sends, clock_faults, mark_faults};

use crate::faults::PortFault;
use arrayvec::ArrayVec;
use pb_cycles::{Outcome, Request};
use pb_faults::NoMemory;
use pb_ring::Las;
use pb_station::{Indication, MARK_LIMIT, Mailbox, SendBuffer, Station};
use pb_telegram::RxChar;
use pb_timers::{BusParams, Moment};
use pb_tokenfsm::Phase;
use std::alloc::Global;
use std::marker::Model;

/// The last moment of a turn: 2^61.
const LAST_TURN: u64 = 1 << 61;

/// How many characters an end may bring.
const MOST_CHARACTERS: usize = 255;

/// A station at a line, with the marks of what it has heard and not read yet (EN 50170-2, medium access).
///
/// A driver calls it with moments of its own clock, in bit times. A mark's own moment `at` is when activity of others
/// began or ended on the line, `seen` when the driver tells it.
#[derive(Debug, Drop)]
pub struct Port {
    station: Station,
    /// The unread marks, and the requests of others that the station executed in its last turn.
    mail: Mailbox,
    /// The latest moment of a call.
    clock: Moment,
    /// The latest of the marks' own moments, the turns and the start.
    past: Moment,
    /// What the station sent in its last turn: room that each turn uses again.
    sent: SendBuffer,
}

/// A mark's own moment, and when it is delivered.
#[derive(Clone, Copy, Debug)]
struct Delivery {
    at: Moment,
    seen: Moment,
}

impl Model for Port {
    ghost use Rattle.std.specs.Prelude.{◌≤◌};
    ghost use Rattle.pb_transitions.specs.Clocks.{last_turn};
    ghost use Rattle.pb_station.specs.MarkViews.{AllOver};
    ghost use Rattle.pb_port.specs.Ports.{PortView};

    ghost Value = { PortView };

    ghost view = { λ p. record {
      station = p.station;
      room = p.mail.room;
      marks = p.mail.marks;
      clock = p.clock;
      past = p.past;
      indications = p.mail.told;
    } };

    ghost invariant = { λ p. AllOver p.clock p.mail.marks × (p.clock ≤ last_turn) };
}

impl Port {
    ghost use Rattle.std.specs.Prelude.{◌≡◌, ◌≤◌, ◌<◌, ◌∷◌, [], Some, None, IfOk, MatchResult, length, map};
    ghost use Rattle.pb_faults.specs.FirstFault.{first_fault};
    ghost use Rattle.pb_transitions.specs.Clocks.{last_turn};
    ghost use Rattle.pb_telegram.specs.declared.chars.RxChar.TheVariants.{Good, Bad};
    ghost use Rattle.law_turn.specs.Marks as model;
    ghost use Rattle.pb_tokenfsm.specs.Phases.{phase_of};
    ghost use Rattle.pb_port.specs.Ports.{new_port, port_with_room, started_port, stopped_port, pushed_port, told_port, turned_port, replying_port, said_by, due_port, clock_faults, mark_faults, push_faults, Answers, Sends};
    ghost use Rattle.pb_station.specs.Indications.{fields_of};

    /// A station that does not run, a master or a passive station, with an address, 0 to 126, the caller's condition,
    /// and the data that it replies to a request for data. 64 marks may be unread.
    ///
    /// Fault: `NoMemory`. No other call takes memory.
    pub fn new(
        alloc: Global,
        params: BusParams,
        address: u8,
        master: bool,
        reply: ArrayVec<u8, 246>,
    ) -> Result<Port, NoMemory>
        requires { address ≤ 126 }
        ensures { IfOk result (λ p. p ≡ new_port params address master reply.items) }
    {
        Port::with_room(alloc, MARK_LIMIT, params, address, master, reply)
    }

    /// The same station with room for so many unread marks, 2 to 64, the caller's condition. A port takes about 1.1 KB
    /// for each.
    ///
    /// Fault: `NoMemory`. No other call takes memory.
    pub fn with_room(
        alloc: Global,
        room: usize,
        params: BusParams,
        address: u8,
        master: bool,
        reply: ArrayVec<u8, 246>,
    ) -> Result<Port, NoMemory>
        requires room { (2 ≤ room) × (room ≤ 64) }
        requires station { address ≤ 126 }
        ensures { IfOk result (λ p. p ≡ port_with_room room params address master reply.items) }
    {
        Ok(Port {
            station: Station::new(alloc, 0, params, address, master, reply)?,
            mail: Mailbox::new(alloc, room)?,
            clock: Moment::at(0),
            past: Moment::at(0),
            sent: SendBuffer::new(),
        })
    }

    /// The station starts at a moment: a master listens for the ring, a passive station waits for requests. All that
    /// it knew and heard is forgotten, and requests that waited.
    ///
    /// Faults: `TooLate` past 2^61; `Backwards` before the moment of an earlier call.
    pub fn start(&mut self, now: u64) -> Result<(), PortFault>
        ensures { Answers self.old (clock_faults self.old now) (started_port self.old now) result self.new }
    {
        let now = self.moment(now)?;
        self.mail.clear();
        self.station.start(now);
        self.clock = now;
        self.past = now;
        Ok(())
    }

    /// The station stops: it says nothing more, and drops its unread marks and a reply that it has not sent yet. All
    /// else stays.
    pub fn stop(&mut self)
        ensures { self.new ≡ stopped_port self.old }
    {
        self.station.stop();
        self.mail.drop_marks();
    }

    /// A request waits behind the others of its priority. A start forgets it.
    ///
    /// Fault: `QueueFull` where 16 requests of its priority wait.
    pub fn push(&mut self, request: Request) -> Result<(), PortFault>
        ensures { Answers self.old (push_faults self.old request)
            (pushed_port self.old request) result self.new }
    {
        match self.station.push(request) {
            Ok(()) => Ok(()),
            Err(_) => Err(PortFault::QueueFull),
        }
    }

    /// Changes the data that the station replies to the next request for data, SRD: at most 246 octets, and with none it
    /// replies that it has no data. A repeat of the last request still gets the reply that was sent.
    pub fn set_reply(&mut self, reply: ArrayVec<u8, 246>)
        ensures { self.new ≡ replying_port self.old reply.items }
    {
        self.station.set_reply(reply);
    }

    /// Activity of others has begun at the moment `at`, which is told at the moment `seen`.
    ///
    /// Faults, the first that applies: `TooLate` where `seen` is past 2^61; `Backwards` where it is before an earlier
    /// call, or `at` is before an earlier mark's own moment, the last turn or the start; `Ahead` where `at` is after
    /// `seen`; `InboxFull` where there is no room for a mark more.
    pub fn begin(&mut self, at: u64, seen: u64) -> Result<(), PortFault>
        ensures { Answers self.old (mark_faults self.old at seen 0)
            (told_port self.old (model.Begin at seen)) result self.new }
    {
        let delivery = self.delivery(at, seen, 0)?;
        self.mail.push_begin(delivery.at, delivery.seen);
        self.clock = delivery.seen;
        self.past = delivery.at;
        Ok(())
    }

    /// Activity of others has ended at the moment `at`, which is told at the moment `seen`, and has brought characters,
    /// good and damaged ones as they were received.
    ///
    /// Faults, the first that applies: those of [`begin`](Port::begin), and before `InboxFull` `TooLong` for more than
    /// 255 characters.
    pub fn end(&mut self, at: u64, seen: u64, characters: &[RxChar]) -> Result<(), PortFault>
        ensures { Answers self.old (mark_faults self.old at seen (length characters.now))
            (told_port self.old (model.End at seen characters.now)) result self.new }
    {
        let delivery = self.delivery(at, seen, characters.len())?;
        self.mail.push_end(delivery.at, delivery.seen, characters);
        self.clock = delivery.seen;
        self.past = delivery.at;
        Ok(())
    }

    /// The same of octets that all came good.
    pub fn end_good(&mut self, at: u64, seen: u64, octets: &[u8]) -> Result<(), PortFault>
        ensures { Answers self.old (mark_faults self.old at seen (length octets.now))
            (told_port self.old (model.End at seen (map Good octets.now))) result self.new }
    {
        let delivery = self.delivery(at, seen, octets.len())?;
        self.mail.push_good_end(delivery.at, delivery.seen, octets);
        self.clock = delivery.seen;
        self.past = delivery.at;
        Ok(())
    }

    /// Activity of others has ended at the moment `at`, which is told at the moment `seen`, and was noise: it has
    /// brought one damaged character.
    ///
    /// Faults: those of [`begin`](Port::begin).
    pub fn noise(&mut self, at: u64, seen: u64) -> Result<(), PortFault>
        ensures { Answers self.old (mark_faults self.old at seen 1)
            (told_port self.old (model.End at seen (Bad ∷ []))) result self.new }
    {
        let delivery = self.delivery(at, seen, 1)?;
        self.mail.push_noise(delivery.at, delivery.seen);
        self.clock = delivery.seen;
        self.past = delivery.at;
        Ok(())
    }

    /// When the station has to take its turn: at the moment `seen` of its first unread mark, its timer or its speaking
    /// moment, whichever is the earliest. None where nothing is to come. It may take the turn as much as the bus's lag
    /// later.
    pub fn due(&self) -> Option<u64>
        ensures { result ≡ due_port self.now }
    {
        self.station.due_with(&self.mail).map(Moment::get)
    }

    /// The station takes its turn at a moment: it reads its unread marks and the timers between them in order of time,
    /// and then speaks, if its moment has come (EN 50170-2, token passing). It answers how many octets it sends, 0 where
    /// it sends nothing; they stand at the front of `out`, which has room for 255, the caller's condition, and are on
    /// the line from that moment on. What `out` holds behind them is unchanged.
    ///
    /// Faults, with which `out` is unchanged too: `TooLate` past 2^61; `Backwards` before the moment of an earlier
    /// call.
    pub fn turn(&mut self, now: u64, out: &mut [u8]) -> Result<usize, PortFault>
        requires { 255 ≤ length out.old }
        ensures turn { MatchResult result
            (λ _. (first_fault (clock_faults self.old now) ≡ None) × (self.new ≡ turned_port self.old now))
            (λ fault. (first_fault (clock_faults self.old now) ≡ Some fault) × (self.new ≡ self.old)) }
        ensures said { MatchResult result (λ count. Sends (said_by self.old now) count out.old out.new)
            (λ _. out.new ≡ out.old) }
    {
        let now = self.moment(now)?;
        self.station
            .take_turn_with(&mut self.mail, now, &mut self.sent);
        self.clock = now;
        self.past = now;
        Ok(copy_sent(&self.sent, out))
    }

    /// The requests of others that the station executed in its last turn, in order: SDA, SDN and SRD that are no repeats
    /// (EN 50170-2, message cycles). A start forgets them.
    pub fn indications(&self) -> &[Indication]
        ensures { map fields_of result.now ≡ self.entry.now.indications }
    {
        self.mail.told()
    }

    /// The phase that the station is in.
    pub fn phase(&self) -> &Phase
        ensures { phase_of result.now ≡ self.entry.now.station.station.phase }
    {
        self.station.phase()
    }

    /// Its list of active stations.
    pub fn las(&self) -> &Las
        ensures { result.now ≡ self.entry.now.station.station.las }
    {
        self.station.las()
    }

    /// The station of its last message cycle that had an outcome, and that outcome, since its start.
    pub fn last_outcome(&self) -> Option<(u8, Outcome)>
        ensures { result ≡ self.entry.now.station.station.cycles.last_outcome }
    {
        self.station.last_outcome()
    }

    /// How many requests of others it has executed since its start: those that are no repeats. The count stays
    /// at 2^64 - 1.
    pub fn executed(&self) -> u64
        ensures { result ≡ self.entry.now.station.station.cycles.responder.executed }
    {
        self.station.executed()
    }

    /// The moment of a call.
    fn moment(&self, now: u64) -> Result<Moment, PortFault>
        ensures faults { MatchResult result (λ _. first_fault (clock_faults self.now now) ≡ None)
            (λ fault. first_fault (clock_faults self.now now) ≡ Some fault) }
        ensures moment { IfOk result (λ m. (m ≡ now) × (self.now.clock ≤ m) × (m ≤ last_turn)) }
    {
        if now > LAST_TURN {
            return Err(PortFault::TooLate);
        }
        if now < self.clock.get() {
            return Err(PortFault::Backwards);
        }
        Ok(Moment::at(now))
    }

    /// The moments of a mark with some characters.
    fn delivery(&self, at: u64, seen: u64, characters: usize) -> Result<Delivery, PortFault>
        ensures faults { MatchResult result
            (λ _. first_fault (mark_faults self.now at seen characters) ≡ None)
            (λ fault. first_fault (mark_faults self.now at seen characters) ≡ Some fault) }
        ensures moments { IfOk result (λ d. (d.at ≡ at) × (d.seen ≡ seen)
            × (self.now.clock ≤ seen) × (seen ≤ last_turn) × (at ≤ seen)) }
        ensures fits { IfOk result (λ _. (characters ≤ 255) × (length self.now.marks < self.now.room)) }
    {
        let seen = self.moment(seen)?;
        if at < self.past.get() {
            return Err(PortFault::Backwards);
        }
        if at > seen.get() {
            return Err(PortFault::Ahead);
        }
        if characters > MOST_CHARACTERS {
            return Err(PortFault::TooLong);
        }
        if self.mail.is_full() {
            return Err(PortFault::InboxFull);
        }
        Ok(Delivery {
            at: Moment::at(at),
            seen,
        })
    }
}

/// Copies what was sent, and answers how many octets that is: a token, which is sent most, without a call of memcpy. There
/// is room for 255, the caller's condition.
fn copy_sent(sent: &SendBuffer, out: &mut [u8]) -> usize
    requires { 255 ≤ length out.old }
    ensures { Sends sent.now result out.old out.new }
{
    match sent.octets() {
        Some([first, second, third]) => {
            out[0] = *first;
            out[1] = *second;
            out[2] = *third;
            3
        }
        Some(octets) => {
            out[..octets.len()].copy_from_slice(octets);
            octets.len()
        }
        None => 0,
    }
}
