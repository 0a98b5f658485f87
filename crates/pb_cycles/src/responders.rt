//! The responder of message cycles: answers requests, and executes a repeated one once.

ghost use Rattle.std.specs.Prelude.{◌≡◌, ◌≤◌, ◌<◌, ◌^◌, length, Some, None, option_map};
ghost use Rattle.pb_telegram.specs.Grammar.{spelling};
ghost use Rattle.pb_cycles.specs.Messages.{reply_octets, heard_as, message_of};
ghost use Rattle.pb_cycles.specs.Responding.{reply_frame, data_reply, service_reply, is_repeat, counted, once, reply_once, after_service, reply_to_service, after_framed, reply_to_framed, after_message, reply_to_message};

use crate::frames::Frame;
use crate::messages::{Message, Reply};
use crate::services::{Asked, Priority, Service};
use arrayvec::ArrayVec;
use pb_telegram::{Fc, Telegram, copy_octets, put_octets};
use std::marker::Model;

/// The last SDA or SRD that a responder executed.
#[derive(Debug, PartialEq, Eq, Drop)]
pub struct Kept {
    /// The address of the station that asked.
    pub requester: u8,
    /// Its frame count bit.
    pub bit: bool,
    /// Its reply.
    pub reply: Reply,
}

impl Kept {
    /// An equal value.
    fn copy(&self) -> Kept
        ensures { result ≡ self.now }
    {
        Kept {
            requester: self.requester,
            bit: self.bit,
            reply: self.reply.copy(),
        }
    }

    /// Overwrites this value by another, in place.
    fn copy_from(&mut self, other: &Kept)
        ensures { self.new ≡ other.now }
    {
        self.requester = other.requester;
        self.bit = other.bit;
        self.reply.copy_from(&other.reply);
    }
}

/// The responder of message cycles (EN 50170-2, message cycles). It executes a request once, also if the request is
/// repeated.
#[derive(Debug, PartialEq, Eq, Drop)]
pub struct Responder {
    reply: ArrayVec<u8, 246>,
    kept: Option<Kept>,
    executed: u64,
}

impl Model for Responder {
    ghost use Rattle.pb_cycles.specs.Tables.{ResponderTable};

    ghost Value = { ResponderTable };

    ghost view = { λ r. record { reply = r.reply.items; kept = r.kept; executed = r.executed } };

    ghost inverse = { λ t. record {
      reply = record { items = t.reply };
      kept = t.kept;
      executed = t.executed;
    } };
}

impl Responder {
    /// A responder that has heard nothing. It answers an SRD with the data `reply`, or with NR if that is empty.
    pub fn new(reply: ArrayVec<u8, 246>) -> Responder
        ensures { result ≡ record { reply = reply.items; kept = None; executed = 0 } }
    {
        Responder {
            reply,
            kept: None,
            executed: 0,
        }
    }

    /// Overwrites this responder by another, in place.
    pub fn copy_from(&mut self, other: &Responder)
        ensures { self.new ≡ other.now }
    {
        put_octets(&mut self.reply, &other.reply);
        self.executed = other.executed;
        if self.kept.is_some() || other.kept.is_some() {
            copy_kept(&mut self.kept, &other.kept);
        }
    }

    /// An equal responder, to try out a turn on.
    pub fn copy(&self) -> Responder
        ensures { result ≡ self.now }
    {
        let Responder {
            reply,
            kept,
            executed,
        } = self;
        Responder {
            reply: copy_octets(reply),
            kept: kept.as_ref().map(Kept::copy),
            executed: *executed,
        }
    }

    /// The data with which it answers an SRD, at most 246 octets.
    pub fn data(&self) -> &[u8]
        ensures value { result.now ≡ self.now.reply }
        ensures fits { length result.now ≤ 246 }
    {
        &self.reply
    }

    /// Changes the data with which it answers the next SRD; a repeat of the last one still gets the kept reply.
    pub fn set_data(&mut self, reply: &ArrayVec<u8, 246>)
        ensures { self.new ≡ record self.old { reply = reply.now.items } }
    {
        put_octets(&mut self.reply, reply);
    }

    /// How many requests were executed: SDA, SRD and SDN that are no repeats. The count saturates at 2^64 - 1.
    pub fn executed(&self) -> u64
        ensures value { result ≡ self.now.executed }
        ensures fits { result < 2 ^ 64 }
    {
        self.executed
    }

    /// The reply of the station `ts` to a telegram; `None` if it does not reply. `station_type` is 0 passive, 1 master
    /// not ready, 2 master ready to enter the ring, 3 master in the ring. The caller ensures that `ts` is at most 126
    /// and `station_type` at most 3.
    ///
    /// A repeated SDA or SRD to this station gets the kept reply; any other is executed. An SDA gets a short
    /// acknowledgement. An SRD gets the reply data with the priority of the request, or NR if there is none. With an
    /// address extension (bit 7 of DA), both get RS. An SDN to this station or to all stations is executed and not
    /// answered. Request FDL Status gets the station type. No reply has an address extension.
    pub fn answer(&mut self, ts: u8, station_type: u8, telegram: &Telegram) -> Option<Telegram>
        requires station { ts ≤ 126 }
        requires type_bits { station_type ≤ 3 }
        ensures octets { option_map spelling result
            ≡ option_map reply_octets (reply_to_message self.old ts station_type (message_of telegram.now)) }
        ensures message { option_map message_of result
            ≡ option_map heard_as (reply_to_message self.old ts station_type (message_of telegram.now)) }
        ensures table { self.new ≡ after_message self.old ts station_type (message_of telegram.now) }
    {
        match Message::read(telegram) {
            Message::Framed(frame) => match self.answer_frame(ts, station_type, &frame) {
                Some(reply) => Some(reply.telegram()),
                None => None,
            },
            Message::Acknowledgement | Message::TokenPass => None,
        }
    }

    /// The reply to a telegram with a control octet.
    fn answer_frame(&mut self, ts: u8, station_type: u8, frame: &Frame) -> Option<Reply>
        requires station { ts ≤ 126 }
        requires type_bits { station_type ≤ 3 }
        ensures reply { result ≡ reply_to_framed self.old ts station_type frame.now }
        ensures table { self.new ≡ after_framed self.old ts station_type frame.now }
    {
        let fc = Fc(frame.fc());
        if !fc.is_request() {
            return None;
        }
        match Asked::by(fc.code()) {
            Asked::Send(service, priority) => {
                self.answer_service(ts, station_type, frame, service, priority)
            }
            Asked::Status if frame.da() % 128 == ts => {
                Some(reply_frame(ts, station_type, frame, 0, &[]))
            }
            Asked::Status | Asked::Unknown => None,
        }
    }

    /// The reply to a request for a service.
    fn answer_service(
        &mut self,
        ts: u8,
        station_type: u8,
        frame: &Frame,
        service: Service,
        priority: Priority,
    ) -> Option<Reply>
        requires station { ts ≤ 126 }
        requires type_bits { station_type ≤ 3 }
        ensures reply { result ≡ reply_to_service self.old ts station_type frame.now service priority }
        ensures table { self.new ≡ after_service self.old ts station_type frame.now service priority }
    {
        let to = frame.da() % 128;
        if !service.is_answered() {
            if to == ts || to == 127 {
                self.count_one();
            }
            return None;
        }
        if to != ts {
            return None;
        }
        let reply = service_reply(ts, station_type, frame, service, priority, &self.reply);
        Some(self.once(frame, reply))
    }

    /// Counts an executed request.
    fn count_one(&mut self)
        ensures { self.new ≡ counted self.old }
    {
        let Responder { executed, .. } = self;
        *executed = executed.saturating_add(1);
    }

    /// Executes an SDA or SRD with this reply. A repeat is not executed and gets the kept reply.
    fn once(&mut self, frame: &Frame, reply: Reply) -> Reply
        ensures reply { Some result ≡ reply_once self.old frame.now reply }
        ensures table { self.new ≡ once self.old frame.now reply }
    {
        if let Some(kept) = &self.kept {
            if is_repeat(kept, frame) {
                return kept.reply.copy();
            }
        }
        let answer = reply.copy();
        self.kept = Some(Kept {
            requester: frame.sa() % 128,
            bit: Fc(frame.fc()).fcb(),
            reply,
        });
        self.count_one();
        answer
    }
}

/// Slow path of `copy_from`, kept out of line: usually nothing is kept, and its octets then need not be moved.
#[inline(never)]
fn copy_kept(kept: &mut Option<Kept>, other: &Option<Kept>)
    ensures { kept.new ≡ other.now }
{
    match other {
        Some(last) => keep(kept, last),
        None => *kept = None,
    }
}

/// Copies a kept request, in place if one is kept already.
fn keep(kept: &mut Option<Kept>, last: &Kept)
    ensures { kept.new ≡ Some last.now }
{
    match kept {
        Some(kept) => kept.copy_from(last),
        None => *kept = Some(last.copy()),
    }
}

/// A reply telegram from `ts`, with its type `station_type`, to the sender of the request.
fn reply_frame(ts: u8, station_type: u8, request: &Frame, code: u8, unit: &[u8]) -> Reply
    requires station { ts ≤ 126 }
    requires type_bits { station_type ≤ 3 }
    requires code_bits { code < 16 }
    requires unit_fits { length unit.now ≤ 246 }
    ensures { result ≡ reply_frame ts station_type request.now code unit.now }
{
    let fc = Fc::reply(station_type, code);
    Reply::Answer(Frame::new(request.sa() % 128, ts, fc.0, copy_octets(unit)))
}

/// The reply to an SRD: the reply data with the priority of the request, or NR if there is none.
fn data_reply(ts: u8, station_type: u8, request: &Frame, priority: Priority, unit: &[u8]) -> Reply
    requires station { ts ≤ 126 }
    requires type_bits { station_type ≤ 3 }
    requires unit_fits { length unit.now ≤ 246 }
    ensures { result ≡ data_reply ts station_type request.now priority unit.now }
{
    if unit.is_empty() {
        return reply_frame(ts, station_type, request, 9, &[]);
    }
    let code = if priority.is_high() { 10 } else { 8 };
    reply_frame(ts, station_type, request, code, unit)
}

/// The reply to a service that is executed. No service supports an address extension.
fn service_reply(
    ts: u8,
    station_type: u8,
    request: &Frame,
    service: Service,
    priority: Priority,
    unit: &[u8],
) -> Reply
    requires station { ts ≤ 126 }
    requires type_bits { station_type ≤ 3 }
    requires unit_fits { length unit.now ≤ 246 }
    ensures { result ≡ service_reply ts station_type request.now service priority unit.now }
{
    match service {
        Service::Sdn => Reply::Acknowledge,
        Service::Sda | Service::Srd if request.da() & 0x80 != 0 => {
            reply_frame(ts, station_type, request, 3, &[])
        }
        Service::Sda => Reply::Acknowledge,
        Service::Srd => data_reply(ts, station_type, request, priority, unit),
    }
}

/// Whether an SDA or SRD repeats the kept one: its frame count bit is valid, and requester and bit are equal.
fn is_repeat(kept: &Kept, request: &Frame) -> bool
    ensures { result ≡ is_repeat (Some kept.now) request.now }
{
    let fc = Fc(request.fc());
    fc.fcv() && kept.requester == request.sa() % 128 && kept.bit == fc.fcb()
}
