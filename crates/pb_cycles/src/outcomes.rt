//! The outcome of a request, and the meaning of replies.

ghost use Rattle.std.specs.Prelude.{◌≡◌, ◌≤◌, length, option_map};
ghost use Rattle.pb_cycles.specs.Messages.{message_of};
ghost use Rattle.pb_cycles.specs.Outcomes.{code_outcome, is_reply_between, reply_outcome, status_reply};
ghost use Rattle.pb_cycles.specs.declared.outcomes.Outcome.TheVariants.{Data};

use crate::frames::Frame;
use crate::messages::Message;
use arrayvec::ArrayVec;
use pb_telegram::{Fc, Telegram, copy_octets, put_octets};

/// The outcome of a request (IEC 61158-4-3, confirmation of a data link service).
#[derive(Debug, PartialEq, Eq, Drop)]
pub enum Outcome {
    /// The data was taken, and no data came back.
    Acked,
    /// Data came back.
    Data(ArrayVec<u8, 246>),
    /// The station has no resource, or no such service.
    NoResource,
    /// No reply came, and no retry is left.
    NoAnswer,
}

impl Outcome {
    /// An equal outcome.
    pub fn copy(&self) -> Outcome
        ensures { result ≡ self.now }
    {
        match self {
            Outcome::Acked => Outcome::Acked,
            Outcome::Data(unit) => Outcome::Data(copy_octets(unit)),
            Outcome::NoResource => Outcome::NoResource,
            Outcome::NoAnswer => Outcome::NoAnswer,
        }
    }

    /// Overwrites this outcome by another, in place.
    pub fn copy_from(&mut self, other: &Outcome)
        ensures { self.new ≡ other.now }
    {
        match other {
            Outcome::Data(unit) => self.become_data(unit),
            Outcome::Acked => *self = Outcome::Acked,
            Outcome::NoResource => *self = Outcome::NoResource,
            Outcome::NoAnswer => *self = Outcome::NoAnswer,
        }
    }

    /// Overwrites this outcome by data that came back, in place if this one has data too.
    fn become_data(&mut self, unit: &ArrayVec<u8, 246>)
        ensures { self.new ≡ Data unit.now }
    {
        match self {
            Outcome::Data(room) => put_octets(room, unit),
            Outcome::Acked | Outcome::NoResource | Outcome::NoAnswer => {
                *self = Outcome::Data(copy_octets(unit))
            }
        }
    }
}

/// The outcome of an SDA or SRD from `ts` to `da`, if the message is a reply to it.
pub(crate) fn reply_outcome(ts: u8, da: u8, message: &Message) -> Option<Outcome>
    ensures { result ≡ reply_outcome ts da message.now }
{
    match message {
        Message::Framed(frame) if is_reply_between(ts, da, frame) => {
            code_outcome(Fc(frame.fc()).code(), frame.unit())
        }
        Message::Framed(_) => None,
        Message::Acknowledgement => Some(Outcome::Acked),
        Message::TokenPass => None,
    }
}

/// The control octet of the reply to a Request FDL Status from the station `ts` to the station `da`; `None` if the
/// telegram is no reply to it with a known code. A short acknowledgement is no reply to it (EN 50170-2, request FDL
/// status).
pub fn status_reply(ts: u8, da: u8, telegram: &Telegram) -> Option<Fc>
    ensures { result ≡ option_map (λ fc. record { 0 = fc }) (status_reply ts da (message_of telegram.now)) }
{
    match Message::read(telegram) {
        Message::Framed(frame) if is_reply_between(ts, da, &frame) => {
            let fc = Fc(frame.fc());
            match code_outcome(fc.code(), frame.unit()) {
                Some(_) => Some(fc),
                None => None,
            }
        }
        Message::Framed(_) | Message::Acknowledgement | Message::TokenPass => None,
    }
}

/// Whether this is a reply telegram from the station `da` to the station `ts`.
fn is_reply_between(ts: u8, da: u8, frame: &Frame) -> bool
    ensures { result ≡ is_reply_between ts da frame.now }
{
    !Fc(frame.fc()).is_request() && frame.da() % 128 == ts && frame.sa() % 128 == da
}

/// The meaning of a reply's function code, with the data of the reply; `None` for an unknown code.
fn code_outcome(code: u8, unit: &[u8]) -> Option<Outcome>
    requires { length unit.now ≤ 246 }
    ensures { result ≡ code_outcome code unit.now }
{
    match code {
        0 | 9 => Some(Outcome::Acked),
        1 | 2 | 3 => Some(Outcome::NoResource),
        8 | 10 | 12 | 13 => Some(Outcome::Data(copy_octets(unit))),
        _ => None,
    }
}
