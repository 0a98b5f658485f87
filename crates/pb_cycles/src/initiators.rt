//! The initiator of message cycles: sends a request, repeats it, and reports the outcome.

ghost use Rattle.std.specs.Prelude.{◌≡◌, ◌≤◌, if◌then◌else◌, is_some, Some, None, replicate, option_map, IfSome, IsTrue, ◌↔◌};
ghost use Rattle.pb_telegram.specs.Grammar.{spelling};
ghost use Rattle.pb_telegram.specs.Initiators as telegram;
ghost use Rattle.pb_cycles.specs.Messages.{frame_octets, message_of};
ghost use Rattle.pb_cycles.specs.declared.messages.Message.TheVariants.{Framed};
ghost use Rattle.pb_cycles.specs.Initiating.{first_sending, after_request, retry_of, after_retry, outcome_of, after_outcome};
ghost use Rattle.pb_telegram.specs.declared.control.FrameCount.TheVariants.{First};

use crate::counts::FrameCounts;
use crate::frames::Frame;
use crate::messages::Message;
use crate::outcomes::{Outcome, reply_outcome};
use crate::requests::Request;
use pb_telegram::{Fc, FrameCount, Telegram};
use std::marker::Model;

/// A request that waits for its reply.
#[derive(Debug, PartialEq, Eq, Drop)]
pub struct OpenRequest {
    /// The request as it was sent.
    pub sent: Frame,
    /// How many more times it may be sent.
    pub left: u8,
}

impl OpenRequest {
    /// An equal request.
    fn copy(&self) -> OpenRequest
        ensures { result ≡ self.now }
    {
        OpenRequest {
            sent: self.sent.copy(),
            left: self.left,
        }
    }

    /// Overwrites this request by another, in place.
    fn copy_from(&mut self, other: &OpenRequest)
        ensures { self.new ≡ other.now }
    {
        self.sent.copy_from(&other.sent);
        self.left = other.left;
    }
}

/// The initiator of message cycles: frame count bits, retries, and the meaning of replies (EN 50170-2, message cycles).
#[derive(Debug, Drop)]
pub struct Initiator {
    retries: u8,
    counts: FrameCounts,
    pending: Option<OpenRequest>,
}

impl Model for Initiator {
    ghost use Rattle.pb_cycles.specs.Tables.{InitiatorTable};

    ghost Value = { InitiatorTable };

    ghost use Rattle.pb_cycles.specs.Initiating.{IsInitiator};

    ghost view = { λ i. record { retries = i.retries; counts = i.counts; pending = i.pending } };

    ghost invariant = { λ i. IsInitiator
        (record { retries = i.retries; counts = i.counts; pending = i.pending }) };
}

impl Initiator {
    /// An initiator that has sent nothing. It sends a request again at most `retries` times. The caller ensures that
    /// `retries` is at most 7.
    pub fn new(retries: u8) -> Initiator
        requires { retries ≤ 7 }
        ensures { result ≡ record { retries = retries; counts = replicate 127 First; pending = None } }
    {
        Initiator {
            retries,
            counts: FrameCounts::new(),
            pending: None,
        }
    }

    /// The telegram of a request from the station `ts`. The caller ensures that `ts` is at most 126. An SDA or SRD
    /// becomes the open request and replaces one that was open. After an SDN no request is open.
    ///
    /// The first SDA or SRD to an address since the start, or since the last outcome `NoAnswer` there, has the frame
    /// count bit 1, not valid; later ones alternate between 0 and 1, valid. An SDN has no frame count bits.
    #[tactic(auto, using(crate::proofs::RequestBits::bit_set))]
    pub fn request(&mut self, ts: u8, request: Request) -> Telegram
        requires { ts ≤ 126 }
        ensures octets { spelling result ≡ frame_octets (first_sending self.old ts request) }
        ensures message { message_of result ≡ Framed (first_sending self.old ts request) }
        ensures initiator { telegram.IsInitiator result }
        ensures table { self.new ≡ after_request self.old ts request }
    {
        let da = request.da();
        let service = request.service();
        let code = service.code(request.priority());
        if !service.is_answered() {
            self.pending = None;
            let fc = Fc::request(None, code);
            return Frame::new(da, ts, fc.0, request.into_unit()).telegram();
        }
        let count = self.counts.at(da);
        let fc = Fc::request(Some(count), code);
        let sent = Frame::new(da, ts, fc.0, request.into_unit());
        let telegram = sent.telegram();
        self.counts.put(da, count.next());
        self.pending = Some(OpenRequest {
            sent,
            left: self.retries,
        });
        telegram
    }

    /// Sends the open request again: the octets are those of its first sending. `None` if no request is open or no
    /// retry is left.
    pub fn again(&mut self) -> Option<Telegram>
        ensures octets { option_map spelling result ≡ option_map frame_octets (retry_of self.old.pending) }
        ensures message { option_map message_of result ≡ option_map Framed (retry_of self.old.pending) }
        ensures initiator { IfSome result telegram.IsInitiator }
        ensures table { self.new ≡ (if is_some result then after_retry self.old else self.old) }
    {
        match &mut self.pending {
            Some(request) if request.left > 0 => {
                request.left -= 1;
                Some(request.sent.telegram())
            }
            _ => None,
        }
    }

    /// The station to which the open request was sent; `None` if none is open.
    pub fn open_to(&self) -> Option<u8>
        ensures { result ≡ option_map (λ request. request.sent.da) self.now.pending }
    {
        match &self.pending {
            Some(request) => Some(request.sent.da()),
            None => None,
        }
    }

    /// Whether [`Initiator::again`] would return a telegram.
    pub fn retry_left(&self) -> bool
        ensures { result ≡ is_some (retry_of self.now.pending) }
    {
        matches!(&self.pending, Some(request) if request.left > 0)
    }

    /// Overwrites this initiator by another, in place.
    pub fn copy_from(&mut self, other: &Initiator)
        ensures { self.new ≡ other.now }
    {
        self.retries = other.retries;
        self.counts = other.counts.copy();
        if self.pending.is_some() || other.pending.is_some() {
            copy_pending(&mut self.pending, &other.pending);
        }
    }

    /// An equal initiator, to try out a turn on.
    pub fn copy(&self) -> Initiator
        ensures { result ≡ self.now }
    {
        Initiator {
            retries: self.retries,
            counts: self.counts.copy(),
            pending: self.pending.as_ref().map(OpenRequest::copy),
        }
    }

    /// Whether two initiators are equal.
    pub fn is_same(&self, other: &Initiator) -> bool
        ensures { IsTrue result ↔ (self.now ≡ other.now) }
    {
        self.retries == other.retries
            && self.counts.is_same(&other.counts)
            && is_same_request(&self.pending, &other.pending)
    }

    /// Closes the open request and returns its outcome. The argument is a received telegram, or `None` if no reply came
    /// and no retry is left; the outcome is then `NoAnswer`. The result is `None`, and the request stays open, if the
    /// telegram is no reply to it. The result is also `None` if no request is open.
    pub fn outcome(&mut self, reply: Option<&Telegram>) -> Option<Outcome>
        ensures outcome { result ≡ outcome_of self.old (option_map (λ t. message_of t.now) reply.entry) }
        ensures table { self.new ≡ after_outcome self.old (option_map (λ t. message_of t.now) reply.entry) }
    {
        match reply {
            Some(telegram) => self.heard(&Message::read(telegram)),
            None => self.silent(),
        }
    }

    /// The outcome by a message. If it is a reply, it closes the open request.
    fn heard(&mut self, message: &Message) -> Option<Outcome>
        ensures outcome { result ≡ outcome_of self.old (Some message.now) }
        ensures table { self.new ≡ after_outcome self.old (Some message.now) }
    {
        let Some(request) = &self.pending else {
            return None;
        };
        let outcome = reply_outcome(request.sent.sa(), request.sent.da(), message)?;
        self.pending = None;
        Some(outcome)
    }

    /// The outcome `NoAnswer`, which closes the open request. The next request to its address is a first one.
    fn silent(&mut self) -> Option<Outcome>
        ensures outcome { result ≡ outcome_of self.old None }
        ensures table { self.new ≡ after_outcome self.old None }
    {
        let Some(request) = &self.pending else {
            return None;
        };
        self.counts.put(request.sent.da(), FrameCount::First);
        self.pending = None;
        Some(Outcome::NoAnswer)
    }
}

/// Slow path of `copy_from`, kept out of line: usually no request is open, and its octets then need not be moved.
#[inline(never)]
fn copy_pending(pending: &mut Option<OpenRequest>, other: &Option<OpenRequest>)
    ensures { pending.new ≡ other.now }
{
    match other {
        Some(request) => become_open(pending, request),
        None => *pending = None,
    }
}

/// Copies an open request, in place if one is open already.
fn become_open(pending: &mut Option<OpenRequest>, request: &OpenRequest)
    ensures { pending.new ≡ Some request.now }
{
    match pending {
        Some(pending) => pending.copy_from(request),
        None => *pending = Some(request.copy()),
    }
}

fn is_same_request(one: &Option<OpenRequest>, other: &Option<OpenRequest>) -> bool
    ensures { IsTrue result ↔ (one.now ≡ other.now) }
{
    one == other
}
