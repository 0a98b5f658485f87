//! What a telegram says, apart from its form; and what a station replies.

ghost use Rattle.std.specs.Prelude.{◌≡◌};
ghost use Rattle.pb_telegram.specs.Grammar.{spelling};
ghost use Rattle.pb_cycles.specs.Messages.{message_of, reply_octets, heard_as};
ghost use Rattle.pb_cycles.specs.declared.messages.Reply.TheVariants.{Answer};

use crate::frames::Frame;
use arrayvec::ArrayVec;
use pb_telegram::{Telegram, copy_octets};

/// The content of a telegram, apart from its form.
#[derive(Debug, Drop)]
pub enum Message {
    /// A request or a reply with a control octet.
    Framed(Frame),
    /// The short acknowledgement.
    Acknowledgement,
    /// A token.
    TokenPass,
}

impl Message {
    /// Reads the content of a telegram.
    pub fn read(telegram: &Telegram) -> Message
        ensures { result ≡ message_of telegram.now }
    {
        if let Some(head) = telegram.head() {
            let unit = copy_octets(telegram.unit());
            return Message::Framed(Frame::new(head.da, head.sa, head.fc, unit));
        }
        match telegram {
            Telegram::Token(_) => Message::TokenPass,
            _ => Message::Acknowledgement,
        }
    }
}

/// A station's reply to a request.
#[derive(Debug, PartialEq, Eq, Drop)]
pub enum Reply {
    /// A telegram with a control octet.
    Answer(Frame),
    /// The short acknowledgement.
    Acknowledge,
}

impl Reply {
    /// An equal reply.
    pub fn copy(&self) -> Reply
        ensures { result ≡ self.now }
    {
        match self {
            Reply::Answer(frame) => Reply::Answer(frame.copy()),
            Reply::Acknowledge => Reply::Acknowledge,
        }
    }

    /// Overwrites this reply by another, in place.
    pub fn copy_from(&mut self, other: &Reply)
        ensures { self.new ≡ other.now }
    {
        match other {
            Reply::Answer(frame) => self.become_answer(frame),
            Reply::Acknowledge => *self = Reply::Acknowledge,
        }
    }

    /// Overwrites this reply by a telegram with a control octet, in place if this one has a control octet too.
    fn become_answer(&mut self, other: &Frame)
        ensures { self.new ≡ Answer other.now }
    {
        match self {
            Reply::Answer(frame) => frame.copy_from(other),
            Reply::Acknowledge => *self = Reply::Answer(other.copy()),
        }
    }

    /// The reply as a telegram.
    pub fn telegram(&self) -> Telegram
        ensures octets { spelling result ≡ reply_octets self.now }
        ensures message { message_of result ≡ heard_as self.now }
    {
        match self {
            Reply::Answer(frame) => frame.telegram(),
            Reply::Acknowledge => Telegram::Ack,
        }
    }
}
