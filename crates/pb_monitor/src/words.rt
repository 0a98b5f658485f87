//! What a telegram says, in words.

ghost use Rattle.std.specs.Prelude.{◌≡◌, ◌++◌, OnOk, codes, if◌then◌else◌, option_map};
ghost use Rattle.pb_cycles.specs.Messages.{has_bit};
ghost use Rattle.pb_cycles.specs.Requests.{is_high};
ghost use Rattle.pb_monitor.specs.TelegramWords.{asked_words, count_words, head_words, named_reply, reply_name, reply_words, request_words, service_words, type_words, words_of, words_text};

use crate::texts::{push_counted, push_number};
use pb_cycles::{Asked, Priority, Service};
use pb_telegram::{Fc, Telegram};
use std::alloc::AllocError;

/// What a telegram says, as far as it is put into words.
#[derive(Clone, Copy, Debug, PartialEq, Eq)]
pub enum Words {
    /// It passes the token to another address.
    TokenTo(u8),
    /// It passes the token to its source.
    TokenToItself,
    /// It asks for something.
    Request(Fc),
    /// It answers, without data or with some.
    Reply(Fc, bool),
    /// It is the short acknowledgement.
    Acknowledgement,
}

impl Words {
    /// What a telegram says.
    pub fn of(telegram: &Telegram) -> Words
        ensures { words_text result ≡ words_of telegram.now }
    {
        match telegram {
            Telegram::Short(short) => Words::by(Fc(short.fc), true),
            Telegram::Var(var) => Words::by(Fc(var.fc), false),
            Telegram::Fixed8(fixed) => Words::by(Fc(fixed.fc), false),
            Telegram::Token(token) if token.da == token.sa => Words::TokenToItself,
            Telegram::Token(token) => Words::TokenTo(token.da),
            Telegram::Ack => Words::Acknowledgement,
        }
    }

    /// What a telegram with a control octet says, without data or with some.
    pub(crate) fn by(fc: Fc, is_empty: bool) -> Words
        ensures { words_text result ≡ head_words fc.0 is_empty }
    {
        if fc.is_request() {
            return Words::Request(fc);
        }
        Words::Reply(fc, is_empty)
    }

    /// Appends the words: `token to 2`, `FDL status request`, `SRD high, FCB 1`, `reply: data low`.
    ///
    /// Fault: memory was refused.
    pub fn push(&self, text: &mut Vec<u8>) -> Result<(), AllocError>
        ensures { OnOk result (text.new.items ≡ text.old.items ++ words_text self.now) }
    {
        match self {
            Words::TokenTo(address) => {
                text.extend_from_slice(b"token to ")?;
                push_number(text, *address)
            }
            Words::TokenToItself => text.extend_from_slice(b"token to itself"),
            Words::Request(fc) => push_request(text, *fc),
            Words::Reply(fc, is_empty) => push_reply(text, *fc, *is_empty),
            Words::Acknowledgement => text.extend_from_slice(b"short acknowledgement"),
        }
    }
}

/// Appends what a request asks for, and its frame count bit.
fn push_request(text: &mut Vec<u8>, fc: Fc) -> Result<(), AllocError>
    ensures { OnOk result (text.new.items ≡ text.old.items ++ request_words fc.0) }
{
    push_asked(text, Asked::by(fc.code()), fc.code())?;
    text.extend_from_slice(count_words(fc).as_bytes())
}

/// Appends what a request asks for, by its function code.
fn push_asked(text: &mut Vec<u8>, asked: Asked, code: u8) -> Result<(), AllocError>
    ensures { OnOk result (text.new.items ≡ text.old.items ++ asked_words asked code) }
{
    match asked {
        Asked::Send(service, priority) => {
            text.extend_from_slice(service_name(service).as_bytes())?;
            text.extend_from_slice(priority_name(priority).as_bytes())
        }
        Asked::Status => text.extend_from_slice(b"FDL status request"),
        Asked::Unknown => push_counted(text, b"request with function code ", u64::from(code)),
    }
}

/// The name of a service.
fn service_name(service: Service) -> &'static str
    ensures { result.now ≡ service_words service }
{
    match service {
        Service::Sda => "SDA",
        Service::Sdn => "SDN",
        Service::Srd => "SRD",
    }
}

/// The priority of a service.
fn priority_name(priority: Priority) -> &'static str
    ensures { result.now ≡ (if is_high priority then codes " high" else codes " low") }
{
    match priority {
        Priority::Low => " low",
        Priority::High => " high",
    }
}

/// The frame count bit of a request. One that is set but not valid begins the count.
fn count_words(fc: Fc) -> &'static str
    ensures { result.now ≡ count_words (has_bit fc.0 4) (has_bit fc.0 5) }
{
    if fc.fcv() {
        if fc.fcb() { ", FCB 1" } else { ", FCB 0" }
    } else if fc.fcb() {
        ", first FCB"
    } else {
        ""
    }
}

/// Appends what a reply says: its function code, and the station type where it has no data.
fn push_reply(text: &mut Vec<u8>, fc: Fc, is_empty: bool) -> Result<(), AllocError>
    ensures { OnOk result (text.new.items ≡ text.old.items ++ reply_words fc.0 is_empty) }
{
    push_reply_name(text, fc.code())?;
    if is_empty && fc.code() == 0 {
        return text.extend_from_slice(type_words(fc.station_type()).as_bytes());
    }
    Ok(())
}

/// Appends what the function code of a reply means, or the code.
fn push_reply_name(text: &mut Vec<u8>, code: u8) -> Result<(), AllocError>
    ensures { OnOk result (text.new.items ≡ text.old.items ++ reply_name code) }
{
    match reply_name(code) {
        Some(name) => text.extend_from_slice(name.as_bytes()),
        None => push_counted(text, b"reply: function code ", u64::from(code)),
    }
}

/// What the function code of a reply means.
fn reply_name(code: u8) -> Option<&'static str>
    ensures { named_reply (option_map (λ name. name.now) result) code ≡ reply_name code }
{
    match code {
        0 => Some("reply: OK"),
        1 => Some("reply: user error"),
        2 => Some("reply: no resource"),
        3 => Some("reply: service not activated"),
        8 => Some("reply: data low"),
        9 => Some("reply: no data"),
        10 => Some("reply: data high"),
        12 => Some("reply: data low, no resource"),
        13 => Some("reply: data high, no resource"),
        _ => None,
    }
}

/// The station type of a reply, 0 to 3.
fn type_words(station_type: u8) -> &'static str
    ensures { result.now ≡ type_words station_type }
{
    match station_type {
        0 => ", passive",
        1 => ", master not ready",
        2 => ", master ready",
        _ => ", master in ring",
    }
}
