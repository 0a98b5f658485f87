//! What a telegram says, in a short word; and how much of it was sent.

ghost use Rattle.std.specs.Prelude.{◌≡◌, ◌≤◌, ◌++◌, OnOk, length, map};
ghost use Rattle.pb_telegram.specs.declared.chars.RxChar.TheVariants.{Good};
ghost use Rattle.law_turn.specs.Arrivals.{arrival_of};
ghost use Rattle.pb_medium.specs.Entries.{record_of};
ghost use Rattle.pb_transitions.specs.Arrivals.{brings};
ghost use Rattle.pb_export.specs.Saying as saying;

use crate::pieces::{Piece, push_pieces};
use crate::words::{reply_words, request_words};
use pb_telegram::Telegram;
use pb_transitions::spelled_telegram;
use pb_world::Record;
use std::alloc::AllocError;

/// The bits of a character.
const CHARACTER: u64 = 11;

/// What kind of telegram some octets are.
#[derive(Clone, Copy, Debug, PartialEq, Eq)]
pub(crate) enum Kind {
    Token,
    Request,
    Reply,
    Acknowledgement,
    Other,
}

/// The kind of the telegram that octets spell.
pub(crate) fn kind_of(octets: &[u8]) -> Kind
    ensures { result ≡ saying.kind_of (arrival_of (map Good octets.now)) }
{
    kind_in(&spelled_telegram(octets))
}

/// The kind of a telegram, if there is one.
pub(crate) fn kind_in(telegram: &Option<Telegram>) -> Kind
    ensures { result ≡ saying.kind_of (brings telegram.now) }
{
    match telegram {
        Some(Telegram::Token(_)) => Kind::Token,
        Some(Telegram::Ack) => Kind::Acknowledgement,
        Some(Telegram::Short(short)) => framed_kind(short.fc),
        Some(Telegram::Var(var)) => framed_kind(var.fc),
        Some(Telegram::Fixed8(fixed)) => framed_kind(fixed.fc),
        None => Kind::Other,
    }
}

/// The kind of a telegram with this control octet.
fn framed_kind(fc: u8) -> Kind
    ensures { result ≡ saying.framed_kind fc }
{
    if is_request(fc) {
        Kind::Request
    } else {
        Kind::Reply
    }
}

/// Whether this is the control octet of a request: bit 6 is set.
pub(crate) fn is_request(fc: u8) -> bool
    ensures { result ≡ saying.is_request fc }
{
    fc / 64 % 2 == 1
}

/// The short word of a kind of telegram.
pub(crate) fn kind_words(kind: Kind) -> &'static [u8]
    ensures { result.now ≡ saying.kind_words kind }
{
    match kind {
        Kind::Token => b"token",
        Kind::Request => b"request",
        Kind::Reply => b"reply",
        Kind::Acknowledgement => b"acknowledgement",
        Kind::Other => b"other",
    }
}

/// Appends the short word of the telegram that octets spell: `token to 2`, `status? 3`, `SRD high 7`, `data 8`, `ready`,
/// `ack`. The number is the address that it goes to, or how many octets of data there are.
pub(crate) fn push_word(text: &mut Vec<u8>, octets: &[u8]) -> Result<(), AllocError>
    ensures { OnOk result (text.new.items
        ≡ text.old.items ++ saying.word_text (arrival_of (map Good octets.now))) }
{
    push_word_of(text, &spelled_telegram(octets))
}

/// Appends the short word of a telegram, if there is one.
pub(crate) fn push_word_of(
    text: &mut Vec<u8>,
    telegram: &Option<Telegram>,
) -> Result<(), AllocError>
    ensures { OnOk result (text.new.items ≡ text.old.items ++ saying.word_text (brings telegram.now)) }
{
    match telegram {
        Some(Telegram::Token(token)) => push_numbered(text, b"token to", u64::from(token.da)),
        Some(Telegram::Ack) => text.extend_from_slice(b"ack"),
        Some(Telegram::Short(short)) => push_framed(text, short.da, short.fc, 0),
        Some(Telegram::Var(var)) => push_framed(text, var.da, var.fc, var.unit.len()),
        Some(Telegram::Fixed8(fixed)) => push_framed(text, fixed.da, fixed.fc, 8),
        None => text.extend_from_slice(b"other"),
    }
}

/// Appends the short word of a telegram with a control octet and so many octets of data.
fn push_framed(text: &mut Vec<u8>, da: u8, fc: u8, unit: usize) -> Result<(), AllocError>
    ensures { OnOk result (text.new.items ≡ text.old.items ++ saying.framed_text da fc unit) }
{
    if is_request(fc) {
        push_numbered(text, request_word(fc % 16), u64::from(da % 128))
    } else if unit > 0 {
        push_numbered(text, b"data", unit as u64)
    } else {
        text.extend_from_slice(reply_word(fc))
    }
}

/// Appends words, a space and a number.
fn push_numbered(text: &mut Vec<u8>, words: &[u8], number: u64) -> Result<(), AllocError>
    ensures { OnOk result (text.new.items ≡ text.old.items ++ saying.numbered words.now number) }
{
    push_pieces(
        text,
        &[Piece::Text(words), Piece::Text(b" "), Piece::Number(number)],
    )
}

/// The short word of a request with this function code.
fn request_word(code: u8) -> &'static [u8]
    ensures { result.now ≡ saying.request_word code }
{
    if code == 9 {
        b"status?"
    } else {
        request_words(code)
    }
}

/// The short word of a reply without data: for a status, what the station is.
fn reply_word(fc: u8) -> &'static [u8]
    ensures { result.now ≡ saying.reply_word fc }
{
    if fc % 16 > 0 {
        return reply_words(fc % 16);
    }
    match fc / 16 % 4 {
        0 => b"passive",
        1 => b"not ready",
        2 => b"ready",
        _ => b"in ring",
    }
}

/// The octets of a telegram that were sent: all, unless its speaker stopped.
pub(crate) fn sent_octets(telegram: &Record) -> &[u8]
    ensures octets { result.now ≡ saying.sent_octets (record_of telegram.now) }
    ensures few { length result.now ≤ 255 }
{
    let sent = telegram.end.saturating_sub(telegram.begin) / CHARACTER;
    let count = sent.min(telegram.octets.len() as u64) as usize;
    &telegram.octets[..count]
}
