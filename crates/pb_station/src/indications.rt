//! The requests of others that a station executes in a turn.

ghost use Rattle.std.specs.Prelude.{◌≡◌, ◌≤◌, ◌<◌, ◌+◌, ◌++◌, ◌%◌, [], length, map, take, option_map};
ghost use Rattle.std.specs.Vec.{vec_capacity};
ghost use Rattle.pb_cycles.specs.Requests.{asked_by};
ghost use Rattle.pb_station.specs.Indications.{asked_in, executed_in, fields_of, request_in, with_front};
ghost use Rattle.pb_station.specs.MarkViews.{brought};
ghost use Rattle.pb_station.specs.Notes.{chars_of, octets_of, mark_with};
ghost use Rattle.pb_transitions.specs.Arrivals.{brings};
ghost use Rattle.law_turn.specs.Arrivals.{arrival_of};

use crate::notes::Note;
use arrayvec::ArrayVec;
use pb_cycles::{Asked, Frame, Message, Service};
use pb_telegram::{Fc, RxChar, Telegram, copy_octets};
use pb_transitions::{spelled_telegram, whole_telegram};

/// A request of another station that a station has executed (EN 50170-2, message cycles).
#[derive(Debug, PartialEq, Eq, Drop)]
pub struct Indication {
    /// The address of the station that asks, 0 to 126.
    pub source: u8,
    /// The service: SDA, SDN or SRD.
    pub service: Service,
    /// Whether its priority is high.
    pub high: bool,
    /// Its data, at most 246 octets.
    pub unit: ArrayVec<u8, 246>,
}

/// Appends the request in a mark that was read, if it was executed: the count of executed requests has changed. The
/// caller ensures that the list has memory for it.
pub(crate) fn tell_into(
    told: &mut Vec<Indication>,
    before: u64,
    after: u64,
    note: &Note,
    chars: &[RxChar],
    octets: &[u8],
)
    requires room { length told.old.items < vec_capacity told.old }
    requires chars { chars_of note.now ≤ length chars.now }
    requires octets { octets_of note.now ≤ length octets.now }
    ensures told { let mark = mark_with note.now (take (chars_of note.now) chars.now)
        (take (octets_of note.now) octets.now) in
        map fields_of told.new.items
        ≡ map fields_of told.old.items ++ with_front (executed_in before after mark) [] }
    ensures few { length told.new.items ≤ length told.old.items + 1 }
    ensures room { vec_capacity told.new ≡ vec_capacity told.old }
{
    if before != after {
        push_request(told, note, chars, octets);
    }
}

/// Appends the request in a mark. Kept out of line: its frame has room for the longest telegram.
#[inline(never)]
fn push_request(told: &mut Vec<Indication>, note: &Note, chars: &[RxChar], octets: &[u8])
    requires room { length told.old.items < vec_capacity told.old }
    requires chars { chars_of note.now ≤ length chars.now }
    requires octets { octets_of note.now ≤ length octets.now }
    ensures told { let mark = mark_with note.now (take (chars_of note.now) chars.now)
        (take (octets_of note.now) octets.now) in
        map fields_of told.new.items
        ≡ map fields_of told.old.items ++ with_front (request_in (arrival_of (brought mark))) [] }
    ensures few { length told.new.items ≤ length told.old.items + 1 }
    ensures room { vec_capacity told.new ≡ vec_capacity told.old }
{
    if let Some(indication) = request_of(&telegram_of(note, chars, octets)) {
        told.push_reserved(indication);
    }
}

/// The telegram that a mark brings.
fn telegram_of(note: &Note, chars: &[RxChar], octets: &[u8]) -> Option<Telegram>
    requires chars { chars_of note.now ≤ length chars.now }
    requires octets { octets_of note.now ≤ length octets.now }
    ensures { brings result ≡ arrival_of (brought
        (mark_with note.now (take (chars_of note.now) chars.now) (take (octets_of note.now) octets.now))) }
{
    match note {
        Note::Begin { .. } => whole_telegram(&[]),
        Note::End { count, .. } => whole_telegram(&chars[..*count]),
        Note::GoodEnd { count, .. } => spelled_telegram(&octets[..*count]),
        Note::Three { octets, .. } => spelled_telegram(octets),
        Note::Noise { .. } => whole_telegram(&[RxChar::Bad]),
    }
}

/// The request for a service that a telegram is.
fn request_of(telegram: &Option<Telegram>) -> Option<Indication>
    ensures { option_map fields_of result ≡ request_in (brings telegram.now) }
{
    match telegram {
        Some(telegram) => match Message::read(telegram) {
            Message::Framed(frame) => asked_in(&frame),
            Message::Acknowledgement | Message::TokenPass => None,
        },
        None => None,
    }
}

/// The request for a service with these fields.
fn asked_in(frame: &Frame) -> Option<Indication>
    ensures { option_map fields_of result ≡ asked_in frame.now (asked_by (frame.now.fc % 16)) }
{
    match Asked::by(Fc(frame.fc()).code()) {
        Asked::Send(service, priority) => Some(Indication {
            source: frame.sa() % 128,
            service,
            high: priority.is_high(),
            unit: copy_octets(frame.unit()),
        }),
        Asked::Status | Asked::Unknown => None,
    }
}
