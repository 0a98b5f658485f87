//! Reads lines of a capture: `BEGIN END HEX`, `BEGIN HEX` or `HEX`.

ghost use Rattle.std.specs.Prelude.{◌≡◌, ◌<◌, ◌≤◌, ◌*◌, List, is_some, length, map, slice_index, take, IfSome, Some};
ghost use Rattle.pb_telegram.specs.declared.chars.RxChar.{RxChar};
ghost use Rattle.pb_telegram.specs.declared.chars.RxChar.TheVariants.{Good};
ghost use Rattle.pb_decode.specs.Characters.{characters_of};
ghost use Rattle.pb_monitor.specs.Lines.{IsInRoom, IsMoment};
ghost use Rattle.pb_monitor.specs.Listening.{AreCharacters};

use crate::reports::push_refused;
use crate::texts::{push_number, push_quoted};
use pb_decode::{character, feed_characters};
use pb_telegram::{Receiver, RxChar};
use std::alloc::AllocError;

/// The most characters of a line, without its end.
pub(crate) const LONGEST_LINE: usize = 4096;

/// Below this a number of 64 bits has room for one more decimal digit.
const MOST_BEFORE_A_DIGIT: u64 = u64::MAX / 10;

/// The most octets of a telegram.
pub(crate) const LONGEST_TELEGRAM: usize = 255;

/// When the burst of a line was on the bus, as far as the line says.
#[derive(Clone, Copy, Debug, PartialEq, Eq)]
pub(crate) enum When {
    /// From one moment to another, in bit times.
    Within { begin: u64, end: u64 },
    /// From a moment on, in bit times.
    From(u64),
    /// The line does not say.
    Unknown,
}

/// What a line of a capture says.
#[derive(Clone, Copy, Debug, PartialEq, Eq)]
pub(crate) enum Line<'a> {
    /// Nothing: it is blank, or a comment.
    Blank,
    /// Something was missed here.
    Gap,
    /// A burst, and the hex of its characters, which is not read yet.
    Burst(When, &'a [u8]),
    /// It is refused.
    Refused(LineFault<'a>),
}

/// Why a line of a capture is refused.
#[derive(Clone, Copy, Debug, PartialEq, Eq)]
pub(crate) enum LineFault<'a> {
    /// It has more than 4,096 characters.
    TooLong,
    /// It has more than three fields.
    TooManyFields,
    /// A field should be a moment and is none.
    NoMoment(&'a [u8]),
    /// The last field is not hex.
    NotHex(&'a [u8]),
    /// It ends no later than it begins.
    EndsEarly,
}

impl LineFault<'_> {
    /// Appends what is wrong, and what is wanted.
    pub(crate) fn push(&self, text: &mut Vec<u8>) -> Result<(), AllocError> {
        match self {
            LineFault::TooLong => {
                text.extend_from_slice(b"the line has more than ")?;
                push_number(text, LONGEST_LINE)?;
                text.extend_from_slice(b" characters and was skipped; wanted: one burst a line")
            }
            LineFault::TooManyFields => text.extend_from_slice(
                b"the line has more than three fields; wanted: BEGIN END HEX, with no blanks inside HEX",
            ),
            LineFault::NoMoment(field) => {
                push_quoted(text, field)?;
                text.extend_from_slice(
                    b" is no moment; wanted: bit times, 0 to 18446744073709551615, or HEX alone with no blanks inside",
                )
            }
            LineFault::NotHex(field) => {
                push_quoted(text, field)?;
                text.extend_from_slice(
                    b" is not hex; wanted: two hex digits for each octet, -- for a damaged one",
                )
            }
            LineFault::EndsEarly => text.extend_from_slice(
                b"the burst ends no later than it begins; wanted: BEGIN below END",
            ),
        }
    }
}

/// Where the characters of a burst are.
#[derive(Clone, Copy, Debug, PartialEq, Eq)]
pub(crate) enum Characters {
    /// They are undamaged, and so many octets of the room.
    Octets(usize),
    /// The receiver was fed them.
    Fed,
}

/// What a monitor does for a line.
#[derive(Clone, Copy, Debug, PartialEq, Eq)]
pub(crate) enum Told {
    /// Nothing.
    Nothing,
    /// It begins anew.
    Gap,
    /// It begins anew, and the line counts as refused.
    Refused,
    /// It hears a burst.
    Burst(When, Characters),
}

/// Appends why a line is refused. The line's number is counted from 1.
#[inline(never)]
pub(crate) fn push_line_fault(
    fault: LineFault<'_>,
    number: u64,
    text: &mut Vec<u8>,
) -> Result<(), AllocError> {
    push_refused(text, b"line", number)?;
    fault.push(text)?;
    text.extend_from_slice(b"\n")
}

/// A line `BEGIN END HEX` whose characters are undamaged.
#[derive(Clone, Copy, Debug)]
pub(crate) struct TimedLine {
    pub(crate) begin: u64,
    pub(crate) end: u64,
    /// How many octets it has, at most 255.
    pub(crate) count: usize,
    /// How many bytes it has, with its end.
    pub(crate) taken: usize,
}

/// Reads the line that begins some bytes and puts its octets into the room, if it ends in them and is `BEGIN END HEX` with
/// single spaces, as most lines are: what `read_line` and `read_hex` do, in one pass. `None` for any other line.
#[inline(always)]
pub(crate) fn timed_line(bytes: &[u8], room: &mut [u8; LONGEST_TELEGRAM]) -> Option<TimedLine>
    ensures count { IfSome result (λ line. line.count ≤ 255) }
    ensures some { IfSome result (λ line. 0 < line.taken) }
    ensures within { IfSome result (λ line. line.taken ≤ length bytes.now) }
{
    let begin = moment_before_space(bytes)?;
    let rest = &bytes[begin.digits + 1..];
    let end = moment_before_space(rest)?;
    let hex = &rest[end.digits + 1..];
    let count = octets_before_end(hex, room)?;
    let length = begin.digits + end.digits + 2 * count + 2;
    if count == 0 || end.bits <= begin.bits || length > LONGEST_LINE {
        return None;
    }
    Some(TimedLine {
        begin: begin.bits,
        end: end.bits,
        count,
        taken: length + 1,
    })
}

/// A moment at the front of some bytes.
#[derive(Clone, Copy, Debug)]
struct Moment {
    bits: u64,
    digits: usize,
}

/// The moment at the front of some bytes, with a space behind it, if no sum overflows.
#[inline(always)]
fn moment_before_space(bytes: &[u8]) -> Option<Moment>
    ensures within { IfSome result (λ moment. moment.digits < length bytes.now) }
    ensures some { IfSome result (λ moment. 0 < moment.digits) }
    ensures moment { IfSome result (λ moment. IsMoment (Some moment.bits) (take moment.digits bytes.now)) }
    ensures space { IfSome result (λ moment. slice_index bytes.now moment.digits ≡ 32) }
{
    let mut bits: u64 = 0;
    for place in 0..bytes.len() {
        let digit = bytes[place].wrapping_sub(b'0');
        if digit > 9 {
            if place == 0 || bytes[place] != b' ' {
                return None;
            }
            return Some(Moment {
                bits,
                digits: place,
            });
        }
        if bits >= MOST_BEFORE_A_DIGIT {
            return None;
        }
        bits = bits * 10 + u64::from(digit);
    }
    None
}

/// How many undamaged characters, at most 255, the hex at the front of some bytes spells, if the line ends behind it. They are
/// then in the room.
#[inline(always)]
#[tactic(auto, using(crate::proofs::Characters::front_is))]
fn octets_before_end(bytes: &[u8], room: &mut [u8; LONGEST_TELEGRAM]) -> Option<usize>
    ensures count { IfSome result (λ count. count ≤ 255) }
    ensures within { IfSome result (λ count. 2 * count < length bytes.now) }
    ensures end { IfSome result (λ count. slice_index bytes.now (2 * count) ≡ 10) }
    ensures chars { IfSome result (λ count.
        characters_of (take (2 * count) bytes.now) ≡ Some (map Good (take count room.new))) }
{
    let most = (bytes.len() / 2).min(LONGEST_TELEGRAM);
    for place in 0..most {
        match character(bytes[2 * place], bytes[2 * place + 1]) {
            Some(RxChar::Good(octet)) => room[place] = octet,
            _ if bytes[2 * place] == b'\n' => return Some(place),
            _ => return None,
        }
    }
    if 2 * most < bytes.len() && bytes[2 * most] == b'\n' {
        return Some(most);
    }
    None
}

/// Reads a line without its end.
pub(crate) fn read_line(line: &[u8]) -> Line<'_> {
    if line.len() > LONGEST_LINE {
        return Line::Refused(LineFault::TooLong);
    }
    let mut place = 0;
    let first = next_field(line, &mut place);
    let second = next_field(line, &mut place);
    let third = next_field(line, &mut place);
    if !next_field(line, &mut place).is_empty() {
        return Line::Refused(LineFault::TooManyFields);
    }
    match (first, second, third) {
        ([], _, _) => Line::Blank,
        (b"gap", [], _) => Line::Gap,
        (hex, [], _) => Line::Burst(When::Unknown, hex),
        (begin, hex, []) => match moment_in(begin) {
            Some(moment) => Line::Burst(When::From(moment), hex),
            None => Line::Refused(LineFault::NoMoment(begin)),
        },
        (begin, end, hex) => read_timed(begin, end, hex),
    }
}

/// The next field of a line, from `place` on, and moves `place` behind it. If there is none, or a comment, it is empty.
#[inline(always)]
fn next_field<'a>(line: &'a [u8], place: &mut usize) -> &'a [u8]
    requires { place.old ≤ length line.now }
    ensures { place.new ≤ length line.now }
{
    while *place < line.len() && is_blank(line[*place]) {
        *place += 1;
    }
    if *place < line.len() && line[*place] == b'#' {
        *place = line.len();
    }
    let first = *place;
    while *place < line.len() && !is_blank(line[*place]) {
        *place += 1;
    }
    &line[first..*place]
}

/// Reads the fields of a line with two moments.
fn read_timed<'a>(begin: &'a [u8], end: &'a [u8], hex: &'a [u8]) -> Line<'a> {
    let Some(from) = moment_in(begin) else {
        return Line::Refused(LineFault::NoMoment(begin));
    };
    let Some(until) = moment_in(end) else {
        return Line::Refused(LineFault::NoMoment(end));
    };
    if until <= from {
        return Line::Refused(LineFault::EndsEarly);
    }
    let when = When::Within {
        begin: from,
        end: until,
    };
    Line::Burst(when, hex)
}

/// Reads the characters of a line, if they are hex: undamaged ones, at most 255, into the room, others by the receiver.
pub(crate) fn read_hex(
    hex: &[u8],
    room: &mut [u8; LONGEST_TELEGRAM],
    receiver: &mut Receiver,
) -> Option<Characters>
    ensures room { IfSome result (λ c. IsInRoom c) }
    ensures hex { is_some result ≡ is_some (characters_of hex.now) }
    ensures chars { IfSome result (λ c. (chars : List RxChar) → characters_of hex.now ≡ Some chars
        → AreCharacters c room.new receiver.new chars) }
{
    if let Some(count) = octets_in(hex, room) {
        return Some(Characters::Octets(count));
    }
    receiver.restart();
    if feed_characters(receiver, hex) {
        return Some(Characters::Fed);
    }
    None
}

/// How many undamaged characters hex spells, at most 255, which are then in the room. `None` if it spells others, or is
/// no hex.
fn octets_in(hex: &[u8], room: &mut [u8; LONGEST_TELEGRAM]) -> Option<usize>
    ensures count { IfSome result (λ count. count ≤ 255) }
    ensures chars { IfSome result (λ count.
        characters_of hex.now ≡ Some (map Good (take count room.new))) }
{
    let count = hex.len() / 2;
    if hex.len() % 2 != 0 || count > LONGEST_TELEGRAM {
        return None;
    }
    for place in 0..count {
        match character(hex[2 * place], hex[2 * place + 1]) {
            Some(RxChar::Good(octet)) => room[place] = octet,
            _ => return None,
        }
    }
    Some(count)
}

/// The number that a field spells in decimal digits.
fn moment_in(field: &[u8]) -> Option<u64>
    ensures { IsMoment result field.now }
{
    let mut bits: u64 = 0;
    for byte in field {
        let digit = byte.wrapping_sub(b'0');
        if digit > 9 {
            return None;
        }
        bits = if bits < MOST_BEFORE_A_DIGIT {
            bits * 10 + u64::from(digit)
        } else {
            bits.checked_mul(10)?.checked_add(u64::from(digit))?
        };
    }
    Some(bits)
}

/// Whether a byte separates fields: a space, a tab, or the carriage return at the end of a line.
fn is_blank(byte: u8) -> bool {
    byte == b' ' || byte == b'\t' || byte == b'\r'
}
