//! Numbers and words as text.

ghost use Rattle.std.specs.Prelude.{◌≡◌, ◌<◌, ◌≤◌, ◌+◌, ◌/◌, ◌%◌, ◌++◌, OnOk, decimal, length, slice_index};
ghost use Rattle.hex.specs.Hex.{encode_lower, lower_digits};

use arrayvec::ArrayVec;
use itoa::{Buffer, Integer};
use std::alloc::AllocError;

/// The most bytes of an input that a message repeats.
const LONGEST_QUOTE: usize = 24;

/// The most octets of a unit.
const LONGEST_UNIT: usize = 246;

/// The most bytes of a line that is made before it is appended.
pub(crate) const LONGEST_PIECE: usize = 128;

/// Appends some bytes to a piece of a line.
#[inline(always)]
pub(crate) fn put(piece: &mut ArrayVec<u8, LONGEST_PIECE>, bytes: &[u8])
    requires { length piece.old.items + length bytes.now ≤ 128 }
    ensures items { piece.new.items ≡ piece.old.items ++ bytes.now }
    ensures len { length piece.new.items ≡ length piece.old.items + length bytes.now }
{
    piece.try_extend_from_slice(bytes).unwrap();
}

/// Appends a number in decimal digits to a piece of a line.
pub(crate) fn put_number<N: Integer>(piece: &mut ArrayVec<u8, LONGEST_PIECE>, number: N)
    requires { length piece.old.items + N.MAX_STR_LEN ≤ 128 }
    ensures items { piece.new.items ≡ piece.old.items ++ N.text number }
    ensures len { length piece.new.items ≤ length piece.old.items + N.MAX_STR_LEN }
{
    put(piece, Buffer::new().format(number).as_bytes());
}

/// Appends a number in decimal digits.
pub(crate) fn push_number<N: Integer>(text: &mut Vec<u8>, number: N) -> Result<(), AllocError>
    ensures { OnOk result (text.new.items ≡ text.old.items ++ N.text number) }
{
    text.extend_from_slice(Buffer::new().format(number).as_bytes())
}

/// Appends words and a number.
pub(crate) fn push_counted(text: &mut Vec<u8>, words: &[u8], number: u64) -> Result<(), AllocError>
    ensures { OnOk result (text.new.items ≡ (text.old.items ++ words.now) ++ decimal number) }
{
    text.extend_from_slice(words)?;
    push_number(text, number)
}

/// Appends the octets of a unit, each as two lower-case hex digits.
pub(crate) fn push_hex(text: &mut Vec<u8>, octets: &[u8]) -> Result<(), AllocError>
    requires { length octets.now ≤ 246 }
    ensures { OnOk result (text.new.items ≡ text.old.items ++ encode_lower octets.now) }
{
    let mut room = [0; 2 * LONGEST_UNIT];
    for place in 0..octets.len() {
        let [high, low] = hex_of(octets[place]);
        room[2 * place] = high;
        room[2 * place + 1] = low;
    }
    text.extend_from_slice(&room[..2 * octets.len()])
}

/// An octet as two lower-case hex digits. There is no table, so that the compiler makes vectors of a loop over it.
#[inline(always)]
pub(crate) fn hex_of(octet: u8) -> [u8; 2]
    ensures len { length result ≡ 2 }
    ensures high { slice_index result 0 ≡ slice_index lower_digits (octet / 16) }
    ensures low { slice_index result 1 ≡ slice_index lower_digits (octet % 16) }
{
    [hex_digit(octet / 16), hex_digit(octet % 16)]
}

/// The lower-case hex digit of a value.
#[inline(always)]
fn hex_digit(value: u8) -> u8
    requires { value < 16 }
    ensures { result ≡ slice_index lower_digits value }
{
    if value < 10 {
        b'0' + value
    } else {
        b'a' - 10 + value
    }
}

/// Appends some bytes of an input in quotes; `?` stands for a byte that is no visible ASCII character.
pub(crate) fn push_quoted(text: &mut Vec<u8>, bytes: &[u8]) -> Result<(), AllocError> {
    text.push(b'\'')?;
    for byte in bytes.iter().take(LONGEST_QUOTE) {
        text.push(if is_visible(*byte) { *byte } else { b'?' })?;
    }
    if bytes.len() > LONGEST_QUOTE {
        text.extend_from_slice(b"..")?;
    }
    text.extend_from_slice(b"'")
}

/// Whether a byte is a visible ASCII character.
fn is_visible(byte: u8) -> bool {
    byte > b' ' && byte < 127
}
