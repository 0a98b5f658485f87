//! Reads the hex digits of a line as characters for a receiver.

ghost use Rattle.std.specs.Prelude.{◌≡◌, ◌<◌, ◌≤◌, [], drop, length, IfSome, OnSome, is_some};
ghost use Rattle.hex.specs.Hex.{hex_digit_value};
ghost use Rattle.pb_telegram.specs.Receiving.{StandsFor};
ghost use Rattle.pb_decode.specs.Characters.{is_blank, octet_of_digits, character_of, characters_of, IsNextDigit};

use pb_telegram::{Receiver, RxChar};

/// Feeds the characters of a line of hex to a receiver that has been fed none, and returns whether the line is hex:
/// pairs of hex digits of either case, or `--` for a damaged character. Spaces and tabs are ignored. If the line is not
/// hex, the receiver's state is unspecified.
pub fn feed_characters(receiver: &mut Receiver, line: &[u8]) -> bool
    requires { StandsFor receiver.old [] }
    ensures hex { result ≡ is_some (characters_of line.now) }
    ensures fed { IfSome (characters_of line.now) (StandsFor receiver.new) }
{
    let mut place = 0;
    while let Some(high) = next_digit(line, &mut place) {
        let Some(low) = next_digit(line, &mut place) else {
            return false;
        };
        match character(high, low) {
            Some(char) => receiver.feed(char),
            None => return false,
        }
    }
    true
}

/// Returns the next byte of a line, from `place` on, that is no space or tab, and moves `place` past it. If there is
/// none, it returns `None` and moves `place` to the end of the line.
fn next_digit(line: &[u8], place: &mut usize) -> Option<u8>
    requires { place.old ≤ length line.now }
    ensures next { IsNextDigit result (drop place.old line.now) (drop place.new line.now) }
    ensures behind { OnSome result (place.old < place.new) }
    ensures within { place.new ≤ length line.now }
{
    while *place < line.len() {
        let byte = line[*place];
        *place += 1;
        if !is_blank(byte) {
            return Some(byte);
        }
    }
    None
}

/// Whether the byte is a space or a tab.
fn is_blank(byte: u8) -> bool
    ensures { result ≡ is_blank byte }
{
    byte == b' ' || byte == b'\t'
}

/// The character that two bytes of a line of hex spell: an octet, by digits of either case, or by `--` a damaged one.
pub fn character(first: u8, second: u8) -> Option<RxChar>
    ensures { result ≡ character_of first second }
{
    match octet(first, second) {
        Some(octet) => Some(RxChar::Good(octet)),
        None if first == b'-' && second == b'-' => Some(RxChar::Bad),
        None => None,
    }
}

/// The octet of two hex digits.
fn octet(high: u8, low: u8) -> Option<u8>
    ensures { result ≡ octet_of_digits (hex_digit_value high) (hex_digit_value low) }
{
    Some(digit(high)? * 16 + digit(low)?)
}

/// The value of a hex digit of either case.
fn digit(byte: u8) -> Option<u8>
    ensures value { result ≡ hex_digit_value byte }
    ensures bound { IfSome result (λ value. value < 16) }
{
    match byte {
        0..=b'9' => byte.checked_sub(b'0'),
        b'a'..=b'f' => Some(byte - b'a' + 10),
        b'A'..=b'F' => Some(byte - b'A' + 10),
        _ => None,
    }
}
