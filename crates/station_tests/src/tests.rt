//! Tests of telegrams and their texts, captures, times, tables, states and message cycles: what they share.

mod captures;
mod changed_octets;
mod cycles;
mod edges;
mod examples;
mod first_half;
mod heard;
mod lists;
mod messages;
mod ports;
mod queues;
mod requests;
mod rotations;
mod second_half;
mod sequences;
mod services;
mod states;
mod telegrams;
mod times;

ghost use Rattle.std.specs.Prelude.{◌≡◌, true};

use arrayvec::ArrayVec;
use pb_cycles::{Request, Service};
use pb_telegram::{RxChar, Telegram, parse, write};
use pb_timers::{ClockFull, Moment};
use std::fmt::Debug;
use std::process::Abort;
use std::str;
use std::test::Fail;

/// Ends the test unless two values are equal. A call of its own: comparing in place makes the proof of a test take
/// three times as long.
fn equal<T: PartialEq + Debug>(rt: &impl Abort, left: &T, right: &T)
    ensures { T.eq left.now right.now ≡ true }
{
    assert_eq!(rt; *left, *right);
}

/// A moment in bit times.
fn at(bits: u64) -> Result<Moment, ClockFull> {
    Moment::new(bits).ok_or(ClockFull)
}

/// The octets of hex digits; `-` means none.
fn octets(hex: &str) -> Result<ArrayVec<u8, 255>, Fail> {
    let mut octets = ArrayVec::new();
    for pair in hex.as_bytes().chunks_exact(2) {
        octets.try_push(u8::from_str_radix(str::from_utf8(pair)?, 16)?)?;
    }
    Ok(octets)
}

/// The data of hex digits.
fn unit(hex: &str) -> Result<ArrayVec<u8, 246>, Fail> {
    Ok(ArrayVec::try_from(octets(hex)?.as_slice())?)
}

/// The telegram that hex digits spell.
fn telegram(hex: &str) -> Result<Telegram, Fail> {
    let mut characters = ArrayVec::<RxChar, 255>::new();
    for octet in &octets(hex)? {
        characters.try_push(RxChar::Good(*octet))?;
    }
    Ok(parse(&characters)?)
}

/// A request without data, or with the data of hex digits.
fn request(da: u8, service: Service, high: bool, hex: &str) -> Result<Request, Fail> {
    Ok(Request::new(da, service, high, unit(hex)?)?)
}

/// The octets of a telegram, if there is one.
fn spelled(telegram: Option<Telegram>) -> ArrayVec<u8, 255> {
    match telegram {
        Some(telegram) => write(&telegram),
        None => ArrayVec::new(),
    }
}
