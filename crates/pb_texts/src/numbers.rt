//! Bit times as text, in milliseconds too.

ghost use Rattle.std.specs.Prelude.{◌≡◌, ◌++◌, ◌<◌, OnOk};
ghost use Rattle.pb_texts.specs.Texts as texts;

use pb_scenario::push_number;
use std::alloc::AllocError;

/// How a duration is rounded to a microsecond, so that no reader of a bound or a margin is promised too much.
#[derive(Clone, Copy, Debug, PartialEq, Eq)]
pub(crate) enum Rounding {
    /// Up: a bound.
    Up,
    /// Down: a margin.
    Down,
}

/// Appends bit times at a number of bits a second, in milliseconds.
#[tactic(auto, unfolding(crate::specs::Texts::millis))]
pub(crate) fn push_millis(
    text: &mut Vec<u8>,
    rounding: Rounding,
    baud: u32,
    bits: u64,
) -> Result<(), AllocError>
    requires { 0 < baud }
    ensures { OnOk result (text.new.items ≡ text.old.items ++ texts.millis rounding baud bits) }
{
    push_thousandth(text, micros(rounding, baud, bits))
}

/// Bit times at a number of bits a second, in microseconds.
#[tactic(auto, unfolding(crate::specs::Texts::micros))]
fn micros(rounding: Rounding, baud: u32, bits: u64) -> u128
    requires { 0 < baud }
    ensures { result ≡ texts.micros rounding baud bits }
{
    let (baud, bits) = (u128::from(baud), u128::from(bits));
    match rounding {
        Rounding::Up => (bits * 1_000_000 + (baud - 1)) / baud,
        Rounding::Down => bits * 1_000_000 / baud,
    }
}

/// Appends a thousandth of a number, with three decimals.
#[tactic(auto, unfolding(crate::specs::Texts::thousandth))]
fn push_thousandth(text: &mut Vec<u8>, number: u128) -> Result<(), AllocError>
    ensures { OnOk result (text.new.items ≡ text.old.items ++ texts.thousandth number) }
{
    push_number(text, number / 1000)?;
    text.extend_from_slice(b".")?;
    push_number(text, number / 100 % 10)?;
    push_number(text, number / 10 % 10)?;
    push_number(text, number % 10)
}
