//! The numbers of a bus as lines of text.

ghost use Rattle.std.specs.Prelude.{◌≡◌, ◌≢◌, ◌≤◌, ◌<◌, ◌++◌, Some, None, IfOk, IfErr, OnOk};
ghost use Rattle.std.specs.Option.{option_map};
ghost use Rattle.pb_texts.specs.Bounds.{world_fault};
ghost use Rattle.pb_taps.specs.Faults.{new_fault};
ghost use Rattle.pb_taps.specs.Taps.{spec_of};
ghost use Rattle.pb_texts.specs.Texts as texts;

use crate::bounds::{
    beyond_ttr, is_master, is_round_long, lag_margin, masters_of, never_asks, reply_margin,
    rotation_bound, shortest_asking, shortest_round, silence_bound, take_margin,
};
use crate::numbers::{Rounding, push_millis};
use pb_scenario::{Scenario, push_number};
use pb_taps::{NewFault, TapSpec, check_taps};
use pb_timers::BusParams;
use pb_world::longest_without;
use std::alloc::{AllocError, Global};

/// A line for each number of a scenario's bus, in bit times and in milliseconds at a number of bits a second, to a
/// microsecond (bounds are rounded up, margins down), with the law or the rule that it is from: of each master its
/// time-out, its silence bound and its never-dead bound; the rotation bound of a ring of all masters, and how much of it is
/// beyond the target rotation time; the margins of the slot and of the lag; then a line for each warning.
///
/// Faults: those of a new world on that bus, the first that applies; or `NoMemory`.
pub fn bounds_text(alloc: Global, scenario: &Scenario, baud: u32) -> Result<Vec<u8>, NewFault>
    requires { 0 < baud }
    ensures text { IfOk result (λ text. text.items ≡ texts.bounds_text baud scenario.now) }
    ensures world { OnOk result (world_fault scenario.now ≡ None) }
    ensures fault { IfErr result
        (λ fault. fault ≢ NewFault.NoMemory → option_map new_fault (world_fault scenario.now) ≡ Some fault) }
{
    check_taps(scenario.params(), scenario.taps())?;
    let masters = masters_of(scenario.taps());
    let mut text = Vec::new(alloc);
    push_taps(&mut text, scenario, baud)?;
    push_rotation(&mut text, scenario.params(), masters, baud)?;
    push_margins(&mut text, scenario.params(), baud)?;
    push_warnings(&mut text, scenario.params(), masters)?;
    Ok(text)
}

/// Appends the lines of all masters.
fn push_taps(text: &mut Vec<u8>, scenario: &Scenario, baud: u32) -> Result<(), AllocError>
    requires { 0 < baud }
    ensures { OnOk result (text.new.items ≡ text.old.items
        ++ texts.taps_lines baud scenario.now.scenario.params scenario.now.names scenario.now.scenario.taps) }
{
    let taps = scenario.taps();
    for tap in 0..taps.len() {
        push_tap(
            text,
            scenario.params(),
            scenario.name(tap),
            &taps[tap],
            baud,
        )?;
    }
    Ok(())
}

/// Appends the lines of a tap, if it is a master.
fn push_tap(
    text: &mut Vec<u8>,
    params: &BusParams,
    name: &str,
    tap: &TapSpec,
    baud: u32,
) -> Result<(), AllocError>
    requires { 0 < baud }
    ensures { OnOk result
        (text.new.items ≡ text.old.items ++ texts.tap_lines baud params.now name.now (spec_of tap.now)) }
{
    if is_master(tap) {
        push_master(text, params, name, tap.address, baud)
    } else {
        Ok(())
    }
}

/// Appends the lines of a master.
fn push_master(
    text: &mut Vec<u8>,
    params: &BusParams,
    name: &str,
    address: u8,
    baud: u32,
) -> Result<(), AllocError>
    requires { 0 < baud }
    ensures { OnOk result
        (text.new.items ≡ text.old.items ++ texts.master_lines baud params.now name.now address) }
{
    text.extend_from_slice(name.as_bytes())?;
    push_line(
        text,
        Rounding::Up,
        b": time-out ",
        params.tto(address),
        b"a_claim_waits_for_a_time_out",
        baud,
    )?;
    text.extend_from_slice(name.as_bytes())?;
    push_line(
        text,
        Rounding::Up,
        b": silence bound ",
        silence_bound(params, address),
        b"no_master_is_left_in_silence",
        baud,
    )?;
    text.extend_from_slice(name.as_bytes())?;
    push_line(
        text,
        Rounding::Up,
        b": never-dead bound ",
        longest_without(params, address),
        b"the_bus_is_never_dead",
        baud,
    )
}

/// Appends the lines of a ring of up to 127 masters, if there is one.
fn push_rotation(
    text: &mut Vec<u8>,
    params: &BusParams,
    masters: usize,
    baud: u32,
) -> Result<(), AllocError>
    requires baud { 0 < baud }
    requires masters { masters ≤ 127 }
    ensures { OnOk result
        (text.new.items ≡ text.old.items ++ texts.rotation_lines baud params.now masters) }
{
    if masters == 0 {
        return Ok(());
    }
    push_line(
        text,
        Rounding::Up,
        b"rotation bound ",
        rotation_bound(params, masters),
        b"a_rotation_is_bounded",
        baud,
    )?;
    push_line(
        text,
        Rounding::Up,
        b"rotation bound beyond ttr ",
        beyond_ttr(params, masters),
        b"a_rotation_is_bounded",
        baud,
    )
}

/// Appends the lines of the margins.
fn push_margins(text: &mut Vec<u8>, params: &BusParams, baud: u32) -> Result<(), AllocError>
    requires { 0 < baud }
    ensures { OnOk result (text.new.items ≡ text.old.items ++ texts.margin_lines baud params.now) }
{
    push_line(
        text,
        Rounding::Down,
        b"slot margin of a take ",
        take_margin(params),
        b"TakeLate",
        baud,
    )?;
    push_line(
        text,
        Rounding::Down,
        b"slot margin of a reply ",
        reply_margin(params),
        b"ReplyLate",
        baud,
    )?;
    push_line(
        text,
        Rounding::Down,
        b"lag margin ",
        lag_margin(params),
        b"TakeLate, ReplyLate",
        baud,
    )
}

/// Appends the line of a number of bit times, with the law or the rule that it is from.
#[tactic(auto, unfolding(crate::specs::Texts::number_line))]
fn push_line(
    text: &mut Vec<u8>,
    rounding: Rounding,
    title: &[u8],
    bits: u64,
    law: &[u8],
    baud: u32,
) -> Result<(), AllocError>
    requires { 0 < baud }
    ensures { OnOk result
        (text.new.items ≡ text.old.items ++ texts.number_line rounding baud title.now bits law.now) }
{
    text.extend_from_slice(title)?;
    push_number(text, bits)?;
    text.extend_from_slice(b" bit times, ")?;
    push_millis(text, rounding, baud, bits)?;
    text.extend_from_slice(b" ms (")?;
    text.extend_from_slice(law)?;
    text.extend_from_slice(b")\n")
}

/// Appends a line for each warning that applies with some masters.
fn push_warnings(text: &mut Vec<u8>, params: &BusParams, masters: usize) -> Result<(), AllocError>
    requires { masters ≤ 127 }
    ensures { OnOk result (text.new.items ≡ text.old.items ++ texts.warning_lines params.now masters) }
{
    let (asking, round) = (
        shortest_asking(params, masters),
        shortest_round(params, masters),
    );
    push_warning(
        text,
        never_asks(params, masters),
        asks_words(),
        u128::from(asking),
    )?;
    push_warning(text, is_round_long(params, masters), round_words(), round)
}

/// Appends the line of a warning with the number that is wanted, if it applies.
#[tactic(auto, unfolding(crate::specs::Texts::line_if))]
fn push_warning(
    text: &mut Vec<u8>,
    applies: bool,
    words: &[u8],
    wanted: u128,
) -> Result<(), AllocError>
    ensures { OnOk result (text.new.items ≡ text.old.items ++ texts.line_if applies words.now wanted) }
{
    if !applies {
        return Ok(());
    }
    text.extend_from_slice(b"warning: ")?;
    text.extend_from_slice(words)?;
    push_number(text, wanted)?;
    text.extend_from_slice(b"\n")
}

/// The warning that a ring of all masters asks no address, up to the number that is wanted.
#[tactic(auto, unfolding(crate::specs::Texts::asks_words))]
pub(crate) fn asks_words() -> &'static [u8]
    ensures { result.now ≡ texts.asks_words }
{
    b"ttr is at most the shortest rotation and an idle time: after a first receipt a ring of all masters sends no GAP request; wanted: over "
}

/// The warning that a GAP round is long, up to the number that is wanted.
#[tactic(auto, unfolding(crate::specs::Texts::round_words))]
pub(crate) fn round_words() -> &'static [u8]
    ensures { result.now ≡ texts.round_words }
{
    b"a GAP round of all free addresses takes longer than gap * ttr, after which the next is due; wanted: at least "
}
