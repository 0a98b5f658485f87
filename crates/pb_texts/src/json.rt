//! The numbers of a bus as one JSON object.

ghost use Rattle.std.specs.Prelude.{◌≡◌, ◌≢◌, ◌≤◌, ◌<◌, ◌++◌, ◌&&◌, false, Some, None, IfOk, IfErr, OnOk};
ghost use Rattle.std.specs.Option.{option_map};
ghost use Rattle.pb_texts.specs.Bounds.{world_fault};
ghost use Rattle.pb_taps.specs.Faults.{new_fault};
ghost use Rattle.pb_texts.specs.Texts as texts;

use crate::bounds::{
    beyond_ttr, is_master, is_round_long, lag_margin, masters_of, never_asks, reply_margin,
    rotation_bound, shortest_asking, shortest_round, silence_bound, take_margin,
};
use crate::numbers::{Rounding, push_millis};
use crate::texts::{asks_words, round_words};
use pb_scenario::{Scenario, push_number};
use pb_taps::{NewFault, check_taps};
use pb_timers::BusParams;
use pb_world::longest_without;
use std::alloc::{AllocError, Global};

/// The numbers of a scenario's bus as one JSON object on a line: `baud`; `masters`, an array with the `name`, `time_out`,
/// `silence_bound` and `never_dead_bound` of each; `rotation_bound` and `rotation_bound_beyond_ttr`, if there are masters;
/// `take_margin`, `reply_margin` and `lag_margin`; `warnings`, an array of texts. Each number has `bit_times`, and `ms` at
/// a number of bits a second, to a microsecond: bounds are rounded up, margins down. A name needs no escape: it has letters
/// and digits alone, where a file was read.
///
/// Faults: those of a new world on that bus, the first that applies; or `NoMemory`.
pub fn bounds_json(alloc: Global, scenario: &Scenario, baud: u32) -> Result<Vec<u8>, NewFault>
    requires { 0 < baud }
    ensures text { IfOk result (λ text. text.items ≡ texts.bounds_json baud scenario.now) }
    ensures world { OnOk result (world_fault scenario.now ≡ None) }
    ensures fault { IfErr result
        (λ fault. fault ≢ NewFault.NoMemory → option_map new_fault (world_fault scenario.now) ≡ Some fault) }
{
    check_taps(scenario.params(), scenario.taps())?;
    let masters = masters_of(scenario.taps());
    let mut text = Vec::new(alloc);
    text.extend_from_slice(b"{\"baud\":")?;
    push_number(&mut text, baud)?;
    push_masters(&mut text, scenario, baud)?;
    push_rotation(&mut text, scenario.params(), masters, baud)?;
    push_margins(&mut text, scenario.params(), baud)?;
    push_warnings(&mut text, scenario.params(), masters)?;
    Ok(text)
}

/// Appends the array of all masters.
#[tactic(auto, unfolding(crate::specs::Texts::masters_member))]
fn push_masters(text: &mut Vec<u8>, scenario: &Scenario, baud: u32) -> Result<(), AllocError>
    requires { 0 < baud }
    ensures { OnOk result (text.new.items ≡ text.old.items ++ texts.masters_member baud scenario.now) }
{
    text.extend_from_slice(b",\"masters\":[")?;
    push_objects(text, scenario, baud)?;
    text.extend_from_slice(b"]")
}

/// Appends the objects of all masters.
fn push_objects(text: &mut Vec<u8>, scenario: &Scenario, baud: u32) -> Result<(), AllocError>
    requires { 0 < baud }
    ensures { OnOk result (text.new.items ≡ text.old.items ++ texts.master_objects baud
        scenario.now.scenario.params false scenario.now.names scenario.now.scenario.taps) }
{
    let taps = scenario.taps();
    let mut is_behind = false;
    for tap in 0..taps.len() {
        let name = scenario.name(tap);
        let item = &taps[tap];
        if is_master(item) {
            push_comma(text, is_behind)?;
            push_master(text, scenario.params(), name, item.address, baud)?;
            is_behind = true;
        }
    }
    Ok(())
}

/// Appends the object of a master.
fn push_master(
    text: &mut Vec<u8>,
    params: &BusParams,
    name: &str,
    address: u8,
    baud: u32,
) -> Result<(), AllocError>
    requires { 0 < baud }
    ensures { OnOk result
        (text.new.items ≡ text.old.items ++ texts.master_object baud params.now name.now address) }
{
    text.extend_from_slice(b"{\"name\":\"")?;
    text.extend_from_slice(name.as_bytes())?;
    text.extend_from_slice(b"\"")?;
    push_member(
        text,
        Rounding::Up,
        b",\"time_out\":",
        params.tto(address),
        baud,
    )?;
    push_member(
        text,
        Rounding::Up,
        b",\"silence_bound\":",
        silence_bound(params, address),
        baud,
    )?;
    push_member(
        text,
        Rounding::Up,
        b",\"never_dead_bound\":",
        longest_without(params, address),
        baud,
    )?;
    text.extend_from_slice(b"}")
}

/// Appends the rotation bound of up to 127 masters, if there are some.
fn push_rotation(
    text: &mut Vec<u8>,
    params: &BusParams,
    masters: usize,
    baud: u32,
) -> Result<(), AllocError>
    requires baud { 0 < baud }
    requires masters { masters ≤ 127 }
    ensures { OnOk result
        (text.new.items ≡ text.old.items ++ texts.rotation_members baud params.now masters) }
{
    if masters == 0 {
        return Ok(());
    }
    let bound = rotation_bound(params, masters);
    push_member(text, Rounding::Up, b",\"rotation_bound\":", bound, baud)?;
    let beyond = beyond_ttr(params, masters);
    push_member(
        text,
        Rounding::Up,
        b",\"rotation_bound_beyond_ttr\":",
        beyond,
        baud,
    )
}

/// Appends the margins.
fn push_margins(text: &mut Vec<u8>, params: &BusParams, baud: u32) -> Result<(), AllocError>
    requires { 0 < baud }
    ensures { OnOk result (text.new.items ≡ text.old.items ++ texts.margin_members baud params.now) }
{
    push_member(
        text,
        Rounding::Down,
        b",\"take_margin\":",
        take_margin(params),
        baud,
    )?;
    push_member(
        text,
        Rounding::Down,
        b",\"reply_margin\":",
        reply_margin(params),
        baud,
    )?;
    push_member(
        text,
        Rounding::Down,
        b",\"lag_margin\":",
        lag_margin(params),
        baud,
    )
}

/// Appends a key with what stands before it, and bit times.
#[tactic(auto, unfolding(crate::specs::Texts::member))]
fn push_member(
    text: &mut Vec<u8>,
    rounding: Rounding,
    key: &[u8],
    bits: u64,
    baud: u32,
) -> Result<(), AllocError>
    requires { 0 < baud }
    ensures { OnOk result (text.new.items ≡ text.old.items ++ texts.member rounding baud key.now bits) }
{
    text.extend_from_slice(key)?;
    text.extend_from_slice(b"{\"bit_times\":")?;
    push_number(text, bits)?;
    text.extend_from_slice(b",\"ms\":")?;
    push_millis(text, rounding, baud, bits)?;
    text.extend_from_slice(b"}")
}

/// Appends the array of the warnings that apply with some masters, and the end of the object.
#[tactic(auto, unfolding(crate::specs::Texts::warnings_member))]
fn push_warnings(text: &mut Vec<u8>, params: &BusParams, masters: usize) -> Result<(), AllocError>
    requires { masters ≤ 127 }
    ensures { OnOk result (text.new.items ≡ text.old.items ++ texts.warnings_member params.now masters) }
{
    text.extend_from_slice(b",\"warnings\":[")?;
    push_items(text, params, masters)?;
    text.extend_from_slice(b"]}\n")
}

/// Appends the warnings that apply with some masters.
fn push_items(text: &mut Vec<u8>, params: &BusParams, masters: usize) -> Result<(), AllocError>
    requires { masters ≤ 127 }
    ensures { OnOk result (text.new.items ≡ text.old.items ++ texts.warning_items params.now masters) }
{
    let asks = never_asks(params, masters);
    let round = is_round_long(params, masters);
    let least = u128::from(shortest_asking(params, masters));
    push_quoted(text, asks, asks_words(), least)?;
    push_comma(text, both(asks, round))?;
    push_quoted(text, round, round_words(), shortest_round(params, masters))
}

/// Appends a warning with the number that is wanted, in quotes, if it applies.
#[tactic(auto, unfolding(crate::specs::Texts::quoted_if))]
fn push_quoted(
    text: &mut Vec<u8>,
    applies: bool,
    words: &[u8],
    wanted: u128,
) -> Result<(), AllocError>
    ensures { OnOk result (text.new.items ≡ text.old.items ++ texts.quoted_if applies words.now wanted) }
{
    if !applies {
        return Ok(());
    }
    text.extend_from_slice(b"\"")?;
    text.extend_from_slice(words)?;
    push_number(text, wanted)?;
    text.extend_from_slice(b"\"")
}

/// Appends a comma, if there has to be one.
#[tactic(auto, unfolding(crate::specs::Texts::comma_if))]
fn push_comma(text: &mut Vec<u8>, applies: bool) -> Result<(), AllocError>
    ensures { OnOk result (text.new.items ≡ text.old.items ++ texts.comma_if applies) }
{
    if applies {
        text.extend_from_slice(b",")
    } else {
        Ok(())
    }
}

/// Whether both apply.
fn both(one: bool, other: bool) -> bool
    ensures { result ≡ (one && other) }
{
    one && other
}
