//! A trace as JSON: an object a line.

ghost use Rattle.std.specs.Prelude.{◌≡◌, ◌++◌, OnOk, map};
ghost use Rattle.pb_telegram.specs.declared.chars.RxChar.TheVariants.{Good};
ghost use Rattle.law_turn.specs.Arrivals.{arrival_of};
ghost use Rattle.pb_medium.specs.Entries.{entry_of, heard_of, record_of};
ghost use Rattle.pb_taps.specs.Taps.{spec_of};
ghost use Rattle.pb_transitions.specs.Arrivals.{brings};
ghost use Rattle.pb_export.specs.Windows.{if_shown, shown_in};
ghost use Rattle.pb_export.specs.Json as json;

use crate::names::{address_of, name_of};
use crate::options::Window;
use crate::pieces::{Piece, push_pieces};
use crate::saying::{is_request, sent_octets};
use crate::words::{heard_words, reply_words, request_words, station_words, truth};
use pb_scenario::{Entry, Kind, Scenario, TapSpec};
use pb_telegram::{Telegram, VarTelegram};
use pb_timers::BusParams;
use pb_transitions::spelled_telegram;
use pb_world::{Heard, Reception, Record};
use std::alloc::AllocError;

/// Appends a trace as JSON, an object a line: the parameters of the bus and its stations, then each entry that is shown.
/// All times are in bit times. A name needs no escape: where a file was read, it has letters, digits, `-` and `_` alone.
///
/// Fault: memory was refused.
pub fn push_json(
    text: &mut Vec<u8>,
    scenario: &Scenario,
    entries: &[Entry],
    window: Window,
) -> Result<(), AllocError>
    ensures { OnOk result (text.new.items
        ≡ text.old.items ++ json.json_text window scenario.now (map entry_of entries.now)) }
{
    push_bus(text, scenario, scenario.until())?;
    push_entries(text, scenario, entries, window)
}

/// Appends the lines of the entries that are shown.
pub(crate) fn push_entries(
    text: &mut Vec<u8>,
    scenario: &Scenario,
    entries: &[Entry],
    window: Window,
) -> Result<(), AllocError>
    ensures { OnOk result (text.new.items
        ≡ text.old.items ++ shown_in window (json.entry_line scenario.now) (map entry_of entries.now)) }
{
    for entry in entries {
        push_shown(text, scenario, entry, window)?;
    }
    Ok(())
}

/// Appends the line of an entry, if it is shown.
fn push_shown(
    text: &mut Vec<u8>,
    scenario: &Scenario,
    entry: &Entry,
    window: Window,
) -> Result<(), AllocError>
    ensures { OnOk result (text.new.items
        ≡ text.old.items ++ if_shown window (json.entry_line scenario.now) (entry_of entry.now)) }
{
    if window.shows(entry) {
        push_entry(text, scenario, entry)
    } else {
        Ok(())
    }
}

/// Appends the line of the bus, for a run up to the moment `until`, in bit times.
pub(crate) fn push_bus(
    text: &mut Vec<u8>,
    scenario: &Scenario,
    until: u64,
) -> Result<(), AllocError>
    ensures { OnOk result (text.new.items ≡ text.old.items ++ json.bus_line scenario.now until) }
{
    push_params(text, scenario.params())?;
    push_pieces(
        text,
        &[
            Piece::Text(b",\"until\":"),
            Piece::Number(until),
            Piece::Text(b",\"stations\":["),
        ],
    )?;
    push_stations(text, scenario)?;
    text.extend_from_slice(b"]}\n")
}

/// Appends the parameters of the bus, with the begin of its object.
pub(crate) fn push_params(text: &mut Vec<u8>, params: &BusParams) -> Result<(), AllocError>
    ensures { OnOk result (text.new.items ≡ text.old.items ++ json.params_text params.now) }
{
    push_pieces(
        text,
        &[
            Piece::Text(b"{\"bus\":{\"tsl\":"),
            Piece::Number(u64::from(params.tsl())),
            Piece::Text(b",\"tid1\":"),
            Piece::Number(u64::from(params.tid1())),
            Piece::Text(b",\"tid2\":"),
            Piece::Number(u64::from(params.tid2())),
            Piece::Text(b",\"tsdr\":"),
            Piece::Number(u64::from(params.tsdr())),
            Piece::Text(b",\"lag\":"),
            Piece::Number(u64::from(params.lag())),
            Piece::Text(b",\"ttr\":"),
            Piece::Number(u64::from(params.ttr())),
            Piece::Text(b",\"gap\":"),
            Piece::Number(u64::from(params.gap())),
            Piece::Text(b",\"hsa\":"),
            Piece::Number(u64::from(params.hsa())),
            Piece::Text(b",\"retries\":"),
            Piece::Number(u64::from(params.retries())),
            Piece::Text(b",\"ttd\":"),
            Piece::Number(u64::from(params.ttd())),
            Piece::Text(b"}"),
        ],
    )
}

/// Appends the objects of all stations.
fn push_stations(text: &mut Vec<u8>, scenario: &Scenario) -> Result<(), AllocError>
    ensures { OnOk result (text.new.items
        ≡ text.old.items ++ json.stations_text 0 scenario.now.names scenario.now.scenario.taps) }
{
    let taps = scenario.taps();
    for tap in 0..taps.len() {
        push_station(text, tap, scenario.name(tap), &taps[tap])?;
    }
    Ok(())
}

/// Appends the object of a station, after a comma unless it is the first.
fn push_station(
    text: &mut Vec<u8>,
    tap: usize,
    name: &str,
    spec: &TapSpec,
) -> Result<(), AllocError>
    ensures { OnOk result (text.new.items
        ≡ text.old.items ++ json.station_text tap name.now (spec_of spec.now)) }
{
    push_pieces(
        text,
        &[
            Piece::Text(comma_after(tap)),
            Piece::Text(b"{\"name\":\""),
            Piece::Text(name.as_bytes()),
            Piece::Text(b"\",\"address\":"),
            Piece::Number(u64::from(spec.address)),
            Piece::Text(b",\"kind\":\""),
            Piece::Text(kind_words(spec)),
            Piece::Text(b"\"}"),
        ],
    )
}

/// A comma, behind so many others if there are any.
fn comma_after(others: usize) -> &'static [u8]
    ensures { result.now ≡ json.comma_after others }
{
    if others > 0 { b"," } else { b"" }
}

/// What kind of station a tap has.
fn kind_words(spec: &TapSpec) -> &'static [u8]
    ensures { result.now ≡ json.kind_words (spec_of spec.now) }
{
    match spec.kind {
        Kind::Master => b"master",
        Kind::Passive => b"passive",
    }
}

/// Appends the line of an entry.
fn push_entry(text: &mut Vec<u8>, scenario: &Scenario, entry: &Entry) -> Result<(), AllocError>
    ensures { OnOk result (text.new.items
        ≡ text.old.items ++ json.entry_line scenario.now (entry_of entry.now)) }
{
    match entry {
        Entry::Sent(telegram) => push_record(text, scenario, telegram),
        Entry::Noise { begin, end } => {
            push_span(text, *begin, *end)?;
            text.extend_from_slice(b",\"kind\":\"noise\"}\n")
        }
    }
}

/// Appends begin and end, with the begin of their object.
pub(crate) fn push_span(text: &mut Vec<u8>, begin: u64, end: u64) -> Result<(), AllocError>
    ensures { OnOk result (text.new.items ≡ text.old.items ++ json.span_text begin end) }
{
    push_pieces(
        text,
        &[
            Piece::Text(b"{\"begin\":"),
            Piece::Number(begin),
            Piece::Text(b",\"end\":"),
            Piece::Number(end),
        ],
    )
}

/// Appends the line of a telegram.
fn push_record(text: &mut Vec<u8>, scenario: &Scenario, telegram: &Record) -> Result<(), AllocError>
    ensures { OnOk result (text.new.items
        ≡ text.old.items ++ json.record_line scenario.now (record_of telegram.now)) }
{
    push_span(text, telegram.begin, telegram.end)?;
    push_speaker(text, scenario, telegram)?;
    push_said(text, &telegram.octets)?;
    text.extend_from_slice(b",\"heard\":{")?;
    push_heard(text, scenario, &telegram.heard)?;
    text.extend_from_slice(b"}}\n")
}

/// Appends who sent a telegram, its octets, and how many of them were sent.
fn push_speaker<'a>(
    text: &mut Vec<u8>,
    scenario: &'a Scenario,
    telegram: &'a Record,
) -> Result<(), AllocError>
    ensures { OnOk result (text.new.items
        ≡ text.old.items ++ json.speaker_text scenario.now (record_of telegram.now)) }
{
    push_pieces(
        text,
        &[
            Piece::Text(b",\"station\":\""),
            Piece::Text(name_of(scenario, telegram.tap)),
            Piece::Text(b"\",\"address\":"),
            Piece::Number(address_of(scenario, telegram.tap)),
            Piece::Text(b",\"octets\":\""),
            Piece::Hex(&telegram.octets),
            Piece::Text(b"\",\"octets_sent\":"),
            Piece::Number(sent_octets(telegram).len() as u64),
        ],
    )
}

/// Appends what the telegram says that octets spell.
fn push_said(text: &mut Vec<u8>, octets: &[u8]) -> Result<(), AllocError>
    ensures { OnOk result (text.new.items
        ≡ text.old.items ++ json.said_text (arrival_of (map Good octets.now))) }
{
    push_telegram(text, &spelled_telegram(octets))
}

/// Appends what a telegram says, if there is one.
pub(crate) fn push_telegram(
    text: &mut Vec<u8>,
    telegram: &Option<Telegram>,
) -> Result<(), AllocError>
    ensures { OnOk result (text.new.items ≡ text.old.items ++ json.said_text (brings telegram.now)) }
{
    match telegram {
        Some(Telegram::Token(token)) => push_token(text, token.da, token.sa),
        Some(Telegram::Ack) => text.extend_from_slice(b",\"kind\":\"acknowledgement\""),
        Some(Telegram::Short(short)) => push_framed(text, short.da, short.sa, short.fc, b""),
        Some(Telegram::Var(var)) => push_var(text, var),
        Some(Telegram::Fixed8(fixed)) => {
            push_framed(text, fixed.da, fixed.sa, fixed.fc, &fixed.unit)
        }
        None => text.extend_from_slice(b",\"kind\":\"other\""),
    }
}

/// Appends what a telegram with data of variable length says.
fn push_var(text: &mut Vec<u8>, var: &VarTelegram) -> Result<(), AllocError>
    ensures { OnOk result (text.new.items
        ≡ text.old.items ++ json.framed_text var.now.da var.now.sa var.now.fc var.now.unit.items) }
{
    push_framed(text, var.da, var.sa, var.fc, &var.unit)
}

/// Appends what a token says.
fn push_token(text: &mut Vec<u8>, da: u8, sa: u8) -> Result<(), AllocError>
    ensures { OnOk result (text.new.items ≡ text.old.items ++ json.token_text da sa) }
{
    push_pieces(
        text,
        &[
            Piece::Text(b",\"kind\":\"token\",\"da\":"),
            Piece::Number(u64::from(da)),
            Piece::Text(b",\"sa\":"),
            Piece::Number(u64::from(sa)),
        ],
    )
}

/// Appends what a telegram with a control octet says.
fn push_framed(text: &mut Vec<u8>, da: u8, sa: u8, fc: u8, unit: &[u8]) -> Result<(), AllocError>
    ensures { OnOk result (text.new.items ≡ text.old.items ++ json.framed_text da sa fc unit.now) }
{
    push_function(text, fc)?;
    push_fields(text, da, sa, fc, unit)
}

/// Appends the fields of a telegram with a control octet.
fn push_fields(text: &mut Vec<u8>, da: u8, sa: u8, fc: u8, unit: &[u8]) -> Result<(), AllocError>
    ensures { OnOk result (text.new.items ≡ text.old.items ++ json.fields_text da sa fc unit.now) }
{
    push_pieces(
        text,
        &[
            Piece::Text(b",\"da\":"),
            Piece::Number(u64::from(da % 128)),
            Piece::Text(b",\"da_extension\":"),
            Piece::Text(truth(da >= 128)),
            Piece::Text(b",\"sa\":"),
            Piece::Number(u64::from(sa % 128)),
            Piece::Text(b",\"sa_extension\":"),
            Piece::Text(truth(sa >= 128)),
            Piece::Text(b",\"fc\":"),
            Piece::Number(u64::from(fc)),
            Piece::Text(b",\"unit\":\""),
            Piece::Hex(unit),
            Piece::Text(b"\""),
        ],
    )
}

/// Appends what a control octet says.
fn push_function(text: &mut Vec<u8>, fc: u8) -> Result<(), AllocError>
    ensures { OnOk result (text.new.items ≡ text.old.items ++ json.function_text fc) }
{
    if is_request(fc) {
        push_request(text, fc)
    } else {
        push_reply(text, fc)
    }
}

/// Appends the function of a request, its frame count bit, and whether that is valid.
fn push_request(text: &mut Vec<u8>, fc: u8) -> Result<(), AllocError>
    ensures { OnOk result (text.new.items ≡ text.old.items ++ json.request_text fc) }
{
    push_pieces(
        text,
        &[
            Piece::Text(b",\"kind\":\"request\",\"function\":\""),
            Piece::Text(request_words(fc % 16)),
            Piece::Text(b"\",\"fcb\":"),
            Piece::Text(truth(fc / 32 % 2 == 1)),
            Piece::Text(b",\"fcv\":"),
            Piece::Text(truth(fc / 16 % 2 == 1)),
        ],
    )
}

/// Appends the function of a reply, and what kind of station sends it.
fn push_reply(text: &mut Vec<u8>, fc: u8) -> Result<(), AllocError>
    ensures { OnOk result (text.new.items ≡ text.old.items ++ json.reply_text fc) }
{
    push_pieces(
        text,
        &[
            Piece::Text(b",\"kind\":\"reply\",\"function\":\""),
            Piece::Text(reply_words(fc % 16)),
            Piece::Text(b"\",\"station_type\":\""),
            Piece::Text(station_words(fc / 16 % 4)),
            Piece::Text(b"\""),
        ],
    )
}

/// Appends how a telegram reached each tap, by name.
fn push_heard(text: &mut Vec<u8>, scenario: &Scenario, heard: &Reception) -> Result<(), AllocError>
    ensures { OnOk result (text.new.items ≡ text.old.items ++ json.heard_text scenario.now 0 heard.now) }
{
    for tap in 0..heard.len() {
        push_hearing(text, scenario, tap, heard.at(tap))?;
    }
    Ok(())
}

/// Appends how a telegram reached a tap, after a comma unless it is the first.
fn push_hearing(
    text: &mut Vec<u8>,
    scenario: &Scenario,
    tap: usize,
    heard: Heard,
) -> Result<(), AllocError>
    ensures { OnOk result (text.new.items
        ≡ text.old.items ++ json.hearing_text scenario.now tap (heard_of heard)) }
{
    push_pieces(
        text,
        &[
            Piece::Text(comma_after(tap)),
            Piece::Text(b"\""),
            Piece::Text(name_of(scenario, tap)),
            Piece::Text(b"\":\""),
            Piece::Text(heard_words(heard)),
            Piece::Text(b"\""),
        ],
    )
}
