//! A trace as a value change dump: the lines of the stations and of the bus, bit by bit.

ghost use Rattle.std.specs.Prelude.{◌≡◌, ◌<◌, ◌++◌, OnOk, map};
ghost use Rattle.pb_medium.specs.Entries.{entry_of};
ghost use Rattle.pb_export.specs.Vcd as vcd;

use crate::dumps::Dump;
use crate::options::{Strings, Window};
use crate::pieces::{Piece, push_pieces};
use crate::times::nanos;
use crate::waves::{begun, push_rest};
use pb_scenario::{Entry, Scenario};
use std::alloc::{AllocError, Global};

/// Appends a trace as a value change dump (VCD) in nanoseconds: a wire for the bus and one for the line of each station,
/// and a string that says which telegram is on the bus, unless strings are left out. An idle line is 1. Each octet has a
/// start bit, eight bits with the least first, an even parity bit and a stop bit; a bus is 0 where any line is, and
/// unknown in noise. A trace in order of begin takes less time.
///
/// Fault: memory was refused.
pub fn push_vcd(
    text: &mut Vec<u8>,
    alloc: Global,
    scenario: &Scenario,
    entries: &[Entry],
    window: Window,
    baud: u32,
    strings: Strings,
) -> Result<(), AllocError>
    requires { 0 < baud }
    ensures { OnOk result (text.new.items
        ≡ text.old.items ++ vcd.vcd_text baud strings window scenario.now (map entry_of entries.now)) }
{
    let dump = Dump {
        window,
        baud,
        strings,
    };
    push_head(text, scenario, dump)?;
    push_rest(text, alloc, begun(window, scenario.until()), entries, dump)
}

/// Appends what is before the first moment that changes anything: the variables and the levels of an idle bus.
pub(crate) fn push_head(
    text: &mut Vec<u8>,
    scenario: &Scenario,
    dump: Dump,
) -> Result<(), AllocError>
    requires { 0 < dump.baud }
    ensures { OnOk result (text.new.items
        ≡ text.old.items ++ vcd.vcd_head dump.baud dump.strings dump.window scenario.now) }
{
    push_variables(text, scenario, dump.strings)?;
    push_stamp(text, dump.baud, dump.window.from)?;
    push_idle(text, scenario.taps().len(), dump.strings)
}

/// Appends the line of a moment, in nanoseconds.
pub(crate) fn push_stamp(text: &mut Vec<u8>, baud: u32, moment: u64) -> Result<(), AllocError>
    requires { 0 < baud }
    ensures { OnOk result (text.new.items ≡ text.old.items ++ vcd.stamp baud moment) }
{
    push_pieces(
        text,
        &[
            Piece::Text(b"#"),
            Piece::Number(nanos(baud, moment)),
            Piece::Text(b"\n"),
        ],
    )
}

/// Appends what is before the first moment: the time scale and the variables.
fn push_variables(
    text: &mut Vec<u8>,
    scenario: &Scenario,
    strings: Strings,
) -> Result<(), AllocError>
    ensures { OnOk result (text.new.items ≡ text.old.items ++ vcd.variables strings scenario.now) }
{
    text.extend_from_slice(b"$version ringplay $end\n$timescale 1 ns $end\n")?;
    text.extend_from_slice(b"$scope module ringplay $end\n$var wire 1 b bus $end\n")?;
    text.extend_from_slice(string_variable(strings))?;
    text.extend_from_slice(b"$scope module stations $end\n")?;
    push_lines(text, scenario)?;
    text.extend_from_slice(b"$upscope $end\n$upscope $end\n$enddefinitions $end\n")
}

/// The variable of the string, if there is one.
fn string_variable(strings: Strings) -> &'static [u8]
    ensures { result.now ≡ vcd.string_variable strings }
{
    match strings {
        Strings::Shown => b"$var string 1 s telegram $end\n",
        Strings::LeftOut => b"",
    }
}

/// Appends the variables of all stations' lines.
fn push_lines(text: &mut Vec<u8>, scenario: &Scenario) -> Result<(), AllocError>
    ensures { OnOk result (text.new.items ≡ text.old.items ++ vcd.line_variables 0 scenario.now.names) }
{
    for tap in 0..scenario.taps().len() {
        push_line(text, tap, scenario.name(tap))?;
    }
    Ok(())
}

/// Appends the variable of a station's line.
fn push_line(text: &mut Vec<u8>, tap: usize, name: &str) -> Result<(), AllocError>
    ensures { OnOk result (text.new.items ≡ text.old.items ++ vcd.line_variable tap name.now) }
{
    push_pieces(
        text,
        &[
            Piece::Text(b"$var wire 1 t"),
            Piece::Number(tap as u64),
            Piece::Text(b" "),
            Piece::Text(name.as_bytes()),
            Piece::Text(b" $end\n"),
        ],
    )
}

/// Appends the levels of an idle bus.
fn push_idle(text: &mut Vec<u8>, taps: usize, strings: Strings) -> Result<(), AllocError>
    ensures { OnOk result (text.new.items ≡ text.old.items ++ vcd.idle strings taps) }
{
    text.extend_from_slice(b"$dumpvars\n1b\n")?;
    text.extend_from_slice(idle_string(strings))?;
    push_idle_lines(text, taps)?;
    text.extend_from_slice(b"$end\n")
}

/// Appends the levels of idle lines.
fn push_idle_lines(text: &mut Vec<u8>, taps: usize) -> Result<(), AllocError>
    ensures { OnOk result (text.new.items ≡ text.old.items ++ vcd.idle_lines 0 taps) }
{
    for tap in 0..taps {
        push_pieces(
            text,
            &[
                Piece::Text(b"1t"),
                Piece::Number(tap as u64),
                Piece::Text(b"\n"),
            ],
        )?;
    }
    Ok(())
}

/// The string of an idle bus, if there is one.
fn idle_string(strings: Strings) -> &'static [u8]
    ensures { result.now ≡ vcd.idle_string strings }
{
    match strings {
        Strings::Shown => b"s- s\n",
        Strings::LeftOut => b"",
    }
}
