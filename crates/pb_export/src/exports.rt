//! The export of a trace, in the form that is asked for.

ghost use Rattle.std.specs.Prelude.{◌≡◌, ◌<◌, ◌++◌, IfOk, OnOk, map};
ghost use Rattle.law_runs.specs.Judging.{StandsFrom};
ghost use Rattle.pb_medium.specs.Entries.{entry_of};
ghost use Rattle.pb_export.specs.Exports.{bytes_of};

use crate::json::push_json;
use crate::options::{Export, Form};
use crate::pcap::push_pcap;
use crate::pcapng::push_pcapng;
use crate::svg::push_svg;
use crate::vcd::push_vcd;
use pb_scenario::{Entry, Scenario};
use std::alloc::{AllocError, Global};

/// A scenario's trace in the form that is asked for. The caller ensures that the trace is in order of begin.
///
/// Fault: memory was refused.
pub fn exported(
    alloc: Global,
    scenario: &Scenario,
    entries: &[Entry],
    export: &Export,
) -> Result<Vec<u8>, AllocError>
    requires baud { 0 < export.now.baud }
    requires order { StandsFrom 0 (map entry_of entries.now) }
    ensures { IfOk result
        (λ bytes. bytes.items ≡ bytes_of export.now scenario.now (map entry_of entries.now)) }
{
    let mut bytes = Vec::new(alloc);
    push_export(&mut bytes, alloc, scenario, entries, export)?;
    Ok(bytes)
}

/// Appends a scenario's trace in the form that is asked for.
fn push_export(
    bytes: &mut Vec<u8>,
    alloc: Global,
    scenario: &Scenario,
    entries: &[Entry],
    export: &Export,
) -> Result<(), AllocError>
    requires baud { 0 < export.now.baud }
    requires order { StandsFrom 0 (map entry_of entries.now) }
    ensures { OnOk result (bytes.new.items
        ≡ bytes.old.items ++ bytes_of export.now scenario.now (map entry_of entries.now)) }
{
    let Export {
        form,
        window,
        baud,
        link,
        strings,
    } = *export;
    match form {
        Form::Json => push_json(bytes, scenario, entries, window),
        Form::Pcap => push_pcap(bytes, entries, window, baud, link),
        Form::Pcapng => push_pcapng(bytes, alloc, scenario, entries, window, baud, link),
        Form::Svg => push_svg(bytes, alloc, scenario, entries, window),
        Form::Vcd => push_vcd(bytes, alloc, scenario, entries, window, baud, strings),
    }
}
