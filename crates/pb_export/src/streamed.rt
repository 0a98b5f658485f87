//! The export of a trace entry by entry, as they come.

ghost use Rattle.std.specs.Prelude.{◌≡◌, ◌<◌, ◌++◌, OnOk, map};
ghost use Rattle.pb_medium.specs.Entries.{entry_of};
ghost use Rattle.pb_export.specs.Streamed as streamed;

use crate::dumps::{Dump, Waves};
use crate::options::{StreamExport, StreamForm};
use crate::pcap::push_header;
use crate::pcapng::{push_interface, push_section};
use crate::waves::{begun, may_go, push_past, push_rest};
use crate::{json, pcap, pcapng, vcd};
use pb_scenario::{Entry, StreamScenario};
use std::alloc::{AllocError, Global};

/// Appends what the export of a scenario's run begins with: in pcap and pcapng the head of the file, in JSON the bus, in
/// VCD the variables and an idle bus.
///
/// Fault: memory was refused.
pub fn push_stream_head(
    bytes: &mut Vec<u8>,
    scenario: &StreamScenario,
    export: &StreamExport,
) -> Result<(), AllocError>
    requires { 0 < export.now.baud }
    ensures { OnOk result (bytes.new.items ≡ bytes.old.items ++ streamed.head_of export.now scenario.now) }
{
    match export.form {
        StreamForm::Json => json::push_bus(bytes, scenario.once(), scenario.until()),
        StreamForm::Pcap => push_header(bytes, export.link),
        StreamForm::Pcapng => {
            push_section(bytes)?;
            push_interface(bytes, export.baud, export.link)
        }
        StreamForm::Vcd => vcd::push_head(bytes, scenario.once(), dump_of(export)),
    }
}

/// What an export says of a dump.
fn dump_of(export: &StreamExport) -> Dump
    ensures { result ≡ streamed.dump_of export.now }
{
    Dump {
        window: export.window,
        baud: export.baud,
        strings: export.strings,
    }
}

/// What stands behind the head of an export, written entry by entry: how far it is.
#[derive(Clone, Copy, Debug)]
pub struct StreamExporter {
    export: StreamExport,
    waves: Waves,
}

impl StreamExporter {
    ghost use Rattle.std.specs.Prelude.{◌≡◌, ◌<◌, ◌≤◌, ◌++◌, ◌&&◌, IfOk, OnOk, length, map, take, drop};
    ghost use Rattle.pb_medium.specs.Entries.{entry_of};
    ghost use Rattle.pb_export.specs.Streamed.{Begins, GoesOn, follow_in, may_go_in, unwritten};

    /// The export of a scenario's run, of which nothing is written behind the head.
    pub fn new(scenario: &StreamScenario, export: &StreamExport) -> StreamExporter
        ensures { Begins export.now scenario.now result }
    {
        StreamExporter {
            export: *export,
            waves: begun(export.window, scenario.until()),
        }
    }

    /// Whether the first of some entries can be written without the others. In VCD these have to begin once those have
    /// ended. Of entries that are over this is not so only where a telegram has begun at the far end of a cable before noise
    /// was over, or behind 10^12 entries.
    pub fn may_go(&self, entries: &[Entry], over: usize) -> bool
        requires { over ≤ length entries.now }
        ensures { result ≡ (may_go_in self.now.export.form self.now (take over (map entry_of entries.now))
            && follow_in self.now.export.form (take over (map entry_of entries.now))
            (drop over (map entry_of entries.now))) }
    {
        match self.export.form {
            StreamForm::Json | StreamForm::Pcap | StreamForm::Pcapng => true,
            StreamForm::Vcd => may_go(self.waves, self.export.window, entries, over),
        }
    }

    /// Appends the next entries of a scenario's run, in the form that is asked for; in VCD up to the moment at which these
    /// have ended. They may go without those to come ([`may_go`](StreamExporter::may_go)).
    ///
    /// Fault: memory was refused.
    pub fn push_past(
        &mut self,
        bytes: &mut Vec<u8>,
        alloc: Global,
        scenario: &StreamScenario,
        entries: &[Entry],
    ) -> Result<(), AllocError>
        requires { 0 < self.old.export.baud }
        ensures { IfOk result (λ _. GoesOn self.old self.new scenario.now (map entry_of entries.now)
            bytes.old.items bytes.new.items) }
    {
        match self.export.form {
            StreamForm::Json | StreamForm::Pcap | StreamForm::Pcapng => {
                self.push_rest(bytes, alloc, scenario, entries)
            }
            StreamForm::Vcd => {
                let dump = dump_of(&self.export);
                self.waves = push_past(bytes, alloc, self.waves, entries, dump)?;
                Ok(())
            }
        }
    }

    /// Appends the last entries of a scenario's run, in the form that is asked for; in VCD up to the end of the dump.
    ///
    /// Fault: memory was refused.
    pub fn push_rest(
        &self,
        bytes: &mut Vec<u8>,
        alloc: Global,
        scenario: &StreamScenario,
        entries: &[Entry],
    ) -> Result<(), AllocError>
        requires { 0 < self.now.export.baud }
        ensures { OnOk result (bytes.new.items
            ≡ bytes.old.items ++ unwritten self.now scenario.now (map entry_of entries.now)) }
    {
        push_last(bytes, alloc, scenario, entries, self)
    }
}

/// Appends the last entries of an export.
fn push_last(
    bytes: &mut Vec<u8>,
    alloc: Global,
    scenario: &StreamScenario,
    entries: &[Entry],
    exporter: &StreamExporter,
) -> Result<(), AllocError>
    requires { 0 < exporter.now.export.baud }
    ensures { OnOk result (bytes.new.items
        ≡ bytes.old.items ++ streamed.unwritten exporter.now scenario.now (map entry_of entries.now)) }
{
    let StreamExport {
        form,
        window,
        baud,
        ..
    } = exporter.export;
    let once = scenario.once();
    match form {
        StreamForm::Json => json::push_entries(bytes, once, entries, window),
        StreamForm::Pcap => pcap::push_entries(bytes, entries, window, baud),
        StreamForm::Pcapng => pcapng::push_entries(bytes, alloc, once, entries, window, baud),
        StreamForm::Vcd => push_rest(
            bytes,
            alloc,
            exporter.waves,
            entries,
            dump_of(&exporter.export),
        ),
    }
}
