//! The export of a capture, burst by burst as they come.

ghost use Rattle.std.specs.Prelude.{◌≡◌, ◌<◌, ◌++◌, OnOk};
ghost use Rattle.pb_export.specs.Captures as captures;

use crate::burst_json::{push_burst_line, push_bus_line};
use crate::burst_packets::{push_burst_block, push_burst_packet};
use crate::options::Link;
use crate::pcap::push_header;
use crate::pcapng::{push_interface, push_section};
use pb_monitor::HeardBurst;
use pb_timers::BusParams;
use std::alloc::{AllocError, Global};

/// A form of the export of a capture.
#[derive(Clone, Copy, Debug, PartialEq, Eq)]
pub enum CaptureForm {
    /// A JSON object a line: the bus first, if it is known, then each burst.
    Json,
    /// A capture file (pcap, with nanoseconds).
    Pcap,
    /// A capture file with comments (pcapng).
    Pcapng,
    /// A picture, which is made of all bursts at the end.
    Svg,
}

/// What the export of a capture is to be.
#[derive(Clone, Copy, Debug, PartialEq, Eq)]
pub struct CaptureExport {
    /// Its form.
    pub form: CaptureForm,
    /// How many bits a second the bus has, for times in nanoseconds.
    pub baud: u32,
    /// The link type of a capture file.
    pub link: Link,
}

/// Appends what the export of a capture begins with: in pcap and pcapng the head of the file, else nothing.
///
/// Fault: memory was refused.
pub fn push_capture_head(bytes: &mut Vec<u8>, export: &CaptureExport) -> Result<(), AllocError>
    ensures { OnOk result (bytes.new.items ≡ bytes.old.items ++ captures.head_of export.now) }
{
    match export.form {
        CaptureForm::Json | CaptureForm::Svg => Ok(()),
        CaptureForm::Pcap => push_header(bytes, export.link),
        CaptureForm::Pcapng => {
            push_section(bytes)?;
            push_interface(bytes, export.baud, export.link)
        }
    }
}

/// Appends what the export says of the bus, behind the head: in JSON its parameters, a line; else nothing.
///
/// Fault: memory was refused.
pub fn push_capture_bus(
    bytes: &mut Vec<u8>,
    params: &BusParams,
    export: &CaptureExport,
) -> Result<(), AllocError>
    ensures { OnOk result (bytes.new.items ≡ bytes.old.items ++ captures.bus_of export.now params.now) }
{
    match export.form {
        CaptureForm::Json => push_bus_line(bytes, params),
        CaptureForm::Pcap | CaptureForm::Pcapng | CaptureForm::Svg => Ok(()),
    }
}

/// Appends the next bursts of a capture, in the form that is asked for; of a picture nothing.
///
/// Fault: memory was refused.
pub fn push_bursts(
    bytes: &mut Vec<u8>,
    alloc: Global,
    bursts: &[HeardBurst],
    export: &CaptureExport,
) -> Result<(), AllocError>
    requires { 0 < export.now.baud }
    ensures { OnOk result (bytes.new.items ≡ bytes.old.items ++ captures.bursts_of export.now bursts.now) }
{
    for burst in bursts {
        push_burst(bytes, alloc, burst, export)?;
    }
    Ok(())
}

/// Appends a burst.
fn push_burst(
    bytes: &mut Vec<u8>,
    alloc: Global,
    burst: &HeardBurst,
    export: &CaptureExport,
) -> Result<(), AllocError>
    requires { 0 < export.now.baud }
    ensures { OnOk result (bytes.new.items ≡ bytes.old.items ++ captures.burst_of export.now burst.now) }
{
    match export.form {
        CaptureForm::Json => push_burst_line(bytes, burst),
        CaptureForm::Pcap => push_burst_packet(bytes, burst, export.baud),
        CaptureForm::Pcapng => push_burst_block(bytes, alloc, burst, export.baud),
        CaptureForm::Svg => Ok(()),
    }
}
