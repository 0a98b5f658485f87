//! A trace in the forms that other tools read, and that people look at: JSON lines, pcap and pcapng for Wireshark, VCD for
//! GTKWave and PulseView, and SVG; and a capture, burst by burst. Contracts name the bytes of each form.
#![tactic(auto)]

mod boxes;
mod burst_json;
mod burst_packets;
mod bursts;
mod capture_band;
mod capture_boxes;
mod capture_svg;
mod captures;
mod dumps;
mod exports;
mod files;
mod holders;
mod json;
mod lanes;
mod levels;
mod marks;
mod names;
mod options;
mod pcap;
mod pcapng;
mod pieces;
mod places;
mod rosters;
mod runs;
mod saying;
mod speakers;
mod streamed;
mod styles;
mod svg;
mod times;
mod vcd;
mod waves;
mod words;

pub use capture_svg::push_capture_svg;
pub use captures::{CaptureExport, CaptureForm, push_bursts, push_capture_bus, push_capture_head};
pub use exports::exported;
pub use files::exported_file;
pub use holders::{Tenure, tenures_of};
pub use json::push_json;
pub use options::{Export, Form, LATEST, Link, StreamExport, StreamForm, Strings, Window};
pub use pcap::push_pcap;
pub use pcapng::push_pcapng;
pub use runs::entries_of;
pub use streamed::{StreamExporter, push_stream_head};
pub use svg::{push_stream_svg, push_svg};
pub use vcd::push_vcd;
