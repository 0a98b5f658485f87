//! What the program `ringplay` does, over any reader and writer.
//!
//! [`ask`] reads the program's words, [`decode_lines`] decodes lines of hex, [`play`] plays a scenario file with some
//! workers, [`audit_file`] judges its run, [`bounds_file`] computes the bounds of its bus, and [`export_file`] writes its
//! trace for other tools. [`stream_file`], [`audit_stream_file`], [`export_stream`] and [`capture_file`] write of a run of any
//! length as it settles, and [`draw_stream`] draws its picture. [`monitor`] reads captures, and [`export_capture`] writes them
//! for other tools. The contracts name the bytes: what is written is a stated function of what is read, and `Read`, `TooLong`
//! and `Write` are returned only if their cause is there. A [`Source`] is read from and a [`Sink`] is written to;
//! [`CountedReader`] and [`CountedWriter`] make them from any reader and writer of std.
#![tactic(auto)]

mod answers;
mod asking;
mod auditing;
mod bounding;
mod capturing;
mod counted_reader;
mod counted_writer;
mod decoding;
mod drawing;
mod exporting;
mod faults;
mod fleets;
mod laws;
mod monitoring;
mod playing;
mod progress;
mod reading;
mod settled;
mod stream_audits;
mod stream_drawing;
mod stream_exporting;
mod streaming;
mod streams;
mod words;
mod writing;

pub use asking::{VERSION, ask, ask_with_options};
pub use auditing::{Found, audit_file, audit_with_reasons};
pub use bounding::bounds_file;
pub use capturing::capture_file;
pub use counted_reader::CountedReader;
pub use counted_writer::CountedWriter;
pub use decoding::decode_lines;
pub use exporting::export_file;
pub use faults::{CliFault, Status};
pub use fleets::refused_fleet;
pub use laws::{exports_settle_to_the_same, pictures_are_the_same};
pub use monitoring::{Bus, Notes, bus_of, export_capture, monitor};
pub use playing::play;
pub use progress::{Observer, Progress};
pub use reading::read_input;
pub use settled::Settled;
pub use stream_audits::audit_stream_file;
pub use stream_drawing::draw_stream;
pub use stream_exporting::export_stream;
pub use streaming::{Flush, stream_file};
pub use streams::{ReadFault, Sink, Source, WriteFault};
pub use words::{Ask, AskFault, Asked, Options};
pub use writing::write_out;
