//! `ringplay monitor`: from a capture to lines of text, or to a form that other tools read, as it comes.

ghost use Rattle.std.specs.Prelude.{◌≡◌, ◌≢◌, ◌++◌, Err, IfErr, IfOk, OnOk};
ghost use Rattle.pb_cli.specs.Bounding.{IsBaud};
ghost use Rattle.pb_cli.specs.Monitoring.{WritesCapture, begin_of};

use crate::drawing::Drawing;
use crate::faults::{CliFault, Status};
use crate::streams::{ReadFault, Sink, Source};
use crate::writing::write_out;
use pb_export::{
    CaptureExport, CaptureForm, push_bursts, push_capture_bus, push_capture_head, push_capture_svg,
};
use pb_monitor::{Monitor, Options, SummaryForm};
use pb_scenario::{ScenarioFault, read_bus};
use pb_texts::{Shown, refused_file};
use pb_timers::BusParams;
use std::alloc::{AllocError, Global};

/// How many bytes are read at once at most.
const PIECE_LENGTH: usize = 65_536;

/// How many bytes are read at once at most for an export: what they bring is kept until it is written.
const EXPORT_PIECE: usize = 4096;

/// The parameters of the bus of a file, or the line of the file's fault.
pub enum Bus {
    /// The parameters.
    Params(BusParams),
    /// The line of its fault.
    Refused(Shown),
}

/// Reads the parameters of the bus that a scenario file, or a file with its version and its bus alone, gives.
///
/// Fault: `NoMemory`.
pub fn bus_of(alloc: Global, file: &[u8]) -> Result<Bus, CliFault>
    ensures { IfErr result (λ fault. fault ≡ CliFault.NoMemory) }
{
    match read_bus(alloc, file) {
        Ok(params) => Ok(Bus::Params(params)),
        Err(fault) => refused_bus(alloc, &fault),
    }
}

/// The line of a file's fault.
fn refused_bus(alloc: Global, fault: &ScenarioFault) -> Result<Bus, CliFault>
    ensures { IfErr result (λ fault. fault ≡ CliFault.NoMemory) }
{
    Ok(Bus::Refused(refused_file(alloc, fault)?))
}

/// Reads a capture until the reader ends, and writes lines of text for it: what a piece that was read completes is written
/// before the next read. There is no limit of its length; memory does not grow with it. Where summaries are for programs,
/// JSON or a table, only these are written, and the lines of alarms and of refused input go to `notes`.
///
/// On `Ok` the status is `Refused` exactly if some input was refused or an alarm was raised. Faults: `Read` if the reader
/// failed; `Write` if the writer failed, or was interrupted 1,001 times in a row; `NoMemory`. After a fault the lines for
/// what was read before were written, but for a part of the last.
pub fn monitor<R: Source, W: Sink, N: Notes>(
    alloc: Global,
    params: Option<BusParams>,
    options: Options,
    reader: &mut R,
    writer: &mut W,
    notes: &mut N,
) -> Result<Status, CliFault>
    ensures too_long { result ≢ Err CliFault.TooLong }
{
    let is_for_programs = match options.summary {
        Some(SummaryForm::Json | SummaryForm::Csv) => true,
        Some(SummaryForm::Text) | None => false,
    };
    let mut monitor = Monitor::new(alloc, params, options)?;
    if is_for_programs {
        monitor.set_apart(alloc);
    }
    let mut piece = vec![in alloc; 0u8; PIECE_LENGTH]?;
    let mut text = Vec::new(alloc);
    for _call in 0..u64::MAX {
        match reader.read(&mut piece) {
            Ok(0) => break,
            Ok(count) => {
                monitor.feed(&piece[..count], &mut text)?;
                put_out(&mut monitor, is_for_programs, &mut text, writer, notes)?;
            }
            Err(ReadFault::Interrupted) => {}
            Err(ReadFault::Failed) => return Err(CliFault::Read),
        }
    }
    monitor.finish(&mut text)?;
    put_out(&mut monitor, is_for_programs, &mut text, writer, notes)?;
    Ok(Status::of(monitor.is_refused()))
}

/// Writes some lines; or, for programs, the summaries alone.
fn put_out<W: Sink, N: Notes>(
    monitor: &mut Monitor,
    is_for_programs: bool,
    text: &mut Vec<u8>,
    writer: &mut W,
    notes: &mut N,
) -> Result<(), CliFault>
    ensures { result ≢ Err CliFault.TooLong }
{
    if is_for_programs {
        notes.note(text);
        write_out(writer, monitor.summaries())?;
        monitor.clear_summaries();
    } else {
        write_out(writer, text)?;
    }
    text.clear();
    Ok(())
}

/// Is told what an export has no place for: the lines of refused input and of alarms.
pub trait Notes {
    /// Some lines.
    fn note(&mut self, lines: &[u8]);
}

/// Reads a capture until the reader ends, and writes its bursts in a form that other tools read: what a piece that was
/// read completes is written before the next read. There is no limit of its length; memory does not grow with it. Of a
/// picture the first 10,000 bursts, within 1,000,000 bit times, are kept, and it is written at the end. The lines of
/// refused input and of alarms, and whether the picture leaves out bursts, go to `notes`.
///
/// Status and faults: as those of [`monitor`].
pub fn export_capture<R: Source, W: Sink, N: Notes>(
    alloc: Global,
    params: Option<BusParams>,
    options: Options,
    export: &CaptureExport,
    reader: &mut R,
    writer: &mut W,
    notes: &mut N,
) -> Result<Status, CliFault>
    requires { IsBaud export.now.baud }
    ensures text { IfOk result (λ _. WritesCapture export.now params
        (W.view writer.old).contents (W.view writer.new).contents) }
    ensures too_long { result ≢ Err CliFault.TooLong }
    ensures writer_failed { result ≢ Err CliFault.Write
        → (W.view writer.new).failures ≡ (W.view writer.old).failures }
{
    let mut bytes = Vec::new(alloc);
    push_begin(&mut bytes, &params, export)?;
    write_out(writer, &bytes)?;
    let mut exporter = Exporter {
        monitor: Monitor::new(alloc, params, options)?,
        bytes,
        lines: Vec::new(alloc),
        drawing: Drawing::new(alloc),
    };
    exporter.monitor.hand_on();
    exporter.run(alloc, export, reader, writer, notes)?;
    exporter.monitor.finish(&mut exporter.lines)?;
    exporter.write(alloc, export, writer, notes)?;
    exporter.draw(alloc, export, writer, notes)?;
    Ok(Status::of(exporter.monitor.is_refused()))
}

/// Appends what stands before the bursts: the head, and the bus if it is known.
fn push_begin(
    bytes: &mut Vec<u8>,
    params: &Option<BusParams>,
    export: &CaptureExport,
) -> Result<(), AllocError>
    requires { IsBaud export.now.baud }
    ensures { OnOk result (bytes.new.items ≡ bytes.old.items ++ begin_of export.now params.now) }
{
    push_capture_head(bytes, export)?;
    match params {
        Some(params) => push_capture_bus(bytes, params, export),
        None => Ok(()),
    }
}

/// A monitor whose bursts are written in a form that other tools read.
#[derive(Drop)]
struct Exporter {
    monitor: Monitor,
    /// What is written next.
    bytes: Vec<u8>,
    /// What is told next.
    lines: Vec<u8>,
    /// What a picture has.
    drawing: Drawing,
}

impl Exporter {
    ghost use Rattle.std.specs.Prelude.{◌≡◌, ◌≢◌, ◌++◌, List, Err, OnOk};
    ghost use Rattle.std.specs.Io.KnownBytes.{Appends};
    ghost use Rattle.pb_monitor.specs.declared.heard_bursts.HeardBurst.{HeardBurst};
    ghost use Rattle.pb_export.specs.Captures.{bursts_of};
    ghost use Rattle.pb_cli.specs.Bounding.{IsBaud};
    ghost use Rattle.pb_cli.specs.Drawing.{IsOf};
    ghost use Rattle.pb_cli.specs.Monitoring.{WritesOn, heard_of, picture_in};
    ghost use Rattle.pb_export.specs.CaptureSvg.{svg_text};

    /// Reads until the reader ends, and writes the bursts that are complete.
    fn run<R: Source, W: Sink, N: Notes>(
        &mut self,
        alloc: Global,
        export: &CaptureExport,
        reader: &mut R,
        writer: &mut W,
        notes: &mut N,
    ) -> Result<(), CliFault>
        requires { IsBaud export.now.baud }
        ensures text { OnOk result (WritesOn export.now self.old.drawing self.new.drawing
            (W.view writer.old).contents (W.view writer.new).contents) }
        ensures too_long { result ≢ Err CliFault.TooLong }
        ensures writer_failed { result ≢ Err CliFault.Write
            → (W.view writer.new).failures ≡ (W.view writer.old).failures }
    {
        let mut piece = vec![in alloc; 0u8; EXPORT_PIECE]?;
        for _call in 0..u64::MAX {
            if self.read_on(alloc, export, &mut piece, reader, writer, notes)? {
                return Ok(());
            }
        }
        Ok(())
    }

    /// Reads a piece, and writes the bursts that it completes. Returns whether the reader has ended.
    fn read_on<R: Source, W: Sink, N: Notes>(
        &mut self,
        alloc: Global,
        export: &CaptureExport,
        piece: &mut [u8],
        reader: &mut R,
        writer: &mut W,
        notes: &mut N,
    ) -> Result<bool, CliFault>
        requires { IsBaud export.now.baud }
        ensures text { OnOk result (WritesOn export.now self.old.drawing self.new.drawing
            (W.view writer.old).contents (W.view writer.new).contents) }
        ensures too_long { result ≢ Err CliFault.TooLong }
        ensures writer_failed { result ≢ Err CliFault.Write
            → (W.view writer.new).failures ≡ (W.view writer.old).failures }
    {
        match reader.read(piece) {
            Ok(0) => Ok(true),
            Ok(count) => {
                self.monitor.feed(&piece[..count], &mut self.lines)?;
                self.write(alloc, export, writer, notes)?;
                Ok(false)
            }
            Err(ReadFault::Interrupted) => Ok(false),
            Err(ReadFault::Failed) => Err(CliFault::Read),
        }
    }

    /// Writes the bursts that were heard, and tells the lines.
    fn write<W: Sink, N: Notes>(
        &mut self,
        alloc: Global,
        export: &CaptureExport,
        writer: &mut W,
        notes: &mut N,
    ) -> Result<(), CliFault>
        requires { IsBaud export.now.baud }
        ensures text { OnOk result (Appends (W.view writer.old).contents (W.view writer.new).contents
            (bursts_of export.now (heard_of self.old.monitor))) }
        ensures drawing { OnOk result ((before : List HeardBurst) → export.now.form ≡ CaptureForm.Svg
            → IsOf self.old.drawing before → IsOf self.new.drawing (before ++ heard_of self.old.monitor)) }
        ensures too_long { result ≢ Err CliFault.TooLong }
        ensures writer_failed { result ≢ Err CliFault.Write
            → (W.view writer.new).failures ≡ (W.view writer.old).failures }
    {
        self.bytes.clear();
        push_bursts(&mut self.bytes, alloc, self.monitor.heard(), export)?;
        if export.form == CaptureForm::Svg {
            self.drawing.add(self.monitor.heard())?;
        }
        self.monitor.clear_heard();
        write_out(writer, &self.bytes)?;
        self.tell(notes);
        Ok(())
    }

    /// Writes the picture, if one is wanted.
    fn draw<W: Sink, N: Notes>(
        &mut self,
        alloc: Global,
        export: &CaptureExport,
        writer: &mut W,
        notes: &mut N,
    ) -> Result<(), CliFault>
        ensures text { OnOk result (Appends (W.view writer.old).contents (W.view writer.new).contents
            (picture_in export.now.form self.old.drawing.bursts.items)) }
        ensures too_long { result ≢ Err CliFault.TooLong }
        ensures writer_failed { result ≢ Err CliFault.Write
            → (W.view writer.new).failures ≡ (W.view writer.old).failures }
    {
        match export.form {
            CaptureForm::Svg => self.write_picture(alloc, writer, notes),
            CaptureForm::Json | CaptureForm::Pcap | CaptureForm::Pcapng => Ok(()),
        }
    }

    /// Writes the picture, and tells how many bursts it leaves out.
    fn write_picture<W: Sink, N: Notes>(
        &mut self,
        alloc: Global,
        writer: &mut W,
        notes: &mut N,
    ) -> Result<(), CliFault>
        ensures text { OnOk result (Appends (W.view writer.old).contents (W.view writer.new).contents
            (svg_text self.old.drawing.bursts.items)) }
        ensures too_long { result ≢ Err CliFault.TooLong }
        ensures writer_failed { result ≢ Err CliFault.Write
            → (W.view writer.new).failures ≡ (W.view writer.old).failures }
    {
        self.bytes.clear();
        push_capture_svg(&mut self.bytes, alloc, self.drawing.bursts())?;
        write_out(writer, &self.bytes)?;
        self.drawing.push_left_out(alloc, &mut self.lines)?;
        self.tell(notes);
        Ok(())
    }

    /// Tells the lines.
    fn tell<N: Notes>(&mut self, notes: &mut N)
        ensures { self.new.drawing ≡ self.old.drawing }
    {
        if !self.lines.is_empty() {
            notes.note(&self.lines);
            self.lines.clear();
        }
    }
}
