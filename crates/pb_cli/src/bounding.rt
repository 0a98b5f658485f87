//! `ringplay bounds`: from a scenario file to the numbers of what is proved of its bus.

ghost use Rattle.std.specs.Prelude.{◌≡◌, IfOk};
ghost use Rattle.pb_texts.specs.Bounds.{world_fault};
ghost use Rattle.pb_texts.specs.Shown.{shown_of};
ghost use Rattle.pb_cli.specs.Answers.{Answers, Exactly};
ghost use Rattle.pb_cli.specs.Bounding.{IsBaud, bounds_of, shown_unless, text_of};

use crate::faults::{CliFault, Status};
use crate::fleets::refused_fleet;
use crate::reading::read_input;
use crate::streams::{Sink, Source};
use crate::writing::write_out;
use pb_fleet::FleetFault;
use pb_texts::{Scenario, Shown, bounds_json, bounds_text, described_stream, refused_file};
use std::alloc::{AllocError, Global};

/// The least number of bits a second.
pub(crate) const LEAST_BAUD: u32 = 9_600;

/// The largest number of bits a second.
pub(crate) const MOST_BAUD: u32 = 12_000_000;

/// How many bits a second a bus has where no number is given.
pub(crate) const USUAL_BAUD: u32 = 1_500_000;

/// Reads a scenario file of any version to the end of the reader, and writes the numbers of what is proved of its bus, as
/// lines or as one JSON object, in bit times and in milliseconds at so many bits a second. Where the file or its world is
/// refused, it writes the line of that fault. The whole text is made before the first write.
///
/// At `Ok` the writer holds that text, and the status is `Refused` exactly where the file or the world is refused. Faults:
/// as those of [`audit_file`](crate::audit_file).
pub fn bounds_file<R: Source, W: Sink>(
    alloc: Global,
    reader: &mut R,
    writer: &mut W,
    baud: u32,
    json: bool,
) -> Result<Status, CliFault>
    requires { IsBaud baud }
    ensures { Answers (Exactly (bounds_of baud json)) result
        (R.view reader.old) (R.view reader.new) (W.view writer.old) (W.view writer.new) }
{
    let file = read_input(alloc, reader)?;
    let shown = bounded(alloc, &file, baud, json)?;
    write_out(writer, &shown.text)?;
    Ok(Status::of(shown.is_refused))
}

/// What is written for the bounds of a file's bus. Fault: memory was refused.
fn bounded(alloc: Global, file: &[u8], baud: u32, json: bool) -> Result<Shown, AllocError>
    requires { IsBaud baud }
    ensures { IfOk result (λ shown. shown_of shown ≡ bounds_of baud json file.now) }
{
    match described_stream(alloc, file) {
        Ok(scenario) => bounded_scenario(alloc, scenario.once(), baud, json),
        Err(fault) => refused_file(alloc, &fault),
    }
}

/// What is written for the bounds of a scenario's bus. Fault: memory was refused.
fn bounded_scenario(
    alloc: Global,
    scenario: &Scenario,
    baud: u32,
    json: bool,
) -> Result<Shown, AllocError>
    requires { IsBaud baud }
    ensures { IfOk result (λ shown. shown_of shown
        ≡ shown_unless (world_fault scenario.now) (text_of baud json scenario.now)) }
{
    let made = if json {
        bounds_json(alloc, scenario, baud)
    } else {
        bounds_text(alloc, scenario, baud)
    };
    match made {
        Ok(text) => Ok(Shown {
            text,
            is_refused: false,
        }),
        Err(fault) => refused_fleet(alloc, FleetFault::New(fault)),
    }
}
