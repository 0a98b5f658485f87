//! `ringplay decode` over any reader and writer.

ghost use Rattle.pb_cli.specs.Answers.{Answers, Exactly};
ghost use Rattle.pb_cli.specs.Decoding.{decoded_of};

use crate::faults::{CliFault, Status};
use crate::reading::read_input;
use crate::streams::{Sink, Source};
use crate::writing::write_out;
use pb_decode::decode;
use std::alloc::Global;

/// Reads lines of hex until the reader ends, and writes a line of text for each: the telegram that it spells, or its
/// fault. The whole text is made before the first write.
///
/// On `Ok` the writer holds the text of the whole input, and the status is `Refused` exactly if some line is a fault.
/// Faults: `Read` if the reader failed, or all 2,097,152 read calls were made and at least half of them were
/// interrupted; `TooLong` for an input of more than 1,048,576 bytes; `Write` if the writer failed, or was interrupted
/// 1,001 times in a row; `NoMemory`. After `Write`, a prefix of the text was written; after another fault, nothing.
pub fn decode_lines<R: Source, W: Sink>(
    alloc: Global,
    reader: &mut R,
    writer: &mut W,
) -> Result<Status, CliFault>
    ensures { Answers (Exactly decoded_of) result
        (R.view reader.old) (R.view reader.new) (W.view writer.old) (W.view writer.new) }
{
    let input = read_input(alloc, reader)?;
    let decoded = decode(alloc, &input)?;
    write_out(writer, &decoded.text)?;
    Ok(Status::of(decoded.is_refused))
}
