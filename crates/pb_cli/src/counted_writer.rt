//! A writer of std that counts its interruptions and failures, as a [`Sink`].

ghost use Rattle.std.specs.Prelude.{◌≡◌};

use crate::answers::write_answer;
use crate::streams::{Sink, WriteFault};
use std::io::Write;

/// A [`Sink`] over any writer of std. It counts interruptions and failures.
#[derive(Drop)]
pub struct CountedWriter<W> {
    writer: W,
    interruptions: u64,
    /// How many consecutive calls were interrupted, up to the last call.
    in_a_row: u64,
    failures: u64,
}

impl<W> CountedWriter<W> {
    ghost use Rattle.pb_cli.specs.Counted.{counted_writer, inner_writer, interruptions_of, writer_failures};

    /// The writer, with all counts 0.
    pub fn new(writer: W) -> Self
        ensures { result ≡ counted_writer writer }
    {
        CountedWriter {
            writer,
            interruptions: 0,
            in_a_row: 0,
            failures: 0,
        }
    }

    /// How many write calls were interrupted.
    pub fn interruptions(&self) -> u64
        ensures { result ≡ interruptions_of self.now }
    {
        self.interruptions
    }

    /// How many write calls failed, or took none of the given bytes.
    pub fn failures(&self) -> u64
        ensures { result ≡ writer_failures self.now }
    {
        self.failures
    }

    /// The wrapped writer.
    pub fn writer(&self) -> &W
        ensures { result.now ≡ inner_writer self.now }
    {
        &self.writer
    }
}

impl<W: Write> Sink for CountedWriter<W> {
    ghost view = { λ counted. record {
      contents = W.contents counted.writer;
      interruptions = counted.interruptions;
      in_a_row = counted.in_a_row;
      failures = counted.failures;
    } };

    fn write(&mut self, bytes: &[u8]) -> Result<usize, WriteFault> {
        let answer = write_answer(self.writer.write(bytes), bytes.is_empty());
        match answer {
            Ok(_) => self.in_a_row = 0,
            Err(WriteFault::Interrupted) => {
                self.interruptions = self.interruptions.saturating_add(1);
                self.in_a_row = self.in_a_row.saturating_add(1);
            }
            Err(WriteFault::Failed) => {
                self.failures = self.failures.saturating_add(1);
                self.in_a_row = 0;
            }
        }
        answer
    }
}
