//! A reader of std that counts its calls, as a [`Source`].

ghost use Rattle.std.specs.Prelude.{◌≡◌};

use crate::answers::read_answer;
use crate::streams::{ReadFault, Source};
use std::io::Read;

/// A [`Source`] over any reader of std. It counts calls, interruptions and failures.
#[derive(Drop)]
pub struct CountedReader<R> {
    reader: R,
    calls: u64,
    interruptions: u64,
    failures: u64,
}

impl<R> CountedReader<R> {
    ghost use Rattle.pb_cli.specs.Counted.{counted_reader, calls_of, reader_failures};

    /// The reader, with all counts 0.
    pub fn new(reader: R) -> Self
        ensures { result ≡ counted_reader reader }
    {
        CountedReader {
            reader,
            calls: 0,
            interruptions: 0,
            failures: 0,
        }
    }

    /// How many read calls were made.
    pub fn calls(&self) -> u64
        ensures { result ≡ calls_of self.now }
    {
        self.calls
    }

    /// How many read calls failed. An interruption is no failure.
    pub fn failures(&self) -> u64
        ensures { result ≡ reader_failures self.now }
    {
        self.failures
    }
}

impl<R: Read> Source for CountedReader<R> {
    ghost view = { λ counted. record {
      remaining = R.remaining counted.reader;
      calls = counted.calls;
      interruptions = counted.interruptions;
      failures = counted.failures;
    } };

    fn read(&mut self, buffer: &mut [u8]) -> Result<usize, ReadFault> {
        self.calls = self.calls.saturating_add(1);
        let answer = read_answer(self.reader.read(buffer));
        match answer {
            Ok(_) => {}
            Err(ReadFault::Interrupted) => {
                self.interruptions = self.interruptions.saturating_add(1);
            }
            Err(ReadFault::Failed) => self.failures = self.failures.saturating_add(1),
        }
        answer
    }
}
