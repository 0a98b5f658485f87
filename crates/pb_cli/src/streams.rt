//! Traits for what calls read from and write to: streams that count how often they fail.

ghost use Rattle.std.specs.Prelude.{◌≡◌, ◌≤◌, ◌<◌, length, IfOk};
ghost use Rattle.std.specs.Io.KnownBytes.{ReadConsumes, WriteAppends};
ghost use Rattle.pb_cli.specs.Counts.{one_more, read_failures, read_interruptions, write_failures, write_interruptions, writes_in_a_row};
ghost use Rattle.pb_cli.specs.Streams.{SinkView, SourceView};

use thiserror::Error;

/// Why a read gave no bytes.
#[derive(Clone, Copy, Debug, PartialEq, Eq, Error)]
pub enum ReadFault {
    /// The call was interrupted, and may be tried again.
    #[error("interrupted")]
    Interrupted,
    /// The reader failed.
    #[error("read fault")]
    Failed,
}

/// Why a write took no bytes.
#[derive(Clone, Copy, Debug, PartialEq, Eq, Error)]
pub enum WriteFault {
    /// The call was interrupted, and may be tried again.
    #[error("interrupted")]
    Interrupted,
    /// The writer failed, or took none of the bytes.
    #[error("write fault")]
    Failed,
}

/// What a call reads from: a reader that counts its calls, interruptions and failures.
///
/// A count saturates at 2^64 - 1.
pub trait Source {
    // Its counts, and the bytes that reads will give.
    ghost view: { Self → SourceView };

    /// Reads some bytes into the front of `buffer`, and returns how many: 0 only at the end or if the buffer is empty.
    fn read(&mut self, buffer: &mut [u8]) -> Result<usize, ReadFault>
        ensures bound { IfOk result (λ count. count ≤ length buffer.new) }
        ensures bytes { ReadConsumes (view self.old).remaining (view self.new).remaining result buffer.new }
        ensures calls { (view self.new).calls ≡ one_more (view self.old).calls }
        ensures interruptions { (view self.new).interruptions
            ≡ read_interruptions (view self.old).interruptions result }
        ensures failures { (view self.new).failures ≡ read_failures (view self.old).failures result };
}

/// What a call writes to: a writer that counts its interruptions and failures.
///
/// A count saturates at 2^64 - 1.
pub trait Sink {
    // Its counts, and the bytes that it holds.
    ghost view: { Self → SinkView };

    /// Writes a prefix of `bytes`, and returns its length: at least one, unless `bytes` is empty.
    fn write(&mut self, bytes: &[u8]) -> Result<usize, WriteFault>
        ensures bound { IfOk result (λ count. count ≤ length bytes.now) }
        ensures some { IfOk result (λ count. 0 < length bytes.now → 0 < count) }
        ensures bytes { WriteAppends (view self.old).contents (view self.new).contents result bytes.now }
        ensures interruptions { (view self.new).interruptions
            ≡ write_interruptions (view self.old).interruptions result }
        ensures in_a_row { (view self.new).in_a_row ≡ writes_in_a_row (view self.old).in_a_row result }
        ensures failures { (view self.new).failures ≡ write_failures (view self.old).failures result };
}
