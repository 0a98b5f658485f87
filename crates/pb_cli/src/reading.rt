//! Reads a whole input within limits.

ghost use Rattle.std.specs.Prelude.{◌≡◌, ◌≢◌, ◌≤◌, ◌<◌, ◌+◌, length, vec_len, Err, IfOk, IfSome, IsErrOf};
ghost use Rattle.pb_cli.specs.Reading.{byte_limit, call_limit, IsReadCause};

use crate::faults::CliFault;
use crate::streams::{ReadFault, Source};
use std::alloc::Global;

/// The most bytes that an input may have.
pub const INPUT_LIMIT: usize = 1_048_576;

/// The most read calls for one input.
pub const READ_CALLS: u32 = 2_097_152;

const BUFFER_LENGTH: usize = 4096;

/// Reads until the reader ends. An interrupted read is tried again, and counts as a call.
///
/// Faults: `Read` if the reader failed, or all `READ_CALLS` calls were made and at least half of them were interrupted;
/// `TooLong` if it has more than `INPUT_LIMIT` bytes; `NoMemory`.
pub fn read_input<R: Source>(alloc: Global, reader: &mut R) -> Result<Vec<u8>, CliFault>
    ensures whole { IfOk result (λ input.
        IfSome (R.view reader.old).remaining (λ bytes. input.items ≡ bytes)) }
    ensures fits { IfOk result (λ input. vec_len input ≤ byte_limit) }
    ensures read { IsErrOf result CliFault.Read → IsReadCause (R.view reader.old) (R.view reader.new) }
    ensures too_long { IsErrOf result CliFault.TooLong
        → IfSome (R.view reader.old).remaining (λ bytes. byte_limit < length bytes) }
    ensures unfailed { (result ≢ Err CliFault.Read)
        → (R.view reader.new).failures ≡ (R.view reader.old).failures }
    ensures calls { (R.view reader.new).calls ≤ (R.view reader.old).calls + call_limit }
    ensures no_write { result ≢ Err CliFault.Write }
{
    let mut input = Vec::new(alloc);
    let mut buffer = [0u8; BUFFER_LENGTH];
    for _call in 0..READ_CALLS {
        match reader.read(&mut buffer) {
            Ok(0) => return Ok(input),
            Ok(count) if count > INPUT_LIMIT - input.len() => return Err(CliFault::TooLong),
            Ok(count) => input.extend_from_slice(&buffer[..count])?,
            Err(ReadFault::Interrupted) => {}
            Err(ReadFault::Failed) => return Err(CliFault::Read),
        }
    }
    Err(CliFault::Read)
}
