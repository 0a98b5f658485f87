//! Writes a whole text.

ghost use Rattle.std.specs.Prelude.{◌≡◌, ◌≢◌, ◌≤◌, ◌<◌, length, take, Err, IfOk, IfErr, OnOk, IsOk, OnErr, IfSome, IsErrOf};
ghost use Rattle.std.specs.Io.KnownBytes.{Appends, Keeps};
ghost use Rattle.pb_cli.specs.Counts.{GrowsBy};
ghost use Rattle.pb_cli.specs.Writing.{AppendsFront, IsWriteCause};

use crate::faults::CliFault;
use crate::streams::{Sink, WriteFault};

/// How many times in a row an interrupted write is tried again.
pub const RETRIES_IN_A_ROW: u32 = 1000;

/// Writes the whole text.
///
/// Fault: `Write` if the writer failed, or was interrupted `RETRIES_IN_A_ROW` + 1 times in a row. Then a prefix of the
/// text was written.
pub fn write_out<W: Sink>(writer: &mut W, text: &[u8]) -> Result<(), CliFault>
    ensures whole { OnOk result (Appends (W.view writer.old).contents (W.view writer.new).contents text.now) }
    ensures front { OnErr result
        (AppendsFront (W.view writer.old).contents (W.view writer.new).contents text.now) }
    ensures write { IfErr result (λ fault. fault ≡ CliFault.Write) }
    ensures cause { OnErr result (IsWriteCause (W.view writer.old) (W.view writer.new)) }
    ensures unfailed { OnOk result ((W.view writer.new).failures ≡ (W.view writer.old).failures) }
{
    let mut written = 0;
    while written < text.len() {
        written += write_some(writer, &text[written..])?;
    }
    Ok(())
}

/// Writes a prefix of `bytes`, which are not empty, and returns its length: at least one.
fn write_some<W: Sink>(writer: &mut W, bytes: &[u8]) -> Result<usize, CliFault>
    requires { 0 < length bytes.now }
    ensures some { IfOk result (λ count. 0 < count) }
    ensures bound { IfOk result (λ count. count ≤ length bytes.now) }
    ensures front { IfOk result
        (λ count. Appends (W.view writer.old).contents (W.view writer.new).contents (take count bytes.now)) }
    ensures nothing { OnErr result (Keeps (W.view writer.old).contents (W.view writer.new).contents) }
    ensures write { IfErr result (λ fault. fault ≡ CliFault.Write) }
    ensures cause { OnErr result (IsWriteCause (W.view writer.old) (W.view writer.new)) }
    ensures unfailed { OnOk result ((W.view writer.new).failures ≡ (W.view writer.old).failures) }
    ensures later { GrowsBy 0 (W.view writer.old).interruptions (W.view writer.new).interruptions }
{
    for _interruption in 0..RETRIES_IN_A_ROW + 1 {
        match writer.write(bytes) {
            Ok(count) => return Ok(count),
            Err(WriteFault::Interrupted) => {}
            Err(WriteFault::Failed) => return Err(CliFault::Write),
        }
    }
    Err(CliFault::Write)
}
