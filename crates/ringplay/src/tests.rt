//! Tests of pb_cli's calls, over readers and writers in memory, and of exports.

mod decoding;
mod exports;
mod fleets;
mod memory;
mod monitoring;
mod scenarios;
mod settling;
mod streaming;
mod streams;
mod words;

ghost use Rattle.std.specs.Prelude.{◌≡◌, true};

use std::fmt::Debug;
use std::process::Abort;

/// Ends the test unless two values are equal. A call of its own: comparing in place makes the proof of a test take
/// three times as long.
fn equal<T: PartialEq + Debug>(rt: &impl Abort, left: &T, right: &T)
    ensures { T.eq left.now right.now ≡ true }
{
    assert_eq!(rt; *left, *right);
}
