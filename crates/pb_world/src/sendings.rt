//! When a telegram is on the bus, and who sends it.

ghost use Rattle.std.specs.Prelude.{◌≡◌, ◌≤◌};
ghost use Rattle.pb_timers.specs.Timers.{last_moment};

use pb_medium::Record;

/// When a telegram is on the bus, and who sends it.
#[derive(Clone, Copy, Debug)]
pub(crate) struct Sending {
    pub(crate) tap: usize,
    pub(crate) begin: u64,
    pub(crate) end: u64,
    ghost begins: { begin ≤ last_moment },
    ghost ends: { end ≤ last_moment },
}

/// When a telegram is on the bus, and who sends it.
pub(crate) fn sending_of(telegram: &Record) -> Sending
    ensures tap { result.tap ≡ telegram.now.tap }
    ensures begin { result.begin ≡ telegram.now.begin }
    ensures end { result.end ≡ telegram.now.end }
{
    Sending {
        tap: telegram.tap,
        begin: telegram.begin,
        end: telegram.end,
    }
}
