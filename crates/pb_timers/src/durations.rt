//! How long octets occupy the bus.

ghost use Rattle.std.specs.Prelude.{◌≡◌, ◌≤◌};
ghost use Rattle.pb_timers.specs.Timers as timers;

/// How long one character takes, in bit times: a start bit, eight data bits, a parity bit and a stop bit
/// (IEC 61158-4-3, UART characters).
pub const CHARACTER_BITS: u64 = 11;

/// How long some octets occupy the bus, in bit times, each sent as one character. The caller ensures that there are at
/// most 255 octets; no telegram is longer.
pub fn bits(octets: usize) -> u64
    requires { octets ≤ 255 }
    ensures { result ≡ timers.bits octets }
{
    CHARACTER_BITS * octets as u64
}
