//! The codes that calls answer.

ghost use Rattle.std.specs.Prelude.{◌≡◌, MatchResult};
ghost use Rattle.pbfdl.specs.Codes.{telegram_code, param_code, port_code};

use pb_port::PortFault;
use pb_telegram::TelegramFault;
use pb_timers::ParamFault;

/// The moment of a call is before that of an earlier one.
pub(crate) const BACKWARDS: u32 = 42;

/// The handle is empty.
pub(crate) const EMPTY_HANDLE: u32 = 61;

/// The handle has a port already.
pub(crate) const HANDLE_IN_USE: u32 = 62;

/// Memory was refused.
pub(crate) const NO_MEMORY: u32 = 63;

/// An address is out of its range.
pub(crate) const BAD_STATION: u32 = 64;

/// There is no such service.
pub(crate) const BAD_SERVICE: u32 = 65;

/// Data of more than 246 octets.
pub(crate) const LONG_DATA: u32 = 66;

/// There is no such kind of telegram.
pub(crate) const BAD_KIND: u32 = 67;

/// The room for octets is too short.
pub(crate) const NO_ROOM: u32 = 68;

/// The last turn executed no such request.
pub(crate) const NO_INDICATION: u32 = 69;

/// The room of a port is not 2 to 64.
pub(crate) const BAD_ROOM: u32 = 70;

/// More than 255 characters.
pub(crate) const TOO_LONG: u32 = 44;

/// The code of a telegram's fault: its number.
pub(crate) fn telegram_code(fault: TelegramFault) -> u32
    ensures { result ≡ telegram_code fault }
{
    u32::from(fault.number())
}

/// The code of a fault of parameters: 20 more than its number.
pub(crate) fn param_code(fault: ParamFault) -> u32
    ensures { result ≡ param_code fault }
{
    20 + u32::from(fault.number())
}

/// The code of a port's fault.
pub(crate) fn port_code(fault: PortFault) -> u32
    ensures { result ≡ port_code fault }
{
    match fault {
        PortFault::TooLate => 41,
        PortFault::Backwards => 42,
        PortFault::Ahead => 43,
        PortFault::TooLong => 44,
        PortFault::InboxFull => 45,
        PortFault::QueueFull => 46,
    }
}

/// The code of what a port answers: 0 where it does what it was asked.
pub(crate) fn code_of(answer: Result<(), PortFault>) -> u32
    ensures { MatchResult answer (λ _. result ≡ 0) (λ fault. result ≡ port_code fault) }
{
    match answer {
        Ok(()) => 0,
        Err(fault) => port_code(fault),
    }
}
