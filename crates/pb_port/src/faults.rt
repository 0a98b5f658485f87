//! Why a port refuses a call.

use thiserror::Error;

/// Why a port refuses a call: the first fault that applies. The port is unchanged then.
#[derive(Clone, Copy, Debug, PartialEq, Eq, Error)]
pub enum PortFault {
    /// The moment of the call is past 2^61 bit times.
    #[error("TooLate")]
    TooLate,
    /// The moment of the call is before that of an earlier call, or a mark's own moment is before that of an earlier
    /// mark, of the last turn or of the start.
    #[error("Backwards")]
    Backwards,
    /// A mark's own moment is after that of the call.
    #[error("Ahead")]
    Ahead,
    /// An end brings more than 255 characters.
    #[error("TooLong")]
    TooLong,
    /// As many marks are unread as the port has room for.
    #[error("InboxFull")]
    InboxFull,
    /// 16 requests of the priority wait.
    #[error("QueueFull")]
    QueueFull,
}
