//! One received character: an octet, or damage.

/// One character as a receiver took it off the bus: an octet, or damage that the receiver noticed.
#[derive(Clone, Copy, Debug, Default, PartialEq, Eq)]
pub enum RxChar {
    /// An octet whose start, parity and stop bits were right.
    Good(u8),
    /// A damaged character. Its octet is unknown.
    #[default]
    Bad,
}
