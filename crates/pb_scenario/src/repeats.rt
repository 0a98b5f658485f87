//! How steps repeat.

/// How a step repeats.
#[derive(Clone, Copy, Debug, PartialEq, Eq)]
pub struct Repeat {
    /// How much later it happens each time, in bit times: at least 1.
    pub every: u64,
    /// How often it happens in all; `None`: to the end.
    pub count: Option<u64>,
}
