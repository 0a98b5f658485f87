//! A dump that is written piece by piece: what it is to say, and how far it is.

ghost use Rattle.std.specs.Prelude.{◌≤◌};

use crate::levels::Level;
use crate::options::{Strings, Window};

/// What a dump is to say.
#[derive(Clone, Copy, Debug)]
pub(crate) struct Dump {
    /// Which entries it shows.
    pub(crate) window: Window,
    /// How many bits a second the bus has.
    pub(crate) baud: u32,
    /// Whether it has strings.
    pub(crate) strings: Strings,
}

/// How far a dump is: what it has said of the bus, and which moments are still to be written.
#[derive(Clone, Copy, Debug)]
pub(crate) struct Waves {
    /// The level of the bus.
    pub(crate) level: Level,
    /// The index of the entry whose name the string has.
    pub(crate) named: Option<usize>,
    /// How many entries the dump has had: these are over by the next moment.
    pub(crate) gone: usize,
    /// The next moment.
    pub(crate) next: u64,
    /// The last moment, by the entries so far.
    pub(crate) last: u64,
    ghost few: { gone ≤ 1000000000000 },
}
