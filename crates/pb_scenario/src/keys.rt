//! The keys, tables and paths of a scenario file.

use std::fmt;

/// A key that a scenario file may have.
#[derive(Clone, Copy, Debug, PartialEq, Eq)]
pub enum Key {
    Version,
    Until,
    Bus,
    Tap,
    Step,
    Tsl,
    Tid1,
    Tid2,
    Tsdr,
    Lag,
    Ttr,
    Gap,
    Hsa,
    Retries,
    Ttd,
    Name,
    Kind,
    Address,
    Reply,
    At,
    Do,
    Service,
    To,
    High,
    Unit,
    Speaker,
    Place,
    Bits,
    Every,
    Count,
}

impl Key {
    ghost use Rattle.std.specs.Prelude.{◌≡◌};
    ghost use Rattle.pb_scenario.specs.Keys.{key_name};

    /// The key as text.
    #[tactic(auto, unfolding(crate::specs::Keys::key_name))]
    pub fn name(self) -> &'static str
        ensures { result.now ≡ key_name self }
    {
        match self {
            Key::Version => "version",
            Key::Until => "until",
            Key::Bus => "bus",
            Key::Tap => "tap",
            Key::Step => "step",
            Key::Tsl => "tsl",
            Key::Tid1 => "tid1",
            Key::Tid2 => "tid2",
            Key::Tsdr => "tsdr",
            Key::Lag => "lag",
            Key::Ttr => "ttr",
            Key::Gap => "gap",
            Key::Hsa => "hsa",
            Key::Retries => "retries",
            Key::Ttd => "ttd",
            Key::Name => "name",
            Key::Kind => "kind",
            Key::Address => "address",
            Key::Reply => "reply",
            Key::At => "at",
            Key::Do => "do",
            Key::Service => "service",
            Key::To => "to",
            Key::High => "high",
            Key::Unit => "unit",
            Key::Speaker => "speaker",
            Key::Place => "place",
            Key::Bits => "bits",
            Key::Every => "every",
            Key::Count => "count",
        }
    }
}

impl fmt::Display for Key {
    fn fmt<W: fmt::Write>(&self, f: &mut fmt::Formatter<W>) -> fmt::Result {
        f.write_str(self.name())
    }
}

/// A table of a scenario file. Taps and steps have indices from 0.
#[derive(Clone, Copy, Debug, PartialEq, Eq)]
pub enum Section {
    /// The table of the whole file.
    Top,
    /// The bus.
    Bus,
    /// A tap.
    Tap(usize),
    /// A step.
    Step(usize),
}

impl fmt::Display for Section {
    /// As in `tap[0]`; empty for the table of the whole file.
    fn fmt<W: fmt::Write>(&self, f: &mut fmt::Formatter<W>) -> fmt::Result {
        match self {
            Section::Top => Ok(()),
            Section::Bus => f.write_str("bus"),
            Section::Tap(tap) => write!(f, "tap[{tap}]"),
            Section::Step(step) => write!(f, "step[{step}]"),
        }
    }
}

/// A position in a scenario file.
#[derive(Clone, Copy, Debug, PartialEq, Eq)]
pub enum Path {
    /// An element of the list of taps or steps.
    Item(Section),
    /// A key of a table.
    Key(Section, Key),
}

impl fmt::Display for Path {
    /// As in `until`, `bus.tsl`, `tap[0]` and `step[2].at`.
    fn fmt<W: fmt::Write>(&self, f: &mut fmt::Formatter<W>) -> fmt::Result {
        match self {
            Path::Item(section) => write!(f, "{section}"),
            Path::Key(Section::Top, key) => write!(f, "{key}"),
            Path::Key(section, key) => write!(f, "{section}.{key}"),
        }
    }
}

/// A key that a table must not have.
#[derive(Debug, PartialEq, Eq, Drop)]
pub struct UnknownKey {
    /// The table.
    pub section: Section,
    /// The key.
    pub key: String,
}

impl fmt::Display for UnknownKey {
    /// As in `foo` and `tap[0].foo`.
    fn fmt<W: fmt::Write>(&self, f: &mut fmt::Formatter<W>) -> fmt::Result {
        match self.section {
            Section::Top => write!(f, "{}", self.key),
            section => write!(f, "{section}.{}", self.key),
        }
    }
}
