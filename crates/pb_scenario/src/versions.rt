//! Versions of a scenario file.

ghost use Rattle.std.specs.Prelude.{◌≡◌, IfOk};
ghost use Rattle.pb_scenario.specs.Fields.{Answers};
ghost use Rattle.pb_scenario.specs.Files as files;
ghost use Rattle.pb_scenario.specs.Tables.{members};

use crate::faults::ScenarioFault;
use crate::fields::Fields;
use crate::keys::Key;
use crate::words::{is_long_name, is_name};

/// The version of a file, by what it may say about its bus.
#[derive(Clone, Copy, Debug, PartialEq, Eq)]
pub(crate) enum Version {
    /// 1: a bus without a cable delay and with at most 32 taps.
    Undelayed,
    /// 2: a bus with a cable delay and with at most 127 taps.
    Delayed,
    /// 3: as 2, for streams; steps may repeat, and names are longer.
    Repeating,
}

const UNDELAYED_KEYS: [Key; 9] = [
    Key::Tsl,
    Key::Tid1,
    Key::Tid2,
    Key::Tsdr,
    Key::Lag,
    Key::Ttr,
    Key::Gap,
    Key::Hsa,
    Key::Retries,
];

const DELAYED_KEYS: [Key; 10] = [
    Key::Tsl,
    Key::Tid1,
    Key::Tid2,
    Key::Tsdr,
    Key::Lag,
    Key::Ttr,
    Key::Gap,
    Key::Hsa,
    Key::Retries,
    Key::Ttd,
];

/// The version of a file whose steps happen once.
pub(crate) fn version_in(top: Fields<'_>) -> Result<Version, ScenarioFault>
    ensures { Answers (λ v. v) result (files.version_in top.entry.section (members top.entry)) }
{
    match top.integer(Key::Version)? {
        1 => Ok(Version::Undelayed),
        2 => Ok(Version::Delayed),
        _ => Err(ScenarioFault::BadVersion),
    }
}

/// The version of a file whose steps may repeat.
pub(crate) fn any_version_in(top: Fields<'_>) -> Result<Version, ScenarioFault>
    ensures { Answers (λ v. v) result (files.any_version_in top.entry.section (members top.entry)) }
{
    match top.integer(Key::Version)? {
        1 => Ok(Version::Undelayed),
        2 => Ok(Version::Delayed),
        3 => Ok(Version::Repeating),
        _ => Err(ScenarioFault::BadVersion),
    }
}

impl Version {
    ghost use Rattle.std.specs.Prelude.{◌≡◌};
    ghost use Rattle.pb_scenario.specs.Files.{most_taps};
    ghost use Rattle.pb_scenario.specs.Keys.{bus_keys};
    ghost use Rattle.pb_scenario.specs.Words.{is_name_in};

    /// The keys that the table of the bus has.
    pub(crate) fn bus_keys(self) -> &'static [Key]
        ensures { result.now ≡ bus_keys self }
    {
        match self {
            Version::Undelayed => &UNDELAYED_KEYS,
            Version::Delayed | Version::Repeating => &DELAYED_KEYS,
        }
    }

    /// The most taps of a bus.
    pub(crate) fn most_taps(self) -> usize
        ensures { result ≡ most_taps self }
    {
        match self {
            Version::Undelayed => 32,
            Version::Delayed | Version::Repeating => 127,
        }
    }
    /// Whether a text may be the name of a tap.
    pub(crate) fn is_name(self, text: &str) -> bool
        ensures { result ≡ is_name_in self text.now }
    {
        match self {
            Version::Undelayed | Version::Delayed => is_name(text),
            Version::Repeating => is_long_name(text),
        }
    }
}
