//! The forms of a capture and of a summary, and what a monitor is asked for.

ghost use Rattle.std.specs.Prelude.{◌≡◌};
ghost use Rattle.pb_monitor.specs.SummaryTexts.{unjudged_by, unjudged_words};

use crate::alarms::Classes;

/// The form of a capture.
#[derive(Clone, Copy, Debug, PartialEq, Eq)]
pub enum Form {
    /// Lines, a burst each.
    Lines,
    /// Octets without boundaries.
    Raw,
    /// A file of packets, pcap or pcapng.
    Pcap,
}

/// The form of a summary.
#[derive(Clone, Copy, Debug, PartialEq, Eq)]
pub enum SummaryForm {
    /// Lines for people.
    Text,
    /// One JSON object.
    Json,
    /// A table of the stations.
    Csv,
}

/// What a monitor is asked for.
#[derive(Clone, Copy, Debug, PartialEq, Eq)]
pub struct Options {
    /// The form of the capture.
    pub form: Form,
    /// Which classes of alarms are raised, as far as the form allows them.
    pub classes: Classes,
    /// A summary each time that so many bit times have passed.
    pub every: Option<u64>,
    /// A summary of this form alone, in place of a line for each burst and a summary.
    pub summary: Option<SummaryForm>,
    /// How many bits a second the bus has; without it packets have no moments.
    pub baud: Option<u32>,
    /// How wrong the difference of two moments may be, in bit times.
    pub slack: u32,
}

/// Why no telegram of a capture is judged.
#[derive(Clone, Copy, Debug, PartialEq, Eq)]
pub(crate) enum Unjudged {
    /// The parameters of the bus are not known.
    NoParameters,
    /// Octets without boundaries have no moments, and some may be missing between two telegrams.
    RawOctets,
    /// No class of alarms was chosen.
    NoClass,
    /// No burst has moments, and only classes that need them were chosen.
    NoMoments,
}

impl Unjudged {
    /// What a summary for people says in place of the number of alarms.
    pub(crate) fn words(&self) -> &'static str
        ensures { result.now ≡ unjudged_words self.now }
    {
        match self {
            Unjudged::NoParameters => "alarms not judged (no parameters)",
            Unjudged::RawOctets => "alarms not judged (raw octets)",
            Unjudged::NoClass => "alarms not judged (no class chosen)",
            Unjudged::NoMoments => "alarms not judged (no moments)",
        }
    }
}

/// Why no telegram of a capture is judged, if none is.
pub(crate) fn why_unjudged(
    is_bus_known: bool,
    form: Form,
    classes: Classes,
    has_moments: bool,
) -> Option<Unjudged>
    ensures { result ≡ unjudged_by is_bus_known form classes has_moments }
{
    if !is_bus_known {
        return Some(Unjudged::NoParameters);
    }
    match form {
        Form::Raw => Some(Unjudged::RawOctets),
        Form::Lines | Form::Pcap if classes.legality => None,
        Form::Lines | Form::Pcap if !classes.loss && !classes.timing => Some(Unjudged::NoClass),
        Form::Lines | Form::Pcap if has_moments => None,
        Form::Lines | Form::Pcap => Some(Unjudged::NoMoments),
    }
}
