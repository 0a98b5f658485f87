//! Runs, as a listener hears them.

ghost use Rattle.law_monitor.specs.Sources.{TelegramsNameTheirSpeakers};
ghost use Rattle.law_monitor.specs.Runs.{RunsRaiseNoneOfLegality, AlarmsOfLegalityProveABrokenPremise, RunsRaiseNone};
ghost use Rattle.law_monitor.specs.Timely.{RunsAreTimely, TimelyTracesRaiseNone};
ghost use Rattle.law_monitor.specs.Anywhere.{TheSameDelayIsOne, RunsRaiseNoneAnywhere, AlarmsProveABrokenPremise};

/// In every run each token and each request has its speaker's address as its source.
pub fn telegrams_name_their_speakers()
    ensures { TelegramsNameTheirSpeakers }
{}

/// Of a run that keeps the premises a listener raises no alarm of legality, so such an alarm means that a premise was
/// broken.
pub fn runs_raise_no_alarm_of_legality()
    ensures none { RunsRaiseNoneOfLegality }
    ensures broken { AlarmsOfLegalityProveABrokenPremise }
{}

/// While the premises are kept each token and each request comes in time: a claim after its time-out, any other no later
/// than a slot and the lag after the last activity, and a taken token an idle time after it, late by the lag at most.
pub fn runs_are_timely()
    ensures { RunsAreTimely }
{}

/// Of a legal and timely trace, so of a run that keeps the premises, a listener raises no alarm of any class.
pub fn runs_raise_no_alarm()
    ensures trace { TimelyTracesRaiseNone }
    ensures run { RunsRaiseNone }
{}

/// Nor does a listener anywhere on the line, which hears each station after a delay of that station's, the same or another:
/// so an alarm of any class means that a premise was broken.
pub fn runs_raise_no_alarm_anywhere()
    ensures same { TheSameDelayIsOne }
    ensures none { RunsRaiseNoneAnywhere }
    ensures broken { AlarmsProveABrokenPremise }
{}
